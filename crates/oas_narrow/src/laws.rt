//! What placements by reals are translated to: the function's contract is the law, and its body is empty.
ghost use Rattle.std.specs.Prelude.{◌≡◌, ◌↔◌, ℕ, IsTrue, Option, Some};
ghost use Rattle.oas_num.specs.declared.reals.Real.{Real};
ghost use Rattle.oas_record.specs.declared.placements.Turn.TheVariants.{Degrees};
ghost use Rattle.oas_record.specs.declared.records.Record.{Record};
ghost use Rattle.oas_reader.specs.Turns.{is_one, is_quarters, turned, turns_by};
ghost use Rattle.oas_block.specs.WideReal.{WideReal};
ghost use Rattle.oas_block.specs.WideRecords.{inner_widened};
ghost use Rattle.oas_block.specs.WideRecord.TheVariants.{Profile};
ghost use Rattle.oas_narrow.specs.Placements.{IsOne, IsQuarters, magnification_of, angle_of, with_turns};

/// A record of the profile is translated to itself. A magnification is accepted exactly where the real is 1, and an angle
/// exactly where it is a whole number of quarter turns, which are those of the placement.
pub fn placements()
    ensures kept { (r : Record) → with_turns (inner_widened r) ≡ Profile r }
    ensures one { (r : WideReal) → IsTrue (is_one (Some (magnification_of r))) ↔ IsOne r }
    ensures multiple { (r : WideReal) → IsTrue (is_quarters (Some (angle_of r))) ↔ ((quarters : ℕ) × IsQuarters r quarters) }
    ensures turned { (r : WideReal) (quarters : ℕ) (m : Option Real) → IsQuarters r quarters → turned (Degrees m (Some (angle_of r))) ≡ turns_by r.negative quarters }
{}

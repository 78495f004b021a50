//! The laws of the grammar. Each function's contract is a law, and its body is empty.
ghost use Rattle.std.specs.Prelude.{◌≡◌, ◌≢◌, ◌++◌, ◌∷◌, [], Bool, List, ℕ};
ghost use Rattle.oas_num.specs.Grammar.{PrefixFree};
ghost use Rattle.oas_num.specs.Begun.{HasSome};
ghost use Rattle.oas_num.specs.Combinators.{OneSpelling, IsWithin};
ghost use Rattle.oas_num.specs.Style.{Style, Any, Shortest};
ghost use Rattle.oas_num.specs.Integers.{IsUnsigned};
ghost use Rattle.oas_num.specs.declared.refusals.Why.{Why};
ghost use Rattle.oas_num.specs.declared.refusals.Why.TheVariants as why;
ghost use Rattle.oas_record.specs.Circles.{IsCircleInfo};
ghost use Rattle.oas_record.specs.Heads.{head_in, StartTook};
ghost use Rattle.oas_record.specs.Records.{record_in, records_in};
ghost use Rattle.oas_record.specs.Refusals.{HasRecord, IsKnown, IsRefusedId, RecordTook};
ghost use Rattle.oas_record.specs.declared.records.Record.{Record};

/// The head of a file. In the shortest style the unit is in lowest terms, the flag and the table-offsets are zeros (own
/// rule). There is one.
pub fn heads()
    ensures front { (style : Style) → PrefixFree (head_in style) }
    ensures one { OneSpelling (head_in Shortest) }
    ensures within { IsWithin (head_in Shortest) (head_in Any) }
    ensures some { HasSome (head_in Any) }
{}

/// Records: none is a prefix of another. In the shortest style there are CELL by name, elements with all their fields and no
/// repetition, and END with zeros in its padding (own rule). There is a record for each id of the profile, and END is 256
/// bytes wherever the table-offsets are.
pub fn records()
    ensures front { (style : Style) (in_end : Bool) → PrefixFree (record_in style in_end) }
    ensures one { (in_end : Bool) → OneSpelling (record_in Shortest in_end) }
    ensures within { (in_end : Bool) → IsWithin (record_in Shortest in_end) (record_in Any in_end) }
    ensures some { (in_end : Bool) (id : ℕ) → IsKnown id → HasRecord in_end id }
{}

/// What follows START: records and END. No such bytes are a prefix of others, and in the shortest style a list has one
/// spelling.
pub fn lists()
    ensures front { (style : Style) (in_end : Bool) → PrefixFree (records_in style in_end) }
    ensures one { (in_end : Bool) → OneSpelling (records_in Shortest in_end) }
    ensures within { (in_end : Bool) → IsWithin (records_in Shortest in_end) (records_in Any in_end) }
{}

/// A byte list has at most one list of records.
pub fn one_list()
    ensures { (style : Style) (in_end : Bool) (rs ss : List Record) (r s : Record) (bytes : List ℕ) → records_in style in_end (rs, r) bytes →
        records_in style in_end (ss, s) bytes → (rs ≡ ss) × (r ≡ s) }
{}

/// Bytes leave one reason: a first id that isn't START's, an id that no record has, and an info byte that its kind doesn't
/// allow are refused as such.
pub fn reasons()
    ensures first { (id : ℕ) (bytes : List ℕ) (reason : Why) → IsUnsigned id bytes → id ≢ 1 → StartTook reason bytes → reason ≡ why.OutOfPlace id }
    ensures ids { (in_end : Bool) (id : ℕ) (bytes : List ℕ) (reason : Why) → IsUnsigned id bytes → ¬ IsKnown id → RecordTook in_end reason bytes → IsRefusedId id reason }
    ensures circles { (in_end : Bool) (id : List ℕ) (info : ℕ) (reason : Why) → IsUnsigned 27 id → ¬ IsCircleInfo info → RecordTook in_end reason (id ++ info ∷ []) → reason ≡ why.InfoByte }
{}

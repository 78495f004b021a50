//! What the definitions say. Each function's contract is a law, and its body is empty.
ghost use Rattle.std.specs.Prelude.{◌≡◌, List, [], ◌∷◌, ◌++◌, reverse, ℕ, ℤ, Bool, ◌+◌, ◌<◌, Option, None, Some};
ghost use Rattle.oas_shape.specs.declared.repetitions.Repetition.{Repetition};
ghost use Rattle.oas_shape.specs.Polylines.{Polyline};
ghost use Rattle.oas_shape.specs.Places.{ArePlaces};
ghost use Rattle.oas_record.specs.declared.references.CellRef.{CellRef};
ghost use Rattle.oas_record.specs.declared.references.TextRef.{TextRef};
ghost use Rattle.oas_record.specs.declared.records.Record.{Record as OneRecord};
ghost use Rattle.std.specs.Option.{option_to_list};
ghost use Rattle.oas_num.specs.declared.refusals.Why.{Why};
ghost use Rattle.oas_elements.specs.declared.limits.Limits.{Limits};
ghost use Rattle.oas_drawing.specs.declared.kinds.Kind.{Kind};
ghost use Rattle.oas_drawing.specs.Drawing.{kind_of, repeats, number_if, offset_if, places_if, first_offsets, drawn_by, drawn_at, copies_at, elements_at};
ghost use Rattle.oas_drawing.specs.Reasons.{fault_of, kind_reason, draw_reason};
ghost use Rattle.oas_drawing.specs.Modal.{ModalState, modal_of, stepped};
ghost use Rattle.oas_drawing.specs.Latest.{FindsLatest};
ghost use Rattle.std.specs.Cmp.{IsTotalOrder};
ghost use Rattle.std.specs.declared.cmp.Ordering.TheVariants.{Equal};
ghost use Rattle.oas_drawing.specs.declared.drawn.Drawn.{Drawn};
ghost use Rattle.oas_drawing.specs.Drawn.{drawn_cmp};
ghost use Rattle.oas_drawing.specs.Laws.DrawnLaws.{derived_cmp};

/// How one more record changes the modal variables. The records are listed oldest first.
pub fn one_more_record()
    ensures { (rs : List OneRecord) (r : OneRecord) → modal_of (reverse (rs ++ r ∷ [])) ≡ stepped (modal_of (reverse rs)) r }
{}

/// A variable's value is what the latest record gave, with no CELL since. There is a clause for each type of value.
pub fn value_is_latest()
    ensures numbers { FindsLatest ℕ }
    ensures lengths { FindsLatest ℤ }
    ensures modes { FindsLatest Bool }
    ensures cells { FindsLatest CellRef }
    ensures strings { FindsLatest TextRef }
    ensures point_lists { FindsLatest Polyline }
    ensures repetitions { FindsLatest Repetition }
{}

/// What records draw is compared as `drawn_cmp` says, which is a total order in which no two tie.
pub fn drawn_order()
    ensures stated { (a b : Drawn) → derived_cmp a b ≡ drawn_cmp a b }
    ensures total { IsTotalOrder drawn_cmp }
    ensures exact { (a b : Drawn) → drawn_cmp a b ≡ Equal → a ≡ b }
{}

/// An element record is refused copy by copy: first for all except the places of its copies, then for the place of one of
/// them.
pub fn refused_copy_by_copy()
    ensures before { (limits : Limits) (count weight : ℕ) (m : ModalState) (r : OneRecord) (kind : Kind) (why : Why) → kind_of r ≡ Some kind →
        kind_reason limits count weight m kind (repeats r) ≡ Some why → draw_reason limits count weight m r ≡ Some why }
    ensures copy { (limits : Limits) (count weight : ℕ) (m : ModalState) (r : OneRecord) (kind : Kind) (i : ℕ) (why : Why) → kind_of r ≡ Some kind →
        kind_reason limits count weight m kind (repeats r) ≡ None → i < number_if (repeats r) m.repetition →
        fault_of (drawn_by m kind (offset_if (repeats r) m.repetition i)) ≡ Some why → draw_reason limits count weight m r ≡ Some why }
    ensures none { (limits : Limits) (count weight : ℕ) (m : ModalState) (r : OneRecord) (kind : Kind) → kind_of r ≡ Some kind →
        kind_reason limits count weight m kind (repeats r) ≡ None →
        ((i : ℕ) → i < number_if (repeats r) m.repetition → fault_of (drawn_by m kind (offset_if (repeats r) m.repetition i)) ≡ None) → draw_reason limits count weight m r ≡ None }
{}

/// The elements of a record are those of its copies, one after another.
pub fn one_more_copy()
    ensures none { (m : ModalState) (r : OneRecord) → copies_at m r (first_offsets m r 0) ≡ [] }
    ensures more { (m : ModalState) (r : OneRecord) (n : ℕ) → copies_at m r (first_offsets m r (n + 1)) ≡ copies_at m r (first_offsets m r n)
        ++ option_to_list (drawn_at m r (offset_if (repeats r) m.repetition n)) }
    ensures all { (r : OneRecord) (before : List OneRecord) → elements_at r before
        ≡ copies_at (modal_of (r ∷ before)) r (first_offsets (modal_of (r ∷ before)) r (number_if (repeats r) (modal_of (r ∷ before)).repetition)) }
{}

/// The copies of a record are on its places, equally many on each.
pub fn copies_on_places()
    ensures { (repeated : Bool) (modal : Option Repetition) → ArePlaces (number_if repeated modal) (offset_if repeated modal) (places_if repeated modal) }
{}

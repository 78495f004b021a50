//! The laws of point lists and repetitions. Each function's contract is a law, and its body is empty.
ghost use Rattle.std.specs.Prelude.{◌≡◌, ◌+◌, ℕ, Bool, Option, List, length};
ghost use Rattle.oas_num.specs.declared.deltas.GDelta.{GDelta};
ghost use Rattle.oas_num.specs.Begun.{HasSome};
ghost use Rattle.oas_num.specs.Grammar.{PrefixFree};
ghost use Rattle.oas_num.specs.Combinators.{OneSpelling, IsWithin};
ghost use Rattle.oas_num.specs.Style.{Style, Any, Shortest};
ghost use Rattle.oas_shape.specs.declared.list_use.ListUse.{ListUse};
ghost use Rattle.oas_shape.specs.PointLists.{point_list_in};
ghost use Rattle.oas_shape.specs.declared.offsets.Along.{Along};
ghost use Rattle.oas_shape.specs.OffsetLists.{AreOffsets};
ghost use Rattle.oas_shape.specs.declared.repetitions.Repetition.{Repetition};
ghost use Rattle.oas_shape.specs.Places.{PlacesOf};
ghost use Rattle.oas_shape.specs.Repetitions.{rep_field_in, after_dim};

/// Point lists. In the shortest style one has type 4, with g-deltas in their shortest spelling (own rule).
pub fn point_lists()
    ensures front { (style : Style) (purpose : ListUse) → PrefixFree (point_list_in style purpose) }
    ensures one { (purpose : ListUse) → OneSpelling (point_list_in Shortest purpose) }
    ensures within { (purpose : ListUse) → IsWithin (point_list_in Shortest purpose) (point_list_in Any purpose) }
    ensures some { (purpose : ListUse) → HasSome (point_list_in Any purpose) }
{}

/// Repetition fields. In the shortest style there is none (own rule): a canonical file gives each copy by itself.
pub fn rep_fields()
    ensures front { (style : Style) → PrefixFree (rep_field_in style) }
    ensures one { OneSpelling (rep_field_in Shortest) }
    ensures within { IsWithin (rep_field_in Shortest) (rep_field_in Any) }
    ensures some { HasSome (rep_field_in Any) }
{}

/// The types of repetition that list their displacements (4 to 7, 10 and 11): a dimension of d means d + 2 offsets, the first
/// of which is (0, 0).
pub fn listed_offsets()
    ensures count { (along : Along) (has_grid : Bool) (dim : ℕ) (grid : Option ℕ) (offsets : List GDelta) (bytes : List ℕ) →
        after_dim along has_grid dim (grid, offsets) bytes → length offsets ≡ dim + 2 }
    ensures first { (along : Along) (has_grid : Bool) (dim : ℕ) (grid : Option ℕ) (offsets : List GDelta) (bytes : List ℕ) → after_dim along has_grid dim (grid, offsets) bytes → AreOffsets offsets }
{}

/// The copies of a repetition are on its places, equally many on each.
pub fn copies_on_places()
    ensures { (repetition : Repetition) → PlacesOf repetition }
{}

//! The two tables of the standard that expand: point lists and repetitions.
//!
//! What this crate promises to the crates above it:
//!
//! - [`PointList::read`] and [`RepField::read`] take exactly a spelling of what they return. Or they fail in a field that
//!   goes wrong, with each field before it whole. They fail with a reason of format only where no spelling is a prefix of the
//!   bytes that come next. The contract is oas_num's `ReadsPiece`, over the grammars and tables `point_list_in` and
//!   `PointListTook` (specs/PointLists.antt), `rep_field_in` and `RepFieldTook` (specs/Repetitions.antt). No spelling of
//!   either is a prefix of another, and none spells two values. In the shortest style a point list has one spelling, and a
//!   repetition none ([`laws`]).
//! - [`PointList::vertices`] returns every vertex of the table's sum, `vertices_of` (specs/Polylines.antt), or fails where
//!   one of them exceeds the limit of coordinates. [`PointList::is_in_range`] says whether none does, without memory, and
//!   [`PointList::len`] is their number.
//! - [`Repetition::count`] and [`Repetition::offset`] are the table's, `count_of` and `offset_of` (specs/Offsets.antt). There
//!   are at least two listed offsets, and the first is (0, 0).
//! - [`Repetition::places`] returns the places of the copies, `places_of` (specs/Places.antt), with equally many copies on
//!   each ([`laws::copies_on_places`]). So copies along a step of zero are counted, and never visited one by one.
//!
//! A read fails out of memory only at a delta or a displacement that was read, never because of a type, a dimension or a
//! count. An offset allocates nothing.
//!
//! # How it is built
//!
//! oas_shape uses oas_num and oas_ring. What it promises to the crates above: the grammars `point_list_in : Style → ListUse →
//! Polyline → bytes` and `rep_field_in : Style → RepField → bytes` with their laws (specs/Laws/PointListLaws.antt,
//! specs/Laws/RepetitionLaws.antt: no spelling is a prefix of another, and there are some, after each type too), the tables
//! of refusals `PointListTook` and `RepFieldTook`, `vertices_of` and `left_out` (specs/Polylines.antt), `count_of` and
//! `offset_of` (specs/Offsets.antt), and the places of copies, `places_of` (specs/Places.antt).
//!
//! - Contracts see a `PointList` as a `Polyline`: its deltas as steps, whether they run (type 5), and which vertex is left
//!   out (polygons of types 0 and 1). They see a `Repetition` as it is, with its listed offsets as a list. The invariant of
//!   `OffsetList` says that this list has at least two offsets and begins with (0, 0) (`AreOffsets`).
//! - `src/`: `list_use` (polygon or path, which counts fit), `steps` (the deltas of the six types, read as steps),
//!   `point_list`, `vertices`, `in_range` (whether vertices exceed the limits), `displacements` (a step of 128 bits),
//!   `repetitions` (the twelve types), `offset_list` (the listed offsets of a repetition, with their invariant), `offsets`
//!   (listed displacements summed as they are read; count and offset), `laws`.
//! - src/places.rt: a repetition as places with equally many copies on each, so that copies along a step of zero are counted
//!   by multiplication. The law (`ArePlaces`, specs/Laws/PlaceLaws.antt) is about sums: whatever each offset counts for, all
//!   copies together count for what the places do, times the copies on each. What crates above need of a list of copies are
//!   such sums, and that each copy is within the grid, which is such a sum too (`fit_all`, oas_reader,
//!   proofs/CopyLemmas.antt).
//! - The proof of a read is a chain of `Halfway` (its links in proofs/PointListLemmas and proofs/RepetitionLemmas), one line
//!   for each exit. Lists are read under `Listed`; `Alternated` adds the axis of 1-deltas, `Summed` the sums so far. A sum
//!   that exceeds the limit is a refusal by format, since every spelling that begins with these displacements has that sum
//!   (`next_expected`, proofs/OffsetLemmas).
//! - Where the reason depends on more than the last bytes (a count and the items after it, the displacements of a sum), the
//!   private reads fail as one piece (`FailsPiece`): the condition is on all bytes that were taken, as in `AreOffsetsSoFar`.
//!   `second_fails` (proofs/ReadingLemmas) puts the fields before them, and `from_piece` makes it the failure of the whole.
//! - `vertices` walks with one displacement (`Walked`): the points so far and those of the rest are together the list of the
//!   definition, so no index is needed. It stops at the first vertex that exceeds the limits, so the running displacement
//!   never grows too large. `is_in_range` takes the same steps, and only its proof has the points (`Stays`,
//!   proofs/RangeLemmas).
#![tactic(auto)]

mod displacements;
mod in_range;
pub mod laws;
mod list_use;
mod offset_list;
mod offsets;
mod places;
mod plain_lists;
mod point_list;
mod repetitions;
mod steps;
mod vertices;

pub use list_use::ListUse;
pub use offset_list::OffsetList;
pub use places::Places;
pub use point_list::{Closing, PointList};
pub use repetitions::{RepField, Repetition};

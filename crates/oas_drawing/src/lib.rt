//! What an element record draws: the modal variables, and with them the elements of a record.
//!
//! What this crate promises to the crates above it:
//!
//! - The value of a variable after some records is defined by looking back over them to the CELL: it is what the latest
//!   record gave (`latest`, specs/Looking.antt), by the tables of specs/Values.antt. A position is the latest coordinate in
//!   absolute mode plus what later records give in relative mode (`position`, specs/Positions.antt). `modal_of`
//!   (specs/Modal.antt) has all of them.
//! - [`ModalVariables`] changes with each record as `stepped` (specs/Modal.antt) says, so that it is `modal_of` of the
//!   records so far ([`laws::one_more_record`]), provided that the positions are within the limits before the record. No
//!   change allocates, and none fails, except that to a name at hand, which may be out of memory.
//! - What an element record draws is defined over the variables after it: `drawn_at` and `elements_at` (specs/Drawing.antt),
//!   and why it is refused, `draw_reason` (specs/Reasons.antt). [`ModalVariables::copies`] and [`ModalVariables::copy`]
//!   compute these, copy by copy; the cell or the string of a [`Drawn`] element may still be a number.
//!   [`ModalVariables::one_rectangle`] does both at once for a rectangle without a repetition.
//!   [`ModalVariables::tally`] says what a copy counts for, its weight and its number ([`Tally`], specs/Tallies.antt), without
//!   drawing it: it is refused as `copy` refuses it, and needs no memory.
//! - For a placement or a text at hand [`ModalVariables::set_fields`] sets all except its name.
//!   [`ModalVariables::check_named`] then says why it is refused, using the name that it gives, before that name is the modal
//!   one: so whatever refuses it comes before out of memory. [`ModalVariables::set_name`] makes its name the modal one, and
//!   [`ModalVariables::one_named`] draws it with the modal name itself, without a copy.
//! - [`Drawn`] elements are ordered, and no two tie (`drawn_cmp`, specs/Drawn.antt).
//! - [`laws`], from the definitions alone: how one more record changes the variables; what looking back finds; a record is
//!   refused copy by copy; and its elements are those of its copies.
//!
//! # How it is built
//!
//! oas_drawing uses oas_num, oas_ring, oas_shape, oas_record and oas_elements. What it promises to the crates above: after any
//! records the modal variables are those of the definitions; and what a record draws, or why it is refused, depends on the
//! variables after it.
//!
//! - specs/Looking.antt: `latest` and `sum_since`, over the records newest first, so that looking back is plain recursion.
//!   What a record `gives` may depend on what comes before it: a square gives a width that may be an earlier record's, a
//!   path's extension a half-width that may be. GivenFields.antt has the one match on kinds of records (`given_fields`),
//!   Values.antt which variables its fields give, Positions.antt the positions of the three classes, Modal.antt all variables
//!   in one record (`modal_of`) and what one more record does to it (`stepped`). Latest.antt says in words what `latest`
//!   finds.
//! - src/modal.rt: `ModalVariables`, seen as such a record, with a method for each kind of record; positions.rt; laws.rt.
//! - The step law names no kind: the variables after a record depend on whether it is a CELL and on what it gives
//!   (`after_one`, proofs/Steps.antt). This computes for the fields that look back, and is one lemma on sums (`landed`) for
//!   positions. Positions have 128 bits, so one more step from within the limits can't overflow them; whether the new one is
//!   within is checked with the record's copies.
//! - specs/Drawing.antt: what a record draws at an offset, and at all of its offsets; Turns.antt its turn; Reasons.antt why
//!   it is refused. A kind has a file of its own in src/kinds (circles.rt): what its record sets, what its element weighs,
//!   and the element at an offset; src/modal/drawing.rt has the points within the grid that these share. src/kinds.rt has
//!   each match on kinds, to which those files are branches, what of a record no variable keeps, and what all geometry
//!   gives ([`Geometry`], [`with_geometry`]: a record that gives other values for it). proofs/AllKinds.antt says of any kind,
//!   by the cases of `kind_at`, that its element weighs as much wherever it stands, and so is defined at each point or at
//!   none. Where memory may run out depends on the element that is drawn, not on the kind of its record (`MayRunOut`,
//!   Reasons.antt).
//!   src/modal/checking.rt: `copies`, all that can be decided before a copy is made. src/modal/copying.rt: `places`,
//!   where they stand, `copy`, one of them, and `tally`, what it counts for: of a polygon or a path its vertices are only
//!   looked at, and of a placement or a text no name is copied. src/kinds/rectangles.rt has besides `one_rectangle`, what
//!   these come to for a rectangle that stands once, as often most records of a file are, in one look at four variables and
//!   the position; named.rt: the same of a placement or a text, in four steps: its fields are set (`set_fields`), it is
//!   judged by the name that it gives (`check_named`), that becomes the modal one in the memory of the one before
//!   (`set_name`), and it is drawn with the name where it stands (`one_named`; `DrawnOnce`, src/once.rt). So out of memory
//!   for a name comes after all that refuses the record. proofs/Copies.antt joins them to the list.
//! - src/drawn.rt, specs/Drawn.antt, DrawnLaws.antt: what a record gives at one place, and its order: that of elements,
//!   extended to numbers. src/tally.rt: what it counts for.
#![tactic(auto)]

mod drawn;
mod kinds;
pub mod laws;
mod modal;
mod once;
mod positions;
mod tally;
mod turning;

pub use drawn::Drawn;
pub use kinds::{Geometry, Kind, is_geometry, repeats, take_repetition, with_geometry};
pub use modal::ModalVariables;
pub use once::DrawnOnce;
pub use positions::Position;
pub use tally::{Tally, UsedNumber};

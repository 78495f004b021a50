//! The canonical form of a layout, put into a sink or written, from the keys of its elements.
//!
//! What this crate promises to the crates above it:
//!
//! - [`put_canonical`] puts the canonical bytes of a layout (`canonical_bytes` of oas_form) into a sink, and returns how many
//!   they are; after a fault a prefix of them was put (`Counts`). [`write_canonical`] writes exactly these bytes to a writer.
//!   It fails only with `Why::Write`, after a prefix of them that is as long as its place says (`IsWritten`, `IsCutOff`,
//!   oas_num's specs/Written.antt). The contracts of both say that these bytes are a canonical form within the layout's limits,
//!   mean the layout, and are bounded by its weight.
//! - [`put_cell_alone`] puts the canonical bytes of a unit and one cell alone (`alone`, specs/Alone.antt). Where a layout has
//!   that unit and that cell (`HasCell`) they are a canonical form too, and mean the cell alone.
//! - [`has_canonical_bytes`] says whether bytes are those of a layout.
//!
//! None of them allocates.
//!
//! # How it is built
//!
//! - A layout's cells and elements come in order, each element with its count, so nothing is sorted. Each is read from the keys as
//!   it is asked for. src/cells.rt, elements.rt and points.rt put them by the parts of a writer of oas_form. Of 8 or more
//!   equal elements (copies.rt) the record is made once, in a sink of 4 KiB on the stack (batches.rt). It is doubled there, and
//!   put by as many copies at once as fit.
//! - The proofs carry oas_form's record `PutSoFar whole left`: a prefix of the whole was put and counted, and this is left. It is
//!   in the invariants of the loops over points (proofs/PointLemmas.antt), over equal elements and the elements of a cell
//!   (ElementLemmas.antt), and over cells (CellLemmas.antt). The points of a polygon or a path are read from the key once to be
//!   counted, and once to be put as steps. Copies are one record's bytes many times in a row (std's `repeat`,
//!   RepeatLemmas.antt), wherever they are cut.
//! - By oas_form what is written for a layout is its canonical form (proofs/LayoutForms.antt). A cell alone is a layout too
//!   (AloneLemmas.antt), so the same holds for it.
//! - src/matching.rt puts the canonical bytes into oas_form's sink that compares, which fails at the first byte that differs.
#![tactic(auto)]

mod alone;
mod batches;
mod cells;
mod copies;
mod elements;
mod matching;
mod points;
mod writing;

// The crates below, for those above.
pub use alone::put_cell_alone;
pub use matching::has_canonical_bytes;
pub use oas_listing::{
    ByProfileOne, ByProfileTwo, CellStore, Cells, CompactCell, CountedCell, Draft, Elements,
    FormJudge, KeptBy, KeyedElement, Layout, Reader, Refused, Room, ShownElement, ShownPoints,
    file_laws, find_end_of_input, find_record, finish_layout, form_laws, is_end, is_head,
    put_listing, read_layout, show, take_record, write_listing,
};
pub use writing::{put_canonical, write_canonical};

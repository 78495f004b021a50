//! The grammar of the file: its head, each record, and its end.
//!
//! What this crate promises to the crates above it:
//!
//! - [`read_head`] takes exactly a spelling of the head of a file: the magic and START. The contract is `ReadsHead`
//!   (specs/Heads.antt): a refusal has place 0 for the magic, and 13 for START. For START the table covers all bytes that
//!   were taken, part by part (`StartTook`): what comes before the part that goes wrong is whole, and that part has its own
//!   table.
//! - [`Record::read`] takes exactly a spelling of the record that it returns, or fails at the record's first byte. The
//!   contract is `ReadsAt` (specs/Refusals.antt) over `record_in` (specs/Records.antt) and the table `RecordTook`, of all
//!   bytes that were taken: the id goes wrong, or there is an id and what follows this id goes wrong, by its info byte and
//!   field by field. It fails with a reason of format only where no record's spelling is a prefix of the bytes that come
//!   next.
//! - [`is_known`] says which ids there are: those of the table (`is_known`, specs/Refusals.antt).
//! - For an id that no record has, and for a circle's info byte, the tables leave one reason ([`laws::reasons`]).
//! - A byte list has at most one list of records, and no record's spelling is a prefix of another's ([`laws`]).
//! - The grammar is written over a `Style`: any spelling that the standard allows, or the canonical one, in which each record
//!   has one. A canonical record gives all its fields, and no repetition.
//!
//! A record with an info byte and fields has one file in src/ and one in specs/ for each kind. What several kinds share is
//! written once: layer and datatype, x and y and repetition, cells and strings by number or by name.
//!
//! # How it is built
//!
//! - One file for each kind in src/ (placements, texts, rectangles, polygons, paths, circles, name_records, ends, heads), and
//!   one with the same name in specs/ with its grammar. records.rt dispatches by id; references.rt (cell or string, by number
//!   or by itself) and spots.rt (layer and datatype; x, y and repetition) are shared.
//! - A kind of record is one tree (`Kind`, specs/Kinds.antt and Trees.antt). It says how the kind is spelled in any style and
//!   in the shortest, where a read goes wrong (`took`), and its laws: no spelling is a prefix of another; it is decidable
//!   whether there is one at a place (specs/Found.antt); there is one shortest spelling, which is one of the standard's;
//!   there is some spelling; and no read fails with a fault of writing. The combinators (`pair`, `there`, `image`, `such`,
//!   `items`, `either`) build all of these together, so the grammar of a new kind is its tree of about ten lines and a row of
//!   `table` (specs/Records.antt), which says how a record is spelled by its id. CONTRIBUTING.md, "A kind of record that
//!   draws an element", says where else a kind is matched. `circle_in style` and `CircleTook` are parts of the tree `circle_kind`. In
//!   the shortest style a kind has the info byte that gives all its fields and no repetition; kinds that no canonical file
//!   has have no spelling there (`image_any`). END has a shortest spelling of its own (`shortest_as`). The magic and START
//!   are written out (specs/Heads.antt, HeadLaws.antt).
//! - A failed read says in which field the bytes go wrong: `PairTook` for a pair, `ThereTook` for an optional field,
//!   `SuchTook` for a value that is read whole and refused. `IdTook`, `AfterTook` and `RecordTook` (specs/Refusals.antt) join
//!   the kinds by the id; END's length is checked after its parts.
//! - The answers of a kind are the list of its fields: an info byte (proofs/InfoLemmas.antt), then `▸` for each field that
//!   was read, then `fails_at` or `is_read` (oas_num, proofs/HalfwayLemmas.antt). IdLemmas.antt: which ids there are, by
//!   induction over the rows of the table, and the id of a record. AfterLemmas.antt: what follows each id. RecordLemmas.antt: the whole record, and END's length.
//!   SomeLemmas.antt: a record of each id. ReasonLemmas.antt: laws of the tables alone.
#![tactic(auto)]

mod circles;
mod ends;
mod heads;
pub mod laws;
mod name_records;
mod passing;
mod paths;
mod placements;
mod polygons;
mod records;
mod rectangles;
mod references;
mod spots;
mod texts;

pub use circles::Circle;
pub use ends::pass_offsets_if;
pub use heads::{Head, read_head, read_magic, read_version};
pub use paths::{Extension, Extensions, Path};
pub use placements::{Placement, Turn};
pub use polygons::Polygon;
pub use records::{Record, is_known};
pub use rectangles::Rectangle;
pub use references::{CellRef, TextRef};
pub use spots::{Spot, read_layers, read_spot};
pub use texts::Text;

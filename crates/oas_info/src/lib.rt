//! What the command `info` reports about a layout (own rule).
//!
//! ```text
//! unit NUM/DEN
//! cells N
//! undefined N NAME ..
//! unplaced N NAME ..
//! elements N
//! placements N, texts N, rectangles N, polygons N, paths N, circles N   (a line each)
//! layer LAYER DATATYPE N
//! textlayer TEXTLAYER TEXTTYPE N
//! weight N
//! size N
//! ```
//!
//! What this crate promises to the crates above it:
//!
//! - [`facts_of`] returns the facts of the layout (`AreFacts`, specs/Facts.antt): its unit, the numbers of cells and elements,
//!   the weight; each group (a kind or a layer) that an element is in, ascending, with the number of its elements
//!   (`AreCounts`, specs/Groups.antt); and the names that are placed but not defined, and those that are defined but not
//!   placed, each once and ascending (`AreNames`, specs/Names.antt). Equal elements are each counted, though a layout holds
//!   them once.
//! - [`info_of`] returns the facts, and how many bytes the canonical form of the layout has (`IsInfo`, specs/Info.antt).
//! - [`text_of`] returns these as text, whose last line has no end yet (`info_text`, specs/Text.antt), [`json_of`] as the text
//!   of a JSON object (`info_json`, specs/Json.antt), and [`text_in`] one or the other.
//!
//! Each of them may run out of memory.
//!
//! # How it is built
//!
//! oas_info stands on oas_layout and oas_writing, and uses `itoa` and `serde_json`.
//!
//! - specs/Groups.antt: a group is a kind or a layer; which groups an element is in; how many elements are in a group, as a
//!   sum over cells. src/counting.rt goes over the distinct elements once. Of each it reads from the key what it is counted
//!   by, so no memory is wanted for it, and adds that to an ordered map from groups to numbers and to two sums. The proof is
//!   pointwise (proofs/CountingLemmas.antt): for each group, its number and what is left give the whole, and so do the sums;
//!   `Left` says it once for elements and cells. No number exceeds 2^64, since no element is in more than two groups.
//! - specs/Names.antt: whether a name is placed, whether it is a cell's, and which ascending list has just the names with some
//!   property (`AreNames`). src/names.rt has an ordered set of the names that are placed and one of those that are defined;
//!   their differences are std's. Placements are the first elements of a cell, and those of one cell follow one another: so it
//!   looks at no other element but the one after them, and takes a name only where it differs from that before. The proof
//!   (proofs/NameLemmas.antt) is pointwise too: for each name, whether it is in the set or among what is left.
//! - The size is that of the canonical bytes, put into a `Counter`, which can't fail.
//! - specs/Text.antt: the text, a piece for each line, each after the end of the line before. src/text.rt puts the pieces into
//!   memory one after another (proofs/TextLemmas.antt: what was put, and what is left, are the whole).
//! - specs/Json.antt: the object, as a value of serde_json's definitions, whose text is theirs (`compact_text`, which is
//!   promised for a value without floats: proofs/JsonLemmas.antt shows that there is none). A name is printable, so its bytes
//!   are UTF-8. src/json.rt makes a value of each part, and `json!` the whole.
#![tactic(auto)]

mod counting;
mod facts;
mod form;
mod group;
mod info;
mod json;
mod names;
mod text;
mod totals;

// The crates below, for those above.
pub use facts::{Facts, facts_of};
pub use form::{Form, text_in};
pub use group::Group;
pub use info::{Info, info_of};
pub use json::json_of;
pub use text::text_of;

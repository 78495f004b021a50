//! The entries of a difference: what is written of a unit, of a cell and of an element that differs.
//!
//! What this crate promises to the crates above it: [`put_unit_entry`], [`put_cell_entry`], [`put_place_entry`],
//! [`put_element_entry`] and [`put_brief_entry`] put an entry into any sink, a line or a JSON object in a line, with its lengths in
//! grid steps or in microns (specs/Entries.antt). An element is given as it is shown from its key, and nothing of it is copied.
//! [`put_length`] and [`put_microns`] put grid steps as a decimal number of microns (specs/Microns.antt). They allocate nothing.
//! [`kind_name`] is the word for an element's kind, and [`layer_of`] the layer that it is on.
//!
//! # How it is built
//!
//! specs/Fields.antt: fields by name, as words or as members of an object; specs/Entries.antt: the entries, of such fields.
//! src/entries.rt and brief.rt put entries, kinds.rt the fields of each kind of element, fields.rt a field, json.rt a string, and
//! microns.rt a number of microns. The points of an element are its last field, and are put one by one as they are read.
//! Each function has the contract `Writes`, and its proof says at each exit what was put and what is left (`PutSoFar`, oas_num);
//! proofs/EntryLemmas.antt has the parts of each entry, proofs/MicronLemmas.antt the digits of a fraction.
#![tactic(auto)]

mod brief;
mod entries;
mod fields;
mod json;
mod kinds;
mod microns;

pub use brief::{Excess, put_brief_entry};
pub use entries::{put_cell_entry, put_element_entry, put_place_entry, put_unit_entry};
pub use kinds::{kind_name, layer_of};
pub use microns::{put_length, put_microns};
pub use oas_diff_options::{Format, Measure, Syntax};
pub use oas_listing::{Cells, Elements, KeyedElement, Layout, ShownElement, ShownPoints, show};
// The crates below, for those above.

//! The listing of a layout: the text that the command `show` prints (own rule).
//!
//! ```text
//! unit NUM/DEN
//! cell NAME
//! placement CELL X Y TURNS FLIP
//! text TEXTLAYER TEXTTYPE X Y STRING
//! rectangle LAYER DATATYPE WIDTH HEIGHT X Y
//! polygon LAYER DATATYPE X,Y X,Y ..
//! path LAYER DATATYPE HALFWIDTH START END X,Y X,Y ..
//! circle LAYER DATATYPE RADIUS X Y
//! ```
//!
//! The unit's line is the first. Then for each cell, by ascending names, comes the line of its name, and under it one line
//! for each element, in ascending order, where an equal one is repeated as often as it is there. Numbers are decimal, with
//! `-` before a negative one. TURNS is 0 to 3, FLIP 0 or 1. Names and strings are unchanged. One space separates two fields,
//! so an empty STRING leaves the space before it, and each line ends with the byte `0A`.
//!
//! What this crate promises to the crates above it: a writer takes exactly the bytes of `listing` (specs/Listing.antt) of the
//! layout's meaning, and [`write_listing`] returns how many they are (`IsWritten`, oas_num's specs/Written.antt). Or it fails
//! with [`oas_num::Why::Write`], and then the writer took as many of the first bytes as the refusal's place says
//! (`IsCutOff`). [`put_listing`] puts the same bytes into a sink; after a fault a prefix of them was put. Neither allocates.
//! Layouts that are the same have one listing ([`laws`]). [`put_unit`], [`put_name`] and [`put_element`] put a single line:
//! the last that of an element as it is shown from its key.
//!
//! # How it is built
//!
//! oas_listing stands on oas_layout, whose cells, elements and points are each read from the keys as they are asked for, and
//! uses the kit's `itoa`, which finds the digits of a number from the last to the first. The clauses are about `listing`, a
//! function of the layout's meaning.
//!
//! - specs/Lines.antt: fields with one space between neighbours, and a line of them. specs/Listing.antt: the fields of each
//!   kind of element, and the listing; decimal text is std's `decimal` and `signed_decimal`. oas_num's specs/Written.antt
//!   says what a writer took.
//! - src/numbers.rt: numbers and a point after their spaces, put together from the last to the first on the stack, so that a
//!   sink takes all of them at once. fields.rt: the start of a line, and points. elements.rt: a function for each kind that
//!   isn't numbers alone, and the line of an element. cells.rt: elements, each as often as it is there, and cells.
//!   writing.rt: the listing, as `Content` of oas_num, which writes it.
//!
//! How the proof goes. Each function puts into a `Sink` under the contract `Writes` and counts nothing, since
//! `write_content` counts what the writer took. One record, `PutSoFar whole left` (oas_num, proofs/PuttingLemmas.antt), says that a prefix of
//! the whole was put and what is left; each exit is one line over it. The loops have it as their invariant, where `left` is
//! what the items from here on give (proofs/PointLemmas.antt, CellLemmas.antt). Since that count stops at `u64::MAX`, the listing has to
//! be shorter: it has at most 512 bytes for each unit of weight (proofs/Lengths.antt), and `IsLayout` bounds the weight. That
//! needs no range of any number, since std's decimal text has at most 64 digits.
//!
//! The law (`one_listing`, proofs/SameLayouts.antt): under each name the counted elements of two layouts that are the same
//! are equal, by oas_elements's `same_held`. Lists of cells by ascending names are equal if their look-ups are.
#![tactic(auto)]

mod cells;
mod elements;
mod fields;
pub mod laws;
mod numbers;
mod writing;

// The crates below, for those above.
pub use cells::{put_name, put_unit};
pub use elements::put_element;
pub use oas_layout::{
    ByProfileOne, ByProfileTwo, CellStore, Cells, CompactCell, Comparer, CountedCell, Draft,
    Elements, FormJudge, KeptBy, KeyedElement, Layout, Reader, Refused, Room, ShownElement,
    ShownPoints, SpelledSteps, file_laws, find_end_of_input, find_record, finish_layout, form_laws,
    is_end, is_head, put_bytes, put_circle, put_coordinate, put_delta, put_end, put_head,
    put_number, put_opening, put_place, put_placement, put_rectangle, put_text, read_layout, show,
    take_record,
};
pub use writing::{put_listing, write_listing};

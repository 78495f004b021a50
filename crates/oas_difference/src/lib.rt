//! The difference of two layouts: what one of them has more often than the other, as lines (own rule).
//!
//! ```text
//! - 1 unit 1000/1
//! + 1 unit 2000/1
//! @ cell A
//! - 2 rectangle 1 0 10 20 0 0
//! + 1 cell B
//! + 1 circle 5 6 7 -8 9
//! ```
//!
//! Each line is SIGN COUNT and a line of the listing: `-` for what the first layout has more often, and `+` for what the
//! second one has more often. The lines are in the order of the listing. The line `@ cell NAME` is above the elements of a
//! cell that both layouts have, and that differs; a cell that only one of them has is a line, with its elements below.
//!
//! What this crate promises to the crates above it: a writer takes exactly the bytes of `difference` (specs/Difference.antt)
//! of the layouts' meanings, and [`write_difference`] returns how many they are (`IsWritten`, oas_num's specs/Written.antt).
//! Or it fails with [`oas_num::Why::Write`], and then the writer took as many of the first bytes as the refusal's place says
//! (`IsCutOff`). [`put_difference`] puts all lines into a sink. They allocate nothing. There is no line exactly if the layouts
//! are the same ([`laws`]).
//!
//! [`Choice`] names cells and layers. Then the lines are those of what is left of both layouts without all other cells, and
//! without the elements that are on none of these layers (`chosen`, oas_diff_options): placements are on no layer. Where
//! layers are named, only elements are compared: a cell that only one layout has is as one without elements in the other
//! (`or_empty`), so each line of an element is below a line `@ cell NAME`.
//!
//! [`Format`] says how each entry is written: a line or a JSON object in a line, and lengths in grid steps or in microns
//! (oas_diff_text). What is compared doesn't depend on it.
//!
//! For other texts of a difference [`next_cell`] goes over the cells of two layouts, and [`next_change`] over the elements
//! that are not as often in both.
//!
//! # How it is built
//!
//! oas_difference stands on oas_diff_options (what is compared), oas_diff_text (the entries) and, through these, on oas_layout and
//! oas_listing. Promise upwards: `write_difference`, whose clauses speak of `difference_by`, a function of options and of what two
//! layouts mean, and the law that by any options it is empty exactly if what they compare is the same, which holds of all meanings,
//! in whatever order and form their elements are.
//!
//! - specs/Ascending.antt: what is in a list, ascending, each once. specs/Changed.antt: for each element of either list how
//!   often it is in both (`count_of`, which also defines sameness), where that differs. specs/Difference.antt: an entry for
//!   each of these, and for each name of either layout the same for its cells. No loop is in it.
//! - src/elements.rt: the elements of a cell that are compared. side.rt: these with the first at hand (`Side`). changes.rt: two firsts
//!   are compared once by the bytes of their keys, the lesser is taken from its side or from both, and so on to the next
//!   element that is not as often on both sides; a cell without a change gets no line. An element is read from its key only
//!   where it is written, or where layers are named. cells.rt: the same over names. writing.rt: what is written.
//! - specs/Brief.antt: the same entries, summed for each cell; brief.rt walks as changes.rt does. specs/Limited.antt: the
//!   first lines of a text, and a line that says that there are more; limiting.rt is a sink over a sink that passes on
//!   that many lines and forgets the rest.
//! - specs/Pairs.antt and specs/Held.antt connect the two: two lists of entries side by side, by the keys of either, and the
//!   difference of what two layouts hold with its counts.
//!
//! How the proof goes. The keys of two ascending lists in order begin with the lesser of their first keys
//! (proofs/Ascending.antt), so the entries side by side do (`paired`, proofs/Pairs.antt); each loop is that step, under
//! `PutSoFar` as in oas_listing. What is held means what is listed by proofs/Held.antt: in a layout each element is in its
//! kept form, and the number beside it is its count (`held` of oas_elements). proofs/EntryLengths.antt and Lengths.antt bound
//! the length, for which no element may be weighed twice (`sum_once`); an object has its cell's name, which is shorter than
//! a layout's weight. The law (proofs/EmptyLaw.antt) needs no order: no entry for any element of either list says that all
//! counts are equal, since one that is the same as none of them counts 0 on both sides; and whatever the format, each entry
//! has a byte (`change_first`, proofs/Steps.antt).
#![tactic(auto)]

mod brief;
mod cells;
mod changes;
mod elements;
pub mod laws;
mod limiting;
mod notation;
mod side;
mod writing;

pub use cells::{CellPair, ChosenCells, next_cell};
pub use changes::{Change, next_change};
pub use elements::ChosenElements;
pub use side::Side;
pub use writing::{put_difference, write_difference};
// The crates below, for those above.
pub use oas_diff_options::{Choice, ChosenLayer, Detail, Format, Measure, Options, PLAIN, Syntax};
pub use oas_diff_text::{
    Layout, ShownElement, ShownPoints, kind_name, layer_of, put_length, put_microns, show,
};

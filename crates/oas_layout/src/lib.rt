//! A layout as runs of keys, in little more memory than its distinct elements take: read from a source, or put together in a
//! draft.
//!
//! What this crate promises to the crates above it:
//!
//! - A [`Layout`] holds the keys of a layout (oas_keys, oas_run_store): its cells by ascending names, and of each the run of its
//!   elements' keys, ascending, each beside its count. Contracts see it as its `Contents` (oas_elements, specs/Contents.antt), and
//!   every layout `IsLayout`.
//! - [`Cells`], [`Elements`] and [`KeyedElement`] are its cells and elements, one by one. An element is a key that is seen
//!   as its element: it is compared by its bytes, and [`show`] gives its fields, of which a name, a string or points are those of
//!   the key ([`ShownElement`], [`ShownPoints`]), or the steps between them ([`SpelledSteps`]). Nothing is copied, except by
//!   [`KeyedElement::to_element`]. Whatever a caller has taken of [`Elements`], those left are sound and weigh no more than a layout
//!   may ([`Elements::fits`]).
//! - [`Layout::count`] and [`Layout::weight`] go through all distinct elements; [`Layout::same`] compares bytes alone.
//! - [`read_layout`] gives the layout of what a source gives, or says where and why it is refused (`ReadsLayout` of oas_file).
//! - [`finish_layout`] is its last step, for a caller that does more with each record: from a reader to the layout of the records that
//!   it took (`IsLayoutOf`, specs/LayoutOf.antt), or to what END is refused for.
//! - A [`Draft`] takes cells and elements one by one, within limits, and is sealed to a layout of them. It hands back what it refuses
//!   ([`Refused`]), and is then unchanged.
//!
//! Whether an allocation succeeds is outside every contract: what allocates may return `Why::Memory`.
//!
//! # How it is built
//!
//! - src/reading.rt is a reader with the stores of oas_cells. src/finishing.rt takes what that reader hands over, has it accepted, and
//!   makes the run of each cell, from the last cell on, so that a cell's store is freed before the next run is made.
//!   The room of the freed cells is given back each time when it is a sixteenth of all (`fit`). Where much waits for names, these
//!   are ranked first, once for all cells (`ranks_for` of oas_cells).
//! - src/sorting.rt: a layout has its runs in a list, which is sorted by their names once, in place, after all are made. Where
//!   there are many, a list of their places is sorted first, each beside the eight bytes of its name behind what all names begin
//!   with, and the runs are exchanged until they stand so: then the sort that is proved goes through them once. Where no two
//!   names are equal there is one such list (`sorted_is`, proofs/SortLemmas.antt), so it is that in which each cell was put in its
//!   place.
//! - specs/Held.antt: keys are of one list of elements at most (specs/Laws/HeldLaws.antt), and what is left of a key has one list
//!   of points at most (PointsLaws.antt). So a type that holds keys has a ghost field with that list, which is nothing at run
//!   time, and is seen as it; proofs/HeldLemmas.antt has what is taken of both.
//! - specs/Counting.antt: cells put in order, with their elements counted (`counted_cells`). They are those of `in_order` of
//!   oas_form (proofs/OrderLemmas.antt), which are proved there to be the same layout and to keep its limits.
//! - proofs/KeyedLemmas.antt has the step from keys to elements. A run that means some elements (`MeansElements` of
//!   oas_cells) has the sums of their keys, so it is their tally (`run_is_tally` of oas_run_store); and since keys are ordered
//!   as elements, that tally is the keys of the elements, counted (`run_is`).
//! - Whatever a reader took, there is something that its cells of keys may have been drawn from (`IsCompact` of oas_cells), and it is
//!   sound. So what END accepts can be made a layout, whichever records were taken (`layout`, proofs/FinishLemmas.antt).
//! - src/sameness.rt: `Layout::same` compares units, names and runs, entry by entry (`==` of a `Run` of oas_runs),
//!   and reads no element. Elements with equal keys are equal, so cells with equal runs are equal
//!   (proofs/SamenessLemmas.antt), and oas_elements proves that these are the same layout.
//! - src/draft_cell.rt holds the elements of a cell of a draft in the store that a reader's cell has (`ElementStore` of oas_cells).
//!   src/sealing.rt makes their runs, and sorts these.
#![tactic(auto)]

mod cells;
mod copying;
mod draft;
mod draft_cell;
mod element;
mod elements;
mod finishing;
mod layout;
mod points;
mod reading;
mod refused;
mod sameness;
mod sealing;
mod showing;
mod shown;
mod sorting;
mod totals;

// The crates below, for those above.
pub use cells::Cells;
pub use draft::Draft;
pub use element::KeyedElement;
pub use elements::Elements;
pub use finishing::finish_layout;
pub use layout::Layout;
pub use oas_cells::{ByProfileOne, ByProfileTwo, CompactCell, KeptBy, SpelledSteps};
pub use oas_form::{
    CellStore, Comparer, CountedCell, FormJudge, Reader, Room, file_laws, find_end_of_input,
    find_record, is_end, is_head, laws as form_laws, put_bytes, put_circle, put_coordinate,
    put_delta, put_end, put_head, put_number, put_opening, put_place, put_placement, put_rectangle,
    put_text, take_record,
};
pub use points::ShownPoints;
pub use reading::read_layout;
pub use refused::Refused;
pub use showing::show;
pub use shown::ShownElement;

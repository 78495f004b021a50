//! What the records of a CELL draw, held as keys: each element in its kept form, in little more memory than its fields take.
//!
//! What this crate promises to the crates above it:
//!
//! - A [`CompactCell`] is a `CellStore`. What is drawn by its name is kept as its key (oas_keys) with how often it is drawn,
//!   in ascending runs (oas_run_store). What is drawn by a number waits as it was drawn. A failed allocation changes nothing. The
//!   key of a placement or a text without a repetition is made from the modal name itself, without a copy.
//! - It may represent the lists with this weight in which each key, and each thing by a number, is drawn as often (`Keeps`,
//!   specs/Compact.antt), and whose elements that have their names are sound. Each of its keys is that of a sound element in
//!   the form that the profile keeps (`IsKey`).
//! - It knows its weight with all names (`Weighed` of oas_reader), so that crate's `accept_cells` judges such cells at END.
//! - [`CompactCell::into_run`] places what waits by the names of the whole file, and returns the run of the keys of all
//!   elements, all of which are sound: of each kept form there are as many as there are elements (`MeansElements`,
//!   specs/Placing.antt). The [`Ranks`] of these names ([`ranks_for`]) make it faster, and change nothing of that.
//! - An [`ElementStore`] takes elements in any order, and becomes the run of the keys of their kept forms.
//! - A type ([`KeptBy`]) says by which profile elements are kept: [`ByProfileOne`], [`ByProfileTwo`].
//!
//! # How it is built
//!
//! - specs/Compact.antt: `compact_store` says which lists it may represent (`Keeps`): whatever each key counts for, and each
//!   thing by a number, the sums over what is held and over what was drawn are equal. So the order of drawing, of keys or of
//!   runs doesn't matter, and a draw is one equation of sums (proofs/DrawLemmas.antt). The profile by which elements are kept
//!   is a type (src/profiles.rt), since a store is begun with its CELL alone.
//! - src/held.rt holds what is drawn in a cell in one of two forms (specs/Held.antt). While more is drawn, its keys are in a
//!   store of keys (src/elements.rt, src/filling.rt), and beside them is what waits. Once a cell ends and has few keys, and
//!   nothing waits, these are put in order, into one block of bytes, and all else of the store is freed (`rest`): so a layout may
//!   have very many small cells. What is drawn later opens the store again, of that block. Another cell keeps its store, and is
//!   put in order when it becomes a run.
//! - src/filling.rt puts a key into the store's own buffer, so that an element needs no memory of its own. Placements and
//!   texts are the same in every profile, so theirs are put from their fields alone (`add_placement`, `add_text`), whether
//!   they came with a name or waited for it.
//! - src/waiting.rt: what is drawn by numbers, as it was drawn; no memory where nothing is. What is drawn once and fits into 16
//!   bytes (src/short.rt) is in chunks in the order in which it came (src/chunks.rt), and each is freed once it is placed; all
//!   else is counted in a map. Once a cell ends, what waits gives back the memory that it doesn't fill, in place (`rest`).
//!   proofs/WaitLemmas.antt says that the sums are those with one more (`WaitsMore`, specs/Compact.antt).
//! - src/weighing.rt weighs what waits by the names of its numbers; proofs/WeighLemmas.antt says that a cell so weighs what was
//!   drawn in it (`cell_known`), and uses oas_reader's lemmas about weights capped to 64 bits.
//! - src/placing.rt places what waits among the elements, with no element and no copy of a name in between: the key is put
//!   from the name that the table lends for the number. So a cell becomes one run (`CompactCell::into_run`):
//!   proofs/PlaceLemmas.antt, again one equation of sums (`means`).
//! - Much that waits is first put into the order of its keys, so that these come to the store as one rising run, which it
//!   needn't sort. src/ranking.rt says where each name stands among all, and so where something belongs (`Short::place`).
//!   src/spreading.rt spreads what waits over parts, and src/sorting.rt sorts one part after another, so that little of it is
//!   held twice. Of the order nothing is proved, only that the same waits (`SameWaiting`, specs/Compact.antt;
//!   proofs/SortLemmas.antt).
#![tactic(auto)]

mod cells;
mod chunks;
mod elements;
mod filling;
mod held;
mod placing;
mod profiles;
mod ranking;
mod short;
mod sorting;
mod spreading;
mod waiting;
mod weighing;

// The crates below, for those above.
pub use cells::CompactCell;
pub use elements::ElementStore;
pub use oas_keys::{SpelledElement, SpelledPoints, SpelledSteps, read_key};
pub use profiles::{ByProfileOne, ByProfileTwo, KeptBy};
pub use ranking::{Ranks, ranks_for};

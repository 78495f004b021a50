//! The canonical form of a layout: what it is, its laws, its judge, and the parts of its writers.
//!
//! What this crate promises to the crates above it:
//!
//! - Whether bytes are a canonical form is defined on the finished bytes (`CanonicalForm`, specs/Canonical.antt): an accepted
//!   file in the shortest style whose cells ascend by name, and within each the elements, each in the form that the profile
//!   keeps. It is the canonical form of a file (`IsCanonicalOf`) if it means the same layout. There is also a function of the
//!   layout (`canonical_bytes`, specs/Bytes.antt).
//! - [`laws`] connects these, from the definitions alone. Each accepted file has a canonical form, and it is the same
//!   under all limits that accept the file. What is accepted under limits is accepted under larger ones. One layout has one
//!   canonical form; it is what is written for each layout that is the same; it is accepted, and its own canonical form. Two
//!   accepted files mean the same layout exactly if they have one canonical form. It has as many elements as its file, weighs
//!   no more, and its length is bounded by that weight and by the limit of an input. A file's canonical form by profile two
//!   is that of its canonical form by profile one.
//! - [`judge_laws`] says when an accepted file is a canonical form, record by record as it is read (specs/Judging.antt).
//!   [`FormJudge`] decides this: of what was read it keeps the name of the open cell and the latest element. It judges a
//!   placement or a text after one of its kind by its fields alone, and reuses that one's memory ([`FormJudge::place_next`]).
//!   [`is_head`] and [`is_end`] say whether bytes are those before the first record and END.
//! - The parts of a writer: each puts the bytes of a part into a sink, and returns how many they are; after a fault a prefix of
//!   them was put (`Counts`, specs/Putting.antt). They are [`put_head`], [`put_opening`], [`put_rectangle`], [`put_delta`] and
//!   their like, and [`put_end`]. None of them allocates. A [`Comparer`] is a sink that compares what it is given with bytes.
//! - [`meaning_laws`] and [`spelling_laws`] say about the records of a canonical file (`records_of`, specs/Records.antt) what
//!   they mean, that they are accepted, and how they are spelled.
//!
//! # How it is built
//!
//! oas_form uses oas_file, which says which files are accepted and what they mean, and what is below that. What it promises
//! to the crates above: what a canonical form is, its laws, its judge, and the parts of its writers.
//!
//! | specs/ | What |
//! |---|---|
//! | Canonical | whether finished bytes are one (`CanonicalForm`), in order (`IsOrdered`), the canonical form of a file
//! (`IsCanonicalOf`), and what holds for them |
//! | Records | the records of cells: each CELL by its name, and its elements with all their fields (`records_of`) |
//! | Bytes | the function from a layout to its bytes (`canonical_bytes`) |
//! | Layouts | layouts in order, what is written for a layout, what a canonical form keeps of a file |
//! | Rekeying | from the canonical form by profile one to that by profile two |
//! | Boxes | how the profiles differ |
//! | RecordMeaning, Spelling | what canonical records mean, that they are accepted, and how they are spelled |
//! | Judging | whether a file is a canonical form, judged record by record as it is read |
//! | Putting | what is put and counted |
//!
//! How the proof goes. The definition on bytes and the function are made independently, and are connected over `records_of`.
//! What is proved for one kind of element is in a file of that kind (proofs/CircleKind.antt): the fields of its record fit;
//! its record in the shortest style is one of an element; what it draws fits; and what holds for its canonical record
//! (`OfElement`: it draws its element and is refused for no reason, its bytes spell it, what spells it fits, and how long
//! these are). proofs/AllKinds.antt joins the kinds, a line for each; all else is said about `of_element`, or holds for any
//! kind alike.
//!
//! 1. *The shortest style has canonical records only.* A record in that style is a CELL by its name, or the record of an
//!    element that has its points (`plain_of`, proofs/AllKinds.antt over ShortFields.antt); before the first CELL no element
//!    is allowed. So the records are those of some cells (`of_cells`, proofs/ShortestLemmas.antt). They are those of the
//!    cells that they mean: since a canonical record gives all its fields and nothing is relative, it draws its element,
//!    whatever the variables were (`draws`, `canonical_means`, proofs/MeantLemmas.antt).
//! 2. *One layout has one form* (`one_canonical_form`, proofs/Forms.antt). Cells in order that are the same by counting are
//!    equal (`equal_in_order`, proofs/OrderedLayouts.antt): element for element by oas_elements's law of equal counts, since
//!    the elements are in their kept forms, and cell for cell by their look-ups. By 1 two canonical forms then have one
//!    record list, and oas_file's `one_spelling` completes it. The other sentences of the headline are equations of meanings,
//!    connected by `means_one` (a file means one layout) and the equivalence of sameness: `limits_apart`, `forms_equal`,
//!    `canonical_again`.
//! 3. *What is written is a canonical form* (`canonical_form`, proofs/Written.antt). The canonical bytes are nested to the
//!    right as the grammar is, so each level is one literal record with `joined = refl` (Spelling.antt, and each kind's
//!    file). The records mean their cells by 1; within the limits none is refused (proofs/AllowedLemmas.antt); and what a
//!    layout holds is in order (`layout_in_order`).
//! 4. *A canonical form is what is written for its meaning* (`form_is_its_bytes`, proofs/Held.antt), whether or not a
//!    `Layout` holds that. What a file in the shortest style spells are names, strings and numbers of 64 bits
//!    (proofs/CellsFit.antt), and what was accepted is within the grid (proofs/InGrid.antt) and the limits, so it can be
//!    spelled (`form_spellable`). With 3 a canonical form is one under all limits that its meaning keeps (`form_within`).
//! 5. *What is kept* (proofs/Sizes.antt). Each layout in which no name occurs twice can be put in order in the definitions
//!    alone: the kept forms of its elements into a tally, its cells into a list by name. That keeps the number of elements
//!    and what look-ups find, and makes nothing heavier; under profile one it keeps the weight too. Layouts that are the same
//!    have one order (`one_order`). proofs/FileLengths.antt bounds the bytes by the weight, 64 for each unit.
//! 6. *Each accepted file has one* (proofs/Existence.antt): its meaning, put in order by 5, and written by 3. For that its
//!    meaning must be sound. For a file in the shortest style 4 says so. For any accepted file proofs/AllGiven.antt does
//!    (what a record gives fits), with DrawnSound.antt (so do the modal variables and what they draw; what isn't refused has
//!    its points within the grid; so do the elements and names of the meaning). With 2 it is the same under all limits that
//!    accept the file (`limits_together`), and two accepted files mean the same exactly if they have one (`same_exactly`); by
//!    its length it is within the limit of an input (`form_fits_input`). What is accepted is accepted under larger limits,
//!    record by record and at END, since only the reasons of number and weight look at limits (proofs/LargerLimits.antt).
//! 7. *Judged as it is read* (proofs/JudgeRecords.antt, JudgeMatches.antt, JudgeBytes.antt, JudgeStanding.antt). The records
//!    of cells are in order one by one exactly if the cells are (`judged_if_ordered`, `ordered_if_judged`), since the order
//!    is transitive. Entries that were read are spelled in the shortest style exactly if the file is (`aligned`). A record
//!    with the canonical bytes of the element that it draws is that element's record (`matched_drawn`), since no bytes spell
//!    two. One comparison, with the bytes of the kept form, decides both that an element is spelled canonically and that it
//!    is in that form (`kept_bytes`). src/judging.rt keeps a name and an element (`FormJudge`), and compares through a sink
//!    (src/comparing.rt), so no bytes are made.
//! 8. *From profile one to two* (proofs/Rekeying.antt). Elements that count the same by profile one have the same tally of
//!    kept forms, as in 5, and by profile two a kept form counts as its element. So what is the same by profile one is the
//!    same by profile two (`coarser`), and the law of re-keying follows by symmetry and transitivity (`keeps`). The order is
//!    the same for both profiles, and an element in its kept form by profile two is in that by profile one (`within`). Back
//!    from two to one it goes where there is no box (proofs/Boxes.antt): whether an element is one is a test that gives the
//!    same for its kept form by profile one, so of layouts that are the same both have boxes or neither (`counts_alike`), and
//!    what is no box is kept alike by both profiles.
//! 9. *The parts of a writer* (src/frames.rt, elements.rt, point_lists.rt and parts.rt). `Counts` (specs/Putting.antt) is every
//!    part's contract. The proofs carry one record, `PutSoFar whole left` (proofs/PuttingLemmas.antt): a prefix of the whole
//!    was put and counted, and this is left. It is the invariant of the loop over points too (proofs/PointPutting.antt).
#![tactic(auto)]

mod comparing;
mod elements;
mod following;
mod frames;
pub mod judge_laws;
mod judging;
pub mod laws;
pub mod meaning_laws;
mod parts;
mod point_lists;
pub mod spelling_laws;

// The crates below, for those above.
pub use comparing::Comparer;
pub use elements::{put_circle, put_placement, put_rectangle, put_text};
pub use frames::{put_end, put_head, put_opening};
pub use judging::{FormJudge, is_end, is_head};
pub use oas_file::{
    CellStore, CountedCell, NameTable, Reader, Room, Taken, accept_cells, cell_meant,
    find_end_of_input, find_record, laws as file_laws, take_record, take_records,
};
pub use parts::{put_bytes, put_coordinate, put_number, put_place};
pub use point_lists::put_delta;

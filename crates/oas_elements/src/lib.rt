//! Elements: their order, which are the same, what each weighs, where it may lie; and what a layout of them means.
//!
//! What this crate promises to the crates above it:
//!
//! - An [`Element`] is one of six kinds, with a total order in which no two tie (`element_cmp`, specs/Element.antt). The
//!   definitions write its fields by position; the contracts of `Element::circle` and its like say which field is which.
//! - Two elements are the same (`SameElement`, specs/Same.antt) where kind and fields are equal, with two exceptions. A
//!   polygon is a ring: it may begin anywhere and run in either direction. And under [`Profile::Two`] a polygon that goes
//!   round a rectangle is that rectangle. Each element has one form in which it is kept (`normal`), and two elements are the
//!   same exactly if their kept forms are equal. [`kept_ring`] says what a polygon is kept as from its points alone, with no
//!   memory.
//! - A layout is a unit, and for each cell name a multiset of elements (`Meaning`, specs/Meaning.antt). Two are the same
//!   (`SameLayout`) if they have one unit, the same cell names, and in each cell the same count of each element. The
//!   definition uses no kept form and no order.
//! - What a draft and a layout hold (`Contents`, specs/Contents.antt): cells, each with its distinct elements strictly
//!   ascending, no two the same, each in its kept form and with its count (`IsBag`, specs/Bag.antt). `IsLayout` holds for
//!   every layout: its elements have their points, are within the grid, and have fields that a file can spell. oas_layout has
//!   the types.
//! - A draft fails exactly where `cell_refusal` and `refusal` say so, with the first reason that they give. [`Limits`] apply to
//!   what was given: under profile two a rectangle that was given as a polygon weighs as that polygon.
//! - [`laws`] says, from the definitions alone, how counts, kept forms and sameness are related.
//!
//! # How it is built
//!
//! | src/ | What |
//! |---|---|
//! | counts.rt | a count that grows, in a map by key |
//! | element.rt | the six kinds of element, quarter turns, weight |
//! | kinds.rt | elements by the names of their fields: which field is where in the definitions |
//! | grid.rt | the grid, and which elements are within it |
//! | kept.rt | the form in which a profile keeps an element |
//! | profile.rt, limits.rt | profiles; limits |
//! | sound.rt | what fields can hold, read once for the invariant |
//! | laws.rt | the laws, from the definitions alone |
//!
//! | specs/ | What |
//! |---|---|
//! | Element, ElementLaws | the order, and that it is total and exact |
//! | Weight, Grid, Limits | numbers and tests |
//! | Same, SameLaws | `SameElement`, its test, the kept form; same exactly if the kept forms are equal |
//! | Sound | what every element is: its points, the grid, what its fields hold |
//! | Bag, Ascending | counts beside elements; lists in order |
//! | Meaning, Contents | meanings and their sameness; what drafts and layouts hold, and what drafts refuse |
//! | Laws | the statements of `laws` |
//!
//! How the proof goes. `put_more` (n more of a key, in its place) is a recursion of its own. So for every weight g the sum of g
//! over what is held grows by n * g of the key, whatever the order; length, weight and count are three uses of it. Everything
//! about counts is proved once over any key type, order and test of sameness (proofs/Counting.antt): where the test and the
//! order agree on kept keys, equal counts make equal lists, of pairs and of single keys. Four facts connect this with
//! elements: the order is total; no two elements tie; the kept form of a kept form is itself; the test of sameness is equality
//! of kept forms.
#![tactic(auto)]

mod counts;
mod element;
mod grid;
mod kept;
mod kinds;
pub mod laws;
mod limits;
mod profile;
mod sound;

pub use counts::count_up;
pub use element::{Element, Turns};
pub use kept::{KeptPolygon, kept_ring};
pub use kinds::{Extensions, Layer};
pub use limits::Limits;
pub use profile::Profile;
pub use sound::unit_fits;

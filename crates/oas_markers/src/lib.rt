//! What one of two layouts has more often than the other, as markers: the text of a report database (`.lyrdb`) of KLayout
//! (own rule).
//!
//! ```text
//! <item><category>removed.rectangle</category><cell>A</cell><multiplicity>2</multiplicity><values><value>box: (0,0;0.01,0.02)</value><value>text: 'layer 1/0'</value></values></item>
//! ```
//!
//! Each element that is not as often in both layouts is an item, in the category `removed` for what the first has more often,
//! and `added` for what the second has; below these there is a category for each kind. Coordinates are in microns, by the
//! unit of the layout that has it more often. A cell that only one of them has is an item too.
//!
//! What this crate promises to the crates above it: a writer takes exactly the bytes of `markers` (specs/Markers.antt) of what
//! is compared of the layouts' meanings (`chosen` of oas_difference), or it fails, and then it took a prefix of them
//! ([`write_markers`]). There are at most as many markers as are asked for; where there are more, the description says how
//! many. It allocates nothing.
//!
//! # How it is built
//!
//! oas_markers stands on oas_difference, whose walks over cells and over elements it uses (`next_cell`, `next_change`).
//! Promise upwards: `write_markers`, whose clauses speak of `markers`, a function of what two layouts mean.
//! specs/Markers.antt has the text: categories, then the cells by name, then the first of the items (`first_items`), which are
//! counted before (counting.rt); specs/Shapes.antt an element as a value, specs/Numbers.antt its points in microns (Microns of
//! oas_difference), specs/Texts.antt names in XML. specs/Held.antt is the word between, as that of oas_difference.
#![tactic(auto)]

mod cells;
mod counting;
mod items;
mod numbers;
mod shapes;
mod texts;
mod writing;

// The crates below, for those above.

pub use oas_difference::{
    Choice, ChosenLayer, Detail, Format, Measure, Options, PLAIN, Syntax, write_difference,
};
pub use writing::write_markers;

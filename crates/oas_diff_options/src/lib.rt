//! What is compared of two layouts, and how their difference is written.
//!
//! [`Options`] has both: a [`Choice`] of cells and layers, a [`Detail`], a [`Format`], and how many lines there may be.
//!
//! What this crate promises to the crates above it: by a choice a cell is compared exactly if its name is (`is_named`,
//! specs/Choice.antt), and an element exactly if one of the chosen layers means the layer that it is on (`is_on`); a placement is
//! on none. What is left of a layout is `chosen`. Nothing here allocates.
#![tactic(auto)]

mod choice;
mod format;
mod options;

pub use choice::{Choice, ChosenLayer, is_named, is_on};
pub use format::{Format, Measure, PLAIN, Syntax};
pub use options::{Detail, Options};

//! What is written of a difference.

use crate::choice::Choice;
use crate::format::Format;

/// What is said of each cell that differs.
#[derive(Clone, Copy, Debug, PartialEq, Eq)]
pub enum Detail {
    /// Each element that is not as often in both layouts.
    Elements,
    /// How many elements only one of the layouts has.
    Counts,
}

/// What is compared of two layouts, what is written of their difference, and how many lines of it.
#[derive(Clone, Copy)]
pub struct Options<'a> {
    pub choice: Choice<'a>,
    pub detail: Detail,
    pub format: Format,
    /// At most this many lines, and where there are more a last line that says so; without it all of them.
    pub limit: Option<u64>,
}

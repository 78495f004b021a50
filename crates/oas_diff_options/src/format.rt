//! How a difference is written.

/// As what the entries of a difference are written.
#[derive(Clone, Copy, Debug, PartialEq, Eq)]
pub enum Syntax {
    /// Lines of words.
    Lines,
    /// A JSON object in each line.
    Json,
}

/// In what coordinates and lengths are written.
#[derive(Clone, Copy, Debug, PartialEq, Eq)]
pub enum Measure {
    /// In grid steps.
    Grid,
    /// In microns, by the unit of the layout that has the element more often.
    Microns,
}

/// How a difference is written.
#[derive(Clone, Copy, Debug, PartialEq, Eq)]
pub struct Format {
    pub syntax: Syntax,
    pub measure: Measure,
}

/// Lines, in grid steps.
pub const PLAIN: Format = Format {
    syntax: Syntax::Lines,
    measure: Measure::Grid,
};

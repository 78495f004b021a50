//! One point of the layout's grid.

/// A point in grid units, ordered by x and then y.
#[derive(Clone, Copy, Debug, PartialEq, Eq, PartialOrd, Ord)]
pub struct Point {
    pub x: i64,
    pub y: i64,
}

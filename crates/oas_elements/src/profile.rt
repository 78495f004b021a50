//! Which elements are the same.

/// Which elements are the same (own rule).
///
/// A polygon is the same in each of its readings, under both profiles. Under profile two a polygon that goes round a
/// rectangle with positive sides is also the same as that rectangle.
#[derive(Clone, Copy, Debug, PartialEq, Eq)]
pub enum Profile {
    /// A polygon is no rectangle.
    One,
    /// A polygon that goes round a rectangle is that rectangle.
    Two,
}

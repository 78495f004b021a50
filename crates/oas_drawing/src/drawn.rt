//! Elements as records give them.

use oas_elements::{Element, Turns};

/// An element as a record gives it, where the placed cell or the string may still be a number, to be looked up when the whole
/// file was read. Places are in grid steps.
///
/// They are ordered by kind and then by their fields, both in the order of this declaration, so that equal ones are held
/// once; no two of them tie.
#[derive(Debug, PartialEq, Eq, PartialOrd, Ord, Drop)]
pub enum Drawn {
    /// All its fields are there.
    Named(Element),
    /// A placement of the cell with this number.
    PlacementBy {
        number: u64,
        x: i64,
        y: i64,
        turns: Turns,
        flip: bool,
    },
    /// A text whose string has this number.
    TextBy {
        number: u64,
        textlayer: u64,
        texttype: u64,
        x: i64,
        y: i64,
    },
}

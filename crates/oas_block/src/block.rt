//! A compressed block that was read.

use oas_inflate::Inflated;

/// A block's data, and how its stream ends.
#[derive(Debug, Drop)]
pub struct Block {
    pub data: Inflated,
    pub end: BlockEnd,
}

/// How the stream of a block's bytes ends, all of which were taken.
#[derive(Clone, Copy, Debug, PartialEq, Eq)]
pub enum BlockEnd {
    /// As it should: the data are those of the block.
    Whole,
    /// It isn't finished: the data are those that it gave before the block's bytes ended.
    Unfinished,
    /// It is finished, but has fewer bytes of data than the head says, or leaves bytes of the block over: the data are what
    /// it has.
    Other,
}

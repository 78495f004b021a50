//! Why a compressed block isn't read.

use oas_num::Why;

/// Why a compressed block isn't read.
#[derive(Clone, Copy, Debug, PartialEq, Eq)]
pub enum BlockFault {
    /// The kind of compression isn't 0.
    Kind,
    /// The stream encodes more bytes than the head says.
    Length,
    /// No deflated stream begins like the bytes.
    Deflate,
    /// The input ended or stopped within the block, or out of memory.
    Why(Why),
    /// The data exceed the limit that was handed in.
    Full,
}

//! The bytes of a compressed block (SEMI P39, CBLOCK record), after its id and its head.
//!
//! What this crate promises:
//!
//! - [`read_block`] takes the bytes that a head announces and returns their data: they are a deflated stream that uses all of
//!   these bytes, for exactly as many bytes of data as the head says (`Represents`, specs/Blocks.antt). Where all these bytes
//!   were there but the stream doesn't end as it should, it returns the data all the same, and says so ([`BlockEnd`]). Each
//!   [`BlockFault`] is returned only where its condition holds for what was taken, whatever bytes follow (`ReadsBlock`,
//!   specs/Reading.antt).
//! - Memory grows with bytes that were inflated, never with what a head claims. Inflating stops at the first byte past the
//!   head's length or past the limit that is handed in.
//! - Law (module [`laws`]): a head with its bytes has only one data ([`laws::one_data`]).
//!
//! The caller must read records from the data.
//!
//! # How it is built
//!
//! The data are an `Inflated` of oas_inflated, which is re-exported with its source, so that crates above need oas_block
//! alone.
//!
//! `read_block` reads what follows a block's head. `PrefixSource` is a source of a fixed number of another source's next
//! bytes, and ends after them. So inflating can't go past the block, and doesn't notice that this isn't the whole input. A
//! type parameter that each use chooses (`Start`) says which source it is, and where it was: what was taken from the prefix
//! was then taken from the source (proofs/FrontLemmas.antt). After the stream's end the rest of the block is skipped, so an
//! input that ends there is truncated. Two cases are no fault: a stream that isn't finished though all the block's bytes were
//! there, and one that is finished but isn't what the head says. Their data are returned with how the stream ends
//! (`BlockEnd`), since the records that are read from them decide where such a block is refused. Inflating stops at the
//! lesser of the limit and the head's length (`stop_at`), so what is longer than that length is refused without reading on.
#![tactic(auto)]

mod block;
mod blocks;
mod faults;
mod fronts;
pub mod laws;

// The crates below, for those above.
pub use block::{Block, BlockEnd};
pub use blocks::read_block;
pub use faults::BlockFault;
pub use oas_inflate::{Inflated, InflatedSource};
pub use oas_standard::{
    BlockHead, Trapezoid, Validation, WideEnd, WidePlacement, WideReal, WideRecord, WideRefusal,
    WideStart, WideWhy,
};

//! Entries as bytes, in blocks and in runs. An entry is a key, which is bytes, and its count.
//!
//! What this crate promises to the crates above it:
//!
//! - The bytes of an entry and of a block are in specs/Entries.antt. No bytes spell two lists of entries (specs/Laws).
//!   [`read_entry`] reads the first entry, and [`after`] returns the bytes after it, which are entries again.
//! - Contracts see a [`Block`] as the list of its entries that are left. One more, or all of another block, can be put at its
//!   end; if out of memory none is. A block can be cleared, and gives back idle memory. Its first entry and the bytes that are
//!   left can be read.
//! - Contracts see a [`Run`] as the list of its entries that are left. Its first entry can be read and taken; a block that is
//!   used up is freed. A run of one block is made of the block (`Run::of_block`), and gives it back (`Run::into_block`).
//!   [`Run::entries`] iterates over all that are left, and `==` compares them (specs/Comparing.antt: it
//!   holds exactly for equal lists).
//! - A [`Growing`] run is written entry by entry into blocks of bytes. Its last entry can be read, and its count can grow. If
//!   out of memory it is unchanged. It becomes a [`Run`] of the same entries without allocation. [`Growing::fit`] doesn't change
//!   the list.
//! - [`order_of`] compares two keys byte by byte. [`number_of`] is the number of eight bytes, with the first of them highest.
//!
//! [`Block::size`], [`Growing::size`] and [`Run::size`] say about how many bytes a block or a run has. They, [`BLOCK`] and
//! [`AT_ONCE`] only help to decide what to do: no contract is about them, about time or about bytes.
//!
//! How keys are compared: eight bytes at once, as a number with the first byte highest, as long as both keys have eight more
//! (proofs/OrderLemmas.antt: such numbers are ordered as their bytes), and then byte by byte.
#![tactic(auto)]

mod block;
mod blocks;
mod comparing;
mod entries;
mod entry;
mod growing;
mod ordering;
mod recount;
mod room;
mod run;

pub use block::{BLOCK, Block};
pub use entries::Entries;
pub use entry::{Entry, after, read_entry};
pub use growing::Growing;
pub use ordering::{AT_ONCE, number_of, order_of};
pub use run::Run;

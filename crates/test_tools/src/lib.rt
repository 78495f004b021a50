//! What tests of several crates use: memory that runs out at each allocation in turn, and files that are written as pieces.
//!
//! - [`Hoard`] takes all memory that there is, and gives it back a small piece at a time. A call that is made after each
//!   piece therefore meets every way to run out of memory. Only tests use it: no contract can say that the heap is full, so a
//!   test asks [`Hoard::is_full`]. Where the heap can't be filled, as under an address checker, no allocation fails, and a
//!   test asserts the results alone.
//! - [`bytes_of`] and [`put_pieces`] make a file of pieces between blanks, so that a row of a table shows what is in it. A
//!   piece is hex; hex that is repeated (`00*252`); nothing (`-`); or a word for a part that most files have. The words are
//!   `HEAD`, which is `MAGIC START 00E807 OFFSETS`; a cell `CELL` with the name `A`; a rectangle `RECT` with all fields; a
//!   larger rectangle `BOX` elsewhere, written as a polygon; and the canonical END, `TAIL`.
#![tactic(auto)]

mod memory;
mod pieces;

pub use memory::Hoard;
pub use pieces::{Unspelled, bytes_of, put_pieces};

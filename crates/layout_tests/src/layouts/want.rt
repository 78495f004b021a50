//! Memory that is taken and given back.
//!
//! The heap is filled up before a call, and a small piece is given back after each failure, so that the call meets every way
//! to run out of memory. Where the heap cannot be filled, as under an address checker, no call fails, and the results are the
//! same.

use std::alloc::{AllocError, Global};
use test_tools::Hoard;

/// All memory, kept from the calls that a test makes, and how many of them failed since it was full.
#[derive(Drop)]
pub(super) struct Want {
    pub(super) alloc: Global,
    pub(super) hoard: Hoard,
    pub(super) refused: u32,
}

impl Want {
    /// Takes all memory that there is.
    pub(super) fn new(alloc: Global) -> Result<Want, AllocError> {
        let hoard = Hoard::new(alloc)?;
        Ok(Want {
            alloc,
            hoard,
            refused: 0,
        })
    }

    /// Counts a failed call, and gives back a piece.
    pub(super) fn give_back(&mut self) {
        self.refused = self.refused.saturating_add(1);
        self.hoard.give_back();
    }

    /// Counts a failed call, fills the heap again, and gives back one more piece than after the one before.
    pub(super) fn give_back_anew(&mut self) {
        self.refused = self.refused.saturating_add(1);
        self.hoard.fill_again();
        for _ in 0..self.refused {
            self.hoard.give_back();
        }
    }

    /// Fills the heap again, and returns whether a call failed since it was last full.
    pub(super) fn fill_again(&mut self) -> bool {
        let refused = self.refused > 0;
        self.refused = 0;
        self.hoard.fill_again();
        refused
    }
}

//! The sums of all bytes except the last four.
ghost use Rattle.std.specs.Prelude.{List, [], ◌∷◌, ◌++◌, ℕ};
ghost use Rattle.oas_checksum.specs.Signed.{signed};
ghost use Rattle.oas_checksum.specs.Signing.{AreSigned};
ghost use Rattle.oas_checksum.specs.Sums.{AreSums};

use crate::last::LastFour;
use crate::sums::Sums;
use std::marker::Model;

/// The sums of the bytes of which the last four would be the signature (SEMI P39, END record, validation-schemes 1 and 2).
#[derive(Drop)]
pub struct SignedSums {
    before: Sums,
    last: LastFour,
}

impl Model for SignedSums {
    ghost use Rattle.std.specs.Prelude.{ℕ, List};

    ghost Value = { (ℕ × ℕ) × List ℕ };

    ghost view = { λ s. (s.before, s.last) };
}

impl SignedSums {
    /// The sums of no bytes.
    pub fn new() -> SignedSums
        ensures { AreSigned result [] }
    {
        SignedSums {
            before: Sums::new(),
            last: LastFour::new(),
        }
    }

    /// Adds one more byte.
    pub fn push(&mut self, byte: u8)
        ensures { (bytes : List ℕ) → AreSigned self.old bytes → AreSigned self.new (bytes ++ byte ∷ []) }
    {
        if let Some(first) = self.last.push(byte) {
            self.before.push(first);
        }
    }

    /// Adds more bytes.
    pub(crate) fn update(&mut self, more: &[u8])
        ensures { (bytes : List ℕ) → AreSigned self.old bytes → AreSigned self.new (bytes ++ more.now) }
    {
        for byte in more {
            self.push(*byte);
        }
    }

    /// The sums of all bytes except the last four.
    pub fn before(self) -> Sums
        ensures { (bytes : List ℕ) → AreSigned self bytes → AreSums result (signed bytes) }
    {
        self.before
    }
}

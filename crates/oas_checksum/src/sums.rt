//! The checksums of some bytes.
ghost use Rattle.std.specs.Prelude.{◌≡◌, List, [], ◌∷◌, ◌++◌, ℕ};
ghost use Rattle.oas_checksum.specs.Crc.{crc32};
ghost use Rattle.oas_checksum.specs.ByteSums.{checksum32};
ghost use Rattle.oas_checksum.specs.Sums.{AreSums};

use crate::byte_sums::Sum32;
use crate::crc::Crc32;
use std::marker::Model;

/// The CRC-32 of some bytes, and their sum modulo 2^32 (SEMI P39, END record, validation-schemes 1 and 2).
#[derive(Drop)]
pub struct Sums {
    crc: Crc32,
    sum: Sum32,
}

impl Model for Sums {
    ghost use Rattle.std.specs.Prelude.{ℕ};

    ghost Value = { ℕ × ℕ };

    ghost view = { λ s. (s.crc, s.sum) };
}

impl Sums {
    /// The sums of no bytes.
    pub fn new() -> Sums
        ensures { AreSums result [] }
    {
        Sums {
            crc: Crc32::new(),
            sum: Sum32::new(),
        }
    }

    /// Adds one more byte.
    pub fn push(&mut self, byte: u8)
        ensures { (bytes : List ℕ) → AreSums self.old bytes → AreSums self.new (bytes ++ byte ∷ []) }
    {
        self.crc.push(byte);
        self.sum.push(byte);
    }

    /// The CRC-32 of the bytes so far.
    pub fn crc32(&self) -> u32
        ensures { (bytes : List ℕ) → AreSums self.now bytes → result ≡ crc32 bytes }
    {
        self.crc.value()
    }

    /// The sum of the bytes so far, modulo 2^32.
    pub fn checksum32(&self) -> u32
        ensures { (bytes : List ℕ) → AreSums self.now bytes → result ≡ checksum32 bytes }
    {
        self.sum.value()
    }
}

//! The sum of bytes.
ghost use Rattle.std.specs.Prelude.{◌≡◌, List, [], ◌∷◌, ◌++◌, ℕ};
ghost use Rattle.oas_checksum.specs.ByteSums.{checksum32};

use std::marker::Model;

/// The sum of bytes put one after another, modulo 2^32 (SEMI P39, END record, CHECKSUM32).
///
/// Contracts see it as that sum.
#[derive(Drop)]
pub struct Sum32 {
    sum: u32,
}

impl Model for Sum32 {
    ghost Value = { ℕ };

    ghost view = { λ s. s.sum };
}

impl Sum32 {
    /// The sum of no bytes.
    pub fn new() -> Sum32
        ensures { result ≡ checksum32 [] }
    {
        Sum32 { sum: 0 }
    }

    /// Puts one more byte.
    pub fn push(&mut self, byte: u8)
        ensures { (bytes : List ℕ) → self.old ≡ checksum32 bytes → self.new ≡ checksum32 (bytes ++ byte ∷ []) }
    {
        self.sum = self.sum.wrapping_add(u32::from(byte));
    }

    /// Puts more bytes.
    pub fn update(&mut self, more: &[u8])
        ensures { (bytes : List ℕ) → self.old ≡ checksum32 bytes → self.new ≡ checksum32 (bytes ++ more.now) }
    {
        let mut sum = self.sum;
        for byte in more {
            sum = sum.wrapping_add(u32::from(*byte));
        }
        self.sum = sum;
    }

    /// The sum of the bytes so far.
    pub fn value(&self) -> u32
        ensures { result ≡ self.now }
    {
        self.sum
    }
}

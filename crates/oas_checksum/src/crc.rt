//! CRC-32.
ghost use Rattle.std.specs.Prelude.{◌≡◌, List, [], ◌∷◌, ◌++◌, ℕ};
ghost use Rattle.oas_checksum.specs.Crc.{IsRegister, after_byte, crc32};

use crate::table::TABLE;
use std::marker::Model;

/// The CRC-32 of bytes put one after another (ISO 3309): `new`, an `update` for each piece, and `value`.
///
/// Contracts see it as the register of the division.
#[derive(Drop)]
pub struct Crc32 {
    register: u32,
}

impl Model for Crc32 {
    ghost Value = { ℕ };

    ghost view = { λ c. c.register };
}

/// The register after one more byte.
fn after_byte(register: u32, byte: u8) -> u32
    ensures { result ≡ after_byte register byte }
{
    (register >> 8) ^ TABLE[((register ^ u32::from(byte)) % 256) as usize]
}

impl Crc32 {
    /// The CRC-32 of no bytes.
    pub fn new() -> Crc32
        ensures { IsRegister result [] }
    {
        Crc32 {
            register: 0xFFFF_FFFF,
        }
    }

    /// Puts one more byte.
    pub fn push(&mut self, byte: u8)
        ensures { (bytes : List ℕ) → IsRegister self.old bytes → IsRegister self.new (bytes ++ byte ∷ []) }
    {
        self.register = after_byte(self.register, byte);
    }

    /// Puts more bytes.
    pub fn update(&mut self, more: &[u8])
        ensures { (bytes : List ℕ) → IsRegister self.old bytes → IsRegister self.new (bytes ++ more.now) }
    {
        let mut register = self.register;
        for byte in more {
            register = after_byte(register, *byte);
        }
        self.register = register;
    }

    /// The CRC-32 of the bytes so far.
    pub fn value(&self) -> u32
        ensures { (bytes : List ℕ) → IsRegister self.now bytes → result ≡ crc32 bytes }
    {
        self.register ^ 0xFFFF_FFFF
    }
}

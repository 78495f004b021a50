//! What is left of a key, read from the start.

ghost use Rattle.std.specs.Prelude.{◌≡◌, ◌≤◌, ◌<◌, ◌∷◌, ◌++◌, ◌^◌, [], ℕ, ℤ, List, length, take, drop};
ghost use Rattle.oas_keys.specs.Numbers.{unsigned_key, signed_key, IsStep};

use crate::front::{signed_in_front, unsigned_in_front};
use std::marker::Model;

/// What is left of a key; contracts see its bytes.
#[derive(Debug, Drop)]
pub(crate) struct Cursor<'a> {
    bytes: &'a [u8],
}

impl<'a> Model for Cursor<'a> {
    ghost use Rattle.std.specs.Prelude.{ℕ, List};

    ghost Value = { List ℕ };

    ghost view = { λ a. a.bytes.now };
}

impl<'a> Cursor<'a> {
    /// All of a key.
    pub(crate) fn of(bytes: &'a [u8]) -> Cursor<'a>
        ensures { result ≡ bytes.now }
    {
        Cursor { bytes }
    }

    /// The bytes that are left.
    pub(crate) fn left(&self) -> &'a [u8]
        ensures { result.now ≡ self.now }
    {
        self.bytes
    }

    /// Takes this many bytes.
    pub(crate) fn part(&mut self, count: usize) -> &'a [u8]
        requires { count ≤ length self.old }
        ensures part { result.now ≡ take count self.old }
        ensures rest { self.new ≡ drop count self.old }
    {
        let bytes = self.bytes;
        self.bytes = &bytes[count..];
        &bytes[..count]
    }

    /// Takes a byte.
    pub(crate) fn byte(&mut self) -> u8
        requires { self.old ≡ [] → ⊥ }
        ensures { self.old ≡ result ∷ self.new }
    {
        let byte = self.bytes[0];
        self.bytes = &self.bytes[1..];
        byte
    }

    /// Takes an unsigned number. It is inlined where it is called, as `signed` is.
    #[inline(always)]
    pub(crate) fn unsigned(&mut self) -> u64
        requires { (n : ℕ) × (rest : List ℕ) × (n < 2 ^ 64) × (self.old ≡ unsigned_key n ++ rest) }
        ensures { (n : ℕ) (rest : List ℕ) → n < 2 ^ 64 → self.old ≡ unsigned_key n ++ rest → (result ≡ n) × (self.new ≡ rest) }
    {
        let (number, behind) = unsigned_in_front(self.bytes);
        self.bytes = behind;
        number
    }

    /// Takes a signed number. It is inlined where it is called, so that what is left of a list of points need not be in
    /// memory.
    #[inline(always)]
    pub(crate) fn signed(&mut self) -> i64
        requires { (x : ℤ) × (rest : List ℕ) × IsStep x × (self.old ≡ signed_key x ++ rest) }
        ensures { (x : ℤ) (rest : List ℕ) → IsStep x → self.old ≡ signed_key x ++ rest → (result ≡ x) × (self.new ≡ rest) }
    {
        let (number, behind) = signed_in_front(self.bytes);
        self.bytes = behind;
        number
    }
}

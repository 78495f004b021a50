//! Numbers of a line, put together before a sink takes them at once.

ghost use Rattle.std.specs.Prelude.{◌≡◌, ◌+◌, ◌*◌, ◌<◌, ◌≤◌, [], ◌∷◌, ◌++◌, length, flat_map, decimal};
ghost use Rattle.std.specs.Fmt.{signed_decimal};
ghost use Rattle.oas_listing.specs.Listing.{pair};

use itoa::write_digits;
use oas_ring::Point;
use std::marker::Model;

/// Room for six numbers, each of at most 20 characters and after a space.
const ROOM: usize = 128;

/// Numbers, put together from the last to the first, as their digits are found. Contracts see their bytes.
#[derive(Drop)]
pub(crate) struct Numbers {
    bytes: [u8; ROOM],
    start: usize,
}

impl Model for Numbers {
    ghost use Rattle.std.specs.Prelude.{◌≤◌, List, ℕ, drop};

    ghost Value = { List ℕ };

    ghost view = { λ a. drop a.start a.bytes };

    ghost invariant = { λ a. a.start ≤ 128 };
}

impl Numbers {
    /// No numbers.
    #[inline(always)]
    pub(crate) fn new() -> Numbers
        ensures { result ≡ [] }
    {
        Numbers {
            bytes: [0; ROOM],
            start: ROOM,
        }
    }

    /// Their bytes.
    #[inline(always)]
    pub(crate) fn as_slice(&self) -> &[u8]
        ensures { result.now ≡ self.now }
    {
        &self.bytes[self.start..]
    }

    /// Puts a byte before them.
    #[inline(always)]
    fn prepend_byte(&mut self, byte: u8)
        requires { length self.old < 128 }
        ensures { self.new ≡ byte ∷ self.old }
    {
        self.start -= 1;
        self.bytes[self.start] = byte;
    }

    /// Puts a number before them.
    #[inline(always)]
    fn prepend_number(&mut self, value: u64)
        requires { length self.old + 20 ≤ 128 }
        ensures bytes { self.new ≡ decimal value ++ self.old }
        ensures short { length self.new ≤ length self.old + 20 }
    {
        self.start = write_digits(value, &mut self.bytes, self.start);
    }

    /// Puts a signed number before them.
    #[inline(always)]
    fn prepend_signed_number(&mut self, value: i64)
        requires { length self.old + 20 ≤ 128 }
        ensures bytes { self.new ≡ signed_decimal value ++ self.old }
        ensures short { length self.new ≤ length self.old + 20 }
    {
        self.prepend_number(value.unsigned_abs());
        if value < 0 {
            self.prepend_byte(b'-');
        }
    }

    /// Puts numbers before them, each after a space.
    #[inline(always)]
    pub(crate) fn prepend_numbers(&mut self, values: &[u64])
        requires { length self.old + 21 * length values.now ≤ 128 }
        ensures bytes { self.new ≡ flat_map (λ n. 32 ∷ decimal n) values.now ++ self.old }
        ensures short { length self.new ≤ length self.old + 21 * length values.now }
    {
        for i in (0..values.len()).rev() {
            self.prepend_number(values[i]);
            self.prepend_byte(b' ');
        }
    }

    /// Puts signed numbers before them, each after a space.
    #[inline(always)]
    pub(crate) fn prepend_signed_numbers(&mut self, values: &[i64])
        requires { length self.old + 21 * length values.now ≤ 128 }
        ensures bytes { self.new ≡ flat_map (λ z. 32 ∷ signed_decimal z) values.now ++ self.old }
        ensures short { length self.new ≤ length self.old + 21 * length values.now }
    {
        for i in (0..values.len()).rev() {
            self.prepend_signed_number(values[i]);
            self.prepend_byte(b' ');
        }
    }

    /// Puts a point before them, after a space.
    #[inline(always)]
    pub(crate) fn prepend_point(&mut self, point: Point)
        requires { length self.old + 42 ≤ 128 }
        ensures { self.new ≡ (32 ∷ pair point) ++ self.old }
    {
        self.prepend_signed_number(point.y);
        self.prepend_byte(b',');
        self.prepend_signed_number(point.x);
        self.prepend_byte(b' ');
    }
}

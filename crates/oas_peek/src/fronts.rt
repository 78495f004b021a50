//! The bytes that are left, read from the start.
ghost use Rattle.std.specs.Prelude.{◌≡◌, ◌≤◌, ◌++◌, length, true, IfSome};
ghost use Rattle.oas_record.specs.Kinds.{number, signed};
ghost use Rattle.oas_record.specs.Trees.{there};
ghost use Rattle.oas_peek.specs.Fronts.{ConsumesByte, ConsumesPrefix, behind, noted};

use std::marker::Model;

/// The bytes that are left, and whether all before them was spelled in the shortest style. Where nothing is returned this has
/// no meaning.
#[derive(Drop)]
pub(crate) struct Front<'a> {
    left: &'a [u8],
    shortest: bool,
}

impl<'a> Model for Front<'a> {
    ghost use Rattle.oas_peek.specs.Fronts.{Left};

    ghost Value = { Left };

    ghost view = { λ a. record { bytes = a.left.now; shortest = a.shortest } };
}

impl<'a> Front<'a> {
    /// All of these bytes.
    #[inline]
    pub(crate) fn of(bytes: &'a [u8]) -> Front<'a>
        ensures { result ≡ record { bytes = bytes.now; shortest = true } }
    {
        Front {
            left: bytes,
            shortest: true,
        }
    }

    /// The bytes that are left.
    #[inline]
    pub(crate) fn left(&self) -> &'a [u8]
        ensures { result.now ≡ self.now.bytes }
    {
        self.left
    }

    /// Whether all before them was spelled in the shortest style.
    #[inline]
    pub(crate) fn is_shortest(&self) -> bool
        ensures { result ≡ self.now.shortest }
    {
        self.shortest
    }

    /// Takes a byte.
    #[inline]
    pub(crate) fn byte(&mut self) -> Option<u8>
        ensures { IfSome result (λ b. ConsumesByte b self.old self.new) }
    {
        let (first, left) = self.left.split_first()?;
        self.left = left;
        Some(*first)
    }

    /// Takes this many bytes, whatever they are.
    #[inline]
    pub(crate) fn bytes(&mut self, count: u64) -> Option<&'a [u8]>
        ensures { IfSome result (λ taken. (length taken.now ≡ count) × (self.old.bytes ≡ taken.now ++ self.new.bytes) × (self.new.shortest ≡ self.old.shortest)) }
    {
        if count > self.left.len() as u64 {
            return None;
        }
        let (taken, left) = self.left.split_at(count as usize);
        self.left = left;
        Some(taken)
    }

    /// Records whether what was taken last is spelled in the shortest style.
    #[inline]
    pub(crate) fn note(&mut self, shortest: bool)
        ensures { self.new ≡ noted shortest self.old }
    {
        self.shortest = self.shortest && shortest;
    }

    /// Takes the bytes of a number after its first one, up to eight of them, so that it is below 2^63.
    ///
    /// It is inlined with its loop, which is then unrolled, and what is left of the bytes stays in registers.
    #[inline(always)]
    fn longer(&mut self, first: u8) -> Option<u64>
        requires { 128 ≤ first }
        ensures { IfSome result (λ n. ConsumesPrefix number n (behind first self.old) self.new) }
    {
        let mut value = u64::from(first % 128);
        let mut weight: u64 = 128;
        for _ in 0..8u8 {
            let byte = self.byte()?;
            value += u64::from(byte % 128) * weight;
            if byte < 128 {
                self.note(byte != 0);
                return Some(value);
            }
            weight *= 128;
        }
        None
    }

    /// Takes an unsigned number of at most nine bytes (SEMI P39, Unsigned integers).
    #[inline(always)]
    pub(crate) fn unsigned(&mut self) -> Option<u64>
        ensures { IfSome result (λ n. ConsumesPrefix number n self.old self.new) }
    {
        let first = self.byte()?;
        if first < 128 {
            return Some(u64::from(first));
        }
        self.longer(first)
    }

    /// Takes a signed number of at most nine bytes (SEMI P39, Signed integers). Minus zero isn't the shortest zero.
    #[inline(always)]
    pub(crate) fn signed(&mut self) -> Option<i64>
        ensures { IfSome result (λ z. ConsumesPrefix signed z self.old self.new) }
    {
        let coded = self.unsigned()?;
        let magnitude = (coded / 2) as i64;
        self.note(coded != 1);
        // Only the value depends on the sign, so that no jump is guessed wrongly.
        if coded % 2 == 0 {
            Some(magnitude)
        } else {
            Some(-magnitude)
        }
    }

    /// Takes an unsigned number, where there is one.
    #[inline(always)]
    pub(crate) fn unsigned_if(&mut self, here: bool) -> Option<Option<u64>>
        ensures { IfSome result (λ n. ConsumesPrefix (there here number) n self.old self.new) }
    {
        if here {
            Some(Some(self.unsigned()?))
        } else {
            Some(None)
        }
    }

    /// Takes a signed number, where there is one.
    #[inline(always)]
    pub(crate) fn signed_if(&mut self, here: bool) -> Option<Option<i64>>
        ensures { IfSome result (λ z. ConsumesPrefix (there here signed) z self.old self.new) }
    {
        if here {
            Some(Some(self.signed()?))
        } else {
            Some(None)
        }
    }
}

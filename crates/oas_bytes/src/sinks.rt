//! Sinks, and a sink that counts its bytes.
ghost use Rattle.std.specs.Prelude.{◌≡◌, List, ℕ, [], ◌∷◌, ◌+◌, ◌≤◌, min, ◌-◌, ◌^◌, length};
ghost use Rattle.std.proofs.Common.{arith};
ghost use Rattle.oas_bytes.specs.Writing.{Writes};

use thiserror::Error;

/// Why a byte was not taken.
#[derive(Clone, Copy, Debug, Drop, PartialEq, Eq, Error)]
pub enum SinkFault {
    /// The device failed: it returned an error, or took none of some bytes.
    #[error("the output device failed")]
    Device,
}

/// Takes bytes, one after another.
pub trait Sink {
    /// Between two of its states it was given these bytes.
    ghost given: { Self → List ℕ → Self → Type 0 };

    /// How often it failed.
    ghost failures: { Self → ℕ };

    /// Takes a byte.
    fn put(&mut self, byte: u8) -> Result<(), SinkFault>
        ensures { Writes given failures self.old (byte ∷ []) result self.new };

    /// Takes bytes in order. A sink that can take many at once has a faster way.
    fn put_all(&mut self, bytes: &[u8]) -> Result<(), SinkFault>
        ensures { Writes given failures self.old bytes.now result self.new }
    {
        for byte in bytes {
            self.put(*byte)?;
        }
        Ok(())
    }

    /// Takes two bytes. A sink that has a buffer can test once whether there is room for both.
    #[inline(always)]
    fn put_two(&mut self, first: u8, second: u8) -> Result<(), SinkFault>
        ensures { Writes given failures self.old (first ∷ second ∷ []) result self.new }
    {
        self.put_all(&[first, second])
    }

    /// Takes three bytes.
    #[inline(always)]
    fn put_three(&mut self, first: u8, second: u8, third: u8) -> Result<(), SinkFault>
        ensures { Writes given failures self.old (first ∷ second ∷ third ∷ []) result self.new }
    {
        self.put_all(&[first, second, third])
    }

    /// Takes four bytes.
    #[inline(always)]
    fn put_four(&mut self, first: u8, second: u8, third: u8, fourth: u8) -> Result<(), SinkFault>
        ensures { Writes given failures self.old (first ∷ second ∷ third ∷ fourth ∷ []) result self.new }
    {
        self.put_all(&[first, second, third, fourth])
    }

    /// A sink to which nothing was put was given nothing.
    ghost none_given: { (s : Self) → given s [] s };
}

/// Counts the bytes that it is given. The count stops at `u64::MAX`.
#[derive(Clone, Copy, Debug)]
pub struct Counter {
    count: u64,
    ghost within: { count ≤ 2 ^ 64 - 1 },
}

impl Counter {
    /// A counter that was given nothing.
    pub fn new() -> Counter
        ensures { result.count ≡ 0 }
    {
        Counter { count: 0 }
    }

    /// How many bytes it was given.
    pub fn count(&self) -> u64
        ensures { result ≡ self.now.count }
    {
        self.count
    }
}

impl Sink for Counter {
    ghost given = { λ s bytes t. t.count ≡ min (s.count + length bytes) (2 ^ 64 - 1) };

    ghost failures = { λ _. 0 };

    ghost none_given = { λ s. omega (arith, s.within) };

    fn put(&mut self, _byte: u8) -> Result<(), SinkFault> {
        self.count = self.count.saturating_add(1);
        Ok(())
    }

    fn put_all(&mut self, bytes: &[u8]) -> Result<(), SinkFault> {
        self.count = self.count.saturating_add(bytes.len() as u64);
        Ok(())
    }
}

//! Bytes, put many times in a row.

ghost use Rattle.std.specs.Prelude.{◌≡◌, ◌+◌, ◌*◌, ◌≤◌, ◌<◌, [], ◌++◌, length};
ghost use Rattle.std.specs.List.{repeat};
ghost use Rattle.oas_num.specs.Writing.{Writes};

use oas_num::{Sink, SinkFault};
use std::marker::Model;

/// How many bytes a batch has room for.
const SIZE: usize = 4096;

/// A sink that holds at most `SIZE` bytes, on the stack. It fails at the first for which it has no room. Contracts see it as
/// the list of its bytes.
#[derive(Drop)]
pub(crate) struct Batch {
    bytes: [u8; SIZE],
    held: usize,
}

impl Model for Batch {
    ghost use Rattle.std.specs.Prelude.{List, ℕ, ◌≤◌, take};

    ghost Value = { List ℕ };

    ghost view = { λ b. take b.held b.bytes };

    ghost invariant = { λ b. b.held ≤ 4096 };
}

impl Sink for Batch {
    ghost use Rattle.std.specs.Prelude.{◌≡◌, ◌++◌, length, ◌==◌, if◌then◌else◌};
    ghost use Rattle.std.proofs.Common.{append-nil, sym};

    ghost given = { λ b bytes c. c ≡ b ++ bytes };

    ghost failures = { λ b. if length b == 4096 then 1 else 0 };

    ghost none_given = { λ b. sym (append-nil b) };

    #[inline]
    fn put(&mut self, byte: u8) -> Result<(), SinkFault> {
        if self.held == SIZE {
            return Err(SinkFault::Device);
        }
        self.bytes[self.held] = byte;
        self.held += 1;
        Ok(())
    }
}

impl Batch {
    /// An empty one.
    pub(crate) fn new() -> Batch
        ensures { result ≡ [] }
    {
        Batch {
            bytes: [0; SIZE],
            held: 0,
        }
    }

    /// The bytes.
    fn as_slice(&self) -> &[u8]
        ensures value { result.now ≡ self.now }
        ensures fits { length result.now ≤ 4096 }
    {
        &self.bytes[..self.held]
    }

    /// Puts its bytes behind themselves.
    fn double(&mut self)
        requires { length self.old + length self.old ≤ 4096 }
        ensures { self.new ≡ self.old ++ self.old }
    {
        self.bytes.copy_within(..self.held, self.held);
        self.held *= 2;
    }

    /// Doubles its bytes as long as there is room for that and they are there fewer than this many times. Returns how often
    /// they are there then.
    fn multiply(&mut self, times: u64) -> u64
        requires { 0 < length self.old }
        ensures some { 0 < result }
        ensures repeated { self.new ≡ repeat result self.old }
    {
        let mut copies = 1;
        while copies < times && self.held <= SIZE / 2 {
            self.double();
            copies *= 2;
        }
        copies
    }

    /// Puts its bytes into another sink this many times: as many at once as there is room for here, and then the rest.
    pub(crate) fn put_times<K: Sink>(&mut self, sink: &mut K, times: u64) -> Result<(), SinkFault>
        requires { 0 < length self.old }
        ensures { Writes K.given K.failures sink.old (repeat times self.old) result sink.new }
    {
        let size = self.as_slice().len();
        let copies = self.multiply(times);
        let all = self.as_slice();
        put_repeated(sink, all, times / copies)?;
        sink.put_all(&all[..(times % copies) as usize * size])
    }
}

/// Puts bytes this many times.
fn put_repeated<K: Sink>(sink: &mut K, bytes: &[u8], times: u64) -> Result<(), SinkFault>
    ensures { Writes K.given K.failures sink.old (repeat times bytes.now) result sink.new }
{
    for _ in 0..times {
        sink.put_all(bytes)?;
    }
    Ok(())
}

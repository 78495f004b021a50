//! A caller's room, filled with bytes as far as they fit.
ghost use Rattle.std.specs.Prelude.{◌≡◌, ◌≤◌, ◌-◌, ◌^◌, []};
ghost use Rattle.oascanon_c.specs.Rooms.{answer_of};

use crate::answers::Answer;
use oas_prepare::{Sink, SinkFault};

/// Puts the bytes that it is given into the room, one after another, drops those for which there is none, and counts all.
/// At `u64::MAX` the count stays there.
#[derive(Drop)]
pub(crate) struct Filler<'a> {
    room: &'a mut [u8],
    filled: usize,
    given: u64,
    ghost within: { given ≤ 2 ^ 64 - 1 },
}

impl<'a> Filler<'a> {
    ghost use Rattle.oascanon_c.specs.Filling.{HasPut};

    /// One that was given nothing.
    pub(crate) fn new(room: &'a mut [u8]) -> Filler<'a>
        ensures same { result.room ≡ room.entry }
        ensures none { HasPut result room.old [] }
    {
        Filler {
            room,
            filled: 0,
            given: 0,
        }
    }

    /// What is told of the bytes that it was given.
    pub(crate) fn answer(&self) -> Answer
        ensures { result ≡ answer_of self.now.given self.now.room.now }
    {
        if self.given <= self.room.len() as u64 {
            Answer::Done(self.given)
        } else {
            Answer::TooSmall(self.given)
        }
    }
}

impl Sink for Filler<'_> {
    ghost use Rattle.oascanon_c.specs.Filling.{Fills};
    ghost use Rattle.oascanon_c.specs.Laws.FillingLaws.{Fills-none};

    ghost given = { Fills };

    ghost failures = { λ _. 0 };

    ghost none_given = { Fills-none };

    #[inline]
    fn put(&mut self, byte: u8) -> Result<(), SinkFault> {
        if self.filled < self.room.len() {
            self.room[self.filled] = byte;
            self.filled += 1;
        }
        self.given = self.given.saturating_add(1);
        Ok(())
    }

    /// Bytes for which the room has place are copied at once.
    #[inline]
    fn put_all(&mut self, bytes: &[u8]) -> Result<(), SinkFault> {
        if self.filled < self.room.len() {
            let fits = bytes.len().min(self.room.len() - self.filled);
            let end = self.filled + fits;
            self.room[self.filled..end].copy_from_slice(&bytes[..fits]);
            self.filled = end;
        }
        self.given = self.given.saturating_add(bytes.len() as u64);
        Ok(())
    }
}

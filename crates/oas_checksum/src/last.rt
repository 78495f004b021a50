//! The last bytes that were given.
ghost use Rattle.std.specs.Prelude.{◌≡◌, ◌≤◌, []};
ghost use Rattle.oas_checksum.specs.Signing.{Shifts};

use std::marker::Model;

/// The last four bytes, or all where there are fewer. Contracts see them as a list.
#[derive(Drop)]
pub(crate) struct LastFour {
    /// They are the most significant bytes of it, with the last one on top.
    number: u32,
    count: u8,
    ghost four: { count ≤ 4 },
}

impl Model for LastFour {
    ghost use Rattle.std.specs.Prelude.{ℕ, List};
    ghost use Rattle.oas_checksum.specs.Signing.{held};

    ghost Value = { List ℕ };

    ghost view = { λ l. held l.number l.count };
}

impl LastFour {
    /// None.
    pub(crate) fn new() -> LastFour
        ensures { result ≡ [] }
    {
        LastFour {
            number: 0,
            count: 0,
        }
    }

    /// Adds one more byte, and returns the one that is no longer among the last four.
    pub(crate) fn push(&mut self, byte: u8) -> Option<u8>
        ensures { Shifts self.old byte result self.new }
    {
        let first = (self.number % 256) as u8;
        self.number = self.number / 256 + u32::from(byte) * 0x0100_0000;
        if self.count < 4 {
            self.count += 1;
            return None;
        }
        Some(first)
    }
}

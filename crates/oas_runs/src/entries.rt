//! The entries of a run, in order.

ghost use Rattle.std.specs.Prelude.{◌≡◌, [], ◌++◌, length, drop};
ghost use Rattle.std.specs.Iterator.{at_most};
ghost use Rattle.std.specs.Map.Iter.{TakesFirst};
ghost use Rattle.oas_runs.specs.Entries.{key_and_count, entries, IsBlock};
ghost use Rattle.oas_runs.specs.Blocks.{joined, NoneEmpty};

use crate::blocks::Blocks;
use crate::entry::{after, read_entry};
use std::marker::Model;

/// Keys ascending, each with its count; contracts see the list of those to come.
#[derive(Drop)]
pub struct Entries<'a> {
    left: &'a [u8],
    blocks: &'a Blocks,
    next: usize,
}

impl<'a> Model for Entries<'a> {
    ghost use Rattle.std.specs.Prelude.{◌≡◌, List, [], ◌++◌, drop};
    ghost use Rattle.oas_runs.specs.Entries.{Entry, entries, IsBlock};
    ghost use Rattle.oas_runs.specs.Blocks.{joined, NoneEmpty};

    ghost Value = { List Entry };

    ghost view = { λ a. entries a.left.now ++ joined (drop a.next a.blocks.now) };

    ghost invariant = { λ a. IsBlock a.left.now × NoneEmpty a.blocks.now × (entries a.left.now ≡ [] → drop a.next a.blocks.now ≡ []) };
}

impl<'a> Entries<'a> {
    /// The entries of these bytes, and then those of these blocks.
    pub(crate) fn of(left: &'a [u8], blocks: &'a Blocks) -> Entries<'a>
        requires left { IsBlock left.now }
        requires blocks { NoneEmpty blocks.now }
        requires first { entries left.now ≡ [] → blocks.now ≡ [] }
        ensures { result ≡ entries left.now ++ joined blocks.now }
    {
        Entries {
            left,
            blocks,
            next: 0,
        }
    }
}

impl<'a> Iterator for Entries<'a> {
    type Item = (&'a [u8], u64);

    ghost next_gives = { TakesFirst key_and_count };

    ghost remaining = { λ s. at_most (length s) };

    fn next(&mut self) -> Option<(&'a [u8], u64)> {
        let left = self.left;
        let entry = read_entry(left)?;
        self.left = after(left, entry.end);
        if self.left.is_empty() {
            if let Some(block) = self.blocks.get(self.next) {
                self.left = block.left();
                self.next += 1;
            }
        }
        Some((entry.key, entry.times))
    }
}

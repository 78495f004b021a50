//! A run of entries in blocks, from which the first can be taken.

ghost use Rattle.std.specs.Prelude.{◌≡◌, ◌+◌, ◌<◌, [], ◌∷◌, ◌++◌, List, ℕ, IfSome, IfNone, IfOk, IfErr, IsTrue, IsFalse};
ghost use Rattle.oas_runs.specs.Entries.{FirstHas};
ghost use Rattle.oas_runs.specs.Blocks.{joined, NoneEmpty};

use crate::block::Block;
use crate::blocks::Blocks;
use crate::entries::Entries;
use crate::entry::Entry;
use std::marker::Model;

/// Entries in blocks; contracts see the list of those that are left. A block that is used up is freed.
#[derive(Drop)]
pub struct Run {
    first: Block,
    rest: Blocks,
}

impl Model for Run {
    ghost use Rattle.std.specs.Prelude.{◌≡◌, List, [], ◌++◌};
    ghost use Rattle.oas_runs.specs.Entries.{Entry};
    ghost use Rattle.oas_runs.specs.Blocks.{joined, NoneEmpty};

    ghost Value = { List Entry };

    ghost view = { λ a. a.first ++ joined a.rest };

    ghost invariant = { λ a. NoneEmpty a.rest × (a.first ≡ [] → a.rest ≡ []) };
}

impl Run {
    /// The entries of these blocks. None except the first may be empty.
    pub(crate) fn of(first: Block, rest: Blocks) -> Run
        requires rest { NoneEmpty rest }
        requires first { first ≡ [] → rest ≡ [] }
        ensures { result ≡ first ++ joined rest }
    {
        Run { first, rest }
    }

    /// The entries of one block.
    pub fn of_block(block: Block) -> Run
        ensures { result ≡ block }
    {
        Run {
            first: block,
            rest: Blocks::new(),
        }
    }

    /// Its block, where it has only one; else the run.
    pub fn into_block(self) -> Result<Block, Run>
        ensures ok { IfOk result (λ block. block ≡ self) }
        ensures err { IfErr result (λ run. run ≡ self) }
    {
        if !self.rest.is_empty() {
            return Err(self);
        }
        let Run { first, .. } = self;
        Ok(first)
    }

    /// About how many bytes its blocks have.
    pub fn size(&self) -> usize {
        self.first.size().saturating_add(self.rest.size())
    }

    /// Whether no entry is left.
    pub fn is_empty(&self) -> bool
        ensures over { IsTrue result → self.now ≡ [] }
        ensures left { IsFalse result → self.now ≡ [] → ⊥ }
    {
        self.first.is_empty()
    }

    /// The first entry that is left.
    #[inline(always)]
    pub fn first(&self) -> Option<Entry<'_>>
        ensures none { IfNone result (self.now ≡ []) }
        ensures some { IfSome result (λ e. (es : List (List ℕ × ℕ)) × (self.now ≡ (e.key.now, e.times) ∷ es)) }
        ensures end { IfSome result (λ e. FirstHas e.end self.now) }
    {
        self.first.first()
    }

    /// The entries that are left.
    pub fn entries(&self) -> Entries<'_>
        ensures { result ≡ self.now }
    {
        Entries::of(self.first.left(), &self.rest)
    }

    /// Takes the first entry, which has this many bytes.
    #[inline(always)]
    pub fn pass(&mut self, end: usize)
        requires { FirstHas end self.old }
        ensures { (p : List ℕ × ℕ) × (self.old ≡ p ∷ self.new) }
    {
        self.first.pass(end);
        if self.first.is_empty() {
            next_block(&mut self.first, &mut self.rest);
        }
    }
}

/// Puts the next block in place of the first, which is used up, and frees that.
#[inline(never)]
fn next_block(first: &mut Block, rest: &mut Blocks)
    requires over { first.old ≡ [] }
    requires rest { NoneEmpty rest.old }
    ensures same { first.new ++ joined rest.new ≡ joined rest.old }
    ensures rest { NoneEmpty rest.new }
    ensures first { first.new ≡ [] → rest.new ≡ [] }
{
    if let Some(next) = rest.pop_front() {
        *first = next;
    }
}

//! A run of entries that is being written.

ghost use Rattle.std.specs.Prelude.{◌≡◌, ◌+◌, ◌<◌, ◌^◌, [], ◌∷◌, ◌++◌, List, ℕ, OnOk, OnErr, IfOk, IfSome, IfNone, IsTrue, IsFalse};
ghost use Rattle.oas_runs.specs.Blocks.{joined};

use crate::block::Block;
use crate::blocks::Blocks;
use crate::entry::{Entry, SHORT_HEAD};
use crate::run::Run;
use std::alloc::{AllocError, Global};
use std::marker::Model;
use std::mem;

/// Entries in blocks, the last of which grows.
#[derive(Drop)]
pub struct Growing {
    full: Blocks,
    last: Block,
    size: usize,
    /// Where the last entry begins in the last block.
    at: usize,
}

impl Model for Growing {
    ghost use Rattle.std.specs.Prelude.{◌≡◌, List, [], ◌++◌};
    ghost use Rattle.oas_runs.specs.Entries.{Entry, LastBegins};
    ghost use Rattle.oas_runs.specs.Blocks.{joined, NoneEmpty};

    ghost Value = { List Entry };

    ghost view = { λ a. joined a.full ++ a.last };

    ghost invariant = { λ a. NoneEmpty a.full × (a.last ≡ [] → a.full ≡ []) × LastBegins a.at a.last };
}

impl Growing {
    /// No entries, and no memory.
    pub fn new(alloc: Global) -> Growing
        ensures { result ≡ [] }
    {
        Growing {
            full: Blocks::new(),
            last: Block::new(alloc),
            size: 0,
            at: 0,
        }
    }

    /// No entries, with memory for this many bytes, or for a first block of them, reserved at once.
    pub fn with_bytes(alloc: Global, bytes: usize) -> Result<Growing, AllocError>
        ensures { IfOk result (λ growing. growing ≡ []) }
    {
        let last = Block::with_bytes(alloc, bytes)?;
        Ok(Growing {
            full: Blocks::new(),
            last,
            size: 0,
            at: 0,
        })
    }

    /// Puts an entry at the end.
    #[inline(always)]
    pub fn append(&mut self, alloc: Global, key: &[u8], times: u64) -> Result<(), AllocError>
        ensures ok { OnOk result (self.new ≡ self.old ++ (key.now, times) ∷ []) }
        ensures err { OnErr result (self.new ≡ self.old) }
    {
        if self.last.has_room(key.len()) {
            let at = self.last.len();
            self.last.append(key, times)?;
            self.at = at;
        } else {
            begin_block(alloc, &mut self.full, &mut self.last, key, times)?;
            self.at = 0;
        }
        self.size = size_with(self.size, key);
        Ok(())
    }

    /// Whether there are no entries.
    #[inline(always)]
    pub fn is_empty(&self) -> bool
        ensures none { IsTrue result → self.now ≡ [] }
        ensures some { IsFalse result → self.now ≡ [] → ⊥ }
    {
        self.last.is_empty()
    }

    /// The last entry.
    #[inline(always)]
    pub fn last(&self) -> Option<Entry<'_>>
        ensures none { IfNone result (self.now ≡ []) }
        ensures some { IfSome result (λ e. (es : List (List ℕ × ℕ)) × (self.now ≡ es ++ (e.key.now, e.times) ∷ [])) }
    {
        self.last.last(self.at)
    }

    /// Adds to the count of the last entry, or changes nothing.
    pub fn count_last(&mut self, alloc: Global, more: u64) -> Result<(), AllocError>
        requires some { self.old ≡ [] → ⊥ }
        requires fits { (ps : List (List ℕ × ℕ)) (p : List ℕ × ℕ) → self.old ≡ ps ++ p ∷ [] → p.1 + more < 2 ^ 64 }
        ensures ok { OnOk result ((ps : List (List ℕ × ℕ)) (p : List ℕ × ℕ) → self.old ≡ ps ++ p ∷ [] → self.new ≡ ps ++ (p.0, p.1 + more) ∷ []) }
        ensures err { OnErr result (self.new ≡ self.old) }
    {
        self.last.count_last(alloc, self.at, more)?;
        Ok(())
    }

    /// Gives back idle memory of the last block.
    pub fn fit(&mut self, alloc: Global)
        ensures { self.new ≡ self.old }
    {
        self.last.fit(alloc);
    }

    /// How many bytes were put, about.
    pub fn size(&self) -> usize {
        self.size
    }

    /// The run that was written.
    pub fn into_run(self) -> Run
        ensures { result ≡ self }
    {
        let Growing { mut full, last, .. } = self;
        let first = full.turn(last);
        Run::of(first, full)
    }
}

/// About how many bytes there are with one more entry: its numbers may take more.
#[inline(always)]
fn size_with(size: usize, key: &[u8]) -> usize {
    size.saturating_add(key.len()).saturating_add(SHORT_HEAD)
}

/// Puts the last block among the full ones, and begins another with an entry; or changes nothing.
#[inline(never)]
fn begin_block(
    alloc: Global,
    full: &mut Blocks,
    last: &mut Block,
    key: &[u8],
    times: u64,
) -> Result<(), AllocError>
    ensures full { OnOk result (full.new ≡ full.old ++ last.old ∷ []) }
    ensures last { OnOk result (last.new ≡ (key.now, times) ∷ []) }
    ensures err { OnErr result ((full.new ≡ full.old) × (last.new ≡ last.old)) }
{
    let block = block_of(alloc, key, times)?;
    let before = mem::replace(last, block);
    if let Err(before) = full.push_back(alloc, before) {
        *last = before;
        return Err(AllocError);
    }
    Ok(())
}

/// A block with one entry.
#[inline(never)]
fn block_of(alloc: Global, key: &[u8], times: u64) -> Result<Block, AllocError>
    ensures { IfOk result (λ block. block ≡ (key.now, times) ∷ []) }
{
    let mut block = Block::with_room(alloc, key.len())?;
    block.append(key, times)?;
    Ok(block)
}

//! A block of bytes that holds entries, the first of which may have been taken.

ghost use Rattle.std.specs.Prelude.{◌≡◌, ◌+◌, ◌<◌, ◌≤◌, ◌^◌, [], ◌∷◌, ◌++◌, List, ℕ, OnOk, OnErr, IfOk, IfSome, IfNone, IsTrue, IsFalse, length};
ghost use Rattle.oas_runs.specs.Entries.{FirstHas, LastBegins, IsBlock, block_bytes, entries};

use crate::entry::{Entry, after, is_over, push_entry, read_entry};
use crate::recount::count_last;
use crate::room::reserve_more;
use std::alloc::{AllocError, Global};
use std::marker::Model;

/// How many bytes a block holds, unless one entry is longer.
pub const BLOCK: usize = 65536;

/// How many bytes of an entry are not its key, at most.
const MARGIN: usize = 18;

/// Entries in a row of bytes; contracts see the list of those that are left.
#[derive(Drop)]
pub struct Block {
    bytes: Vec<u8>,
    start: usize,
}

impl Model for Block {
    ghost use Rattle.std.specs.Prelude.{◌≤◌, List, drop, length};
    ghost use Rattle.oas_runs.specs.Entries.{Entry, IsBlock, entries};

    ghost Value = { List Entry };

    ghost view = { λ a. entries (drop a.start a.bytes.items) };

    ghost invariant = { λ a. (a.start ≤ length a.bytes.items) × IsBlock (drop a.start a.bytes.items) };
}

impl Block {
    /// No entries, and no memory.
    pub fn new(alloc: Global) -> Block
        ensures { result ≡ [] }
    {
        Block {
            bytes: Vec::new(alloc),
            start: 0,
        }
    }

    /// No entries, with room for one with a key of this many bytes, or for many.
    pub(crate) fn with_room(alloc: Global, key_len: usize) -> Result<Block, AllocError>
        ensures { IfOk result (λ block. block ≡ []) }
    {
        let size = key_len.saturating_add(MARGIN).max(BLOCK);
        let bytes = Vec::with_capacity(alloc, size)?;
        Ok(Block { bytes, start: 0 })
    }

    /// No entries, with room for this many bytes, but for no more than a block holds.
    pub(crate) fn with_bytes(alloc: Global, bytes: usize) -> Result<Block, AllocError>
        ensures { IfOk result (λ block. block ≡ []) }
    {
        let bytes = Vec::with_capacity(alloc, bytes.min(BLOCK))?;
        Ok(Block { bytes, start: 0 })
    }

    /// How many bytes there are.
    pub fn size(&self) -> usize {
        self.bytes.len()
    }

    /// How many bytes the entries that are left have.
    #[inline(always)]
    pub(crate) fn len(&self) -> usize
        ensures { result ≡ length (block_bytes self.now) }
    {
        self.left().len()
    }

    /// Drops all entries, and keeps the memory.
    pub fn clear(&mut self)
        ensures { self.new ≡ [] }
    {
        self.bytes.clear();
        self.start = 0;
    }

    /// Whether no entry is left.
    pub fn is_empty(&self) -> bool
        ensures over { IsTrue result → self.now ≡ [] }
        ensures left { IsFalse result → self.now ≡ [] → ⊥ }
    {
        is_over(self.left())
    }

    /// Whether one more entry fits into this block. Where there are none it does.
    pub(crate) fn has_room(&self, key_len: usize) -> bool
        ensures { IsFalse result → self.now ≡ [] → ⊥ }
    {
        let size = self.bytes.len().saturating_add(key_len);
        size.saturating_add(MARGIN) <= BLOCK || self.is_empty()
    }

    /// Puts an entry at the end.
    #[inline(always)]
    pub fn append(&mut self, key: &[u8], times: u64) -> Result<(), AllocError>
        ensures ok { OnOk result (self.new ≡ self.old ++ (key.now, times) ∷ []) }
        ensures err { OnErr result (self.new ≡ self.old) }
    {
        push_entry(&mut self.bytes, key, times)?;
        Ok(())
    }

    /// Puts the entries of another block at the end.
    pub fn append_all(&mut self, more: &Block) -> Result<(), AllocError>
        ensures ok { OnOk result (self.new ≡ self.old ++ more.now) }
        ensures err { OnErr result (self.new ≡ self.old) }
    {
        let left = more.left();
        reserve_more(&mut self.bytes, left.len())?;
        self.bytes.extend_from_slice(left)?;
        Ok(())
    }

    /// Gives back idle memory: the bytes move into memory of just their size, which leaves no small hole behind them. If out of
    /// memory nothing changes.
    pub fn fit(&mut self, alloc: Global)
        ensures { self.new ≡ self.old }
    {
        if let Ok(bytes) = Vec::from_slice(alloc, &self.bytes) {
            self.bytes = bytes;
        }
    }

    /// The same entries, in memory of just their size. If out of memory it is the block itself.
    pub fn fitted(self, alloc: Global) -> Block
        ensures { result ≡ self }
    {
        match Vec::from_slice(alloc, self.left()) {
            Ok(bytes) => Block { bytes, start: 0 },
            Err(_) => self,
        }
    }

    /// The bytes of the entries that are left.
    pub fn left(&self) -> &[u8]
        ensures is { entries result.now ≡ self.now }
        ensures block { IsBlock result.now }
    {
        after(&self.bytes, self.start)
    }

    /// The first entry that is left.
    pub fn first(&self) -> Option<Entry<'_>>
        ensures none { IfNone result (self.now ≡ []) }
        ensures some { IfSome result (λ e. (es : List (List ℕ × ℕ)) × (self.now ≡ (e.key.now, e.times) ∷ es)) }
        ensures end { IfSome result (λ e. FirstHas e.end self.now) }
    {
        read_entry(after(&self.bytes, self.start))
    }

    /// Takes the first entry, which has this many bytes.
    #[inline(always)]
    pub(crate) fn pass(&mut self, end: usize)
        requires { FirstHas end self.old }
        ensures { (p : List ℕ × ℕ) × (self.old ≡ p ∷ self.new) }
    {
        self.start += end;
    }

    /// The last entry, which begins after this many of the bytes that are left.
    #[inline(always)]
    pub(crate) fn last(&self, at: usize) -> Option<Entry<'_>>
        requires { LastBegins at self.now }
        ensures none { IfNone result (self.now ≡ []) }
        ensures some { IfSome result (λ e. (es : List (List ℕ × ℕ)) × (self.now ≡ es ++ (e.key.now, e.times) ∷ [])) }
    {
        read_entry(after(self.left(), at))
    }

    /// Adds to the count of the last entry, which begins after this many of the bytes that are left; or changes nothing.
    pub(crate) fn count_last(
        &mut self,
        alloc: Global,
        at: usize,
        more: u64,
    ) -> Result<(), AllocError>
        requires begins { LastBegins at self.old }
        requires some { self.old ≡ [] → ⊥ }
        requires fits { (ps : List (List ℕ × ℕ)) (p : List ℕ × ℕ) → self.old ≡ ps ++ p ∷ [] → p.1 + more < 2 ^ 64 }
        ensures ok { OnOk result ((ps : List (List ℕ × ℕ)) (p : List ℕ × ℕ) → self.old ≡ ps ++ p ∷ [] → self.new ≡ ps ++ (p.0, p.1 + more) ∷ []) }
        ensures begins { LastBegins at self.new }
        ensures some { self.new ≡ [] → ⊥ }
        ensures err { OnErr result (self.new ≡ self.old) }
    {
        count_last(&mut self.bytes, alloc, self.start + at, more)?;
        Ok(())
    }
}

//! Rising runs: what is put at the end is above all that is there.

ghost use Rattle.std.specs.Prelude.{◌≡◌, ℕ, ◌+◌, ◌<◌, ◌^◌, List, [], ◌∷◌, ◌++◌, OnOk, OnErr, IfOk, IsTrue, IsFalse};
ghost use Rattle.std.specs.declared.cmp.Ordering.TheVariants.{Less, Equal};
ghost use Rattle.std.specs.Cmp.Lexicographic.{slice_cmp};
ghost use Rattle.std.specs.Ordering.{nat_cmp};
ghost use Rattle.oas_runs.specs.Runs.{copies, IsRun, SameTotals};
ghost use Rattle.oas_run_store.specs.Parts.{IsBelow, EndsWith};

use oas_runs::{Growing, Run, order_of};
use std::alloc::{AllocError, Global};
use std::cmp::Ordering;
use std::marker::Model;
use std::mem;

/// Entries that are written as they come, the last of which can be compared and counted.
#[derive(Drop)]
pub(crate) struct Rising {
    done: Growing,
}

impl Model for Rising {
    ghost use Rattle.std.specs.Prelude.{List};
    ghost use Rattle.oas_runs.specs.Entries.{Entry};

    ghost Value = { List Entry };

    ghost view = { λ a. a.done };
}

impl Rising {
    /// No entries, and no memory.
    pub(crate) fn new(alloc: Global) -> Rising
        ensures { result ≡ [] }
    {
        Rising {
            done: Growing::new(alloc),
        }
    }

    /// No entries, with memory for this many bytes of them, or for a first block, reserved at once.
    pub(crate) fn with_bytes(alloc: Global, bytes: usize) -> Result<Rising, AllocError>
        ensures { IfOk result (λ rising. rising ≡ []) }
    {
        let done = Growing::with_bytes(alloc, bytes)?;
        Ok(Rising { done })
    }

    /// Whether there are no entries.
    pub(crate) fn is_empty(&self) -> bool
        ensures { IsTrue result → self.now ≡ [] }
    {
        self.done.is_empty()
    }

    /// About how many bytes there are.
    pub(crate) fn size(&self) -> usize {
        self.done.size()
    }

    /// How the last key compares with a key; where there is none, it is less.
    #[inline(always)]
    fn order_of_last(&self, key: &[u8]) -> Ordering
        ensures below { result ≡ Less → IsBelow (slice_cmp nat_cmp) self.now key.now }
        ensures last { result ≡ Equal → EndsWith (slice_cmp nat_cmp) self.now key.now }
    {
        match self.done.last() {
            Some(last) => order_of(last.key, key),
            None => Ordering::Less,
        }
    }

    /// Puts an entry at the end, or nothing.
    #[inline(always)]
    pub(crate) fn push(&mut self, alloc: Global, key: &[u8], times: u64) -> Result<(), AllocError>
        ensures ok { OnOk result (self.new ≡ self.old ++ (key.now, times) ∷ []) }
        ensures err { OnErr result (self.new ≡ self.old) }
    {
        self.done.append(alloc, key, times)
    }

    /// Adds to the count of the last key, or nothing.
    fn count_last(&mut self, alloc: Global, times: u64) -> Result<(), AllocError>
        requires last { self.old ≡ [] → ⊥ }
        requires fits { (ps : List (List ℕ × ℕ)) (p : List ℕ × ℕ) → self.old ≡ ps ++ p ∷ [] → p.1 + times < 2 ^ 64 }
        ensures ok { OnOk result ((ps : List (List ℕ × ℕ)) (p : List ℕ × ℕ) → self.old ≡ ps ++ p ∷ [] → self.new ≡ ps ++ (p.0, p.1 + times) ∷ []) }
        ensures err { OnErr result (self.new ≡ self.old) }
    {
        self.done.count_last(alloc, times)
    }

    /// Puts an entry at the end, or adds it to the count of the last key where that is the same. Where the last key is above it,
    /// or if out of memory, it puts nothing. Returns whether it did.
    #[inline(always)]
    pub(crate) fn put(&mut self, alloc: Global, key: &[u8], times: u64) -> Result<bool, AllocError>
        requires some { 0 < times }
        requires run { IsRun (slice_cmp nat_cmp) self.old }
        requires fits { copies (slice_cmp nat_cmp) key.now self.old + times < 2 ^ 64 }
        ensures run { IsRun (slice_cmp nat_cmp) self.new }
        ensures put { IfOk result (λ put. IsTrue put → SameTotals self.new ((key.now, times) ∷ self.old)) }
        ensures above { IfOk result (λ put. IsFalse put → self.new ≡ self.old) }
        ensures err { OnErr result (self.new ≡ self.old) }
    {
        match self.order_of_last(key) {
            Ordering::Less => self.push(alloc, key, times)?,
            Ordering::Equal => self.count_last(alloc, times)?,
            Ordering::Greater => return Ok(false),
        }
        Ok(true)
    }

    /// Returns all of it as a run, and begins a new one.
    pub(crate) fn close(&mut self, alloc: Global) -> Run
        ensures run { result ≡ self.old }
        ensures emptied { self.new ≡ [] }
    {
        mem::replace(&mut self.done, Growing::new(alloc)).into_run()
    }

    /// Gives back idle memory.
    pub(crate) fn fit(&mut self, alloc: Global)
        ensures { self.new ≡ self.old }
    {
        self.done.fit(alloc);
    }
}

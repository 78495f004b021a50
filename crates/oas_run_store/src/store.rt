//! Keys with counts, in any order.

ghost use Rattle.std.specs.Prelude.{◌≡◌, ◌+◌, ◌<◌, ◌^◌, List, ℕ, [], OnOk, OnErr, IfOk, IfErr, IfSome, IfNone};
ghost use Rattle.std.specs.Cmp.Lexicographic.{slice_cmp};
ghost use Rattle.std.specs.Ordering.{nat_cmp};
ghost use Rattle.oas_elements.specs.Bag.{put_more};
ghost use Rattle.oas_runs.specs.Runs.{IsRun};
ghost use Rattle.oas_run_store.specs.Tally.{count_at};

use crate::adding::{LEAST, add_key};
use crate::rising::Rising;
use crate::settling::{settle, settle_all};
use oas_runs::{Block, Growing, Run};
use std::alloc::{AllocError, Global};
use std::marker::Model;

/// So many bytes of keys are few: what a store takes beside them is a large part of its memory.
const FEW: usize = 4096;

/// Keys with their counts; contracts see the list of both, with the keys ascending.
#[derive(Drop)]
pub struct KeyStore {
    alloc: Global,
    rising: Rising,
    loose: Block,
    runs: Vec<Run>,
    most: usize,
}

impl Model for KeyStore {
    ghost use Rattle.std.specs.Prelude.{List};
    ghost use Rattle.std.specs.Cmp.Lexicographic.{slice_cmp};
    ghost use Rattle.std.specs.Ordering.{nat_cmp};
    ghost use Rattle.oas_runs.specs.Entries.{Entry};
    ghost use Rattle.oas_run_store.specs.Tally.{tally};
    ghost use Rattle.oas_run_store.specs.Parts.{AreParts, contents};

    ghost Value = { List Entry };

    ghost view = { λ a. tally (slice_cmp nat_cmp) (contents a.rising a.loose a.runs.items) };

    ghost invariant = { λ a. AreParts (slice_cmp nat_cmp) a.rising a.loose a.runs.items };
}

impl KeyStore {
    /// No keys, and no memory.
    pub fn new(alloc: Global) -> KeyStore
        ensures { result ≡ [] }
    {
        KeyStore {
            alloc,
            rising: Rising::new(alloc),
            loose: Block::new(alloc),
            runs: Vec::new(alloc),
            most: LEAST,
        }
    }

    /// The keys of a block, each with its count, without allocation.
    pub fn of_block(alloc: Global, block: Block) -> KeyStore
        requires run { IsRun (slice_cmp nat_cmp) block }
        requires fits { (k : List ℕ) → count_at (slice_cmp nat_cmp) block k < 2 ^ 64 }
        ensures { result ≡ block }
    {
        KeyStore {
            alloc,
            rising: Rising::new(alloc),
            loose: block,
            runs: Vec::new(alloc),
            most: LEAST,
        }
    }

    /// Adds a key this many times; if out of memory, nothing.
    pub fn add(&mut self, key: &[u8], times: u64) -> Result<(), AllocError>
        requires some { 0 < times }
        requires room { count_at (slice_cmp nat_cmp) self.old key.now + times < 2 ^ 64 }
        ensures ok { OnOk result (self.new ≡ put_more (slice_cmp nat_cmp) self.old key.now times) }
        ensures err { OnErr result (self.new ≡ self.old) }
    {
        add_key(
            self.alloc,
            &mut self.rising,
            &mut self.loose,
            &mut self.runs,
            &mut self.most,
            key,
            times,
        )?;
        Ok(())
    }

    /// Puts all keys into runs, so that keys which come in order from now on are put into a run of their own, wherever it begins.
    /// If out of memory it may have put some.
    pub fn settle(&mut self) -> Result<(), AllocError>
        ensures { self.new ≡ self.old }
    {
        settle(
            self.alloc,
            &mut self.rising,
            &mut self.loose,
            &mut self.runs,
        )
    }

    /// Gives back memory that is idle as long as no key is added.
    pub fn rest(&mut self)
        ensures { self.new ≡ self.old }
    {
        self.rising.fit(self.alloc);
        self.loose.fit(self.alloc);
    }

    /// Whether the keys are few.
    fn has_few(&self) -> bool {
        let size = self.rising.size().saturating_add(self.loose.size());
        self.runs.is_empty() && size <= FEW
    }

    /// Takes the keys out, ascending in one block and each with its count, where they are few. Else, or if out of memory, it
    /// takes none.
    pub fn take_few(&mut self) -> Option<Block>
        ensures some { IfSome result (λ block. block ≡ self.old) }
        ensures run { IfSome result (λ block. IsRun (slice_cmp nat_cmp) block) }
        ensures none { IfNone result (self.new ≡ self.old) }
    {
        if !self.has_few() {
            return None;
        }
        if !settle_all(
            self.alloc,
            &mut self.rising,
            &mut self.loose,
            &mut self.runs,
        ) {
            return None;
        }
        let Some(run) = self.runs.pop() else {
            return Some(Block::new(self.alloc));
        };
        match run.into_block() {
            Ok(block) => Some(block.fitted(self.alloc)),
            Err(run) => {
                self.runs.push_reserved(run);
                None
            }
        }
    }

    /// The keys ascending, each with its count; or, if out of memory, the store unchanged.
    pub fn close(mut self) -> Result<Run, KeyStore>
        ensures ok { IfOk result (λ run. run ≡ self) }
        ensures run { IfOk result (λ run. IsRun (slice_cmp nat_cmp) run) }
        ensures err { IfErr result (λ store. store ≡ self) }
    {
        if !settle_all(
            self.alloc,
            &mut self.rising,
            &mut self.loose,
            &mut self.runs,
        ) {
            return Err(self);
        }
        match self.runs.pop() {
            Some(run) => Ok(run),
            None => Ok(Growing::new(self.alloc).into_run()),
        }
    }
}

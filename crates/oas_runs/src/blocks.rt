//! Blocks in a row.

ghost use Rattle.std.specs.Prelude.{◌≡◌, ◌+◌, ◌<◌, ◌^◌, ◌↔◌, [], ◌∷◌, ◌++◌, length, OnOk, IfErr, IfSome, IfNone, IsSome, IsTrue};
ghost use Rattle.std.specs.Slice.{IsItemAt};

use crate::block::Block;
use std::alloc::{AllocError, Global};
use std::collections::VecDeque;
use std::marker::Model;

/// Blocks in a row; contracts see the list of them. Most runs have one block, so where there are none here they take no memory
/// beside a pointer.
#[derive(Drop)]
pub(crate) struct Blocks {
    held: Option<Box<VecDeque<Block>>>,
}

impl Model for Blocks {
    ghost use Rattle.std.specs.Prelude.{List, []};
    ghost use Rattle.std.specs.Option.{option_map_or};
    ghost use Rattle.oas_runs.specs.Entries.{Entry};

    ghost Value = { List (List Entry) };

    ghost view = { λ a. option_map_or (λ b. b.value.items) a.held [] };
}

impl Blocks {
    /// No blocks, and no memory.
    pub(crate) fn new() -> Blocks
        ensures { result ≡ [] }
    {
        Blocks { held: None }
    }

    /// About how many bytes they have.
    pub(crate) fn size(&self) -> usize {
        let mut size = 0usize;
        if let Some(blocks) = &self.held {
            for block in blocks.iter() {
                size = size.saturating_add(block.size());
            }
        }
        size
    }

    /// Whether there are none.
    pub(crate) fn is_empty(&self) -> bool
        ensures { IsTrue result → self.now ≡ [] }
    {
        match &self.held {
            Some(blocks) => blocks.is_empty(),
            None => true,
        }
    }

    /// The block after this many.
    pub(crate) fn get(&self, index: usize) -> Option<&Block>
        ensures variant { IsSome result ↔ (index < length self.now) }
        ensures item { IsItemAt self.now index result }
        ensures fits { IsSome result → index + 1 < 2 ^ 64 }
    {
        match &self.held {
            Some(blocks) => blocks.get(index),
            None => None,
        }
    }

    /// Takes the first block.
    pub(crate) fn pop_front(&mut self) -> Option<Block>
        ensures some { IfSome result (λ block. self.old ≡ block ∷ self.new) }
        ensures none { IfNone result ((self.old ≡ []) × (self.new ≡ [])) }
    {
        match &mut self.held {
            Some(blocks) => blocks.pop_front(),
            None => None,
        }
    }

    /// Puts a block at the end; or, if out of memory, returns it.
    pub(crate) fn push_back(&mut self, alloc: Global, block: Block) -> Result<(), Block>
        ensures ok { OnOk result (self.new ≡ self.old ++ block ∷ []) }
        ensures err { IfErr result (λ same. (same ≡ block) × (self.new ≡ self.old)) }
    {
        if self.reserve(alloc).is_err() {
            return Err(block);
        }
        let Some(blocks) = &mut self.held else {
            return Err(block);
        };
        match blocks.push_back(block) {
            Ok(()) => Ok(()),
            Err(failed) => Err(failed.value),
        }
    }

    /// Reserves the memory in which blocks are held.
    fn reserve(&mut self, alloc: Global) -> Result<(), AllocError>
        ensures { self.new ≡ self.old }
    {
        if self.held.is_none() {
            self.held = Some(Box::new(alloc, VecDeque::new(alloc))?);
        }
        Ok(())
    }

    /// Puts a block at the end, and takes the first.
    pub(crate) fn turn(&mut self, last: Block) -> Block
        ensures { result ∷ self.new ≡ self.old ++ last ∷ [] }
    {
        let Some(blocks) = &mut self.held else {
            return last;
        };
        match blocks.pop_front() {
            Some(first) => {
                blocks.push_back_reserved(last);
                first
            }
            None => last,
        }
    }
}

//! How what is drawn in a cell is held.

ghost use Rattle.std.specs.Prelude.{◌≡◌, ◌<◌, ◌^◌, []};
ghost use Rattle.oas_elements.specs.Laws.BagLaws.{total};
ghost use Rattle.oas_cells.specs.Held.{keys_in, waiting_in, IsHeld};
ghost use Rattle.oas_cells.specs.Weighing.{waiting_weight};

use crate::elements::ElementStore;
use crate::waiting::Waiting;
use oas_num::{Label, Name};
use oas_reader::NameTable;
use oas_runs::Block;
use std::alloc::{AllocError, Global};

/// Elements as their keys, and what waits for names.
#[derive(Drop)]
pub(crate) enum Held {
    /// Elements alone, ascending in one block, until more is drawn.
    Closed(Block),
    /// Elements in any order, and what waits.
    Open(ElementStore, Waiting),
}

impl Held {
    /// Nothing, and no memory.
    pub(crate) fn new(alloc: Global) -> Held
        ensures held { IsHeld result }
        ensures keys { keys_in result ≡ [] }
        ensures waiting { waiting_in result ≡ [] }
    {
        Held::Open(ElementStore::new(alloc), Waiting::new(alloc))
    }

    /// Lets more be drawn. If out of memory nothing changes.
    #[inline(always)]
    pub(crate) fn open(&mut self, alloc: Global) -> Result<(), AllocError>
        requires held { IsHeld self.old }
        requires room { total (λ _. 1) (keys_in self.old) < 2 ^ 64 }
        ensures held { IsHeld self.new }
        ensures keys { keys_in self.new ≡ keys_in self.old }
        ensures waiting { waiting_in self.new ≡ waiting_in self.old }
    {
        match self {
            Held::Open(_, _) => Ok(()),
            Held::Closed(_) => self.open_again(alloc),
        }
    }

    /// Lets more be drawn after [`Held::rest`]. If out of memory nothing changes.
    #[inline(never)]
    fn open_again(&mut self, alloc: Global) -> Result<(), AllocError>
        requires held { IsHeld self.old }
        requires room { total (λ _. 1) (keys_in self.old) < 2 ^ 64 }
        ensures held { IsHeld self.new }
        ensures keys { keys_in self.new ≡ keys_in self.old }
        ensures waiting { waiting_in self.new ≡ waiting_in self.old }
    {
        if let Held::Closed(block) = self {
            let kept = ElementStore::of_block(alloc, block)?;
            *self = Held::Open(kept, Waiting::new(alloc));
        }
        Ok(())
    }

    /// How much waits in few bytes, about.
    pub(crate) fn count_waiting(&self) -> usize {
        match self {
            Held::Open(_, waiting) => waiting.count(),
            Held::Closed(_) => 0,
        }
    }

    /// The bytes of the names of all that waits, capped to 64 bits; None where a number has no name.
    pub(crate) fn weight_by(
        &self,
        names: &NameTable<Name>,
        strings: &NameTable<Label>,
    ) -> Option<u64>
        ensures { result ≡ waiting_weight names.now.named strings.now.named (waiting_in self.now) }
    {
        match self {
            Held::Open(_, waiting) => waiting.weight_by(names, strings),
            Held::Closed(_) => Some(0),
        }
    }

    /// Gives back memory that only drawing needs. Few elements take little more memory than their keys then, where nothing
    /// waits: what does is added to them later.
    pub(crate) fn rest(&mut self)
        requires { IsHeld self.old }
        ensures held { IsHeld self.new }
        ensures keys { keys_in self.new ≡ keys_in self.old }
        ensures waiting { waiting_in self.new ≡ waiting_in self.old }
    {
        let Held::Open(kept, waiting) = self else {
            return;
        };
        if !waiting.is_empty() {
            kept.pause();
            waiting.rest();
            return;
        }
        if let Some(block) = kept.rest() {
            *self = Held::Closed(block);
        }
    }
}

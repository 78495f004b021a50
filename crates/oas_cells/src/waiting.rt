//! What is drawn by a number, whose name may come later.

ghost use Rattle.std.specs.Prelude.{◌≡◌, ◌+◌, ◌<◌, ◌^◌, [], OnOk, OnErr, IfSome, IsTrue};
ghost use Rattle.oas_elements.specs.Laws.BagLaws.{total};
ghost use Rattle.oas_cells.specs.Compact.{WaitsMore};
ghost use Rattle.oas_cells.specs.Short.{drawn_of};
ghost use Rattle.oas_cells.specs.Weighing.{waiting_weight};

use crate::chunks::Chunks;
use crate::short::Short;
use crate::weighing::both_weights;
use oas_elements::count_up;
use oas_num::{Label, Name};
use oas_reader::{Drawn, NameTable};
use std::alloc::{AllocError, Global};
use std::collections::BTreeMap;
use std::marker::Model;

/// What waits for names; contracts see the list of it with counts. In many cells nothing waits, which takes no memory beside a
/// pointer.
#[derive(Drop)]
pub(crate) struct Waiting {
    pub(crate) alloc: Global,
    pub(crate) queue: Option<Box<Queue>>,
}

impl Model for Waiting {
    ghost use Rattle.std.specs.Prelude.{List, ℕ, []};
    ghost use Rattle.std.specs.Option.{option_map_or};
    ghost use Rattle.oas_reader.specs.Drawn.{Drawn};

    ghost Value = { List (Drawn × ℕ) };

    ghost view = { λ a. option_map_or (λ q. q.value) a.queue [] };
}

impl Waiting {
    /// Nothing waits.
    pub(crate) fn new(alloc: Global) -> Waiting
        ensures { result ≡ [] }
    {
        Waiting { alloc, queue: None }
    }

    /// Whether nothing waits. Where memory ran out for the first that came, it may be false too.
    pub(crate) fn is_empty(&self) -> bool
        ensures { IsTrue result → self.now ≡ [] }
    {
        self.queue.is_none()
    }

    /// How much waits in few bytes, about.
    pub(crate) fn count(&self) -> usize {
        match &self.queue {
            Some(queue) => queue.chunks.count(),
            None => 0,
        }
    }

    /// The bytes of the names of all that waits, capped to 64 bits; None where a number has no name.
    pub(crate) fn weight_by(
        &self,
        names: &NameTable<Name>,
        strings: &NameTable<Label>,
    ) -> Option<u64>
        ensures { result ≡ waiting_weight names.now.named strings.now.named self.now }
    {
        match &self.queue {
            Some(queue) => queue.weight_by(names, strings),
            None => Some(0),
        }
    }

    /// Gives back memory that is idle as long as nothing more waits.
    pub(crate) fn rest(&mut self)
        ensures { self.new ≡ self.old }
    {
        if let Some(queue) = &mut self.queue {
            queue.rest();
        }
    }

    /// Takes the memory in which something waits. If out of memory it changes nothing.
    fn open(&mut self) -> Result<(), AllocError>
        ensures { self.new ≡ self.old }
    {
        if self.queue.is_none() {
            self.queue = Some(Box::new(self.alloc, Queue::new(self.alloc))?);
        }
        Ok(())
    }

    /// Adds something that waits, this many more times. If out of memory it adds nothing.
    pub(crate) fn add(&mut self, drawn: Drawn, times: u64) -> Result<(), AllocError>
        requires some { 0 < times }
        requires room { total (λ _. 1) self.old + times < 2 ^ 64 }
        ensures ok { OnOk result (WaitsMore self.old drawn times self.new) }
        ensures err { OnErr result (self.new ≡ self.old) }
    {
        self.open()?;
        match &mut self.queue {
            Some(queue) => queue.add(drawn, times),
            None => Err(AllocError),
        }
    }
}

/// Some that waits; contracts see the list of it with counts. Most of it is in chunks, as it came. The map has what is drawn
/// often, or doesn't fit there; it is ordered, so that no choice of numbers makes it slow.
#[derive(Drop)]
pub(crate) struct Queue {
    pub(crate) chunks: Chunks,
    pub(crate) others: BTreeMap<Drawn, u64>,
}

impl Model for Queue {
    ghost use Rattle.std.specs.Prelude.{List, ℕ, ◌++◌};
    ghost use Rattle.oas_reader.specs.Drawn.{Drawn};
    ghost use Rattle.oas_reader.specs.Held.{IsHeld};

    ghost Value = { List (Drawn × ℕ) };

    ghost view = { λ a. a.chunks ++ a.others.entries };

    ghost invariant = { λ a. IsHeld a.others.entries };
}

impl Queue {
    /// Nothing waits.
    fn new(alloc: Global) -> Queue
        ensures { result ≡ [] }
    {
        Queue {
            chunks: Chunks::new(alloc),
            others: BTreeMap::new(alloc),
        }
    }

    /// The bytes of the names of all that waits, capped to 64 bits; None where a number has no name.
    fn weight_by(&self, names: &NameTable<Name>, strings: &NameTable<Label>) -> Option<u64>
        ensures { result ≡ waiting_weight names.now.named strings.now.named self.now }
    {
        both_weights(&self.chunks, &self.others, names, strings)
    }

    /// Gives back memory that is idle as long as nothing more waits.
    fn rest(&mut self)
        ensures { self.new ≡ self.old }
    {
        self.chunks.rest();
    }

    /// Adds something that waits, this many more times. If out of memory it adds nothing.
    fn add(&mut self, drawn: Drawn, times: u64) -> Result<(), AllocError>
        requires some { 0 < times }
        requires room { total (λ _. 1) self.old + times < 2 ^ 64 }
        ensures ok { OnOk result (WaitsMore self.old drawn times self.new) }
        ensures err { OnErr result (self.new ≡ self.old) }
    {
        let Some(short) = short_once(&drawn, times) else {
            count_up(&mut self.others, drawn, times)?;
            return Ok(());
        };
        self.chunks.push(short)?;
        Ok(())
    }
}

/// Something in few bytes, if it is drawn once and fits.
fn short_once(drawn: &Drawn, times: u64) -> Option<Short>
    ensures is { IfSome result (λ s. drawn_of s ≡ drawn.now) }
    ensures once { IfSome result (λ s. times ≡ 1) }
{
    if times == 1 {
        return Short::of(drawn);
    }
    None
}

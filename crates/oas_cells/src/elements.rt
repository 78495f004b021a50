//! Elements as their keys, each once with its count.

ghost use Rattle.std.specs.Prelude.{◌≡◌, ◌+◌, ◌<◌, ◌^◌, [], false, true, OnOk, OnErr, IfOk, IfSome, IfNone};
ghost use Rattle.std.specs.Ordering.{nat_cmp};
ghost use Rattle.std.specs.Cmp.Lexicographic.{slice_cmp};
ghost use Rattle.oas_elements.specs.declared.element.Element.TheVariants.{Placement, Text};
ghost use Rattle.oas_elements.specs.Bag.{put_more};
ghost use Rattle.oas_elements.specs.Laws.BagLaws.{total};
ghost use Rattle.oas_elements.specs.Grid.{fits_grid};
ghost use Rattle.oas_elements.specs.Same.{normal};
ghost use Rattle.oas_elements.specs.Sound.{IsSound};
ghost use Rattle.oas_elements.specs.Weight.{lacks_points};
ghost use Rattle.oas_keys.specs.Keys.{key_of};
ghost use Rattle.oas_runs.specs.Runs.{IsRun};

use crate::filling::Filling;
use oas_elements::{Element, Profile, Turns};
use oas_num::{Label, Name};
use oas_runs::{Block, Run};
use std::alloc::{AllocError, Global};
use std::marker::Model;
use std::mem;

/// Distinct elements with their counts, each in the form in which a profile keeps it. Elements are added in any order; contracts
/// see the ascending list of their keys with counts. Where none was added, it takes no memory beside a pointer.
#[derive(Drop)]
pub struct ElementStore {
    alloc: Global,
    filling: Option<Box<Filling>>,
}

impl Model for ElementStore {
    ghost use Rattle.std.specs.Prelude.{List, []};
    ghost use Rattle.std.specs.Option.{option_map_or};
    ghost use Rattle.oas_runs.specs.Entries.{Entry};

    ghost Value = { List Entry };

    ghost view = { λ a. option_map_or (λ f. f.value) a.filling [] };
}

impl ElementStore {
    /// No elements, and no memory.
    pub fn new(alloc: Global) -> ElementStore
        ensures { result ≡ [] }
    {
        ElementStore {
            alloc,
            filling: None,
        }
    }

    /// The elements of a block, which is then empty. If out of memory it changes nothing.
    pub(crate) fn of_block(alloc: Global, block: &mut Block) -> Result<ElementStore, AllocError>
        requires run { IsRun (slice_cmp nat_cmp) block.old }
        requires room { total (λ _. 1) block.old < 2 ^ 64 }
        ensures ok { IfOk result (λ store. store ≡ block.old) }
        ensures taken { OnOk result (block.new ≡ []) }
        ensures err { OnErr result (block.new ≡ block.old) }
    {
        let mut filling = Box::new(alloc, Filling::new(alloc))?;
        filling.reserve()?;
        filling.begin(mem::replace(block, Block::new(alloc)));
        Ok(ElementStore {
            alloc,
            filling: Some(filling),
        })
    }

    /// Adds an element in its kept form, this many times. If out of memory it adds nothing.
    #[inline(always)]
    pub fn add(&mut self, profile: Profile, element: &Element, times: u64) -> Result<(), AllocError>
        requires some { 0 < times }
        requires points { lacks_points element.now ≡ false }
        requires inside { fits_grid element.now ≡ true }
        requires room { total (λ _. 1) self.old + times < 2 ^ 64 }
        ensures ok { OnOk result (self.new ≡ put_more (slice_cmp nat_cmp) self.old (key_of (normal profile element.now)) times) }
        ensures sound { OnOk result (IsSound element.now) }
        ensures err { OnErr result (self.new ≡ self.old) }
    {
        match element {
            Element::Placement {
                cell,
                x,
                y,
                turns,
                flip,
            } => self.add_placement(cell, *x, *y, *turns, *flip, times),
            Element::Text {
                string,
                textlayer,
                texttype,
                x,
                y,
            } => self.add_text(string, *textlayer, *texttype, *x, *y, times),
            _ => self.add_geometry(profile, element, times),
        }
    }

    /// Takes the memory in which elements are added, where it isn't there yet. If out of memory it changes nothing.
    #[inline(always)]
    fn open(&mut self) -> Result<(), AllocError>
        ensures { self.new ≡ self.old }
    {
        if self.filling.is_some() {
            return Ok(());
        }
        self.begin()
    }

    /// Takes the memory in which elements are added. If out of memory it changes nothing.
    #[inline(never)]
    fn begin(&mut self) -> Result<(), AllocError>
        ensures { self.new ≡ self.old }
    {
        if self.filling.is_none() {
            let mut filling = Box::new(self.alloc, Filling::new(self.alloc))?;
            filling.reserve()?;
            self.filling = Some(filling);
        }
        Ok(())
    }

    /// Adds an element that the profile may keep in another form, this many times. If out of memory it adds nothing.
    #[inline(always)]
    fn add_geometry(
        &mut self,
        profile: Profile,
        element: &Element,
        times: u64,
    ) -> Result<(), AllocError>
        requires some { 0 < times }
        requires points { lacks_points element.now ≡ false }
        requires inside { fits_grid element.now ≡ true }
        requires room { total (λ _. 1) self.old + times < 2 ^ 64 }
        ensures ok { OnOk result (self.new ≡ put_more (slice_cmp nat_cmp) self.old (key_of (normal profile element.now)) times) }
        ensures sound { OnOk result (IsSound element.now) }
        ensures err { OnErr result (self.new ≡ self.old) }
    {
        self.open()?;
        match &mut self.filling {
            Some(filling) => filling.add_geometry(profile, element, times),
            None => Err(AllocError),
        }
    }

    /// Adds a placement with these fields, which every profile keeps unchanged, this many times. If out of memory it adds
    /// nothing.
    pub(crate) fn add_placement(
        &mut self,
        cell: &Name,
        x: i64,
        y: i64,
        turns: Turns,
        flip: bool,
        times: u64,
    ) -> Result<(), AllocError>
        requires some { 0 < times }
        requires inside { fits_grid (Placement cell.now x y turns flip) ≡ true }
        requires room { total (λ _. 1) self.old + times < 2 ^ 64 }
        ensures ok { OnOk result (self.new ≡ put_more (slice_cmp nat_cmp) self.old (key_of (Placement cell.now x y turns flip)) times) }
        ensures sound { OnOk result (IsSound (Placement cell.now x y turns flip)) }
        ensures err { OnErr result (self.new ≡ self.old) }
    {
        self.open()?;
        match &mut self.filling {
            Some(filling) => filling.add_placement(cell, x, y, turns, flip, times),
            None => Err(AllocError),
        }
    }

    /// Adds a text with these fields, which every profile keeps unchanged, this many times. If out of memory it adds nothing.
    pub(crate) fn add_text(
        &mut self,
        string: &Label,
        textlayer: u64,
        texttype: u64,
        x: i64,
        y: i64,
        times: u64,
    ) -> Result<(), AllocError>
        requires some { 0 < times }
        requires inside { fits_grid (Text string.now textlayer texttype x y) ≡ true }
        requires room { total (λ _. 1) self.old + times < 2 ^ 64 }
        ensures ok { OnOk result (self.new ≡ put_more (slice_cmp nat_cmp) self.old (key_of (Text string.now textlayer texttype x y)) times) }
        ensures sound { OnOk result (IsSound (Text string.now textlayer texttype x y)) }
        ensures err { OnErr result (self.new ≡ self.old) }
    {
        self.open()?;
        match &mut self.filling {
            Some(filling) => filling.add_text(string, textlayer, texttype, x, y, times),
            None => Err(AllocError),
        }
    }

    /// Lets elements whose keys come in order from now on be a run of their own. If out of memory all is still there.
    pub(crate) fn settle(&mut self) -> Result<(), AllocError>
        ensures { self.new ≡ self.old }
    {
        match &mut self.filling {
            Some(filling) => filling.settle(),
            None => Ok(()),
        }
    }

    /// Gives back some memory that is idle until the next element is added, and keeps what adding needs.
    pub(crate) fn pause(&mut self)
        ensures { self.new ≡ self.old }
    {
        if let Some(filling) = &mut self.filling {
            filling.pause();
        }
    }

    /// Takes the keys out, ascending in one block, where they are few. Else, or if out of memory, it only gives back memory that
    /// is idle as long as no element is added.
    pub(crate) fn rest(&mut self) -> Option<Block>
        ensures some { IfSome result (λ block. block ≡ self.old) }
        ensures run { IfSome result (λ block. IsRun (slice_cmp nat_cmp) block) }
        ensures none { IfNone result (self.new ≡ self.old) }
    {
        match &mut self.filling {
            Some(filling) => filling.rest(),
            None => None,
        }
    }

    /// The run of the keys, or out of memory.
    pub fn close(self) -> Result<Run, AllocError>
        ensures same { IfOk result (λ run. run ≡ self) }
        ensures run { IfOk result (λ run. IsRun (slice_cmp nat_cmp) run) }
    {
        let ElementStore { alloc, filling } = self;
        match filling {
            Some(filling) => Box::into_inner(filling).close(),
            None => Ok(Run::of_block(Block::new(alloc))),
        }
    }
}

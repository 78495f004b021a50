//! What the records of a CELL draw: kept as keys, or waiting for names.

ghost use Rattle.std.specs.Prelude.{◌≡◌, ◌+◌, ◌<◌, ◌^◌, [], ◌∷◌, List, false, replicate, OnOk, OnErr, IfOk, IfErr};
ghost use Rattle.std.specs.Cmp.Lexicographic.{slice_cmp};
ghost use Rattle.std.specs.List.{AllByRecursion};
ghost use Rattle.std.specs.Ordering.{nat_cmp};
ghost use Rattle.oas_num.specs.declared.refusals.Why.TheVariants.{Memory};
ghost use Rattle.oas_elements.specs.Sound.{IsSound};
ghost use Rattle.oas_runs.specs.Runs.{IsRun};
ghost use Rattle.oas_reader.specs.Drawn.{Drawn as SomeDrawn};
ghost use Rattle.oas_reader.specs.Drawn.TheVariants.{Named as OneNamed};
ghost use Rattle.oas_reader.specs.DrawnOnce.TheVariants.{Placement as OnePlacement, Text as OneText};
ghost use Rattle.oas_reader.specs.Named.{drawn_once};
ghost use Rattle.oas_reader.specs.Meaning.{elements_by_name};
ghost use Rattle.oas_reader.specs.Finish.{IsFit};
ghost use Rattle.oas_reader.specs.Stores.{Draws};
ghost use Rattle.oas_cells.specs.Compact.{compact_store, is_named, number_drawn, AreKeys, IsCompact, Keeps};
ghost use Rattle.oas_cells.specs.Laws.CompactLaws.{kept_in_any_order};
ghost use Rattle.oas_cells.specs.Placing.{MeansElements};

use crate::held::Held;
use crate::placing::place_all;
use crate::profiles::KeptBy;
use crate::ranking::Ranks;
use oas_elements::{Element, Turns};
use oas_num::{Label, Name, Why};
use oas_reader::{CellStore, Drawn, DrawnOnce, NameTable, Weighed, head_weight};
use oas_record::{CellRef, TextRef};
use oas_runs::Run;
use std::alloc::{AllocError, Global};
use std::marker::{Model, PhantomData};

/// A CELL, by its name or a number, and what its records draw: elements in their kept forms, as keys with counts, and apart
/// from them what is drawn by numbers.
#[derive(Drop)]
pub struct CompactCell<P: KeptBy> {
    alloc: Global,
    cell: CellRef,
    /// The weight of what was drawn as long as numbers have no names; at most what 64 bits hold, which exceeds all limits.
    weight: u64,
    held: Held,
    by: PhantomData<P>,
}

impl<P: KeptBy> Model for CompactCell<P> {
    ghost use Rattle.std.specs.Prelude.{◌<◌, ◌^◌};
    ghost use Rattle.oas_cells.specs.Compact.{Compact, number_drawn};
    ghost use Rattle.oas_cells.specs.Held.{keys_in, waiting_in, IsHeld};

    ghost Value = { Compact };

    ghost view = { λ a. record { cell = a.cell; weight = a.weight; keys = keys_in a.held; waiting = waiting_in a.held } };

    ghost invariant = { λ a. IsHeld a.held × (number_drawn (keys_in a.held) (waiting_in a.held) < 2 ^ 64) };
}

impl<P: KeptBy> CompactCell<P> {
    /// The run of the keys of all elements by the tables of the whole file, in their kept forms; or out of memory. What is
    /// drawn by a number that has no name isn't among them. It is the same with ranks as without, and faster with them where
    /// much waits (`ranks_for`).
    pub fn into_run(
        self,
        names: &NameTable<Name>,
        strings: &NameTable<Label>,
        ranks: Option<&Ranks>,
    ) -> Result<Run, Why>
        requires { IsCompact P.profile self }
        ensures run { IfOk result (λ run. IsRun (slice_cmp nat_cmp) run) }
        ensures keys { IfOk result (λ run. AreKeys P.profile run) }
        ensures means { (ds : List SomeDrawn) → Keeps P.profile self ds → IfOk result (λ run. MeansElements P.profile run (elements_by_name names.now.named strings.now.named ds)) }
        ensures sound { (ds : List SomeDrawn) → Keeps P.profile self ds → IfOk result (λ run. AllByRecursion IsSound (elements_by_name names.now.named strings.now.named ds)) }
        ensures err { IfErr result (λ why. why ≡ Memory) }
    {
        let CompactCell { held, .. } = self;
        match held {
            Held::Closed(block) => Ok(Run::of_block(block)),
            Held::Open(mut kept, waiting) => {
                place_all(P::profile(), &mut kept, waiting, names, strings, ranks)?;
                let run = kept.close()?;
                Ok(run)
            }
        }
    }

    /// How much waits in few bytes, about.
    pub(crate) fn count_waiting(&self) -> usize {
        self.held.count_waiting()
    }

    /// Draws an element this many more times, in its kept form.
    #[inline(always)]
    fn keep(&mut self, element: Element, times: u64) -> Result<(), AllocError>
        requires some { 0 < times }
        requires fit { IsFit (OneNamed element) }
        requires room { number_drawn self.old.keys self.old.waiting + times < 2 ^ 64 }
        ensures ok { OnOk result (Draws (compact_store P.profile) self.old (replicate times (OneNamed element)) self.new) }
        ensures err { OnErr result (self.new ≡ self.old) }
    {
        let weight = element.weight().saturating_mul(times);
        self.held.open(self.alloc)?;
        let Held::Open(kept, _) = &mut self.held else {
            return Err(AllocError);
        };
        kept.add(P::profile(), &element, times)?;
        self.weight = self.weight.saturating_add(weight);
        Ok(())
    }

    /// Draws a placement once more, without copying its cell's name.
    fn draw_placement(
        &mut self,
        cell: &CellRef,
        x: i64,
        y: i64,
        turns: Turns,
        flip: bool,
    ) -> Result<(), AllocError>
        requires fit { IsFit (drawn_once (OnePlacement cell x y turns flip)) }
        requires room { number_drawn self.old.keys self.old.waiting + 1 < 2 ^ 64 }
        ensures ok { OnOk result (Draws (compact_store P.profile) self.old (drawn_once (OnePlacement cell.entry x y turns flip) ∷ []) self.new) }
        ensures err { OnErr result (self.new ≡ self.old) }
    {
        match cell {
            CellRef::Name(name) => {
                self.held.open(self.alloc)?;
                let Held::Open(kept, _) = &mut self.held else {
                    return Err(AllocError);
                };
                kept.add_placement(name, x, y, turns, flip, 1)?;
                let weight = 1 + name.as_bytes().len() as u64;
                self.weight = self.weight.saturating_add(weight);
                Ok(())
            }
            CellRef::Number(number) => {
                let placement = Drawn::PlacementBy {
                    number: *number,
                    x,
                    y,
                    turns,
                    flip,
                };
                self.wait(placement, 1)
            }
        }
    }

    /// Draws a text once more, without copying its string.
    fn draw_text(
        &mut self,
        string: &TextRef,
        textlayer: u64,
        texttype: u64,
        x: i64,
        y: i64,
    ) -> Result<(), AllocError>
        requires fit { IsFit (drawn_once (OneText string textlayer texttype x y)) }
        requires room { number_drawn self.old.keys self.old.waiting + 1 < 2 ^ 64 }
        ensures ok { OnOk result (Draws (compact_store P.profile) self.old (drawn_once (OneText string.entry textlayer texttype x y) ∷ []) self.new) }
        ensures err { OnErr result (self.new ≡ self.old) }
    {
        match string {
            TextRef::Label(label) => {
                self.held.open(self.alloc)?;
                let Held::Open(kept, _) = &mut self.held else {
                    return Err(AllocError);
                };
                kept.add_text(label, textlayer, texttype, x, y, 1)?;
                let weight = 1 + label.as_bytes().len() as u64;
                self.weight = self.weight.saturating_add(weight);
                Ok(())
            }
            TextRef::Number(number) => {
                let text = Drawn::TextBy {
                    number: *number,
                    textlayer,
                    texttype,
                    x,
                    y,
                };
                self.wait(text, 1)
            }
        }
    }

    /// Draws something by a number this many more times.
    fn wait(&mut self, drawn: Drawn, times: u64) -> Result<(), AllocError>
        requires some { 0 < times }
        requires fit { IsFit drawn }
        requires unnamed { is_named drawn ≡ false }
        requires room { number_drawn self.old.keys self.old.waiting + times < 2 ^ 64 }
        ensures ok { OnOk result (Draws (compact_store P.profile) self.old (replicate times drawn) self.new) }
        ensures err { OnErr result (self.new ≡ self.old) }
    {
        self.held.open(self.alloc)?;
        let Held::Open(_, waiting) = &mut self.held else {
            return Err(AllocError);
        };
        waiting.add(drawn, times)?;
        self.weight = self.weight.saturating_add(times);
        Ok(())
    }
}

impl<P: KeptBy> CellStore for CompactCell<P> {
    ghost store = { compact_store P.profile };

    ghost alike = { kept_in_any_order P.profile };

    ghost COUNTS = { false };

    const COUNTS: bool = false;

    fn begin(alloc: Global, cell: CellRef) -> CompactCell<P> {
        CompactCell {
            alloc,
            cell,
            weight: 0,
            held: Held::new(alloc),
            by: PhantomData,
        }
    }

    fn cell(&self) -> &CellRef {
        &self.cell
    }

    fn rest(&mut self) {
        self.held.rest();
    }

    #[inline(always)]
    fn draw(&mut self, drawn: Drawn, times: u64) -> Result<(), AllocError> {
        match named_element(drawn) {
            Ok(element) => self.keep(element, times),
            Err(drawn) => self.wait(drawn, times),
        }
    }

    fn draw_once(&mut self, _alloc: Global, drawn: &DrawnOnce<'_>) -> Result<(), AllocError> {
        match drawn {
            DrawnOnce::Placement {
                cell,
                x,
                y,
                turns,
                flip,
            } => self.draw_placement(cell, *x, *y, *turns, *flip),
            DrawnOnce::Text {
                string,
                textlayer,
                texttype,
                x,
                y,
            } => self.draw_text(string, *textlayer, *texttype, *x, *y),
        }
    }

    fn draw_series(&mut self, _count: u64, _weight: u64) {}
}

impl<P: KeptBy> Weighed for CompactCell<P> {
    fn weight_with(&self, names: &NameTable<Name>, strings: &NameTable<Label>) -> Option<u64> {
        let head = head_weight(&self.cell, names)?;
        let waiting = self.held.weight_by(names, strings)?;
        Some(head.saturating_add(self.weight.saturating_add(waiting)))
    }
}

/// The element, where it isn't drawn by a number.
#[inline(always)]
fn named_element(drawn: Drawn) -> Result<Element, Drawn>
    ensures named { IfOk result (λ e. drawn ≡ OneNamed e) }
    ensures numbered { IfErr result (λ d. (d ≡ drawn) × (is_named drawn ≡ false)) }
{
    match drawn {
        Drawn::Named(element) => Ok(element),
        by_number => Err(by_number),
    }
}

//! What is counted of a CELL, where none of its elements is kept.

ghost use Rattle.std.specs.Prelude.{◌≡◌, ◌+◌, ◌<◌, ◌^◌, true, OnOk, OnErr};
ghost use Rattle.oas_drawing.specs.Named.{drawn_once};
ghost use Rattle.oas_drawing.specs.Tallies.{used_by};
ghost use Rattle.oas_reader.specs.Counted.{counted_store, counted_weight, counted_more, placed_more, written_more};
ghost use Rattle.oas_reader.specs.Laws.StoreLaws.{counted_in_any_order};

use crate::meant::head_weight;
use crate::names::NameTable;
use crate::stores::{CellStore, Weighed};
use crate::used::UsedNumbers;
use oas_drawing::{Drawn, DrawnOnce, Kind, ModalVariables, Tally, UsedNumber};
use oas_num::{Label, Name, Why};
use oas_record::{CellRef, TextRef};
use std::alloc::{AllocError, Global};
use std::marker::Model;

/// A CELL, by its name or a number, and just what decides at END whether what its records draw is refused: how many elements
/// there are, their weight, and how often each number is used. It needs memory for the numbers only.
#[derive(Drop)]
pub struct CountedCell {
    pub(crate) cell: CellRef,
    pub(crate) count: u64,
    /// As long as numbers have no names; at most what 64 bits hold, which exceeds all limits.
    pub(crate) weight: u64,
    /// The numbers of cells, used by placements.
    pub(crate) placed: UsedNumbers,
    /// The numbers of text strings, used by texts.
    pub(crate) written: UsedNumbers,
}

impl Model for CountedCell {
    ghost use Rattle.std.specs.Prelude.{◌≤◌};
    ghost use Rattle.oas_elements.specs.Laws.BagLaws.{total};
    ghost use Rattle.oas_reader.specs.Counted.{Counted};

    ghost Value = { Counted };

    ghost view = { λ a. record { cell = a.cell; count = a.count; weight = a.weight; placed = a.placed; written = a.written } };

    ghost invariant = { λ a. (total (λ _. 1) a.placed ≤ a.count) × (total (λ _. 1) a.written ≤ a.count) };
}

impl CountedCell {
    /// Counts something this many times, and the uses of its number, if it has one. If out of memory nothing is counted.
    #[inline]
    fn count_times(&mut self, tally: Tally, times: u64) -> Result<(), AllocError>
        requires some { 0 < times }
        requires room { self.old.count + times < 2 ^ 64 }
        ensures ok { OnOk result (self.new ≡ counted_more self.old tally times) }
        ensures err { OnErr result (self.new ≡ self.old) }
    {
        match tally.used {
            UsedNumber::Nothing => {}
            UsedNumber::Cell(number) => self.placed.add(number, times)?,
            UsedNumber::Text(number) => self.written.add(number, times)?,
        }
        self.count += times;
        let weight = tally.weight.saturating_mul(times);
        self.weight = self.weight.saturating_add(weight);
        Ok(())
    }

    /// Counts something without a repetition, and the use of its number, if it has one.
    #[inline]
    fn count_once(&mut self, drawn: &DrawnOnce<'_>) -> Result<(), AllocError>
        requires { self.old.count + 1 < 2 ^ 64 }
        ensures ok { OnOk result (self.new ≡ record self.old
            { count = self.old.count + 1; placed = placed_more (used_by (drawn_once drawn.now)) 1 self.old.placed; written = written_more (used_by (drawn_once drawn.now)) 1 self.old.written }) }
        ensures err { OnErr result (self.new ≡ self.old) }
    {
        match drawn {
            DrawnOnce::Placement {
                cell: CellRef::Number(number),
                ..
            } => self.placed.add(*number, 1)?,
            DrawnOnce::Text {
                string: TextRef::Number(number),
                ..
            } => self.written.add(*number, 1)?,
            _ => {}
        }
        self.count += 1;
        Ok(())
    }

    /// Its weight with all names, from what is counted.
    fn weight(&self, names: &NameTable<Name>, strings: &NameTable<Label>) -> Option<u64>
        ensures { result ≡ counted_weight names.now.named strings.now.named self.now }
    {
        let head = head_weight(&self.cell, names)?;
        let placed = self.placed.cells_weight(names)?;
        let written = self.written.strings_weight(strings)?;
        let drawn = self.weight.saturating_add(placed.saturating_add(written));
        Some(head.saturating_add(drawn))
    }
}

impl CellStore for CountedCell {
    ghost store = { counted_store };

    ghost alike = { counted_in_any_order };

    ghost COUNTS = { true };

    const COUNTS: bool = true;

    fn begin(alloc: Global, cell: CellRef) -> CountedCell {
        CountedCell {
            cell,
            count: 0,
            weight: 0,
            placed: UsedNumbers::new(alloc),
            written: UsedNumbers::new(alloc),
        }
    }

    fn cell(&self) -> &CellRef {
        &self.cell
    }

    fn rest(&mut self) {}

    fn draw(&mut self, drawn: Drawn, times: u64) -> Result<(), AllocError> {
        self.count_times(drawn.tally(), times)
    }

    fn draw_copy(
        &mut self,
        _alloc: Global,
        modal: &ModalVariables,
        kind: &Kind,
        repeated: bool,
        i: u64,
        times: u64,
    ) -> Result<u64, Why> {
        let tally = modal.tally(kind, repeated, i)?;
        match self.count_times(tally, times) {
            Ok(()) => Ok(tally.weight),
            Err(_) => Err(Why::Memory),
        }
    }

    fn draw_once(&mut self, _alloc: Global, drawn: &DrawnOnce<'_>) -> Result<(), AllocError> {
        self.count_once(drawn)?;
        self.weight = self.weight.saturating_add(drawn.weight());
        Ok(())
    }

    #[inline(always)]
    fn draw_series(&mut self, count: u64, weight: u64) {
        let all = self.weight.saturating_add(weight);
        self.count += count;
        self.weight = all;
    }
}

impl Weighed for CountedCell {
    fn weight_with(&self, names: &NameTable<Name>, strings: &NameTable<Label>) -> Option<u64> {
        self.weight(names, strings)
    }
}

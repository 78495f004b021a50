//! Where what the records of a CELL draw is collected.

ghost use Rattle.std.specs.Prelude.{◌≡◌, ◌⊎◌, ◌+◌, ◌<◌, ◌^◌, Bool, true, false, None, Some, List, [], ◌∷◌, replicate, OnOk, OnErr, IfOk, IfErr};
ghost use Rattle.oas_num.specs.declared.refusals.Why.TheVariants.{Memory};
ghost use Rattle.oas_shape.specs.Steps.{still};
ghost use Rattle.oas_drawing.specs.declared.drawn.Drawn.{Drawn};
ghost use Rattle.oas_drawing.specs.Named.{drawn_once};
ghost use Rattle.oas_drawing.specs.Drawing.{drawn_by, number_if, offset_if};
ghost use Rattle.oas_drawing.specs.Reasons.{weight_if, lacks_if, fault_of};
ghost use Rattle.oas_reader.specs.Alike.{SameDrawn};
ghost use Rattle.oas_reader.specs.Copying.{drawn_times};
ghost use Rattle.oas_reader.specs.Finish.{IsFit};
ghost use Rattle.oas_reader.specs.Series.{DrawsSeries};
ghost use Rattle.oas_reader.specs.Stores.{Store, Draws, IsBegun};
ghost use Rattle.oas_reader.specs.Weights.{known_weight};

use crate::names::NameTable;
use oas_drawing::{Drawn, DrawnOnce, Kind, ModalVariables};
use oas_num::{Label, Name, Why};
use oas_record::CellRef;
use std::alloc::{AllocError, Global};

/// Collects what the records of one CELL draw: all of it, or the part that is needed.
pub trait CellStore: Sized + Drop {
    /// The CELL, how many elements were drawn, and what it may represent. A store that keeps no element may represent any.
    ghost store: { Store Self };

    /// Whether it keeps no element, so that a series is drawn at once ([`CellStore::draw_series`]).
    ghost COUNTS: { Bool };

    const COUNTS: bool;

    /// A store for a CELL in which nothing is drawn.
    fn begin(alloc: Global, cell: CellRef) -> Self
        ensures { IsBegun store cell result };

    /// Its CELL.
    fn cell(&self) -> &CellRef
        ensures { result.now ≡ store.cell self.now };

    /// Draws something that is within the grid this many more times. If out of memory nothing is drawn.
    fn draw(&mut self, drawn: Drawn, times: u64) -> Result<(), AllocError>
        requires some { 0 < times }
        requires fit { IsFit drawn }
        requires room { store.count self.old + times < 2 ^ 64 }
        ensures ok { OnOk result (Draws store self.old (replicate times drawn) self.new) }
        ensures err { OnErr result (Draws store self.old [] self.new) };

    /// Draws something that has a name, and is within the grid, once more. Its name is copied only where it is kept. If out
    /// of memory nothing is drawn.
    fn draw_once(&mut self, alloc: Global, drawn: &DrawnOnce<'_>) -> Result<(), AllocError>
        requires fit { IsFit (drawn_once drawn.now) }
        requires room { store.count self.old + 1 < 2 ^ 64 }
        ensures ok { OnOk result (Draws store self.old (drawn_once drawn.now ∷ []) self.new) }
        ensures err { OnErr result (Draws store self.old [] self.new) }
    {
        let drawn = drawn.try_drawn(alloc)?;
        self.draw(drawn, 1)
    }

    /// Draws copy `i` of an element record, counted from 0, by the modal variables after it, this many times. It returns the
    /// weight of one, as long as numbers have no names. It is refused as [`ModalVariables::copy`] refuses it, or fails with
    /// `Memory`; then nothing is drawn.
    fn draw_copy(
        &mut self,
        alloc: Global,
        modal: &ModalVariables,
        kind: &Kind,
        repeated: bool,
        i: u64,
        times: u64,
    ) -> Result<u64, Why>
        requires some { 0 < times }
        requires below { i < number_if repeated modal.now.repetition }
        requires small { i < 2 ^ 32 }
        requires points { lacks_if (drawn_by modal.now kind.now still) ≡ false }
        requires room { store.count self.old + times < 2 ^ 64 }
        ensures fits { OnOk result (fault_of (drawn_by modal.now kind.now (offset_if repeated modal.now.repetition i)) ≡ None) }
        ensures weight { IfOk result (λ weight. weight ≡ weight_if (drawn_by modal.now kind.now (offset_if repeated modal.now.repetition i))) }
        ensures ok { OnOk result (Draws store self.old (drawn_times times (drawn_by modal.now kind.now (offset_if repeated modal.now.repetition i))) self.new) }
        ensures err { IfErr result (λ why. (why ≡ Memory) ⊎ (fault_of (drawn_by modal.now kind.now (offset_if repeated modal.now.repetition i)) ≡ Some why)) }
        ensures none { OnErr result (Draws store self.old [] self.new) }
    {
        let drawn = modal.copy(alloc, kind, repeated, i)?;
        let weight = drawn.tally().weight;
        match self.draw(drawn, times) {
            Ok(()) => Ok(weight),
            Err(_) => Err(Why::Memory),
        }
    }

    /// Draws so many elements, with this weight together, none of which uses a number for its name. A store that keeps elements
    /// does nothing.
    fn draw_series(&mut self, count: u64, weight: u64)
        requires { store.count self.old + count < 2 ^ 64 }
        ensures drawn { COUNTS ≡ true → DrawsSeries store self.old count weight self.new }
        ensures none { COUNTS ≡ false → self.new ≡ self.old };

    /// Gives back memory that only drawing needs, once all is drawn. What it may represent is unchanged.
    fn rest(&mut self)
        ensures { self.new ≡ self.old };

    /// The order in which things are drawn makes no difference to what it may represent.
    ghost alike: { (s : Self) (ds es : List Drawn) → store.Holds s ds → SameDrawn ds es → store.Holds s es };
}

/// A store that knows what its cell weighs with all names.
pub trait Weighed: CellStore {
    /// The weight of its cell by the tables of the whole file, capped to 64 bits; None where a number has no name.
    fn weight_with(&self, names: &NameTable<Name>, strings: &NameTable<Label>) -> Option<u64>
        requires { Self.store.IsSound self.now }
        ensures { (ds : List Drawn) → Self.store.Holds self.now ds → result ≡ known_weight names.now.named strings.now.named (Self.store.cell self.now) ds };
}

//! The cells of a layout, one by one.

ghost use Rattle.std.specs.Prelude.{◌≡◌, List, length};
ghost use Rattle.std.specs.Iterator.{at_most};
ghost use Rattle.std.specs.Map.Iter.{TakesFirst};
ghost use Rattle.std.specs.Slice.Iter.{iter_rest};
ghost use Rattle.oas_elements.specs.Contents.{Cell};
ghost use Rattle.oas_layout.specs.Keyed.{keyed_cells};
ghost use Rattle.oas_layout.specs.Held.{AreSoundCells, AreLightCells, HeldCells, cells_held, name_and_elements};
ghost use Rattle.oas_layout.specs.Laws.HeldLaws.{held_cells_prop};

use crate::elements::Elements;
use oas_num::Name;
use oas_runs::Run;
use std::marker::Model;
use std::slice::Iter;

/// Cells by ascending names, each with its elements; seen as the list of those to come.
#[derive(Drop)]
pub struct Cells<'a> {
    runs: Iter<'a, (Name, Run)>,
    ghost held: { HeldCells (iter_rest runs) } by { held_cells_prop (iter_rest runs) },
}

impl<'a> Model for Cells<'a> {
    ghost use Rattle.std.specs.Prelude.{List};
    ghost use Rattle.oas_elements.specs.Contents.{Cell};
    ghost use Rattle.oas_layout.specs.Held.{AreLightCells, cells_held};

    ghost Value = { List Cell };

    ghost view = { λ a. cells_held a.held };

    ghost invariant = { λ a. AreLightCells (cells_held a.held) };
}

impl<'a> Cells<'a> {
    /// The cells whose runs these are.
    pub(crate) fn of(runs: Iter<'a, (Name, Run)>) -> Cells<'a>
        requires held { HeldCells (iter_rest runs) }
        requires light { (h : HeldCells (iter_rest runs)) → AreLightCells (cells_held h) }
        ensures { (cs : List Cell) → AreSoundCells cs → iter_rest runs.entry ≡ keyed_cells cs → result ≡ cs }
    {
        Cells { runs }
    }
}

impl<'a> Iterator for Cells<'a> {
    type Item = (&'a Name, Elements<'a>);

    ghost next_gives = { TakesFirst name_and_elements };

    ghost remaining = { λ s. at_most (length s) };

    fn next(&mut self) -> Option<(&'a Name, Elements<'a>)> {
        let (name, run) = self.runs.next()?;
        Some((name, Elements::of(run.entries())))
    }
}

//! A layout, held as runs of keys.

ghost use Rattle.std.specs.Prelude.{◌≡◌, List, length};
ghost use Rattle.oas_elements.specs.Contents.{Cell, IsLayout};
ghost use Rattle.oas_layout.specs.Keyed.{keyed_cells};
ghost use Rattle.oas_layout.specs.Held.{AreSoundCells, HeldCells, cells_held, contents_of};
ghost use Rattle.oas_layout.specs.Laws.HeldLaws.{held_cells_prop};

use crate::cells::Cells;
use oas_elements::{Limits, Profile};
use oas_num::{Fraction, Name};
use oas_runs::Run;
use std::marker::Model;

/// A layout: its unit, and by ascending names its cells, each as the run of the keys of its elements in the form in which a
/// profile keeps them. Contracts see it as [`Contents`](oas_elements). No call on it takes memory.
#[derive(Drop)]
pub struct Layout {
    pub(crate) unit: Fraction,
    limits: Limits,
    profile: Profile,
    pub(crate) cells: Vec<(Name, Run)>,
    ghost held: { HeldCells cells.items } by { held_cells_prop cells.items },
}

impl Model for Layout {
    ghost use Rattle.oas_elements.specs.Contents.{Contents, IsLayout};
    ghost use Rattle.oas_layout.specs.Held.{cells_held, contents_of};

    ghost Value = { Contents };

    ghost view = { λ a. contents_of a.unit a.limits a.profile (cells_held a.held) };

    ghost invariant = { λ a. IsLayout (contents_of a.unit a.limits a.profile (cells_held a.held)) };
}

impl Layout {
    /// The layout of these runs, which was read within these limits and is kept by this profile.
    pub(crate) fn of(
        unit: Fraction,
        limits: Limits,
        profile: Profile,
        cells: Vec<(Name, Run)>,
    ) -> Layout
        requires held { HeldCells cells.items }
        requires layout { (h : HeldCells cells.items) → IsLayout (contents_of unit limits profile (cells_held h)) }
        ensures { (cs : List Cell) → AreSoundCells cs → cells.items ≡ keyed_cells cs → result ≡ contents_of unit limits profile cs }
    {
        Layout {
            unit,
            limits,
            profile,
            cells,
        }
    }

    /// The grid steps per micron.
    pub fn unit(&self) -> Fraction
        ensures { result ≡ self.now.unit }
    {
        self.unit
    }

    /// The limits that it was read within.
    pub fn limits(&self) -> Limits
        ensures { result ≡ self.now.limits }
    {
        self.limits
    }

    /// The profile that it is kept by.
    pub fn profile(&self) -> Profile
        ensures { result ≡ self.now.profile }
    {
        self.profile
    }

    /// How many cells there are.
    pub fn cell_count(&self) -> usize
        ensures { result ≡ length self.now.cells }
    {
        self.cells.len()
    }

    /// The cells by ascending names, each with its distinct elements ascending. A file can spell all that is in them
    /// (`IsLayout`).
    pub fn cells(&self) -> Cells<'_>
        ensures cells { result ≡ self.now.cells }
        ensures layout { IsLayout self.now }
    {
        Cells::of(self.cells.iter())
    }
}

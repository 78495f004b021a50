//! The elements of a cell of a draft.

ghost use Rattle.std.specs.Prelude.{◌≡◌, ◌+◌, ◌<◌, ◌^◌, [], false, true, OnOk, OnErr, IfOk};
ghost use Rattle.oas_elements.specs.Bag.{with_more};
ghost use Rattle.oas_elements.specs.Contents.{AllSound};
ghost use Rattle.oas_elements.specs.Grid.{fits_grid};
ghost use Rattle.oas_elements.specs.Laws.BagLaws.{total};
ghost use Rattle.oas_elements.specs.Same.{normal};
ghost use Rattle.oas_elements.specs.Sound.{IsSound};
ghost use Rattle.oas_elements.specs.Weight.{lacks_points};
ghost use Rattle.oas_layout.specs.Keyed.{keyed};
ghost use Rattle.oas_layout.specs.Held.{HeldElements};
ghost use Rattle.oas_layout.specs.Laws.HeldLaws.{held_prop};

use oas_cells::ElementStore;
use oas_elements::{Element, Profile};
use oas_runs::Run;
use std::alloc::{AllocError, Global};
use std::marker::Model;

/// Elements in their kept forms, held as keys and seen as the ascending list of them with their counts.
#[derive(Drop)]
pub(crate) struct DraftCell {
    store: ElementStore,
    ghost held: { HeldElements store } by { held_prop store },
}

impl Model for DraftCell {
    ghost use Rattle.std.specs.Prelude.{List, ℕ};
    ghost use Rattle.oas_elements.specs.declared.element.Element.{Element};
    ghost use Rattle.oas_layout.specs.Held.{elements_held};

    ghost Value = { List (Element × ℕ) };

    ghost view = { λ a. elements_held a.held };
}

impl DraftCell {
    /// No elements, and no memory.
    pub(crate) fn new(alloc: Global) -> DraftCell
        ensures { result ≡ [] }
    {
        DraftCell {
            store: ElementStore::new(alloc),
        }
    }

    /// Adds this many equal elements; or, if out of memory, none.
    pub(crate) fn add(
        &mut self,
        profile: Profile,
        element: &Element,
        times: u64,
    ) -> Result<(), AllocError>
        requires some { 0 < times }
        requires points { lacks_points element.now ≡ false }
        requires inside { fits_grid element.now ≡ true }
        requires room { total (λ _. 1) self.old + times < 2 ^ 64 }
        ensures ok { OnOk result (self.new ≡ with_more self.old (normal profile element.now) times) }
        ensures sound { OnOk result (IsSound element.now) }
        ensures err { OnErr result (self.new ≡ self.old) }
    {
        element.fits();
        self.store.add(profile, element, times)
    }

    /// The run of the keys.
    pub(crate) fn close(self) -> Result<Run, AllocError>
        ensures keys { IfOk result (λ run. run ≡ keyed self) }
        ensures sound { AllSound self }
    {
        self.store.close()
    }
}

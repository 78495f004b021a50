//! What a reader keeps.

ghost use Rattle.std.specs.Prelude.{◌≡◌, ◌++◌, IfOk};
ghost use Rattle.std.specs.Option.{option_to_list};

use crate::names::NameTable;
use crate::stores::CellStore;
use oas_drawing::ModalVariables;
use oas_elements::{Limits, Profile};
use oas_num::{Fraction, Label, Name, Why};
use std::alloc::Global;

/// What a reader keeps, with a store for each cell. That of the open one is apart from those before it.
#[derive(Drop)]
pub struct Parts<S> {
    pub(crate) alloc: Global,
    pub(crate) unit: Fraction,
    pub(crate) limits: Limits,
    pub(crate) profile: Profile,
    pub(crate) modal: ModalVariables,
    pub(crate) names: NameTable<Name>,
    pub(crate) strings: NameTable<Label>,
    pub(crate) done: Vec<S>,
    pub(crate) cell: Option<S>,
    pub(crate) count: u64,
    pub(crate) weight: u64,
}

/// The open cell, if there is one, with those before it.
pub(crate) fn all_cells<S: CellStore>(done: Vec<S>, cell: Option<S>) -> Result<Vec<S>, Why>
    ensures { IfOk result (λ cells. cells.items ≡ done.items ++ option_to_list cell) }
{
    let mut cells = done;
    if let Some(held) = cell {
        if cells.push(held).is_err() {
            return Err(Why::Memory);
        }
    }
    Ok(cells)
}

//! The meaning of a reference, by the table of the whole file.

ghost use Rattle.std.specs.Prelude.{◌≡◌};
ghost use Rattle.std.specs.Option.{option_copied};
ghost use Rattle.oas_reader.specs.References.{cell_by};
ghost use Rattle.oas_reader.specs.Weights.{head_weight};

use crate::names::NameTable;
use oas_num::Name;
use oas_record::CellRef;

/// The name of the cell, by the table of the whole file; None where it is a number that no record names.
pub fn cell_meant<'a>(names: &'a NameTable<Name>, cell: &'a CellRef) -> Option<&'a Name>
    ensures { option_copied result ≡ cell_by names.now.named cell.now }
{
    match cell {
        CellRef::Number(number) => names.get(*number),
        CellRef::Name(name) => Some(name),
    }
}

/// The weight of a cell without its elements: one and the bytes of its name; None where it is a number that no record names.
pub fn head_weight(cell: &CellRef, names: &NameTable<Name>) -> Option<u64>
    ensures { result ≡ head_weight (cell_by names.now.named cell.now) }
{
    let name = cell_meant(names, cell)?;
    Some((name.as_bytes().len() as u64).saturating_add(1))
}

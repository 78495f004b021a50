//! Names beside eight of their bytes, which decide most comparisons.

ghost use Rattle.std.specs.Prelude.{◌≡◌, map, IfOk, IfErr};
ghost use Rattle.oas_num.specs.declared.refusals.Why.TheVariants.{Memory};
ghost use Rattle.oas_reader.specs.Meaning.{names_meant};

use crate::meant::cell_meant;
use crate::names::NameTable;
use crate::stores::CellStore;
use oas_num::{Name, Why};
use std::alloc::Global;

/// How many bytes of a name are compared at once.
const AT_ONCE: usize = 8;

/// The first eight bytes as a number, with the first of them highest. Where there are fewer, it is padded with zeros.
fn front_of(bytes: &[u8]) -> u64 {
    let mut front = [0; AT_ONCE];
    for (to, byte) in front.iter_mut().zip(bytes) {
        *to = *byte;
    }
    u64::from_be_bytes(front)
}

/// The bytes of a name after this many.
fn behind(name: &Name, shared: usize) -> &[u8] {
    match name.as_bytes().get(shared..) {
        Some(rest) => rest,
        None => &[],
    }
}

/// How many bytes two names begin with alike, of so many at most.
fn alike(one: &[u8], other: &[u8], most: usize) -> usize {
    let most = most.min(one.len()).min(other.len());
    for i in 0..most {
        if one[i] != other[i] {
            return i;
        }
    }
    most
}

/// How many bytes all names of cells begin with alike.
fn shared_by_all<S: CellStore>(cells: &[S], names: &NameTable<Name>) -> usize {
    let mut first: Option<&Name> = None;
    let mut shared = usize::MAX;
    for cell in cells {
        if let Some(name) = cell_meant(names, cell.cell()) {
            let front = first.unwrap_or(name);
            shared = alike(front.as_bytes(), name.as_bytes(), shared);
            first = Some(front);
        }
    }
    shared
}

/// The names of the cells, of those that have one, each beside the eight bytes after what all names begin with.
pub(crate) fn fronted_names<'a, S: CellStore>(
    alloc: Global,
    cells: &'a [S],
    names: &'a NameTable<Name>,
) -> Result<Vec<(u64, &'a Name)>, Why>
    ensures names { IfOk result (λ all. map (λ x. x.1.now) all.items ≡ names_meant names.now.named (map S.store.cell cells.now)) }
    ensures err { IfErr result (λ why. why ≡ Memory) }
{
    let shared = shared_by_all(cells, names);
    let mut all = Vec::with_capacity(alloc, cells.len())?;
    for cell in cells {
        if let Some(name) = cell_meant(names, cell.cell()) {
            all.push((front_of(behind(name, shared)), name))?;
        }
    }
    Ok(all)
}

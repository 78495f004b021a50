//! What waits in chunks, put into the order of its keys.

ghost use Rattle.std.specs.Prelude.{◌≡◌, map, IfOk};
ghost use Rattle.std.specs.List.{AllByRecursion};
ghost use Rattle.oas_runs.specs.Blocks.{joined};
ghost use Rattle.oas_cells.specs.Compact.{SameWaiting, Waits};
ghost use Rattle.oas_cells.specs.Short.{drawn_once};
ghost use Rattle.oas_cells.specs.Spreading.{AllOnce};

use crate::chunks::Chunk;
use crate::ranking::Ranks;
use crate::short::{Place, Short};
use crate::spreading::parts_of;
use std::alloc::{AllocError, Global};

/// So much is worth to be sorted.
pub(crate) const MANY: usize = 256;

/// Something that waits, and where it belongs.
#[derive(Clone, Copy)]
struct Placed {
    place: Place,
    short: Short,
}

/// Each beside where it belongs.
fn with_places(alloc: Global, shorts: &[Short], ranks: &Ranks) -> Result<Vec<Placed>, AllocError>
    ensures { IfOk result (λ all. map (λ p. p.short) all.items ≡ shorts.now) }
{
    let mut all = Vec::with_capacity(alloc, shorts.len())?;
    for short in shorts {
        let place = short.place(ranks);
        all.push(Placed {
            place,
            short: *short,
        })?;
    }
    Ok(all)
}

/// The same without their places.
fn without_places(alloc: Global, all: &[Placed]) -> Result<Vec<Short>, AllocError>
    ensures { IfOk result (λ shorts. shorts.items ≡ map (λ p. p.short) all.now) }
{
    let mut shorts = Vec::with_capacity(alloc, all.len())?;
    for placed in all {
        shorts.push(placed.short)?;
    }
    Ok(shorts)
}

/// What waits in a chunk, in order.
fn sorted(alloc: Global, shorts: &[Short], ranks: &Ranks) -> Result<Vec<Short>, AllocError>
    ensures { IfOk result (λ sorted. SameWaiting (drawn_once sorted.items) (drawn_once shorts.now)) }
{
    let mut all = with_places(alloc, shorts, ranks)?;
    all.sort_unstable_by(|one, other| one.place.cmp(&other.place));
    without_places(alloc, &all)
}

/// A chunk in order.
fn sorted_chunk(alloc: Global, chunk: Chunk, ranks: &Ranks) -> Result<Chunk, AllocError>
    ensures same { IfOk result (λ sorted. SameWaiting sorted chunk) }
    ensures once { IfOk result (λ sorted. AllOnce sorted) }
{
    let shorts = sorted(alloc, &chunk.shorts, ranks)?;
    Ok(Chunk { shorts })
}

/// Each part in order.
fn sorted_parts(alloc: Global, parts: Vec<Chunk>, ranks: &Ranks) -> Result<Vec<Chunk>, AllocError>
    ensures same { IfOk result (λ row. SameWaiting (joined row.items) (joined parts.items)) }
    ensures once { IfOk result (λ row. AllOnce (joined row.items)) }
{
    let mut row = Vec::with_capacity(alloc, parts.len())?;
    for part in parts {
        row.push(sorted_chunk(alloc, part, ranks)?)?;
    }
    Ok(row)
}

/// What waits in chunks, in the order of its keys where there are ranks.
pub(crate) fn in_order(
    alloc: Global,
    row: Vec<Chunk>,
    ranks: Option<&Ranks>,
) -> Result<Vec<Chunk>, AllocError>
    ensures same { IfOk result (λ sorted. SameWaiting (joined sorted.items) (joined row.items)) }
    ensures waits { IfOk result (λ sorted. AllByRecursion Waits (joined row.items) → AllByRecursion Waits (joined sorted.items)) }
{
    match ranks {
        Some(ranks) => {
            let parts = parts_of(alloc, row, ranks)?;
            let sorted = sorted_parts(alloc, parts, ranks)?;
            Ok(sorted)
        }
        None => Ok(row),
    }
}

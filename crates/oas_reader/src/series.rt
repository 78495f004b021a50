//! Series: several elements that are taken at once, where no element is kept.
//!
//! A series is told by its last record, how many elements it has, and their weight together. Each of its records gives all that
//! the last one gives, so the modal variables are set by the last one alone.

ghost use Rattle.std.specs.Prelude.{◌≡◌, ◌≤◌, ◌+◌, true, IfSome, OnOk};
ghost use Rattle.oas_peek.specs.Named.{HasValidName, named_record};
ghost use Rattle.oas_reader.specs.Parts.{Sound};
ghost use Rattle.oas_reader.specs.Series.{HasRoomIn, LandsNear, TookSeries};

use crate::parts::Parts;
use crate::stores::CellStore;
use oas_peek::NamedOnce;
use oas_record::Record;
use std::alloc::AllocError;

/// How many more elements the limits allow, and how much these may weigh together.
#[derive(Clone, Copy, Debug, PartialEq, Eq)]
pub struct Room {
    pub elements: u64,
    pub weight: u64,
}

/// The room for a series in the open cell; None where there is none, where its elements are kept, or where coordinates are
/// relative.
#[inline(always)]
pub(crate) fn room_in<S: CellStore>(parts: &Parts<S>) -> Option<Room>
    requires { Sound S.store parts.now }
    ensures counts { IfSome result (λ _. S.COUNTS ≡ true) }
    ensures room { IfSome result (λ room. HasRoomIn parts.now room.elements room.weight) }
{
    if !S::COUNTS || parts.cell.is_none() || parts.modal.is_relative() {
        return None;
    }
    Some(Room {
        elements: parts.limits.elements() - parts.count,
        weight: parts.limits.weight() - parts.weight,
    })
}

/// Draws a series that ends with this record in the open cell. Memory that the record owns is moved out of it.
pub(crate) fn accept_series<S: CellStore>(
    parts: &mut Parts<S>,
    last: &mut Record,
    count: u64,
    weight: u64,
)
    requires counts { S.COUNTS ≡ true }
    requires room { HasRoomIn parts.old count weight }
    requires lands { LandsNear parts.old.modal last.old }
    requires sound { Sound S.store parts.old }
    ensures new { TookSeries S.store parts.old last.old count weight parts.new }
    ensures sound { Sound S.store parts.new }
{
    let Some(held) = &mut parts.cell else {
        return;
    };
    parts.modal.step(last);
    held.draw_series(count, weight);
    parts.count += count;
    parts.weight += weight;
}

/// Draws a series of placements or texts that ends with this one in the open cell. If out of memory for its name, the series is half
/// drawn.
pub(crate) fn accept_named_series<S: CellStore>(
    parts: &mut Parts<S>,
    last: &NamedOnce<'_>,
    count: u64,
    weight: u64,
) -> Result<(), AllocError>
    requires counts { S.COUNTS ≡ true }
    requires named { HasValidName last.now }
    requires room { HasRoomIn parts.old count weight }
    requires lands { LandsNear parts.old.modal (named_record last.now) }
    requires sound { Sound S.store parts.old }
    ensures new { OnOk result (TookSeries S.store parts.old (named_record last.now) count weight parts.new) }
    ensures sound { OnOk result (Sound S.store parts.new) }
{
    let Some(held) = &mut parts.cell else {
        return Ok(());
    };
    parts.modal.set_fields(last);
    parts.modal.set_name(parts.alloc, last)?;
    held.draw_series(count, weight);
    parts.count += count;
    parts.weight += weight;
    Ok(())
}

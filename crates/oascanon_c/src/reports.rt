//! The calls that put a text, over bytes and room: the listing, the keys of the cells, the facts, and what differs.
ghost use Rattle.std.specs.Prelude.{◌≡◌, length, IfOk, None};
ghost use Rattle.oas_num.specs.declared.refusals.Why.TheVariants.{Memory as NoMemory};
ghost use Rattle.oas_num.specs.Writing.{Writes};
ghost use Rattle.oas_elements.specs.Contents.{meaning_of};
ghost use Rattle.oas_prepare.specs.Listing.{listing};
ghost use Rattle.oas_difference.specs.Difference.{difference};
ghost use Rattle.oas_difference.specs.FormatConstants.{PLAIN};
ghost use Rattle.oas_info.specs.Info.{IsInfo};
ghost use Rattle.oas_info.specs.Json.{info_json};
ghost use Rattle.oas_prepare.specs.CellKeys.{cell_key_lines};
ghost use Rattle.oascanon_c.specs.Buffers.{Lists, ListsKeys};
ghost use Rattle.oascanon_c.specs.Reports.{Differs, Informs, line_of};
ghost use Rattle.oascanon_c.specs.Rooms.{Puts};

use crate::answers::Answer;
use crate::bounds::Bounds;
use crate::buffers::read;
use crate::filling::Filler;
use oas_difference::{Detail, put_difference};
use oas_info::{Info, info_of, json_of};
use oas_prepare::{Layout, Refusal, Sink, SinkFault, Which, Why, put_cell_keys, put_listing};
use std::alloc::{AllocError, Global};

/// Puts the listing of a layout into the room, as far as it fits.
fn put_lines(layout: &Layout, room: &mut [u8]) -> Answer
    ensures { Puts (listing (meaning_of layout.now)) room.old result room.new }
{
    let mut filler = Filler::new(room);
    let _ = put_listing(layout, &mut filler);
    filler.answer()
}

/// Puts a line with the key of each cell of a layout into the room, as far as they fit.
fn put_keys(layout: &Layout, room: &mut [u8]) -> Answer
    ensures { Puts (cell_key_lines (meaning_of layout.now)) room.old result room.new }
{
    let mut filler = Filler::new(room);
    let _ = put_cell_keys(layout, &mut filler);
    filler.answer()
}

/// Puts the lines of what differs between two layouts into the room, as far as they fit.
fn put_changes(before: &Layout, after: &Layout, room: &mut [u8]) -> Answer
    requires { before.now.profile ≡ after.now.profile }
    ensures { Puts (difference None PLAIN before.now.profile (meaning_of before.now) (meaning_of after.now)) room.old result room.new }
{
    let mut filler = Filler::new(room);
    let _ = put_difference(before, after, Detail::Elements, &mut filler);
    filler.answer()
}

/// Puts a text and the line's end.
fn put_line<K: Sink>(text: &[u8], sink: &mut K) -> Result<(), SinkFault>
    ensures { Writes K.given K.failures sink.old (line_of text.now) result sink.new }
{
    sink.put_all(text)?;
    sink.put(b'\n')
}

/// Puts a text and the line's end into the room, as far as they fit.
fn put_text(text: &[u8], room: &mut [u8]) -> Answer
    ensures { Puts (line_of text.now) room.old result room.new }
{
    let mut filler = Filler::new(room);
    let _ = put_line(text, &mut filler);
    filler.answer()
}

/// The facts of a layout, and their text.
fn facts(alloc: Global, layout: &Layout) -> Result<(Info, Vec<u8>), AllocError>
    ensures facts { IfOk result (λ both. IsInfo (meaning_of layout.now) both.0) }
    ensures text { IfOk result (λ both. both.1.items ≡ info_json both.0) }
{
    let info = info_of(alloc, layout)?;
    let text = json_of(alloc, &info)?;
    Ok((info, text))
}

/// The refusal of a file that was read, for want of memory.
fn no_memory(bytes: &[u8]) -> Refusal
    ensures why { result.why ≡ NoMemory }
    ensures place { result.at ≡ length bytes.now }
{
    Refusal {
        at: bytes.len() as u64,
        why: Why::Memory,
    }
}

/// Puts the listing of what bytes mean into the room.
pub(crate) fn list(alloc: Global, bytes: &[u8], bounds: &Bounds, room: &mut [u8]) -> Answer
    ensures { Lists bounds.now bytes.now room.old result room.new }
{
    let Some(limits) = bounds.limits() else {
        return Answer::NotLimits;
    };
    match read(alloc, bytes, limits) {
        Ok(layout) => put_lines(&layout, room),
        Err(refusal) => Answer::Refused(Which::First, refusal),
    }
}

/// Puts a line with the key of each cell of what bytes mean into the room.
pub(crate) fn keys(alloc: Global, bytes: &[u8], bounds: &Bounds, room: &mut [u8]) -> Answer
    ensures { ListsKeys bounds.now bytes.now room.old result room.new }
{
    let Some(limits) = bounds.limits() else {
        return Answer::NotLimits;
    };
    match read(alloc, bytes, limits) {
        Ok(layout) => put_keys(&layout, room),
        Err(refusal) => Answer::Refused(Which::First, refusal),
    }
}

/// Puts the facts of what bytes mean into the room, as a line of JSON.
pub(crate) fn info(alloc: Global, bytes: &[u8], bounds: &Bounds, room: &mut [u8]) -> Answer
    ensures { Informs bounds.now bytes.now room.old result room.new }
{
    let Some(limits) = bounds.limits() else {
        return Answer::NotLimits;
    };
    let layout = match read(alloc, bytes, limits) {
        Ok(layout) => layout,
        Err(refusal) => return Answer::Refused(Which::First, refusal),
    };
    match facts(alloc, &layout) {
        Ok((_, text)) => put_text(text.as_slice(), room),
        Err(_) => Answer::Refused(Which::First, no_memory(bytes)),
    }
}

/// Puts the lines of what differs between what two files' bytes mean into the room.
pub(crate) fn diff(
    alloc: Global,
    one: &[u8],
    other: &[u8],
    bounds: &Bounds,
    room: &mut [u8],
) -> Answer
    ensures { Differs bounds.now one.now other.now room.old result room.new }
{
    let Some(limits) = bounds.limits() else {
        return Answer::NotLimits;
    };
    let before = match read(alloc, one, limits) {
        Ok(layout) => layout,
        Err(refusal) => return Answer::Refused(Which::First, refusal),
    };
    match read(alloc, other, limits) {
        Ok(after) => put_changes(&before, &after, room).by_lines(),
        Err(refusal) => Answer::Refused(Which::Second, refusal),
    }
}

//! From a source to a reader: one record, all records, and the end of the input.
ghost use Rattle.std.specs.Prelude.{◌≡◌, Bool};
ghost use Rattle.oas_peek.specs.Peeked.{IsPeeked};
ghost use Rattle.oas_file.specs.Gathering.{ConsumesOne, Gathers, FindsEnd};

use crate::records::{find_record, take_record};
use oas_num::{Refusal, Source, SourceFault, Why};
use oas_peek::{
    KindAtHand, PeekedRectangle, kind_at_hand, peek_figure, peek_full_rectangle, peek_named,
    peek_rectangle,
};
use oas_reader::{CellStore, Reader};
use oas_record::Head;
use std::alloc::Global;

/// Gives the reader the next record, which starts at byte `at`, and returns false where it is END. A record at hand is read
/// from the bytes there, which are skipped, and a polygon or a path the faster way.
///
/// It is a function of its own since whole records are moved here, and a call begins by clearing room for each of them.
#[inline(never)]
fn take_other<S: Source, C: CellStore>(
    alloc: Global,
    source: &mut S,
    flag_in_end: bool,
    at: u64,
    reader: &mut Reader<C>,
) -> Result<bool, Refusal>
    requires { at ≡ (S.script source.old).given }
    ensures { ConsumesOne C.store flag_in_end (S.script source.old) reader.old result (S.script source.new) reader.new }
{
    if let Some(figure) = peek_figure(alloc, source.ahead()) {
        source.skip(figure.length);
        reader.take(at, figure.record)?;
        return Ok(true);
    }
    if let Some(found) = find_record(alloc, source.ahead(), flag_in_end) {
        source.skip(found.length);
        reader.take(at, found.record)?;
        return Ok(true);
    }
    let Some(record) = take_record(alloc, source, flag_in_end)? else {
        return Ok(false);
    };
    reader.take(at, record)?;
    Ok(true)
}

/// Gives the reader this rectangle, which is at hand and starts at byte `at`, and returns true.
#[inline(always)]
fn take_found<S: Source, C: CellStore>(
    source: &mut S,
    at: u64,
    found: PeekedRectangle,
    reader: &mut Reader<C>,
) -> Result<bool, Refusal>
    requires place { at ≡ (S.script source.old).given }
    requires found { IsPeeked (S.at_hand source.old) found }
    ensures { (flag_in_end : Bool) → ConsumesOne C.store flag_in_end (S.script source.old) reader.old result (S.script source.new) reader.new }
{
    source.skip(found.length);
    reader.take_rectangle(at, found.rectangle)?;
    Ok(true)
}

/// The same as [`take_other`], where also a rectangle at hand is read the faster way.
#[inline(never)]
fn take_rectangle<S: Source, C: CellStore>(
    alloc: Global,
    source: &mut S,
    flag_in_end: bool,
    at: u64,
    reader: &mut Reader<C>,
) -> Result<bool, Refusal>
    requires { at ≡ (S.script source.old).given }
    ensures { ConsumesOne C.store flag_in_end (S.script source.old) reader.old result (S.script source.new) reader.new }
{
    if let Some(found) = peek_rectangle(source.ahead()) {
        return take_found(source, at, found, reader);
    }
    take_other(alloc, source, flag_in_end, at, reader)
}

/// The same as [`take_other`], where also a placement or a text at hand is read the faster way.
#[inline(never)]
fn take_named<S: Source, C: CellStore>(
    alloc: Global,
    source: &mut S,
    flag_in_end: bool,
    at: u64,
    reader: &mut Reader<C>,
) -> Result<bool, Refusal>
    requires { at ≡ (S.script source.old).given }
    ensures { ConsumesOne C.store flag_in_end (S.script source.old) reader.old result (S.script source.new) reader.new }
{
    if let Some(found) = peek_named(source.ahead()) {
        let length = found.length;
        let taken = reader.take_named(at, &found.element);
        source.skip(length);
        taken?;
        return Ok(true);
    }
    take_other(alloc, source, flag_in_end, at, reader)
}

/// The same, by the faster way of its kind. A rectangle at hand that gives all its fields is taken here, with no test for any of
/// them.
#[inline(always)]
fn take_next<S: Source, C: CellStore>(
    alloc: Global,
    source: &mut S,
    flag_in_end: bool,
    at: u64,
    reader: &mut Reader<C>,
) -> Result<bool, Refusal>
    requires { at ≡ (S.script source.old).given }
    ensures { ConsumesOne C.store flag_in_end (S.script source.old) reader.old result (S.script source.new) reader.new }
{
    if let Some(found) = peek_full_rectangle(source.ahead()) {
        return take_found(source, at, found, reader);
    }
    match kind_at_hand(source.ahead()) {
        KindAtHand::Rectangle => take_rectangle(alloc, source, flag_in_end, at, reader),
        KindAtHand::Named => take_named(alloc, source, flag_in_end, at, reader),
        _ => take_other(alloc, source, flag_in_end, at, reader),
    }
}

/// Gives the reader the records up to END, and returns END's offset.
pub fn take_records<S: Source, C: CellStore>(
    alloc: Global,
    source: &mut S,
    head: Head,
    reader: &mut Reader<C>,
) -> Result<u64, Refusal>
    ensures { Gathers C.store head (S.script source.old) reader.old result (S.script source.new) reader.new }
{
    let mut at = source.at();
    while take_next(alloc, source, head.flag_in_end, at, reader)? {
        at = source.at();
    }
    Ok(at)
}

/// Finds the end of the input.
pub fn find_end_of_input<S: Source>(source: &mut S) -> Result<(), Refusal>
    ensures { FindsEnd (S.script source.old) result (S.script source.new) }
{
    let at = source.at();
    let why = match source.next() {
        Ok(None) => return Ok(()),
        Ok(Some(_)) => Why::TrailingBytes,
        Err(SourceFault::Device) => Why::Read,
        Err(SourceFault::TooLong) => Why::InputTooLong,
    };
    Err(Refusal { at, why })
}

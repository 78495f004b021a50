//! All records of a file of the standard.
ghost use Rattle.std.specs.Prelude.{◌≡◌};
ghost use Rattle.oas_prepare.specs.Gathering.{ConsumesNext, Gathers, GathersFile};

use crate::heads::read_wide_head;
use crate::inside::take_block;
use crate::taking::Preparation;
use oas_canon::find_end_of_input;
use oas_elements::{Limits, Profile};
use oas_narrow::{
    BlockHead, CellStore, Dropping, Reader, Rejection, WideEnd, WideRecord, WideStart,
};
use oas_num::Source;
use oas_peek::{KindAtHand, kind_at_hand, peek_figure, peek_named, peek_rectangle};
use std::alloc::Global;

/// What came next in a file.
pub(crate) enum Next {
    /// A record before END, which was taken.
    Taken,
    End(WideEnd),
    /// What comes before the bytes of a block.
    Block(BlockHead),
}

/// The result of all records, with END and its offset.
#[derive(Drop)]
pub(crate) struct Gathered<R> {
    pub(crate) preparation: Preparation<R>,
    pub(crate) at: u64,
    pub(crate) end: WideEnd,
}

/// Takes the next record, which starts at byte `at`. A polygon or a path at hand is read the faster way.
///
/// It is a function of its own since whole records are moved here, and a call begins by clearing room for each of them.
#[inline(never)]
fn take_other<S: Source, C: CellStore>(
    alloc: Global,
    source: &mut S,
    flag_in_end: bool,
    at: u64,
    preparation: &mut Preparation<Reader<C>>,
) -> Result<Next, Rejection>
    requires { at ≡ (S.script source.old).given }
    ensures { ConsumesNext C.store flag_in_end (S.script source.old) preparation.old result (S.script source.new) preparation.new }
{
    if let Some(figure) = peek_figure(alloc, source.ahead()) {
        source.skip(figure.length);
        preparation.take_plain(alloc, at, figure.record)?;
        return Ok(Next::Taken);
    }
    match WideRecord::read(alloc, source, flag_in_end)? {
        WideRecord::End(end) => Ok(Next::End(end)),
        WideRecord::Block(head) => Ok(Next::Block(head)),
        WideRecord::Profile(record) => {
            preparation.take_plain(alloc, at, record)?;
            Ok(Next::Taken)
        }
        other => {
            preparation.take(alloc, at, other)?;
            Ok(Next::Taken)
        }
    }
}

/// The same, where also a rectangle at hand is read the faster way.
#[inline(never)]
fn take_rectangle<S: Source, C: CellStore>(
    alloc: Global,
    source: &mut S,
    flag_in_end: bool,
    at: u64,
    preparation: &mut Preparation<Reader<C>>,
) -> Result<Next, Rejection>
    requires { at ≡ (S.script source.old).given }
    ensures { ConsumesNext C.store flag_in_end (S.script source.old) preparation.old result (S.script source.new) preparation.new }
{
    if let Some(found) = peek_rectangle(source.ahead()) {
        source.skip(found.length);
        preparation.take_rectangle(alloc, at, found.rectangle)?;
        return Ok(Next::Taken);
    }
    take_other(alloc, source, flag_in_end, at, preparation)
}

/// The same, where also a placement or a text at hand is read the faster way.
#[inline(never)]
fn take_named<S: Source, C: CellStore>(
    alloc: Global,
    source: &mut S,
    flag_in_end: bool,
    at: u64,
    preparation: &mut Preparation<Reader<C>>,
) -> Result<Next, Rejection>
    requires { at ≡ (S.script source.old).given }
    ensures { ConsumesNext C.store flag_in_end (S.script source.old) preparation.old result (S.script source.new) preparation.new }
{
    if let Some(found) = peek_named(source.ahead()) {
        let length = found.length;
        let taken = preparation.take_named(at, &found.element);
        source.skip(length);
        taken?;
        return Ok(Next::Taken);
    }
    take_other(alloc, source, flag_in_end, at, preparation)
}

/// The same, by the faster way of its kind.
#[inline(always)]
pub(crate) fn take_next<S: Source, C: CellStore>(
    alloc: Global,
    source: &mut S,
    flag_in_end: bool,
    at: u64,
    preparation: &mut Preparation<Reader<C>>,
) -> Result<Next, Rejection>
    requires { at ≡ (S.script source.old).given }
    ensures { ConsumesNext C.store flag_in_end (S.script source.old) preparation.old result (S.script source.new) preparation.new }
{
    match kind_at_hand(source.ahead()) {
        KindAtHand::Rectangle => take_rectangle(alloc, source, flag_in_end, at, preparation),
        KindAtHand::Named => take_named(alloc, source, flag_in_end, at, preparation),
        _ => take_other(alloc, source, flag_in_end, at, preparation),
    }
}

/// Takes the records up to END, and returns END and its offset.
fn take_records<S: Source, C: CellStore>(
    alloc: Global,
    source: &mut S,
    head: WideStart,
    preparation: &mut Preparation<Reader<C>>,
) -> Result<(u64, WideEnd), Rejection>
    ensures { Gathers C.store head (S.script source.old) preparation.old result (S.script source.new) preparation.new }
{
    let mut at = source.at();
    'records: loop {
        match take_next(alloc, source, head.flag_in_end, at, preparation)? {
            Next::Taken => {}
            Next::End(end) => return Ok((at, end)),
            Next::Block(block) => {
                take_block(alloc, source, at, block, head.flag_in_end, preparation)?
            }
        }
        at = source.at();
    }
}

/// Takes a whole file: its head, its records and END, after which the input ends.
pub(crate) fn gather<S: Source, C: CellStore>(
    alloc: Global,
    source: &mut S,
    limits: Limits,
    profile: Profile,
    dropping: Dropping,
) -> Result<Gathered<Reader<C>>, Rejection>
    ensures { GathersFile C.store limits dropping (S.script source.old) result (S.script source.new) }
{
    let (head, unit) = read_wide_head(alloc, source)?;
    let mut preparation = Preparation::new(alloc, unit, limits, profile, dropping);
    let (at, end) = take_records(alloc, source, head, &mut preparation)?;
    find_end_of_input(source)?;
    Ok(Gathered {
        preparation,
        at,
        end,
    })
}

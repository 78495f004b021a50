//! Series: records of one kind that are at hand one after another, each as in a canonical file, accepted and judged together.
//!
//! Such records give all their fields, so the reader takes them by the last one, how many they are, and their weight. A series
//! ends before any record that isn't like that, or for which there is no room; the usual way then takes that one, or refuses
//! it.
ghost use Rattle.std.specs.Prelude.{◌≡◌, ◌↔◌, ◌+◌, ◌<◌, ◌≤◌, ◌^◌, length, drop, IsTrue};
ghost use Rattle.oas_judge.specs.Series.{JudgesSeries};

use crate::gathering::{gather_figures, gather_named, gather_rectangles};
use crate::judge::FileJudge;
use oas_num::{Refusal, Source};
use oas_peek::{KindAtHand, kind_at_hand};
use oas_record::{Head, Record};
use oas_writing::{CellStore, Reader, Room};
use std::alloc::Global;

/// What a series of records at hand comes to so far.
#[derive(Clone, Copy)]
pub(crate) struct Series {
    /// How many elements it has.
    pub(crate) count: u64,
    /// Their weight together.
    pub(crate) weight: u64,
    /// How many bytes it has.
    pub(crate) length: usize,
    /// How many of these its last record has.
    pub(crate) last: usize,
}

impl Series {
    /// A series of no records.
    pub(crate) fn none() -> Series
        ensures { result ≡ record { count = 0; weight = 0; length = 0; last = 0 } }
    {
        Series {
            count: 0,
            weight: 0,
            length: 0,
            last: 0,
        }
    }

    /// Whether there is room for one more element with this weight.
    #[inline(always)]
    pub(crate) fn may_have(self, room: Room, weight: u64) -> bool
        requires { self.weight ≤ room.weight }
        ensures { IsTrue result ↔ ((self.count + 1 ≤ room.elements) × (self.weight + weight ≤ room.weight)) }
    {
        self.count < room.elements && weight <= room.weight - self.weight
    }

    /// With one more record of so many bytes, whose element has this weight.
    #[inline(always)]
    pub(crate) fn with(self, weight: u64, length: usize) -> Series
        requires few { self.count + 1 < 2 ^ 64 }
        requires light { self.weight + weight < 2 ^ 64 }
        requires short { self.length + length < 2 ^ 64 }
        ensures { result ≡ record { count = self.count + 1; weight = self.weight + weight; length = self.length + length; last = length } }
    {
        Series {
            count: self.count + 1,
            weight: self.weight + weight,
            length: self.length + length,
            last: length,
        }
    }

    /// The bytes behind it.
    #[inline(always)]
    pub(crate) fn behind(self, ahead: &[u8]) -> &[u8]
        requires { self.length ≤ length ahead.now }
        ensures { result.now ≡ drop self.length ahead.now }
    {
        &ahead[self.length..]
    }
}

/// Gives the reader the series of rectangles that is at hand, once the judge has seen it. Returns the offset of its last record;
/// None where it does nothing.
#[inline(never)]
fn series_of_rectangles<S: Source, C: CellStore>(
    source: &mut S,
    head: &Head,
    reader: &mut Reader<C>,
    judge: &mut FileJudge,
) -> Result<Option<u64>, Refusal>
    ensures { JudgesSeries C.store head.now (S.script source.old) reader.old judge.old result (S.script source.new) reader.new judge.new }
{
    let Some(room) = reader.room() else {
        return Ok(None);
    };
    let Some((last, series)) = gather_rectangles(source.ahead(), room, judge) else {
        return Ok(None);
    };
    source.skip(series.length);
    reader.take_series(Record::Rectangle(last), series.count, series.weight);
    Ok(Some(source.at() - series.last as u64))
}

/// The same of placements, or of texts.
#[inline(never)]
fn series_of_named<S: Source, C: CellStore>(
    alloc: Global,
    source: &mut S,
    head: &Head,
    reader: &mut Reader<C>,
    judge: &mut FileJudge,
) -> Result<Option<u64>, Refusal>
    ensures { JudgesSeries C.store head.now (S.script source.old) reader.old judge.old result (S.script source.new) reader.new judge.new }
{
    let Some(room) = reader.room() else {
        return Ok(None);
    };
    let Some((last, series)) = gather_named(alloc, source.ahead(), room, judge) else {
        return Ok(None);
    };
    // It can't be as large as that: the offset behind it is one too.
    let at = source
        .at()
        .saturating_add((series.length - series.last) as u64);
    let taken = reader.take_named_series(at, &last, series.count, series.weight);
    source.skip(series.length);
    let end = source.at();
    taken?;
    Ok(Some(end - series.last as u64))
}

/// The same of polygons, or of paths.
#[inline(never)]
fn series_of_figures<S: Source, C: CellStore>(
    alloc: Global,
    source: &mut S,
    head: &Head,
    reader: &mut Reader<C>,
    judge: &mut FileJudge,
) -> Result<Option<u64>, Refusal>
    ensures { JudgesSeries C.store head.now (S.script source.old) reader.old judge.old result (S.script source.new) reader.new judge.new }
{
    let Some(room) = reader.room() else {
        return Ok(None);
    };
    let Some((last, series)) = gather_figures(alloc, source.ahead(), room, judge) else {
        return Ok(None);
    };
    source.skip(series.length);
    reader.take_series(last, series.count, series.weight);
    Ok(Some(source.at() - series.last as u64))
}

/// Gives the reader, and shows the judge, the series that is at hand, where no element is kept. Returns the offset of its last
/// record; None where it does nothing.
#[inline(always)]
pub(crate) fn next_series<S: Source, C: CellStore>(
    alloc: Global,
    source: &mut S,
    head: &Head,
    reader: &mut Reader<C>,
    judge: &mut FileJudge,
) -> Result<Option<u64>, Refusal>
    ensures { JudgesSeries C.store head.now (S.script source.old) reader.old judge.old result (S.script source.new) reader.new judge.new }
{
    if !C::COUNTS {
        return Ok(None);
    }
    match kind_at_hand(source.ahead()) {
        KindAtHand::Rectangle => series_of_rectangles(source, head, reader, judge),
        KindAtHand::Named => series_of_named(alloc, source, head, reader, judge),
        KindAtHand::Figure => series_of_figures(alloc, source, head, reader, judge),
        KindAtHand::Other => Ok(None),
    }
}

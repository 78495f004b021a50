//! The parts of a file, accepted and judged one after another.
ghost use Rattle.std.specs.Prelude.{◌≡◌, Some, IfSome};
ghost use Rattle.oas_judge.specs.declared.parts.Part.TheVariants.{End};
ghost use Rattle.oas_judge.specs.Parts.{JudgesPart, JudgesParts};
ghost use Rattle.oas_judge.specs.Series.{JudgesNext, JudgesAllSeries, JudgesRest};

use crate::judge::FileJudge;
use crate::kept::KeptSource;
use crate::records::next_at_hand;
use crate::series::next_series;
use oas_num::{Refusal, Source, Start};
use oas_record::Head;
use oas_writing::{CellStore, Reader, take_record};
use std::alloc::Global;
use std::marker::Brand;

/// What was taken.
#[derive(Clone, Copy)]
pub(crate) enum Part {
    /// A record, which was judged.
    Judged,
    /// A record, and there was no memory to judge it.
    Unjudged,
    /// END, and whether the file is canonical; None if there was no memory to judge that.
    End(Option<bool>),
}

impl Part {
    /// Whether the file is canonical, where this is END, and that is known.
    pub(crate) fn canonical(self) -> Option<bool>
        ensures { IfSome result (λ yes. self ≡ End (Some yes)) }
    {
        match self {
            Part::End(canonical) => canonical,
            _ => None,
        }
    }
}

/// How far the parts of a file are taken.
#[derive(Clone, Copy)]
pub(crate) enum Until {
    /// Up to the first record that isn't as in a canonical file, or else up to END.
    Other,
    /// Up to END.
    End,
}

/// Gives the reader the next record, which starts at byte `at`, as it is read, and shows it to the judge.
fn read_part_kept<S: Source, K: Start, C: CellStore>(
    alloc: Global,
    source: &mut KeptSource<'_, S, K>,
    head: &Head,
    at: u64,
    reader: &mut Reader<C>,
    judge: &mut FileJudge,
) -> Result<Part, Refusal>
    requires { at ≡ (S.script source.old.source.now).given }
    ensures { JudgesPart C.store head.now (S.script source.old.source.now) reader.old judge.old result (S.script source.new.source.now) reader.new judge.new }
{
    let Some(record) = take_record(alloc, source, head.flag_in_end)? else {
        return Ok(Part::End(judge.end(source.since(at))));
    };
    let candidate = judge.candidate(alloc, &record);
    reader.take(at, record)?;
    if !judge.holds() {
        return Ok(Part::Judged);
    }
    let Some(candidate) = candidate else {
        return Ok(Part::Unjudged);
    };
    let Some(bytes) = source.since(at) else {
        return Ok(Part::Unjudged);
    };
    judge.judge(candidate, bytes);
    Ok(Part::Judged)
}

/// The same, for the source that is named. It hands the borrow back, so that its lender knows it as its own.
///
/// It is for the few records that can't be judged where they are at hand, mostly since what is at hand ends within them.
#[cold]
#[inline(never)]
fn read_part_named<'a, S: Source, K: Start, C: CellStore>(
    alloc: Global,
    source: &'a mut S,
    head: &Head,
    at: u64,
    reader: &mut Reader<C>,
    judge: &mut FileJudge,
) -> (Result<Part, Refusal>, &'a mut S)
    requires named { source.ghost_name ≡ K.name }
    requires starts { S.script source.old ≡ K.script }
    requires place { at ≡ (S.script source.old).given }
    ensures same { result.1.ghost_name ≡ source.entry.ghost_name }
    ensures judged { JudgesPart C.store head.now (S.script source.old) reader.old judge.old result.0 (S.script result.1.now) reader.new judge.new }
{
    let mut keeping: KeptSource<'a, S, K> = KeptSource::new(Vec::new(alloc), source);
    let part = read_part_kept(alloc, &mut keeping, head, at, reader, judge);
    let (source, _kept) = keeping.finish();
    (part, source)
}

/// The same, for any source.
fn read_part<S: Source, C: CellStore>(
    alloc: Global,
    source: &mut S,
    head: &Head,
    at: u64,
    reader: &mut Reader<C>,
    judge: &mut FileJudge,
) -> Result<Part, Refusal>
    requires { at ≡ (S.script source.old).given }
    ensures { JudgesPart C.store head.now (S.script source.old) reader.old judge.old result (S.script source.new) reader.new judge.new }
{
    let (part, _source) = read_part_named::<S, Brand, C>(alloc, source, head, at, reader, judge);
    part
}

/// Gives the reader, and shows the judge, the next record, which starts at byte `at`.
#[inline(always)]
fn next_part<S: Source, C: CellStore>(
    alloc: Global,
    source: &mut S,
    head: &Head,
    at: u64,
    reader: &mut Reader<C>,
    judge: &mut FileJudge,
) -> Result<Part, Refusal>
    requires { at ≡ (S.script source.old).given }
    ensures { JudgesPart C.store head.now (S.script source.old) reader.old judge.old result (S.script source.new) reader.new judge.new }
{
    if next_at_hand(alloc, source, head, at, reader, judge)? {
        return Ok(Part::Judged);
    }
    read_part(alloc, source, head, at, reader, judge)
}

/// The same, or the series that is at hand. Returns also where the last of its records starts.
#[inline(always)]
fn next_or_series<S: Source, C: CellStore>(
    alloc: Global,
    source: &mut S,
    head: &Head,
    at: u64,
    reader: &mut Reader<C>,
    judge: &mut FileJudge,
) -> Result<(Part, u64), Refusal>
    requires { at ≡ (S.script source.old).given }
    ensures { JudgesNext C.store head.now (S.script source.old) reader.old judge.old result (S.script source.new) reader.new judge.new }
{
    if let Some(last) = next_series(alloc, source, head, reader, judge)? {
        return Ok((Part::Judged, last));
    }
    let part = next_part(alloc, source, head, at, reader, judge)?;
    Ok((part, at))
}

/// Gives the reader, and shows the judge, the records as long as the file may be canonical. Returns what was taken last, and its
/// offset, where no more is to be taken.
fn judge_series<S: Source, C: CellStore>(
    alloc: Global,
    source: &mut S,
    head: &Head,
    reader: &mut Reader<C>,
    judge: &mut FileJudge,
    until: Until,
) -> Result<Option<(Part, u64)>, Refusal>
    ensures { JudgesAllSeries C.store head.now (S.script source.old) reader.old judge.old result (S.script source.new) reader.new judge.new }
{
    let mut at = source.at();
    'series: while judge.holds() {
        match next_or_series(alloc, source, head, at, reader, judge)? {
            (Part::Judged, _) if matches!(until, Until::End) || judge.holds() => at = source.at(),
            stop => return Ok(Some(stop)),
        }
    }
    Ok(None)
}

/// The same of all records up to END, or up to one at which the file isn't known to be canonical, without series.
fn judge_rest<S: Source, C: CellStore>(
    alloc: Global,
    source: &mut S,
    head: &Head,
    reader: &mut Reader<C>,
    judge: &mut FileJudge,
    until: Until,
) -> Result<(Part, u64), Refusal>
    ensures { JudgesRest C.store head.now (S.script source.old) reader.old judge.old result (S.script source.new) reader.new judge.new }
{
    let mut at = source.at();
    'parts: loop {
        match next_part(alloc, source, head, at, reader, judge)? {
            Part::Judged if matches!(until, Until::End) || judge.holds() => at = source.at(),
            part => return Ok((part, at)),
        }
    }
}

/// Gives the reader, and shows the judge, the records up to END, or up to one at which the file isn't known to be canonical.
/// Returns what was taken last, and its offset.
///
/// They are looked for only as long as the file may be canonical: in another one there are few.
pub(crate) fn judge_parts<S: Source, C: CellStore>(
    alloc: Global,
    source: &mut S,
    head: Head,
    reader: &mut Reader<C>,
    judge: &mut FileJudge,
    until: Until,
) -> Result<(Part, u64), Refusal>
    ensures { JudgesParts C.store head (S.script source.old) reader.old judge.old result (S.script source.new) reader.new judge.new }
{
    if let Some(stop) = judge_series(alloc, source, &head, reader, judge, until)? {
        return Ok(stop);
    }
    judge_rest(alloc, source, &head, reader, judge, until)
}

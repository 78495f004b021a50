//! Whether a file is canonical, and reading a file that is judged as it is read.
ghost use Rattle.std.specs.Prelude.{◌≡◌, OnOk, IfOk, IfErr};
ghost use Rattle.oas_num.specs.Script.{Script, IsAtEnd};
ghost use Rattle.oas_elements.specs.declared.profile.Profile.{Profile as OneProfile};
ghost use Rattle.oas_elements.specs.declared.limits.Limits.{Limits as TheLimits};
ghost use Rattle.oas_judge.specs.FileJudges.{BeginsJudging};
ghost use Rattle.oas_judge.specs.Judged.{IsJudged, IsReadAndJudged};
ghost use Rattle.oas_judge.specs.Kept.{RefusesKept};
ghost use Rattle.oas_judge.specs.Parts.{JudgesAll};

use crate::judge::FileJudge;
use crate::parts::{Until, judge_parts};
use oas_elements::{Limits, Profile};
use oas_num::{Refusal, Source, Why};
use oas_record::Head;
use oas_writing::{
    ByProfileOne, ByProfileTwo, CellStore, CompactCell, CountedCell, KeptBy, Layout, Reader,
    find_end_of_input, finish_layout,
};
use std::alloc::Global;

/// Reads the head of a file, and begins to judge it; out of memory where there is none for the bytes of the head.
fn begin<S: Source>(
    alloc: Global,
    source: &mut S,
    profile: Profile,
) -> Result<(Head, FileJudge), Refusal>
    ensures begun { IfOk result (λ begun. BeginsJudging profile (S.script source.old) begun.0 begun.1 (S.script source.new)) }
    ensures refused { IfErr result (λ refusal. (limits : TheLimits) → RefusesKept limits (S.script source.old) refusal (S.script source.new)) }
{
    let at = source.at();
    let (head, judge) = FileJudge::begin(alloc, source, profile)?;
    if !judge.has_begun() {
        return Err(Refusal {
            at,
            why: Why::Memory,
        });
    }
    Ok((head, judge))
}

/// Gives the reader, and shows the judge, the records up to END, and finds the end of the input. Returns whether the file is
/// canonical, if it is accepted, and END's offset.
fn judge_to_end<S: Source, C: CellStore>(
    alloc: Global,
    source: &mut S,
    head: Head,
    reader: &mut Reader<C>,
    judge: &mut FileJudge,
) -> Result<(bool, u64), Refusal>
    ensures judged { JudgesAll C.store head (S.script source.old) reader.old judge.old result (S.script source.new) reader.new judge.new }
    ensures ended { OnOk result (IsAtEnd (S.script source.new)) }
{
    let (part, at) = judge_parts(alloc, source, head, reader, judge, Until::End)?;
    let Some(canonical) = part.canonical() else {
        return Err(Refusal {
            at,
            why: Why::Memory,
        });
    };
    find_end_of_input(source)?;
    Ok((canonical, at))
}

/// Accepts what follows the head of a file, and returns whether the file is canonical.
fn accept_behind<S: Source>(
    alloc: Global,
    source: &mut S,
    head: Head,
    limits: Limits,
    profile: Profile,
    judge: &mut FileJudge,
) -> Result<bool, Refusal>
    ensures judged { (origin : Script) → BeginsJudging profile origin head judge.old (S.script source.old) → IfOk result (λ yes. IsJudged limits profile origin yes (S.script source.new)) }
    ensures refused { (origin : Script) → BeginsJudging profile origin head judge.old (S.script source.old) → IfErr result (λ refusal. RefusesKept limits origin refusal (S.script source.new)) }
{
    let mut reader: Reader<CountedCell> = Reader::new(alloc, head.unit, limits, profile);
    let (canonical, end) = judge_to_end(alloc, source, head, &mut reader, judge)?;
    reader.finish_counting(end)?;
    Ok(canonical)
}

/// Reads what follows the head of a file, and returns whether the file is canonical too.
fn read_behind<S: Source, P: KeptBy>(
    alloc: Global,
    source: &mut S,
    head: Head,
    limits: Limits,
    judge: &mut FileJudge,
) -> Result<(Layout, bool), Refusal>
    ensures read { (judged_by : OneProfile) (origin : Script) → BeginsJudging judged_by origin head judge.old (S.script source.old) →
        IfOk result (λ read. IsReadAndJudged limits judged_by P.profile origin read.0 read.1 (S.script source.new)) }
    ensures refused { (judged_by : OneProfile) (origin : Script) → BeginsJudging judged_by origin head judge.old (S.script source.old) → IfErr result (λ refusal. RefusesKept limits origin refusal (S.script source.new)) }
{
    let mut reader: Reader<CompactCell<P>> = Reader::new(alloc, head.unit, limits, P::profile());
    let (canonical, end) = judge_to_end(alloc, source, head, &mut reader, judge)?;
    let layout = finish_layout(alloc, reader, end)?;
    Ok((layout, canonical))
}

/// Whether what a source gives is an accepted file that is canonical by the profile.
///
/// Each record is accepted and judged as it is read. Of the file only names, numbers, and for each cell how often it uses a
/// number are kept; and the latest name and element while the file may be canonical, and one record. So memory does not grow
/// with the elements. A file is refused as [`read_layout`](oas_layout::read_layout) refuses it, except that memory may run
/// out at any byte.
pub fn is_canonical<S: Source>(
    alloc: Global,
    source: &mut S,
    limits: Limits,
    profile: Profile,
) -> Result<bool, Refusal>
    ensures judged { IfOk result (λ yes. IsJudged limits profile (S.script source.old) yes (S.script source.new)) }
    ensures refused { IfErr result (λ refusal. RefusesKept limits (S.script source.old) refusal (S.script source.new)) }
{
    let (head, mut judge) = begin(alloc, source, profile)?;
    accept_behind(alloc, source, head, limits, profile, &mut judge)
}

/// What [`read_judged`] reads, where the profile by which the layout is kept is a type.
fn read_kept<S: Source, P: KeptBy>(
    alloc: Global,
    source: &mut S,
    limits: Limits,
    judged_by: Profile,
) -> Result<(Layout, bool), Refusal>
    ensures read { IfOk result (λ read. IsReadAndJudged limits judged_by P.profile (S.script source.old) read.0 read.1 (S.script source.new)) }
    ensures refused { IfErr result (λ refusal. RefusesKept limits (S.script source.old) refusal (S.script source.new)) }
{
    let (head, mut judge) = begin(alloc, source, judged_by)?;
    read_behind::<S, P>(alloc, source, head, limits, &mut judge)
}

/// Reads the layout of what a source gives, kept by the profile `kept_by`, and whether the file is canonical by the profile
/// `judged_by`.
///
/// The bytes are not kept. A file is refused as [`read_layout`](oas_layout::read_layout) refuses it, except that memory may run
/// out at any byte.
pub fn read_judged<S: Source>(
    alloc: Global,
    source: &mut S,
    limits: Limits,
    judged_by: Profile,
    kept_by: Profile,
) -> Result<(Layout, bool), Refusal>
    ensures read { IfOk result (λ read. IsReadAndJudged limits judged_by kept_by (S.script source.old) read.0 read.1 (S.script source.new)) }
    ensures refused { IfErr result (λ refusal. RefusesKept limits (S.script source.old) refusal (S.script source.new)) }
{
    match kept_by {
        Profile::One => read_kept::<S, ByProfileOne>(alloc, source, limits, judged_by),
        Profile::Two => read_kept::<S, ByProfileTwo>(alloc, source, limits, judged_by),
    }
}

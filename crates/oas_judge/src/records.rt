//! A record that is at hand, accepted and judged.
ghost use Rattle.std.specs.Prelude.{◌≡◌};
ghost use Rattle.oas_record.specs.declared.heads.Head.{Head as OneHead};
ghost use Rattle.oas_judge.specs.Parts.{JudgesAtHand};
ghost use Rattle.oas_peek.specs.Peeked.{IsPeeked};

use crate::judge::FileJudge;
use oas_num::{Refusal, Source};
use oas_peek::{
    KindAtHand, PeekedRectangle, kind_at_hand, peek_figure, peek_full_rectangle, peek_named,
    peek_rectangle,
};
use oas_record::Head;
use oas_writing::{CellStore, Reader, find_record};
use std::alloc::Global;

/// Gives the reader, and shows the judge, this rectangle, which is at hand, where the judge can decide at once. Returns false
/// where it does nothing.
#[inline(always)]
fn take_found<S: Source, C: CellStore>(
    source: &mut S,
    at: u64,
    found: PeekedRectangle,
    reader: &mut Reader<C>,
    judge: &mut FileJudge,
) -> Result<bool, Refusal>
    requires place { at ≡ (S.script source.old).given }
    requires found { IsPeeked (S.at_hand source.old) found }
    ensures { (head : OneHead) → JudgesAtHand C.store head (S.script source.old) reader.old judge.old result (S.script source.new) reader.new judge.new }
{
    if !judge.judge_rectangle(&found) {
        return Ok(false);
    }
    source.skip(found.length);
    reader.take_rectangle(at, found.rectangle)?;
    Ok(true)
}

/// Gives the reader, and shows the judge, a rectangle that is at hand and gives all its fields, where the judge can decide at
/// once. Returns false where it does nothing.
///
/// All that it calls is inlined, so that no field is tested for being there, and none is moved. It is a function of its own, since a
/// call begins by clearing room for all of that, which no other record needs.
#[inline(never)]
fn next_full_rectangle<S: Source, C: CellStore>(
    source: &mut S,
    head: &Head,
    at: u64,
    reader: &mut Reader<C>,
    judge: &mut FileJudge,
) -> Result<bool, Refusal>
    requires { at ≡ (S.script source.old).given }
    ensures { JudgesAtHand C.store head.now (S.script source.old) reader.old judge.old result (S.script source.new) reader.new judge.new }
{
    match peek_full_rectangle(source.ahead()) {
        Some(found) => take_found(source, at, found, reader, judge),
        None => Ok(false),
    }
}

/// The same of a rectangle without a repetition that may leave out fields.
#[inline(never)]
fn next_partial_rectangle<S: Source, C: CellStore>(
    source: &mut S,
    head: &Head,
    at: u64,
    reader: &mut Reader<C>,
    judge: &mut FileJudge,
) -> Result<bool, Refusal>
    requires { at ≡ (S.script source.old).given }
    ensures { JudgesAtHand C.store head.now (S.script source.old) reader.old judge.old result (S.script source.new) reader.new judge.new }
{
    match peek_rectangle(source.ahead()) {
        Some(found) => take_found(source, at, found, reader, judge),
        None => Ok(false),
    }
}

/// The same of any rectangle without a repetition.
#[inline(always)]
fn next_rectangle<S: Source, C: CellStore>(
    source: &mut S,
    head: &Head,
    at: u64,
    reader: &mut Reader<C>,
    judge: &mut FileJudge,
) -> Result<bool, Refusal>
    requires { at ≡ (S.script source.old).given }
    ensures { JudgesAtHand C.store head.now (S.script source.old) reader.old judge.old result (S.script source.new) reader.new judge.new }
{
    if next_full_rectangle(source, head, at, reader, judge)? {
        return Ok(true);
    }
    next_partial_rectangle(source, head, at, reader, judge)
}

/// Gives the reader, and shows the judge, a placement or a text that is at hand, where the judge can decide at once. Returns
/// false where it does nothing.
#[inline(never)]
fn next_named<S: Source, C: CellStore>(
    alloc: Global,
    source: &mut S,
    head: &Head,
    at: u64,
    reader: &mut Reader<C>,
    judge: &mut FileJudge,
) -> Result<bool, Refusal>
    requires { at ≡ (S.script source.old).given }
    ensures { JudgesAtHand C.store head.now (S.script source.old) reader.old judge.old result (S.script source.new) reader.new judge.new }
{
    let Some(found) = peek_named(source.ahead()) else {
        return Ok(false);
    };
    if !judge.judge_named(alloc, &found) {
        return Ok(false);
    }
    let length = found.length;
    let taken = reader.take_named(at, &found.element);
    source.skip(length);
    taken?;
    Ok(true)
}

/// Gives the reader, and shows the judge, a polygon or a path that is at hand, where the judge can decide at once. Returns
/// false where it does nothing.
#[inline(never)]
fn next_figure<S: Source, C: CellStore>(
    alloc: Global,
    source: &mut S,
    head: &Head,
    at: u64,
    reader: &mut Reader<C>,
    judge: &mut FileJudge,
) -> Result<bool, Refusal>
    requires { at ≡ (S.script source.old).given }
    ensures { JudgesAtHand C.store head.now (S.script source.old) reader.old judge.old result (S.script source.new) reader.new judge.new }
{
    let Some(found) = peek_figure(alloc, source.ahead()) else {
        return Ok(false);
    };
    if !judge.judge_figure(alloc, &found) {
        return Ok(false);
    }
    source.skip(found.length);
    reader.take(at, found.record)?;
    Ok(true)
}

/// Gives the reader, and shows the judge, any record that is at hand. Returns false where it does nothing: at END, where no
/// record is at hand, or if out of memory.
///
/// It is a function of its own since whole records are moved here, and a call begins by clearing room for each of them.
#[inline(never)]
fn next_record<S: Source, C: CellStore>(
    alloc: Global,
    source: &mut S,
    head: &Head,
    at: u64,
    reader: &mut Reader<C>,
    judge: &mut FileJudge,
) -> Result<bool, Refusal>
    requires { at ≡ (S.script source.old).given }
    ensures { JudgesAtHand C.store head.now (S.script source.old) reader.old judge.old result (S.script source.new) reader.new judge.new }
{
    let ahead = source.ahead();
    let Some(found) = find_record(alloc, ahead, head.flag_in_end) else {
        return Ok(false);
    };
    let Some(candidate) = judge.candidate(alloc, &found.record) else {
        return Ok(false);
    };
    judge.judge(candidate, &ahead[..found.length]);
    source.skip(found.length);
    reader.take(at, found.record)?;
    Ok(true)
}

/// Gives the reader, and shows the judge, an element of any kind but a circle, by the faster way of its kind. Returns false where it
/// does nothing.
#[inline(always)]
fn next_of_kind<S: Source, C: CellStore>(
    alloc: Global,
    source: &mut S,
    head: &Head,
    at: u64,
    reader: &mut Reader<C>,
    judge: &mut FileJudge,
) -> Result<bool, Refusal>
    requires { at ≡ (S.script source.old).given }
    ensures { JudgesAtHand C.store head.now (S.script source.old) reader.old judge.old result (S.script source.new) reader.new judge.new }
{
    match kind_at_hand(source.ahead()) {
        KindAtHand::Rectangle => next_rectangle(source, head, at, reader, judge),
        KindAtHand::Named => next_named(alloc, source, head, at, reader, judge),
        KindAtHand::Figure => next_figure(alloc, source, head, at, reader, judge),
        KindAtHand::Other => Ok(false),
    }
}

/// Gives the reader, and shows the judge, the next record, where it is at hand. Returns false where it does nothing.
///
/// An element that is spelled in the shortest style is judged by its fields, and none of its bytes is compared.
#[inline(always)]
pub(crate) fn next_at_hand<S: Source, C: CellStore>(
    alloc: Global,
    source: &mut S,
    head: &Head,
    at: u64,
    reader: &mut Reader<C>,
    judge: &mut FileJudge,
) -> Result<bool, Refusal>
    requires { at ≡ (S.script source.old).given }
    ensures { JudgesAtHand C.store head.now (S.script source.old) reader.old judge.old result (S.script source.new) reader.new judge.new }
{
    if next_of_kind(alloc, source, head, at, reader, judge)? {
        return Ok(true);
    }
    next_record(alloc, source, head, at, reader, judge)
}

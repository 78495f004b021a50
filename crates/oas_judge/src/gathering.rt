//! The records of a series, judged one after another.
ghost use Rattle.std.specs.Prelude.{◌≡◌, ◌<◌, ◌≤◌, true, None, IfSome};
ghost use Rattle.std.specs.Option.{option_map};
ghost use Rattle.oas_record.specs.declared.records.Record.TheVariants.{Rectangle as OneRectangle};
ghost use Rattle.oas_peek.specs.Named.{HasValidName, named_record};
ghost use Rattle.oas_judge.specs.declared.judge.FileJudge.{FileJudge as TheJudge};
ghost use Rattle.oas_judge.specs.Series.{weight_given, figure_record, IsLike, EndsSeries, SeriesSoFar};

use crate::judge::FileJudge;
use crate::series::Series;
use oas_peek::{Given, NamedOnce, PeekedFigure, peek_figure, peek_full_rectangle, peek_named};
use oas_record::{Record, Rectangle};
use oas_writing::Room;
use std::alloc::Global;

/// The weight of a placement or a text that gives its name by the bytes of it.
#[inline(always)]
fn weight_named(next: &NamedOnce<'_>) -> Option<u64>
    ensures { result ≡ weight_given next.now }
{
    match next {
        NamedOnce::Placement {
            cell: Given::Bytes(name),
            ..
        } => Some(1 + name.len() as u64),
        NamedOnce::Text {
            string: Given::Bytes(string),
            ..
        } => Some(1 + string.len() as u64),
        _ => None,
    }
}

/// Whether both are placements, or both are texts, if there is one before.
#[inline(always)]
fn is_like_named(last: &Option<NamedOnce<'_>>, next: &NamedOnce<'_>) -> bool
    ensures { result ≡ true → IsLike (option_map named_record last.now) (named_record next.now) }
{
    match last {
        None => true,
        Some(NamedOnce::Placement { .. }) => matches!(next, NamedOnce::Placement { .. }),
        Some(NamedOnce::Text { .. }) => matches!(next, NamedOnce::Text { .. }),
    }
}

/// Whether both are polygons, or both are paths, if there is one before.
#[inline(always)]
fn is_like_figure(last: &Option<PeekedFigure>, next: &Record) -> bool
    ensures { result ≡ true → IsLike (option_map figure_record last.now) next.now }
{
    let Some(last) = last else {
        return true;
    };
    match &last.record {
        Record::Polygon(_) => matches!(next, Record::Polygon(_)),
        Record::Path(_) => matches!(next, Record::Path(_)),
        _ => false,
    }
}

/// Judges the rectangle that comes behind the series, where it goes on with it. Otherwise it returns false, and does nothing.
#[inline(always)]
fn pass_rectangle(
    ahead: &[u8],
    room: Room,
    judge: &mut FileJudge,
    series: &mut Series,
    last: &mut Option<Rectangle>,
) -> bool
    requires { series.old.weight ≤ room.weight }
    ensures more { (first : TheJudge) → SeriesSoFar ahead.now room.elements room.weight first (option_map (λ r. OneRectangle r) last.old) series.old judge.old → SeriesSoFar ahead.now room.elements room.weight first (option_map (λ r. OneRectangle r) last.new) series.new judge.new }
    ensures longer { result ≡ true → series.old.length < series.new.length }
{
    if series.length >= ahead.len() {
        return false;
    }
    if !judge.holds() {
        return false;
    }
    let Some(found) = peek_full_rectangle(series.behind(ahead)) else {
        return false;
    };
    if !series.may_have(room, 1) {
        return false;
    }
    if !judge.see_rectangle(&found) {
        return false;
    }
    *series = series.with(1, found.length);
    *last = Some(found.rectangle);
    true
}

/// The same of a placement or a text.
#[inline(always)]
fn pass_named<'a>(
    alloc: Global,
    ahead: &'a [u8],
    room: Room,
    judge: &mut FileJudge,
    series: &mut Series,
    last: &mut Option<NamedOnce<'a>>,
) -> bool
    requires { series.old.weight ≤ room.weight }
    ensures more { (first : TheJudge) → SeriesSoFar ahead.now room.elements room.weight first (option_map named_record last.old) series.old judge.old → SeriesSoFar ahead.now room.elements room.weight first (option_map named_record last.new) series.new judge.new }
    ensures named { IfSome last.old HasValidName → IfSome last.new HasValidName }
    ensures longer { result ≡ true → series.old.length < series.new.length }
{
    if series.length >= ahead.len() {
        return false;
    }
    if !judge.holds() {
        return false;
    }
    let Some(found) = peek_named(series.behind(ahead)) else {
        return false;
    };
    let Some(weight) = weight_named(&found.element) else {
        return false;
    };
    if !is_like_named(last, &found.element) {
        return false;
    }
    if !series.may_have(room, weight) {
        return false;
    }
    if !judge.see_named(alloc, &found) {
        return false;
    }
    *series = series.with(weight, found.length);
    *last = Some(found.element);
    true
}

/// The same of a polygon or a path.
#[inline(always)]
fn pass_figure(
    alloc: Global,
    ahead: &[u8],
    room: Room,
    judge: &mut FileJudge,
    series: &mut Series,
    last: &mut Option<PeekedFigure>,
) -> bool
    requires { series.old.weight ≤ room.weight }
    ensures more { (first : TheJudge) → SeriesSoFar ahead.now room.elements room.weight first (option_map figure_record last.old) series.old judge.old → SeriesSoFar ahead.now room.elements room.weight first (option_map figure_record last.new) series.new judge.new }
    ensures longer { result ≡ true → series.old.length < series.new.length }
{
    if series.length >= ahead.len() {
        return false;
    }
    if !judge.holds() {
        return false;
    }
    // It is moved once, as a whole.
    let next = peek_figure(alloc, series.behind(ahead));
    let Some(found) = &next else {
        return false;
    };
    if !is_like_figure(last, &found.record) {
        return false;
    }
    if !series.may_have(room, 0) {
        return false;
    }
    let Some(weight) = judge.see_figure(alloc, found, room.weight - series.weight) else {
        return false;
    };
    *series = series.with(weight, found.length);
    *last = next;
    true
}

/// Judges the rectangles that these bytes begin with, as far as they are a series. Returns the last of them, and the series.
#[inline(always)]
pub(crate) fn gather_rectangles(
    ahead: &[u8],
    room: Room,
    judge: &mut FileJudge,
) -> Option<(Rectangle, Series)>
    ensures some { IfSome result (λ r. EndsSeries ahead.now room.elements room.weight judge.old (OneRectangle r.0) r.1 judge.new) }
    ensures none { result ≡ None → judge.new ≡ judge.old }
{
    let mut series = Series::none();
    let mut last: Option<Rectangle> = None;
    'records: while pass_rectangle(ahead, room, judge, &mut series, &mut last) {}
    match last {
        Some(last) => Some((last, series)),
        None => None,
    }
}

/// The same of placements, or of texts.
#[inline(always)]
pub(crate) fn gather_named<'a>(
    alloc: Global,
    ahead: &'a [u8],
    room: Room,
    judge: &mut FileJudge,
) -> Option<(NamedOnce<'a>, Series)>
    ensures named { IfSome result (λ r. HasValidName r.0) }
    ensures some { IfSome result (λ r. EndsSeries ahead.now room.elements room.weight judge.old (named_record r.0) r.1 judge.new) }
    ensures none { result ≡ None → judge.new ≡ judge.old }
{
    let mut series = Series::none();
    let mut last: Option<NamedOnce<'a>> = None;
    'records: while pass_named(alloc, ahead, room, judge, &mut series, &mut last) {}
    match last {
        Some(last) => Some((last, series)),
        None => None,
    }
}

/// The same of polygons, or of paths.
#[inline(always)]
pub(crate) fn gather_figures(
    alloc: Global,
    ahead: &[u8],
    room: Room,
    judge: &mut FileJudge,
) -> Option<(Record, Series)>
    ensures some { IfSome result (λ r. EndsSeries ahead.now room.elements room.weight judge.old r.0 r.1 judge.new) }
    ensures none { result ≡ None → judge.new ≡ judge.old }
{
    let mut series = Series::none();
    let mut last: Option<PeekedFigure> = None;
    'records: while pass_figure(alloc, ahead, room, judge, &mut series, &mut last) {}
    match last {
        Some(last) => Some((last.record, series)),
        None => None,
    }
}

//! A point list at the start of bytes.
ghost use Rattle.std.specs.Prelude.{◌≡◌, ◌++◌, ◌∷◌, [], ℕ, List, pos, if◌then◌else◌, IfSome};
ghost use Rattle.oas_num.specs.Style.{Style};
ghost use Rattle.oas_num.specs.Deltas.{step};
ghost use Rattle.oas_num.specs.declared.deltas.GDelta.{GDelta};
ghost use Rattle.oas_record.specs.Trees.{there};
ghost use Rattle.oas_record.specs.Fields.{points};
ghost use Rattle.oas_peek.specs.Fronts.{ConsumesPrefix};
ghost use Rattle.oas_peek.specs.Lists.{ConsumesIn, step2_in, step3_in, stepg_in, steps_in, turns_in, deltas_of};

use crate::fronts::Front;
use oas_num::{Delta2, Delta3, GDelta};
use oas_shape::{ListUse, PointList};
use std::alloc::Global;

/// The type of the point lists that have steps in any direction, as the shortest style has (SEMI P39, Point lists).
const STEPS: u64 = 4;

/// The last of the six types.
const LAST_KIND: u64 = 5;

/// A list reserves memory for at most this many steps before they are taken.
const FIRST_ROOM: u64 = 32;

/// A delta that is a step whatever comes before it.
trait StepAtHand {
    /// How it is spelled, in a style.
    ghost spells: { Style → GDelta → List ℕ → Type 0 };

    /// Takes the next one.
    fn take(front: &mut Front<'_>) -> Option<GDelta>
        ensures { IfSome result (λ step. ConsumesIn spells step front.old front.new) };
}

impl StepAtHand for Delta2 {
    ghost spells = { step2_in };

    #[inline(always)]
    fn take(front: &mut Front<'_>) -> Option<GDelta> {
        let step = Delta2::from_number(front.unsigned()?);
        Some(GDelta {
            dx: step.dx,
            dy: step.dy,
        })
    }
}

impl StepAtHand for Delta3 {
    ghost spells = { step3_in };

    #[inline(always)]
    fn take(front: &mut Front<'_>) -> Option<GDelta> {
        let step = Delta3::from_number(front.unsigned()?);
        Some(GDelta {
            dx: step.dx,
            dy: step.dy,
        })
    }
}

impl StepAtHand for GDelta {
    ghost spells = { stepg_in };

    /// A step in any direction, in one or two numbers (SEMI P39, Deltas). The shortest style has two.
    #[inline(always)]
    fn take(front: &mut Front<'_>) -> Option<GDelta> {
        let first = front.unsigned()?;
        if first % 2 == 0 {
            front.note(false);
            return Some(GDelta::from_numbers(first, None));
        }
        let second = front.unsigned()?;
        front.note(first / 2 != 1 && second != 1);
        Some(GDelta::from_numbers(first, Some(second)))
    }
}

/// Puts a step at the end, with no call where there is room; None if out of memory.
#[inline(always)]
fn push_step(steps: &mut Vec<GDelta>, step: GDelta) -> Option<()>
    ensures { IfSome result (λ _. steps.new.items ≡ steps.old.items ++ step ∷ []) }
{
    if steps.len() < steps.capacity() {
        steps.push_reserved(step);
        return Some(());
    }
    steps.push(step).ok()
}

/// This many deltas that are steps.
#[inline(always)]
fn take_steps<D: StepAtHand>(
    alloc: Global,
    front: &mut Front<'_>,
    count: u64,
) -> Option<Vec<GDelta>>
    ensures { IfSome result (λ steps. ConsumesIn (steps_in D.spells count) steps.items front.old front.new) }
{
    let mut steps = Vec::with_capacity(alloc, count.min(FIRST_ROOM) as usize).ok()?;
    for _ in 0..count {
        let step = D::take(front)?;
        push_step(&mut steps, step)?;
    }
    Some(steps)
}

/// This far along one axis.
#[inline(always)]
fn along(along_x: bool, far: i64) -> GDelta
    ensures { result ≡ (if along_x then step far (pos 0) else step (pos 0) far) }
{
    if along_x {
        GDelta { dx: far, dy: 0 }
    } else {
        GDelta { dx: 0, dy: far }
    }
}

/// This many 1-deltas, which go along x and y in turn.
#[inline(always)]
fn take_turns(
    alloc: Global,
    front: &mut Front<'_>,
    x_first: bool,
    count: u64,
) -> Option<Vec<GDelta>>
    ensures { IfSome result (λ steps. ConsumesIn (turns_in x_first count) steps.items front.old front.new) }
{
    let mut steps = Vec::with_capacity(alloc, count.min(FIRST_ROOM) as usize).ok()?;
    let mut along_x = x_first;
    for _ in 0..count {
        let far = front.signed()?;
        push_step(&mut steps, along(along_x, far))?;
        along_x = !along_x;
    }
    Some(steps)
}

/// This many deltas of a list of that type, as steps.
#[inline(always)]
fn take_deltas(alloc: Global, front: &mut Front<'_>, kind: u64, count: u64) -> Option<Vec<GDelta>>
    ensures { IfSome result (λ steps. ConsumesIn (deltas_of kind count) steps.items front.old front.new) }
{
    match kind {
        0 => take_turns(alloc, front, true, count),
        1 => take_turns(alloc, front, false, count),
        2 => take_steps::<Delta2>(alloc, front, count),
        3 => take_steps::<Delta3>(alloc, front, count),
        _ => take_steps::<GDelta>(alloc, front, count),
    }
}

/// A point list of any type (SEMI P39, Point lists). The shortest style has type 4.
#[inline(always)]
fn take_list(alloc: Global, front: &mut Front<'_>, purpose: ListUse) -> Option<PointList>
    ensures { IfSome result (λ list. ConsumesPrefix (points purpose) list front.old front.new) }
{
    let kind = front.unsigned()?;
    if kind > LAST_KIND {
        return None;
    }
    front.note(kind == STEPS);
    let count = front.unsigned()?;
    if !purpose.fits(kind, count) {
        return None;
    }
    let deltas = take_deltas(alloc, front, kind, count)?;
    Some(PointList::of_kind(purpose, kind, deltas))
}

/// The same, where there is one.
#[inline(always)]
pub(crate) fn take_list_if(
    alloc: Global,
    front: &mut Front<'_>,
    purpose: ListUse,
    here: bool,
) -> Option<Option<PointList>>
    ensures { IfSome result (λ list. ConsumesPrefix (there here (points purpose)) list front.old front.new) }
{
    if here {
        Some(Some(take_list(alloc, front, purpose)?))
    } else {
        Some(None)
    }
}

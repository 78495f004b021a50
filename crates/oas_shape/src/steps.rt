//! The deltas of a point list, read as steps.
ghost use Rattle.std.specs.Prelude.{◌≡◌, ◌<◌, pos, if◌then◌else◌, [], ◌∷◌, ◌++◌, OnOk, IfErr};
ghost use Rattle.oas_num.specs.Grammar.{IsCount, IsImage};
ghost use Rattle.oas_num.specs.Deltas.{SpellsDelta1, step};
ghost use Rattle.oas_num.specs.Pieces.{ListTook};
ghost use Rattle.oas_num.specs.Reading.{ReadsPieceAs, IntegerMay};
ghost use Rattle.oas_num.specs.declared.deltas.GDelta.{GDelta};
ghost use Rattle.oas_num.specs.declared.refusals.Why.TheVariants.{Memory};
ghost use Rattle.oas_shape.specs.PointLists.{deltas_in, alternating, step2, step3, stepg, DeltasTook};

use oas_num::{Delta1, Delta2, Delta3, GDelta, Source, Spelled, Why};
use std::alloc::Global;

/// The first step of a list reserves memory for at most this many. Memory for more grows with the steps.
const FIRST_ROOM: u64 = 32;

/// A delta that is a step whatever comes before it.
pub(crate) trait Step: Spelled + Drop {
    /// The step.
    ghost step_of: { Self → GDelta };

    fn step(&self) -> GDelta
        ensures { result ≡ step_of self.now };
}

impl Step for Delta2 {
    ghost step_of = { step2 };

    fn step(&self) -> GDelta {
        GDelta {
            dx: self.dx,
            dy: self.dy,
        }
    }
}

impl Step for Delta3 {
    ghost step_of = { step3 };

    fn step(&self) -> GDelta {
        GDelta {
            dx: self.dx,
            dy: self.dy,
        }
    }
}

impl Step for GDelta {
    ghost step_of = { stepg };

    fn step(&self) -> GDelta {
        *self
    }
}

/// Reads this many deltas of a list of that type. It allocates only for what was read, or for `FIRST_ROOM` steps.
pub(crate) fn read_deltas<S: Source>(
    alloc: Global,
    kind: u64,
    count: u64,
    source: &mut S,
) -> Result<Vec<GDelta>, Why>
    ensures { ReadsPieceAs (λ steps. steps.items) (deltas_in kind count) (DeltasTook kind count) (S.script source.old) result (S.script source.new) }
{
    match kind {
        0 => read_alternating(alloc, true, count, source),
        1 => read_alternating(alloc, false, count, source),
        2 => read_steps::<Delta2, S>(alloc, count, source),
        3 => read_steps::<Delta3, S>(alloc, count, source),
        _ => read_steps::<GDelta, S>(alloc, count, source),
    }
}

/// Adds a step to those of a list of this length. The first makes room for all of a short list.
fn keep(steps: &mut Vec<GDelta>, step: GDelta, count: u64) -> Result<(), Why>
    ensures kept { OnOk result (steps.new.items ≡ steps.old.items ++ step ∷ []) }
    ensures refused { IfErr result (λ why. why ≡ Memory) }
{
    if steps.is_empty() && steps.reserve_exact(count.min(FIRST_ROOM) as usize).is_err() {
        return Err(Why::Memory);
    }
    steps.push(step)?;
    Ok(())
}

/// Reads this many deltas that are steps.
fn read_steps<D: Step, S: Source>(
    alloc: Global,
    count: u64,
    source: &mut S,
) -> Result<Vec<GDelta>, Why>
    ensures { ReadsPieceAs (λ steps. steps.items) (IsCount (IsImage D.step_of D.spells) count) (ListTook (IsImage D.step_of D.spells) count D.took) (S.script source.old) result (S.script source.new) }
{
    let mut steps = Vec::new(alloc);
    for _ in 0..count {
        let delta = D::read(alloc, source)?;
        keep(&mut steps, delta.step(), count)?;
    }
    Ok(steps)
}

/// Reads this many 1-deltas, which go along x and y in turn.
fn read_alternating<S: Source>(
    alloc: Global,
    x_first: bool,
    count: u64,
    source: &mut S,
) -> Result<Vec<GDelta>, Why>
    ensures { ReadsPieceAs (λ turns. turns.items) (IsImage (alternating x_first) (IsCount SpellsDelta1 count)) (ListTook SpellsDelta1 count IntegerMay)
        (S.script source.old) result (S.script source.new) }
{
    let mut turns = Vec::new(alloc);
    let mut along_x = x_first;
    for _ in 0..count {
        let delta = Delta1::read(alloc, source)?;
        keep(&mut turns, along(along_x, delta), count)?;
        along_x = !along_x;
    }
    Ok(turns)
}

/// This far along one axis.
fn along(along_x: bool, far: Delta1) -> GDelta
    ensures { result ≡ (if along_x then step far.0 (pos 0) else step (pos 0) far.0) }
{
    if along_x {
        GDelta { dx: far.0, dy: 0 }
    } else {
        GDelta { dx: 0, dy: far.0 }
    }
}

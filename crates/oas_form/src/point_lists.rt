//! Lists of points, each as a point list of type 4 and the place of its first point.

ghost use Rattle.std.specs.Prelude.{◌≡◌, ◌∷◌, ◌+◌, ◌*◌, ◌<◌, ◌≤◌, ◌^◌, ◌-ℤ◌, length, nat_abs, true, IfOk};
ghost use Rattle.std.specs.List.{list_all};
ghost use Rattle.oas_num.specs.Writing.{shortest_gdelta};
ghost use Rattle.oas_elements.specs.Grid.{is_grid_point};
ghost use Rattle.oas_form.specs.Bytes.{step_bytes, list_bytes, points_bytes};
ghost use Rattle.oas_form.specs.Putting.{Counts};

use crate::parts::{coded, put_bytes, put_number, put_place};
use oas_num::{Sink, SinkFault};
use oas_ring::Point;

/// The type of a list of g-deltas.
const STEPS: [u8; 1] = [4];

/// Puts a step, across and up, as a g-delta of form 2 (SEMI P39, Deltas), and returns its length. It is inlined in the loops
/// that call it, so that what is left to put stays in registers.
#[inline(always)]
pub fn put_delta<K: Sink>(sink: &mut K, dx: i64, dy: i64) -> Result<u64, SinkFault>
    requires dx { nat_abs dx ≤ 2 ^ 61 }
    requires dy { nat_abs dy ≤ 2 ^ 61 }
    ensures counts { Counts K.given K.failures sink.old (shortest_gdelta dx dy) result sink.new }
    ensures short { IfOk result (λ n. n ≤ 20) }
{
    // The lowest bit of the first number says that there is a second.
    let across = put_number(sink, 2 * coded(dx) + 1)?;
    let up = put_number(sink, coded(dy))?;
    Ok(across + up)
}

/// Puts the step from one point to another, and returns its length.
fn put_step<K: Sink>(sink: &mut K, from: Point, to: Point) -> Result<u64, SinkFault>
    requires from { is_grid_point from ≡ true }
    requires to { is_grid_point to ≡ true }
    ensures counts { Counts K.given K.failures sink.old (shortest_gdelta (to.x -ℤ from.x) (to.y -ℤ from.y)) result sink.new }
    ensures short { IfOk result (λ n. n ≤ 20) }
{
    put_delta(sink, to.x - from.x, to.y - from.y)
}

/// Puts the steps from a point to those after it, each from the one before.
fn put_steps<K: Sink>(sink: &mut K, first: Point, rest: &[Point]) -> Result<u64, SinkFault>
    requires few { length rest.now ≤ 2 ^ 30 }
    requires first { is_grid_point first ≡ true }
    requires rest { list_all is_grid_point rest.now ≡ true }
    ensures counts { Counts K.given K.failures sink.old (step_bytes first rest.now) result sink.new }
    ensures short { IfOk result (λ n. n ≤ 20 * length rest.now) }
{
    let mut count = 0;
    let mut before = first;
    for point in rest {
        count += put_step(sink, before, *point)?;
        before = *point;
    }
    Ok(count)
}

/// Puts a point list: its type, how many steps there are, and these.
fn put_list<K: Sink>(sink: &mut K, first: Point, rest: &[Point]) -> Result<u64, SinkFault>
    requires few { length rest.now ≤ 2 ^ 30 }
    requires first { is_grid_point first ≡ true }
    requires rest { list_all is_grid_point rest.now ≡ true }
    ensures counts { Counts K.given K.failures sink.old (list_bytes (first ∷ rest.now)) result sink.new }
    ensures short { IfOk result (λ n. n ≤ 11 + 20 * length rest.now) }
{
    let kind = put_bytes(sink, &STEPS)?;
    let size = put_number(sink, rest.len() as u64)?;
    let steps = put_steps(sink, first, rest)?;
    Ok(kind + size + steps)
}

/// Puts points: their list, and the place of the first.
pub(crate) fn put_points<K: Sink>(sink: &mut K, points: &[Point]) -> Result<u64, SinkFault>
    requires some { 0 < length points.now }
    requires few { length points.now ≤ 2 ^ 30 }
    requires inside { list_all is_grid_point points.now ≡ true }
    ensures counts { Counts K.given K.failures sink.old (points_bytes points.now) result sink.new }
    ensures short { IfOk result (λ n. n ≤ 31 + 20 * length points.now) }
{
    let (first, rest) = points.split_first().unwrap();
    let list = put_list(sink, *first, rest)?;
    let place = put_place(sink, first.x, first.y)?;
    Ok(list + place)
}

//! The points of an element, as a point list of type 4 and the place of its first point.

ghost use Rattle.std.specs.Prelude.{◌≡◌, ◌∷◌, ◌+◌, ◌*◌, ◌<◌, ◌≤◌, ◌^◌, List, length, true, IfOk};
ghost use Rattle.std.specs.List.{list_all};
ghost use Rattle.oas_ring.specs.declared.point.Point.{Point as OnePoint};
ghost use Rattle.oas_elements.specs.Grid.{is_grid_point};
ghost use Rattle.oas_listing.specs.Bytes.{step_bytes, list_bytes, points_bytes};
ghost use Rattle.oas_listing.specs.Putting.{Counts};
ghost use Rattle.oas_listing.specs.Steps.{HasSteps};

use oas_listing::{ShownPoints, SpelledSteps, put_bytes, put_delta, put_number, put_place};
use oas_num::{Sink, SinkFault};

/// The type of a list of g-deltas.
const STEPS: [u8; 1] = [4];

/// Puts the steps between points, as a key has them.
fn put_steps<K: Sink>(sink: &mut K, mut steps: SpelledSteps<'_>) -> Result<u64, SinkFault>
    requires { (first : OnePoint) × (rest : List OnePoint) × HasSteps steps first rest × (length rest ≤ 2 ^ 30) }
    ensures counts { (first : OnePoint) (rest : List OnePoint) → HasSteps steps.entry first rest → Counts K.given K.failures sink.old (step_bytes first rest) result sink.new }
    ensures short { (first : OnePoint) (rest : List OnePoint) → HasSteps steps.entry first rest → IfOk result (λ n. n ≤ 20 * length rest) }
{
    let mut count = 0;
    while let Some((dx, dy)) = steps.next() {
        count += put_delta(sink, dx, dy)?;
    }
    Ok(count)
}

/// Puts a point list: its type, how many steps there are, and these.
fn put_list<K: Sink>(sink: &mut K, steps: SpelledSteps<'_>) -> Result<u64, SinkFault>
    requires { (first : OnePoint) × (rest : List OnePoint) × HasSteps steps first rest × (length rest ≤ 2 ^ 30) }
    ensures counts { (first : OnePoint) (rest : List OnePoint) → HasSteps steps.entry first rest → Counts K.given K.failures sink.old (list_bytes (first ∷ rest)) result sink.new }
    ensures short { (first : OnePoint) (rest : List OnePoint) → HasSteps steps.entry first rest → IfOk result (λ n. n ≤ 11 + 20 * length rest) }
{
    let kind = put_bytes(sink, &STEPS)?;
    let size = put_number(sink, steps.count() as u64)?;
    let steps = put_steps(sink, steps)?;
    Ok(kind + size + steps)
}

/// Puts points: their list, and the place of the first.
pub(crate) fn put_points<K: Sink>(sink: &mut K, points: ShownPoints<'_>) -> Result<u64, SinkFault>
    requires some { 0 < length points }
    requires few { length points ≤ 2 ^ 30 }
    requires inside { list_all is_grid_point points ≡ true }
    ensures counts { Counts K.given K.failures sink.old (points_bytes points.entry) result sink.new }
    ensures short { IfOk result (λ n. n ≤ 31 + 20 * length points.entry) }
{
    let Some((first, steps)) = points.first_and_steps() else {
        return Ok(0);
    };
    let list = put_list(sink, steps)?;
    let place = put_place(sink, first.x, first.y)?;
    Ok(list + place)
}

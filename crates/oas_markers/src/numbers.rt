//! Numbers of microns.

ghost use Rattle.std.specs.Prelude.{◌+ℤ◌, ◌*◌, pos, decimal, flat_map, ◌∷◌};
ghost use Rattle.oas_num.specs.Writing.{Writes};
ghost use Rattle.oas_difference.specs.Microns.{length_in, microns};
ghost use Rattle.oas_markers.specs.Numbers.{place, places};

use itoa::Buffer;
use oas_difference::{ShownPoints, put_length, put_microns};
use oas_num::{Fraction, Sink, SinkFault};
use oas_ring::Point;

/// Puts a number.
pub(crate) fn put_number<K: Sink>(sink: &mut K, number: u64) -> Result<(), SinkFault>
    ensures { Writes K.given K.failures sink.old (decimal number) result sink.new }
{
    sink.put_all(Buffer::new().format(number).as_bytes())
}

/// Puts a length in microns.
pub(crate) fn put_steps<K: Sink>(sink: &mut K, unit: Fraction, steps: u64) -> Result<(), SinkFault>
    ensures { Writes K.given K.failures sink.old (length_in unit steps) result sink.new }
{
    put_length(sink, unit, u128::from(steps))
}

/// Puts twice a length in microns.
pub(crate) fn put_double<K: Sink>(sink: &mut K, unit: Fraction, steps: u64) -> Result<(), SinkFault>
    ensures { Writes K.given K.failures sink.old (length_in unit (2 * steps)) result sink.new }
{
    put_length(sink, unit, 2 * u128::from(steps))
}

/// Puts a coordinate in microns.
pub(crate) fn put_coordinate<K: Sink>(sink: &mut K, unit: Fraction, x: i64) -> Result<(), SinkFault>
    ensures { Writes K.given K.failures sink.old (microns unit x) result sink.new }
{
    put_microns(sink, unit, i128::from(x))
}

/// Puts the coordinate where a side from `x` on ends, in microns.
pub(crate) fn put_far<K: Sink>(
    sink: &mut K,
    unit: Fraction,
    x: i64,
    side: u64,
) -> Result<(), SinkFault>
    ensures { Writes K.given K.failures sink.old (microns unit (x +ℤ pos side)) result sink.new }
{
    put_microns(sink, unit, i128::from(x) + i128::from(side))
}

/// Puts a point in microns.
pub(crate) fn put_place<K: Sink>(
    sink: &mut K,
    unit: Fraction,
    x: i64,
    y: i64,
) -> Result<(), SinkFault>
    ensures { Writes K.given K.failures sink.old (place unit x y) result sink.new }
{
    put_coordinate(sink, unit, x)?;
    sink.put(b',')?;
    put_coordinate(sink, unit, y)
}

/// Puts a point after a semicolon.
fn put_next<K: Sink>(sink: &mut K, unit: Fraction, point: Point) -> Result<(), SinkFault>
    ensures { Writes K.given K.failures sink.old (59 ∷ place unit point.x point.y) result sink.new }
{
    sink.put(b';')?;
    put_place(sink, unit, point.x, point.y)
}

/// Puts points, each after a semicolon.
fn put_rest<K: Sink>(sink: &mut K, unit: Fraction, points: ShownPoints<'_>) -> Result<(), SinkFault>
    ensures { Writes K.given K.failures sink.old (flat_map (λ p. 59 ∷ place unit p.x p.y) points.entry) result sink.new }
{
    for point in points {
        put_next(sink, unit, point)?;
    }
    Ok(())
}

/// Puts points, with a semicolon between neighbours.
pub(crate) fn put_places<K: Sink>(
    sink: &mut K,
    unit: Fraction,
    mut points: ShownPoints<'_>,
) -> Result<(), SinkFault>
    ensures { Writes K.given K.failures sink.old (places unit points.entry) result sink.new }
{
    let Some(first) = points.next() else {
        return Ok(());
    };
    put_place(sink, unit, first.x, first.y)?;
    put_rest(sink, unit, points)
}

//! The fields of a line.

ghost use Rattle.std.specs.Prelude.{◌+◌, ◌≤◌, ◌∷◌, ◌++◌, length, map, flat_map, decimal};
ghost use Rattle.std.specs.Fmt.{signed_decimal};
ghost use Rattle.oas_num.specs.Writing.{Writes};
ghost use Rattle.oas_listing.specs.Lines.{spaced};
ghost use Rattle.oas_listing.specs.Listing.{pair};

use crate::numbers::Numbers;
use oas_layout::ShownPoints;
use oas_num::{Sink, SinkFault};
use oas_ring::Point;

/// Puts a field after a space.
pub(crate) fn put_field<K: Sink>(sink: &mut K, field: &[u8]) -> Result<(), SinkFault>
    ensures { Writes K.given K.failures sink.old (32 ∷ field.now) result sink.new }
{
    sink.put(b' ')?;
    sink.put_all(field)
}

/// Puts the first word of a line, and at most six numbers after it, the unsigned ones first.
pub(crate) fn put_start<K: Sink>(
    sink: &mut K,
    word: &[u8],
    values: &[u64],
    signed: &[i64],
) -> Result<(), SinkFault>
    requires { length values.now + length signed.now ≤ 6 }
    ensures { Writes K.given K.failures sink.old
        (spaced (word.now ∷ map decimal values.now ++ map signed_decimal signed.now)) result sink.new }
{
    let mut numbers = Numbers::new();
    numbers.prepend_signed_numbers(signed);
    numbers.prepend_numbers(values);
    sink.put_all(word)?;
    sink.put_all(numbers.as_slice())
}

/// Puts a point after a space.
fn put_point<K: Sink>(sink: &mut K, point: Point) -> Result<(), SinkFault>
    ensures { Writes K.given K.failures sink.old (32 ∷ pair point) result sink.new }
{
    let mut numbers = Numbers::new();
    numbers.prepend_point(point);
    sink.put_all(numbers.as_slice())
}

/// Puts points, each after a space.
pub(crate) fn put_points<K: Sink>(sink: &mut K, points: ShownPoints<'_>) -> Result<(), SinkFault>
    ensures { Writes K.given K.failures sink.old (flat_map (λ p. 32 ∷ pair p) points.entry) result sink.new }
{
    for point in points {
        put_point(sink, point)?;
    }
    Ok(())
}

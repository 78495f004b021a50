//! The fields of an entry: words of a line, or members of a JSON object.

ghost use Rattle.std.specs.Prelude.{◌∷◌, ◌++◌, codes, decimal, flat_map};
ghost use Rattle.oas_num.specs.Writing.{Writes};
ghost use Rattle.oas_diff_text.specs.Fields.{size, coordinate, bytes_text, both, place, separated, places, key, value_text, field_texts};

use crate::json::put_quoted;
use crate::microns::{put_length, put_microns};
use itoa::Buffer;
use oas_diff_options::Syntax;
use oas_listing::ShownPoints;
use oas_num::{Fraction, Sink, SinkFault};
use oas_ring::Point;

/// The value of a field. Lengths and coordinates are grid steps.
#[derive(Clone, Copy)]
pub(crate) enum Value<'a> {
    Number(u64),
    Length(u64),
    Coordinate(i64),
    Sign(u8),
    /// A name or a string.
    Bytes(&'a [u8]),
}

/// Puts a number.
pub(crate) fn put_number<K: Sink>(sink: &mut K, number: u64) -> Result<(), SinkFault>
    ensures { Writes K.given K.failures sink.old (decimal number) result sink.new }
{
    sink.put_all(Buffer::new().format(number).as_bytes())
}

/// Puts a length.
fn put_size<K: Sink>(sink: &mut K, scale: &Option<Fraction>, steps: u64) -> Result<(), SinkFault>
    ensures { Writes K.given K.failures sink.old (size scale.now steps) result sink.new }
{
    match scale {
        None => put_number(sink, steps),
        Some(unit) => put_length(sink, *unit, u128::from(steps)),
    }
}

/// Puts a coordinate.
fn put_coordinate<K: Sink>(
    sink: &mut K,
    scale: &Option<Fraction>,
    steps: i64,
) -> Result<(), SinkFault>
    ensures { Writes K.given K.failures sink.old (coordinate scale.now steps) result sink.new }
{
    match scale {
        None => sink.put_all(Buffer::new().format(steps).as_bytes()),
        Some(unit) => put_microns(sink, *unit, i128::from(steps)),
    }
}

/// Puts the coordinates of a point.
fn put_both<K: Sink>(sink: &mut K, scale: &Option<Fraction>, point: Point) -> Result<(), SinkFault>
    ensures { Writes K.given K.failures sink.old (both scale.now point) result sink.new }
{
    put_coordinate(sink, scale, point.x)?;
    sink.put(b',')?;
    put_coordinate(sink, scale, point.y)
}

/// Puts a point.
fn put_place<K: Sink>(
    sink: &mut K,
    syntax: Syntax,
    scale: &Option<Fraction>,
    point: Point,
) -> Result<(), SinkFault>
    ensures { Writes K.given K.failures sink.old (place syntax scale.now point) result sink.new }
{
    match syntax {
        Syntax::Lines => put_both(sink, scale, point),
        Syntax::Json => {
            sink.put(b'[')?;
            put_both(sink, scale, point)?;
            sink.put(b']')
        }
    }
}

/// Puts a point after this byte.
fn put_next<K: Sink>(
    sink: &mut K,
    byte: u8,
    syntax: Syntax,
    scale: &Option<Fraction>,
    point: Point,
) -> Result<(), SinkFault>
    ensures { Writes K.given K.failures sink.old (byte ∷ place syntax scale.now point) result sink.new }
{
    sink.put(byte)?;
    put_place(sink, syntax, scale, point)
}

/// Puts points, each after this byte.
fn put_rest<K: Sink>(
    sink: &mut K,
    byte: u8,
    syntax: Syntax,
    scale: &Option<Fraction>,
    points: ShownPoints<'_>,
) -> Result<(), SinkFault>
    ensures { Writes K.given K.failures sink.old (flat_map (λ p. byte ∷ place syntax scale.now p) points.entry) result sink.new }
{
    for point in points {
        put_next(sink, byte, syntax, scale, point)?;
    }
    Ok(())
}

/// Puts points, with this byte between neighbours.
fn put_separated<K: Sink>(
    sink: &mut K,
    byte: u8,
    syntax: Syntax,
    scale: &Option<Fraction>,
    mut points: ShownPoints<'_>,
) -> Result<(), SinkFault>
    ensures { Writes K.given K.failures sink.old (separated byte syntax scale.now points.entry) result sink.new }
{
    let Some(first) = points.next() else {
        return Ok(());
    };
    put_place(sink, syntax, scale, first)?;
    put_rest(sink, byte, syntax, scale, points)
}

/// Puts points.
fn put_places<K: Sink>(
    sink: &mut K,
    syntax: Syntax,
    scale: &Option<Fraction>,
    points: ShownPoints<'_>,
) -> Result<(), SinkFault>
    ensures { Writes K.given K.failures sink.old (places syntax scale.now points.entry) result sink.new }
{
    match syntax {
        Syntax::Lines => put_separated(sink, b' ', Syntax::Lines, scale, points),
        Syntax::Json => {
            sink.put(b'[')?;
            put_separated(sink, b',', Syntax::Json, scale, points)?;
            sink.put(b']')
        }
    }
}

/// Puts a name or a string.
fn put_bytes<K: Sink>(sink: &mut K, syntax: Syntax, bytes: &[u8]) -> Result<(), SinkFault>
    ensures { Writes K.given K.failures sink.old (bytes_text syntax bytes.now) result sink.new }
{
    match syntax {
        Syntax::Lines => sink.put_all(bytes),
        Syntax::Json => put_quoted(sink, bytes),
    }
}

/// Puts a value.
fn put_value<K: Sink>(
    sink: &mut K,
    syntax: Syntax,
    scale: &Option<Fraction>,
    value: Value<'_>,
) -> Result<(), SinkFault>
    ensures { Writes K.given K.failures sink.old (value_text syntax scale.now value.entry) result sink.new }
{
    match value {
        Value::Number(number) => put_number(sink, number),
        Value::Length(steps) => put_size(sink, scale, steps),
        Value::Coordinate(steps) => put_coordinate(sink, scale, steps),
        Value::Sign(sign) => put_bytes(sink, syntax, &[sign]),
        Value::Bytes(bytes) => put_bytes(sink, syntax, bytes),
    }
}

/// Puts what is before a value.
fn put_key<K: Sink>(sink: &mut K, syntax: Syntax, name: &str) -> Result<(), SinkFault>
    ensures { Writes K.given K.failures sink.old (key syntax name.now) result sink.new }
{
    match syntax {
        Syntax::Lines => sink.put(b' '),
        Syntax::Json => {
            sink.put_all(b",\"")?;
            sink.put_all(name.as_bytes())?;
            sink.put_all(b"\":")
        }
    }
}

/// Puts a field by its name and value.
fn put_field<K: Sink>(
    sink: &mut K,
    syntax: Syntax,
    scale: &Option<Fraction>,
    name: &str,
    value: Value<'_>,
) -> Result<(), SinkFault>
    ensures { Writes K.given K.failures sink.old (key syntax name.now ++ value_text syntax scale.now value.entry) result sink.new }
{
    put_key(sink, syntax, name)?;
    put_value(sink, syntax, scale, value)
}

/// Puts fields by their names and values.
pub(crate) fn put_fields<K: Sink>(
    sink: &mut K,
    syntax: Syntax,
    scale: &Option<Fraction>,
    fields: &[(&str, Value<'_>)],
) -> Result<(), SinkFault>
    ensures { Writes K.given K.failures sink.old (field_texts syntax scale.now fields.now) result sink.new }
{
    for field in fields {
        put_field(sink, syntax, scale, field.0, field.1)?;
    }
    Ok(())
}

/// Puts the field of an element's points.
pub(crate) fn put_points<K: Sink>(
    sink: &mut K,
    syntax: Syntax,
    scale: &Option<Fraction>,
    points: ShownPoints<'_>,
) -> Result<(), SinkFault>
    ensures { Writes K.given K.failures sink.old (key syntax (codes "points") ++ places syntax scale.now points.entry) result sink.new }
{
    put_key(sink, syntax, "points")?;
    put_places(sink, syntax, scale, points)
}

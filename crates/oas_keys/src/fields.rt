//! The other fields as bytes in their order.

ghost use Rattle.std.specs.Prelude.{◌≡◌, ◌+◌, ◌*◌, ◌≤◌, ◌++◌, ◌∷◌, [], true, List, length, reverse, ◌<◌, vec_len, vec_capacity};
ghost use Rattle.std.specs.List.{list_all};
ghost use Rattle.oas_elements.specs.Grid.{is_grid_point};
ghost use Rattle.oas_ring.specs.declared.point.Point.{Point as OnePoint};
ghost use Rattle.oas_ring.specs.Points.{origin};
ghost use Rattle.oas_ring.specs.Readings.{reading_of};
ghost use Rattle.oas_keys.specs.Keys.{text_key, step_key, points_key, turned_key};

use crate::numbers::put_signed_pair;
use oas_elements::Turns;
use oas_ring::{Point, Reading};

/// Puts a string's bytes and their end.
pub(crate) fn put_text(bytes: &[u8], out: &mut Vec<u8>)
    requires { vec_len out.old + (length bytes.now + 1) ≤ vec_capacity out.old }
    ensures items { out.new.items ≡ out.old.items ++ text_key bytes.now }
    ensures len { vec_len out.new ≡ vec_len out.old + (length bytes.now + 1) }
    ensures capacity { vec_capacity out.old ≤ vec_capacity out.new }
{
    // There is room, so this doesn't fail.
    let _ = out.extend_from_slice(bytes);
    out.push_reserved(0);
}

/// The byte of turns and flip.
pub(crate) fn turned(turns: Turns, flip: bool) -> u8
    ensures { result ∷ [] ≡ turned_key turns flip }
{
    let doubled = match turns {
        Turns::T0 => 0,
        Turns::T1 => 2,
        Turns::T2 => 4,
        Turns::T3 => 6,
    };
    if flip { doubled + 2 } else { doubled + 1 }
}

/// Puts the step from one point to another.
fn put_step(before: Point, point: Point, out: &mut Vec<u8>)
    requires from { is_grid_point before ≡ true }
    requires to { is_grid_point point ≡ true }
    requires room { vec_len out.old + 18 ≤ vec_capacity out.old }
    ensures items { out.new.items ≡ out.old.items ++ step_key before point }
    ensures len { vec_len out.new ≤ vec_len out.old + 18 }
    ensures capacity { vec_capacity out.new ≡ vec_capacity out.old }
{
    put_signed_pair(point.x - before.x, point.y - before.y, out);
}

/// Puts the steps from a point through others, and returns the last of them, or that point if there are none.
fn put_forwards(from: Point, points: &[Point], out: &mut Vec<u8>) -> Point
    requires from { is_grid_point from ≡ true }
    requires within { list_all is_grid_point points.now ≡ true }
    requires room { vec_len out.old + length points.now * 18 ≤ vec_capacity out.old }
    ensures items { (rest : List OnePoint) → out.old.items ++ points_key from (points.now ++ rest) ≡ out.new.items ++ points_key result rest }
    ensures last { is_grid_point result ≡ true }
    ensures len { vec_len out.new ≤ vec_len out.old + length points.now * 18 }
    ensures capacity { vec_capacity out.new ≡ vec_capacity out.old }
{
    let mut before = from;
    for point in points {
        put_step(before, *point, out);
        before = *point;
    }
    before
}

/// Puts the steps from a point through others, the last of these first, and returns the first of them, or that point if there
/// are none.
fn put_backwards(from: Point, points: &[Point], out: &mut Vec<u8>) -> Point
    requires from { is_grid_point from ≡ true }
    requires within { list_all is_grid_point points.now ≡ true }
    requires room { vec_len out.old + length points.now * 18 ≤ vec_capacity out.old }
    ensures items { (rest : List OnePoint) → out.old.items ++ points_key from (reverse points.now ++ rest) ≡ out.new.items ++ points_key result rest }
    ensures last { is_grid_point result ≡ true }
    ensures len { vec_len out.new ≤ vec_len out.old + length points.now * 18 }
    ensures capacity { vec_capacity out.new ≡ vec_capacity out.old }
{
    let mut before = from;
    let mut left = points;
    while let Some((point, front)) = left.split_last() {
        put_step(before, *point, out);
        before = *point;
        left = front;
    }
    before
}

/// Puts a list of points and its end.
pub(crate) fn put_points(points: &[Point], out: &mut Vec<u8>)
    requires within { list_all is_grid_point points.now ≡ true }
    requires room { vec_len out.old + (length points.now * 18 + 1) ≤ vec_capacity out.old }
    ensures items { out.new.items ≡ out.old.items ++ points_key origin points.now }
    ensures len { vec_len out.new ≤ vec_len out.old + (length points.now * 18 + 1) }
    ensures capacity { vec_capacity out.new ≡ vec_capacity out.old }
{
    put_forwards(Point { x: 0, y: 0 }, points, out);
    out.push_reserved(0);
}

/// Puts the points of a ring as they are read, and their end.
pub(crate) fn put_ring(points: &[Point], reading: Reading, out: &mut Vec<u8>)
    requires start { reading.start < length points.now }
    requires within { list_all is_grid_point points.now ≡ true }
    requires room { vec_len out.old + (length points.now * 18 + 1) ≤ vec_capacity out.old }
    ensures items { out.new.items ≡ out.old.items ++ points_key origin (reading_of points.now reading) }
    ensures len { vec_len out.new ≤ vec_len out.old + (length points.now * 18 + 1) }
    ensures capacity { vec_capacity out.new ≡ vec_capacity out.old }
{
    let origin = Point { x: 0, y: 0 };
    if reading.backwards {
        let (front, back) = points.split_at(reading.start + 1);
        let last = put_backwards(origin, front, out);
        put_backwards(last, back, out);
    } else {
        let (front, back) = points.split_at(reading.start);
        let last = put_forwards(origin, back, out);
        put_forwards(last, front, out);
    }
    out.push_reserved(0);
}

//! Rings that go round a rectangle.

ghost use Rattle.std.specs.Prelude.{◌≡◌, ◌↔◌, IsTrue, IfSome, IfNone};
ghost use Rattle.oas_ring.specs.Rectangles.{corners_of, corners_between, IsBox};
ghost use Rattle.oas_ring.specs.declared.rectangles.Corners.{Corners};

use crate::point::Point;
use crate::sameness::same_ring;

/// The low and the high corner of a rectangle whose sides lie along the axes.
#[derive(Clone, Copy, Debug, PartialEq, Eq)]
pub struct Corners {
    pub low: Point,
    pub high: Point,
}

/// The least rectangle that has both points.
fn corners_between_points(a: Point, b: Point) -> Corners
    ensures { result ≡ corners_between a b }
{
    let low = Point {
        x: a.x.min(b.x),
        y: a.y.min(b.y),
    };
    let high = Point {
        x: a.x.max(b.x),
        y: a.y.max(b.y),
    };
    Corners { low, high }
}

/// The four corners in order round the rectangle.
fn round(corners: Corners) -> [Point; 4]
    ensures { result ≡ corners_of corners }
{
    let low = corners.low;
    let high = corners.high;
    [
        low,
        Point {
            x: low.x,
            y: high.y,
        },
        high,
        Point {
            x: high.x,
            y: low.y,
        },
    ]
}

/// Whether the ring goes round this rectangle, and the rectangle has positive sides.
fn is_box(points: &[Point], corners: Corners) -> bool
    ensures { IsTrue result ↔ IsBox points.now corners }
{
    if corners.low.x < corners.high.x && corners.low.y < corners.high.y {
        let way = round(corners);
        same_ring(points, &way)
    } else {
        false
    }
}

/// The rectangle with positive sides that the ring goes round, from any corner and in either direction; None exactly where
/// there is none.
pub fn as_box(points: &[Point]) -> Option<Corners>
    ensures some { IfSome result (IsBox points.now) }
    ensures none { IfNone result ((c : Corners) → IsBox points.now c → ⊥) }
{
    if points.len() != 4 {
        return None;
    }
    let corners = corners_between_points(points[0], points[2]);
    if is_box(points, corners) {
        Some(corners)
    } else {
        None
    }
}

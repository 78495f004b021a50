//! Whether the vertices of a point list are within the limits.
ghost use Rattle.std.specs.Prelude.{true, false, ◌↔◌, IsTrue};
ghost use Rattle.std.specs.List.{AllByRecursion};
ghost use Rattle.oas_shape.specs.Steps.{IsInRange};
ghost use Rattle.oas_shape.specs.Polylines.{listed_vertices, vertices_of};

use crate::displacements::Displacement;
use crate::point_list::PointList;
use crate::vertices::{next_displacement, point_after, point_from};
use oas_num::GDelta;
use oas_ring::Point;

impl PointList {
    /// Whether all vertices at that position, which is the first, are within the limits: where [`PointList::vertices`] doesn't
    /// fail with `CoordinateRange`. It needs no memory.
    pub fn is_in_range(&self, at: Point) -> bool
        requires { IsInRange at }
        ensures { IsTrue result ↔ AllByRecursion IsInRange (vertices_of self.now at) }
    {
        // A vertex that is left out has its coordinates from two that aren't.
        let deltas = self.deltas.as_slice();
        if self.running {
            stays_displaced(deltas, at)
        } else {
            stays_plain(deltas, at)
        }
    }
}

/// Whether all vertices that the deltas reach are within the limits, where these are the steps from one vertex to the next.
fn stays_plain(deltas: &[GDelta], at: Point) -> bool
    requires { IsInRange at }
    ensures { IsTrue result ↔ AllByRecursion IsInRange (listed_vertices false deltas.now at) }
{
    let mut last = at;
    for delta in deltas {
        let Some(next) = point_after(last, *delta) else {
            return false;
        };
        last = next;
    }
    true
}

/// The same of a running list.
fn stays_displaced(deltas: &[GDelta], at: Point) -> bool
    requires { IsInRange at }
    ensures { IsTrue result ↔ AllByRecursion IsInRange (listed_vertices true deltas.now at) }
{
    let mut last = at;
    let mut by = Displacement { x: 0, y: 0 };
    for delta in deltas {
        by = next_displacement(by, *delta);
        let Some(next) = point_from(last, by) else {
            return false;
        };
        last = next;
    }
    true
}

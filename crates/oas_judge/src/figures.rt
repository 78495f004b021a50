//! A polygon or a path that is at hand, in the cell that is judged.
ghost use Rattle.std.specs.Prelude.{◌≡◌, ◌<◌, ℕ, true, false, length, IfSome};
ghost use Rattle.std.specs.declared.cmp.Ordering.TheVariants.{Less};
ghost use Rattle.oas_ring.specs.Points.{point_cmp};
ghost use Rattle.oas_ring.specs.SoleLeast.{IsSoleLeast};
ghost use Rattle.oas_elements.specs.Same.{normal};
ghost use Rattle.oas_elements.specs.Weight.{lacks_points};
ghost use Rattle.oas_elements.specs.declared.element.Element.TheVariants.{Polygon};
ghost use Rattle.oas_elements.specs.declared.profile.Profile.{Profile as OneProfile};
ghost use Rattle.oas_judge.specs.Peeked.{IsFigureBy};

use crate::candidates::is_drawable_figure;
use crate::own::own_figure;
use oas_elements::{Element, Profile};
use oas_peek::PeekedFigure;
use oas_ring::Point;
use std::alloc::Global;

/// Whether a point is below another one: by x, or by y where x is the same.
#[inline(always)]
fn is_below(point: Point, other: Point) -> bool
    ensures { result ≡ true → point_cmp point other ≡ Less }
{
    point.x < other.x || point.x == other.x && point.y < other.y
}

/// Whether the first of some points is below each other one.
#[inline(always)]
fn is_first_least(points: &[Point]) -> bool
    requires { 0 < length points.now }
    ensures { result ≡ true → IsSoleLeast points.now 0 }
{
    let first = points[0];
    for i in 1..points.len() {
        if !is_below(first, points[i]) {
            return false;
        }
    }
    true
}

/// Whether a ring is plainly in its least reading, and no rectangle: it has more than four points, the first is below all
/// others, and the second below the last. So are most of a canonical file.
#[inline(always)]
fn is_plainly_kept(points: &[Point]) -> bool
    ensures { result ≡ true → (profile : OneProfile) (layer datatype : ℕ) → normal profile (Polygon layer datatype points.now) ≡ Polygon layer datatype points.now }
{
    let count = points.len();
    if count <= 4 {
        return false;
    }
    is_first_least(points) && is_below(points[1], points[count - 1])
}

/// Whether the profile keeps an element unchanged; false also if out of memory.
#[inline(always)]
fn is_kept(alloc: Global, profile: Profile, element: &Element) -> bool
    requires { lacks_points element.now ≡ false }
    ensures { result ≡ true → element.now ≡ normal profile element.now }
{
    if let Element::Polygon { points, .. } = element
        && is_plainly_kept(points.as_slice())
    {
        return true;
    }
    matches!(element.kept_form(alloc, profile), Ok(None))
}

/// The element of a polygon or a path that is at hand, where its bytes are the canonical ones of that; None also if out of
/// memory.
#[inline(always)]
pub(crate) fn spelled_figure(
    alloc: Global,
    profile: Profile,
    ahead: &PeekedFigure,
) -> Option<Element>
    ensures { IfSome result (λ element. IsFigureBy profile ahead.now element) }
{
    if !ahead.shortest {
        return None;
    }
    let own = own_figure(alloc, &ahead.record).ok()??;
    own.fits();
    if is_drawable_figure(&own) && is_kept(alloc, profile, &own) {
        Some(own)
    } else {
        None
    }
}

//! The form in which an element is kept.

ghost use Rattle.std.specs.Prelude.{◌≡◌, ◌<◌, ℕ, false, length, IfOk, unwrap_or};
ghost use Rattle.oas_elements.specs.Weight.{lacks_points};
ghost use Rattle.oas_elements.specs.Same.{normal, drawn_box, kept_as, ReadsWithin};
ghost use Rattle.oas_elements.specs.declared.element.Element.TheVariants.{Polygon};

use crate::element::Element;
use crate::profile::Profile;
use oas_ring::{Corners, Point, Points, Reading, apply, as_box, least_reading};
use std::alloc::{AllocError, Global};

impl Element {
    /// The form in which the profile keeps the element: a polygon in its least reading, or under profile two as its rectangle
    /// if it goes round one. None where that is the element unchanged.
    pub fn kept_form(&self, alloc: Global, profile: Profile) -> Result<Option<Element>, AllocError>
        requires { lacks_points self.now ≡ false }
        ensures { IfOk result (λ o. unwrap_or o self.now ≡ normal profile self.now) }
    {
        match self {
            Element::Polygon {
                layer,
                datatype,
                points,
            } => kept_polygon(alloc, profile, *layer, *datatype, points),
            Element::Placement { .. }
            | Element::Text { .. }
            | Element::Rectangle { .. }
            | Element::Path { .. }
            | Element::Circle { .. } => Ok(None),
        }
    }
}

/// What a polygon is kept as.
#[derive(Clone, Copy, Debug, PartialEq, Eq)]
pub enum KeptPolygon {
    /// The rectangle between these corners, in place of the polygon.
    Box(Corners),
    /// The polygon, in this reading of its points.
    Ring(Reading),
}

/// What the profile keeps a polygon as, by its points, in any layer. It needs no memory.
pub fn kept_ring(profile: Profile, ring: &[Point]) -> KeptPolygon
    requires { 0 < length ring.now }
    ensures kept { (layer datatype : ℕ) → kept_as layer datatype ring.now result ≡ normal profile (Polygon layer datatype ring.now) }
    ensures start { ReadsWithin ring.now result }
{
    match drawn_box(profile, ring) {
        Some(corners) => KeptPolygon::Box(corners),
        None => KeptPolygon::Ring(least_reading(ring)),
    }
}

/// The form in which the profile keeps a polygon, where that is another.
fn kept_polygon(
    alloc: Global,
    profile: Profile,
    layer: u64,
    datatype: u64,
    points: &Points,
) -> Result<Option<Element>, AllocError>
    requires { 0 < length points.now }
    ensures { IfOk result (λ o. unwrap_or o (Polygon layer datatype points.now) ≡ normal profile (Polygon layer datatype points.now)) }
{
    let ring = points.as_slice();
    match kept_ring(profile, ring) {
        KeptPolygon::Box(corners) => Ok(Some(Element::Rectangle {
            layer,
            datatype,
            width: corners.high.x.abs_diff(corners.low.x),
            height: corners.high.y.abs_diff(corners.low.y),
            x: corners.low.x,
            y: corners.low.y,
        })),
        KeptPolygon::Ring(reading) => {
            if reading.start == 0 && !reading.backwards {
                return Ok(None);
            }
            let least = apply(alloc, ring, reading)?;
            Ok(Some(Element::Polygon {
                layer,
                datatype,
                points: Points::new(least),
            }))
        }
    }
}

/// Under profile two, the rectangle that the ring goes round, if there is one.
fn drawn_box(profile: Profile, points: &[Point]) -> Option<Corners>
    ensures { result ≡ drawn_box profile points.now }
{
    match profile {
        Profile::One => None,
        Profile::Two => as_box(points),
    }
}

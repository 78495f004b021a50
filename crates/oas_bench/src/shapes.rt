//! The elements to be added.

use oas_elements::Element;
use oas_ring::{Point, Points};
use std::alloc::{AllocError, Global};

/// A rectangle of 10 by 20 at x.
pub(crate) fn rectangle(x: i64) -> Element {
    Element::Rectangle {
        layer: 1,
        datatype: 0,
        width: 10,
        height: 20,
        x,
        y: 0,
    }
}

/// A polygon of six points, from x on, that is not in its least reading.
pub(crate) fn polygon(alloc: Global, x: i64) -> Result<Element, AllocError> {
    let far = x.wrapping_add(10);
    let half = x.wrapping_add(5);
    let mut list = Vec::with_capacity(alloc, 6)?;
    for (x, y) in [(far, 0), (far, 5), (half, 5), (half, 10), (x, 10), (x, 0)] {
        list.push(Point { x, y })?;
    }
    Ok(Element::Polygon {
        layer: 1,
        datatype: 0,
        points: Points::new(list),
    })
}

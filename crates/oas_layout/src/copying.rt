//! From a key to its element, in memory of its own.

ghost use Rattle.std.specs.Prelude.{◌≡◌, true, IfOk};
ghost use Rattle.oas_num.specs.Texts.{IsName, IsLabel};
ghost use Rattle.oas_elements.specs.declared.element.Element.TheVariants.{Placement, Text, Polygon, Path};
ghost use Rattle.oas_elements.specs.Sound.{IsSound};
ghost use Rattle.oas_layout.specs.Shown.{element_of, is_plain};

use crate::element::KeyedElement;
use crate::points::ShownPoints;
use crate::showing::show;
use crate::shown::ShownElement;
use oas_elements::{Element, Turns};
use oas_num::{Label, Name};
use oas_ring::Points;
use std::alloc::{AllocError, Global};

impl KeyedElement<'_> {
    /// The element, with its name, string or points in memory of its own; or out of memory.
    pub fn to_element(&self, alloc: Global) -> Result<Element, AllocError>
        ensures { IfOk result (λ e. e ≡ self.now) }
    {
        copied(alloc, show(self))
    }
}

/// The list of these points.
fn list_of(alloc: Global, points: ShownPoints<'_>) -> Result<Points, AllocError>
    ensures { IfOk result (λ list. list ≡ points.entry) }
{
    let mut items = Vec::new(alloc);
    for point in points {
        items.push(point)?;
    }
    Ok(Points::new(items))
}

/// A placement of the cell with this name.
fn placement(
    alloc: Global,
    cell: &[u8],
    x: i64,
    y: i64,
    turns: Turns,
    flip: bool,
) -> Result<Element, AllocError>
    requires { IsName cell.now }
    ensures { IfOk result (λ e. e ≡ Placement cell.now x y turns flip) }
{
    let cell = Name::of(alloc, cell)?;
    Ok(Element::Placement {
        cell,
        x,
        y,
        turns,
        flip,
    })
}

/// A text of this string.
fn text(
    alloc: Global,
    string: &[u8],
    textlayer: u64,
    texttype: u64,
    x: i64,
    y: i64,
) -> Result<Element, AllocError>
    requires { IsLabel string.now }
    ensures { IfOk result (λ e. e ≡ Text string.now textlayer texttype x y) }
{
    let string = Label::of(alloc, string)?;
    Ok(Element::Text {
        string,
        textlayer,
        texttype,
        x,
        y,
    })
}

/// A polygon round these points.
fn polygon(
    alloc: Global,
    layer: u64,
    datatype: u64,
    points: ShownPoints<'_>,
) -> Result<Element, AllocError>
    ensures { IfOk result (λ e. e ≡ Polygon layer datatype points.entry) }
{
    let points = list_of(alloc, points)?;
    Ok(Element::Polygon {
        layer,
        datatype,
        points,
    })
}

/// A path along these points.
fn path(
    alloc: Global,
    layer: u64,
    datatype: u64,
    half_width: u64,
    start: i64,
    end: i64,
    points: ShownPoints<'_>,
) -> Result<Element, AllocError>
    ensures { IfOk result (λ e. e ≡ Path layer datatype half_width start end points.entry) }
{
    let points = list_of(alloc, points)?;
    Ok(Element::Path {
        layer,
        datatype,
        half_width,
        start,
        end,
        points,
    })
}

/// A rectangle or a circle, which takes no memory.
fn plain(shown: ShownElement<'_>) -> Element
    requires { is_plain shown ≡ true }
    ensures { result ≡ element_of shown.entry }
{
    match shown {
        ShownElement::Rectangle {
            layer,
            datatype,
            width,
            height,
            x,
            y,
        } => Element::Rectangle {
            layer,
            datatype,
            width,
            height,
            x,
            y,
        },
        ShownElement::Circle {
            layer,
            datatype,
            radius,
            x,
            y,
        } => Element::Circle {
            layer,
            datatype,
            radius,
            x,
            y,
        },
        _ => unreachable!(),
    }
}

/// An element that is shown, in memory of its own.
fn copied(alloc: Global, shown: ShownElement<'_>) -> Result<Element, AllocError>
    requires { IsSound (element_of shown) }
    ensures { IfOk result (λ e. e ≡ element_of shown.entry) }
{
    match shown {
        ShownElement::Placement {
            cell,
            x,
            y,
            turns,
            flip,
        } => placement(alloc, cell, x, y, turns, flip),
        ShownElement::Text {
            string,
            textlayer,
            texttype,
            x,
            y,
        } => text(alloc, string, textlayer, texttype, x, y),
        ShownElement::Polygon {
            layer,
            datatype,
            points,
        } => polygon(alloc, layer, datatype, points),
        ShownElement::Path {
            layer,
            datatype,
            half_width,
            start,
            end,
            points,
        } => path(alloc, layer, datatype, half_width, start, end, points),
        other => Ok(plain(other)),
    }
}

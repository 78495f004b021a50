//! An element's key.

ghost use Rattle.std.specs.Prelude.{◌≡◌, ◌<◌, ◌++◌, OnOk, OnErr};
ghost use Rattle.oas_elements.specs.Element.{kind};
ghost use Rattle.oas_elements.specs.Sound.{IsSound};
ghost use Rattle.oas_keys.specs.Keys.{key_of};

use crate::geometry::{put_circle_key, put_path_key, put_polygon_key, put_rectangle_key};
use crate::named::{put_placement_key, put_text_key};
use oas_elements::Element;
use oas_ring::Reading;
use std::alloc::AllocError;

/// The reading of a ring's points as they are listed.
const AS_LISTED: Reading = Reading {
    start: 0,
    backwards: false,
};

/// Puts the key of an element that is no placement and no text, as `put_key` does.
fn put_geometry_key(element: &Element, out: &mut Vec<u8>) -> Result<(), AllocError>
    requires sound { IsSound element.now }
    requires kind { 1 < kind element.now }
    ensures ok { OnOk result (out.new.items ≡ out.old.items ++ key_of element.now) }
    ensures err { OnErr result (out.new.items ≡ out.old.items) }
{
    match element {
        Element::Rectangle {
            layer,
            datatype,
            width,
            height,
            x,
            y,
        } => put_rectangle_key(*layer, *datatype, *width, *height, *x, *y, out),
        Element::Polygon {
            layer,
            datatype,
            points,
        } => put_polygon_key(*layer, *datatype, points.as_slice(), AS_LISTED, out),
        Element::Path {
            layer,
            datatype,
            half_width,
            start,
            end,
            points,
        } => put_path_key(
            *layer,
            *datatype,
            *half_width,
            *start,
            *end,
            points.as_slice(),
            out,
        ),
        Element::Circle {
            layer,
            datatype,
            radius,
            x,
            y,
        } => put_circle_key(*layer, *datatype, *radius, *x, *y, out),
        Element::Placement { .. } | Element::Text { .. } => Ok(()),
    }
}

/// Puts an element's key after what `out` has (own rule, specs/Keys.antt). If out of memory, `out` has what it had.
pub fn put_key(element: &Element, out: &mut Vec<u8>) -> Result<(), AllocError>
    requires { IsSound element.now }
    ensures ok { OnOk result (out.new.items ≡ out.old.items ++ key_of element.now) }
    ensures err { OnErr result (out.new.items ≡ out.old.items) }
{
    match element {
        Element::Placement {
            cell,
            x,
            y,
            turns,
            flip,
        } => put_placement_key(cell, *x, *y, *turns, *flip, out),
        Element::Text {
            string,
            textlayer,
            texttype,
            x,
            y,
        } => put_text_key(string, *textlayer, *texttype, *x, *y, out),
        _ => put_geometry_key(element, out),
    }
}

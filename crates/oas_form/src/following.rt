//! The latest element of a cell, compared with the one that comes next; where that is a placement or a text, it is overwritten
//! in its own memory.
ghost use Rattle.std.specs.Prelude.{◌≡◌, true, false, IfSome};
ghost use Rattle.oas_num.specs.Texts.{IsName, IsLabel};
ghost use Rattle.oas_elements.specs.declared.element.Element.TheVariants.{Placement, Text};
ghost use Rattle.oas_elements.specs.Element.{element_cmp};

use oas_elements::{Element, Turns};
use std::cmp::Ordering;

/// How two elements compare. Most elements are rectangles, so two of these are compared here, where their fields are at hand.
#[inline(always)]
pub(crate) fn element_order(last: &Element, next: &Element) -> Ordering
    ensures { result ≡ element_cmp last.now next.now }
{
    match (last, next) {
        (
            Element::Rectangle {
                layer,
                datatype,
                width,
                height,
                x,
                y,
            },
            Element::Rectangle {
                layer: next_layer,
                datatype: next_datatype,
                width: next_width,
                height: next_height,
                x: next_x,
                y: next_y,
            },
        ) => {
            let there = x.cmp(next_x).then(y.cmp(next_y));
            let sized = width
                .cmp(next_width)
                .then(height.cmp(next_height).then(there));
            layer
                .cmp(next_layer)
                .then(datatype.cmp(next_datatype).then(sized))
        }
        _ => last.cmp(next),
    }
}

/// How an element compares with a placement of the cell with this name; None where it is no placement.
#[inline(always)]
pub(crate) fn placement_order(
    last: &Element,
    name: &[u8],
    at: (i64, i64),
    turns: Turns,
    flip: bool,
) -> Option<Ordering>
    ensures { IfSome result (λ order. order ≡ element_cmp last.now (Placement name.now at.0 at.1 turns flip)) }
{
    let Element::Placement {
        cell,
        x,
        y,
        turns: last_turns,
        flip: last_flip,
    } = last
    else {
        return None;
    };
    let turned = last_turns.cmp(&turns).then(last_flip.cmp(&flip));
    let there = x.cmp(&at.0).then(y.cmp(&at.1).then(turned));
    Some(cell.as_bytes().cmp(name).then(there))
}

/// How an element compares with a text with this string; None where it is no text.
#[inline(always)]
pub(crate) fn text_order(
    last: &Element,
    string: &[u8],
    layers: (u64, u64),
    at: (i64, i64),
) -> Option<Ordering>
    ensures { IfSome result (λ order. order ≡ element_cmp last.now (Text string.now layers.0 layers.1 at.0 at.1)) }
{
    let Element::Text {
        string: last_string,
        textlayer,
        texttype,
        x,
        y,
    } = last
    else {
        return None;
    };
    let there = x.cmp(&at.0).then(y.cmp(&at.1));
    let layered = textlayer
        .cmp(&layers.0)
        .then(texttype.cmp(&layers.1).then(there));
    Some(last_string.as_bytes().cmp(string).then(layered))
}

/// Overwrites an element with the placement of the cell with this name there, in its own memory, and returns whether it did.
/// It is unchanged where it is no placement, or if out of memory.
#[inline(always)]
pub(crate) fn place_over(
    last: Element,
    name: &[u8],
    at: (i64, i64),
    turns: Turns,
    flip: bool,
) -> (Element, bool)
    requires { IsName name.now }
    ensures no { result.1 ≡ false → result.0 ≡ last }
    ensures yes { result.1 ≡ true → result.0 ≡ Placement name.now at.0 at.1 turns flip }
{
    match last {
        Element::Placement {
            mut cell,
            x,
            y,
            turns: last_turns,
            flip: last_flip,
        } => {
            if cell.assign(name).is_err() {
                let same = Element::Placement {
                    cell,
                    x,
                    y,
                    turns: last_turns,
                    flip: last_flip,
                };
                return (same, false);
            }
            let placed = Element::Placement {
                cell,
                x: at.0,
                y: at.1,
                turns,
                flip,
            };
            (placed, true)
        }
        other => (other, false),
    }
}

/// Overwrites an element with the text with this string there, in its own memory, and returns whether it did. It is unchanged
/// where it is no text, or if out of memory.
#[inline(always)]
pub(crate) fn write_over(
    last: Element,
    string: &[u8],
    layers: (u64, u64),
    at: (i64, i64),
) -> (Element, bool)
    requires { IsLabel string.now }
    ensures no { result.1 ≡ false → result.0 ≡ last }
    ensures yes { result.1 ≡ true → result.0 ≡ Text string.now layers.0 layers.1 at.0 at.1 }
{
    match last {
        Element::Text {
            string: mut last_string,
            textlayer,
            texttype,
            x,
            y,
        } => {
            if last_string.assign(string).is_err() {
                let same = Element::Text {
                    string: last_string,
                    textlayer,
                    texttype,
                    x,
                    y,
                };
                return (same, false);
            }
            let written = Element::Text {
                string: last_string,
                textlayer: layers.0,
                texttype: layers.1,
                x: at.0,
                y: at.1,
            };
            (written, true)
        }
        other => (other, false),
    }
}

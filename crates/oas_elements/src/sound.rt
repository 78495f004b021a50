//! What the fields of elements and of units can hold, as contracts.
//!
//! A proof knows the range of a field only where a body has read it. These bodies read the fields, and do nothing else.

ghost use Rattle.oas_elements.specs.Sound.{Fits, IsUnit};

use crate::element::Element;
use oas_num::Fraction;

impl Element {
    /// Its name and its string are of their classes, and its numbers have 64 bits.
    pub fn fits(&self)
        ensures { Fits self.now }
    {
        match self {
            Element::Placement { cell, .. } => {
                let _name = cell.as_bytes();
            }
            Element::Text {
                string,
                textlayer,
                texttype,
                ..
            } => {
                let _string = string.as_bytes();
                let _numbers = (*textlayer, *texttype);
            }
            Element::Rectangle {
                layer,
                datatype,
                width,
                height,
                ..
            } => {
                let _numbers = (*layer, *datatype, *width, *height);
            }
            Element::Polygon {
                layer,
                datatype,
                ..
            } => {
                let _numbers = (*layer, *datatype);
            }
            Element::Path {
                layer,
                datatype,
                half_width,
                ..
            } => {
                let _numbers = (*layer, *datatype, *half_width);
            }
            Element::Circle {
                layer,
                datatype,
                radius,
                ..
            } => {
                let _numbers = (*layer, *datatype, *radius);
            }
        }
    }
}

/// A unit is in lowest terms, with two numbers of 64 bits.
pub fn unit_fits(unit: Fraction)
    ensures { IsUnit unit }
{
    let _parts = (unit.num(), unit.den());
}

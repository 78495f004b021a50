//! Rectangles without a repetition.

use super::shown::{Kind, assert_nothing_where_cut, assert_shown};
use std::test::Fail;

/// A rectangle of layer 1, datatype 0, 10 by 20 grid steps at (-1, 64), with all its fields.
const WHOLE: [u8; 9] = [0x14, 0x7B, 0x01, 0x00, 0x0A, 0x14, 0x03, 0x80, 0x01];

/// The same, followed by a byte.
const ALL_FIELDS: &str =
    "14 7b 01 00 0a 14 03 8001 22: 9 true Rectangle { square: false, layer: Some(1), datatype: Some(0), \
    width: Some(10), height: Some(20), spot: Spot { x: Some(-1), y: Some(64), repetition: None } }";

#[test]
fn all_fields(rt: HostRuntime) -> Result<(), Fail> {
    assert_shown(&rt, rt.alloc(), Kind::Rectangle, ALL_FIELDS)
}

const NO_FIELDS: &str = "14 00: 2 false Rectangle { square: false, layer: None, datatype: None, \
    width: None, height: None, spot: Spot { x: None, y: None, repetition: None } }";

#[test]
fn no_fields(rt: HostRuntime) -> Result<(), Fail> {
    assert_shown(&rt, rt.alloc(), Kind::Rectangle, NO_FIELDS)
}

const SQUARE: &str = "14 c0 8a8000: 5 false Rectangle { square: true, layer: None, datatype: None, \
    width: Some(10), height: None, spot: Spot { x: None, y: None, repetition: None } }";

#[test]
fn square_with_a_longer_width(rt: HostRuntime) -> Result<(), Fail> {
    assert_shown(&rt, rt.alloc(), Kind::Rectangle, SQUARE)
}

const MINUS_ZERO: &str =
    "14 7b 01 00 0a 14 01 02: 8 false Rectangle { square: false, layer: Some(1), datatype: Some(0), \
    width: Some(10), height: Some(20), spot: Spot { x: Some(0), y: Some(1), repetition: None } }";

#[test]
fn minus_zero_is_not_the_shortest(rt: HostRuntime) -> Result<(), Fail> {
    assert_shown(&rt, rt.alloc(), Kind::Rectangle, MINUS_ZERO)
}

/// Another id, a square with a height, a repetition, and a layer of ten bytes.
const OTHERS: &str = "\
15 00\n\
14 a0\n\
14 04 00\n\
14 01 80*9 00";

#[test]
fn nothing_else(rt: HostRuntime) -> Result<(), Fail> {
    assert_nothing_where_cut(&rt, rt.alloc(), Kind::Rectangle, &WHOLE)?;
    assert_shown(&rt, rt.alloc(), Kind::Rectangle, OTHERS)
}

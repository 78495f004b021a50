//! Placements and texts without a repetition.

use super::shown::{Kind, assert_nothing_where_cut, assert_shown};
use std::test::Fail;

/// A placement of AB, flipped and turned by 90 degrees, at (-1, 64).
const PLACEMENT: [u8; 8] = [0x11, 0xB3, 0x02, 0x41, 0x42, 0x03, 0x80, 0x01];

/// A text Hi of textlayer 7, texttype 0 at (1, -2).
const TEXT: [u8; 9] = [0x13, 0x5B, 0x02, 0x48, 0x69, 0x07, 0x00, 0x02, 0x05];

/// That placement, followed by a byte.
const PLACEMENT_OF_A_NAME: &str = "11 b3 02 4142 03 8001 22: 8 true \
    Placement { cell: Bytes([65, 66]), quarters: 1, flip: true, x: Some(-1), y: Some(64) }";

#[test]
fn placement_of_a_name(rt: HostRuntime) -> Result<(), Fail> {
    assert_shown(&rt, rt.alloc(), Kind::Named, PLACEMENT_OF_A_NAME)
}

const PLACEMENT_OF_A_NUMBER: &str = "11 f4 8501 02 04: 6 false \
    Placement { cell: Number(133), quarters: 2, flip: false, x: Some(1), y: Some(2) }";

#[test]
fn placement_of_a_number(rt: HostRuntime) -> Result<(), Fail> {
    assert_shown(&rt, rt.alloc(), Kind::Named, PLACEMENT_OF_A_NUMBER)
}

/// The second bit has no meaning where the first is 0.
const PLACEMENTS_OF_THE_MODAL_CELL: &str = "\
11 16 04: 3 false Placement { cell: Modal, quarters: 3, flip: false, x: None, y: Some(2) }\n\
11 56 04: 3 false Placement { cell: Modal, quarters: 3, flip: false, x: None, y: Some(2) }";

#[test]
fn placement_of_the_modal_cell(rt: HostRuntime) -> Result<(), Fail> {
    assert_shown(&rt, rt.alloc(), Kind::Named, PLACEMENTS_OF_THE_MODAL_CELL)
}

/// That text, followed by a byte.
const TEXT_OF_A_STRING: &str = "13 5b 02 4869 07 00 02 05 22: 9 true \
    Text { string: Bytes([72, 105]), textlayer: Some(7), texttype: Some(0), x: Some(1), y: Some(-2) }";

#[test]
fn text_of_a_string(rt: HostRuntime) -> Result<(), Fail> {
    assert_shown(&rt, rt.alloc(), Kind::Named, TEXT_OF_A_STRING)
}

const TEXT_OF_A_NUMBER: &str = "13 62 04 03: 4 false \
    Text { string: Number(4), textlayer: None, texttype: Some(3), x: None, y: None }";

#[test]
fn text_of_a_number(rt: HostRuntime) -> Result<(), Fail> {
    assert_shown(&rt, rt.alloc(), Kind::Named, TEXT_OF_A_NUMBER)
}

const TEXT_OF_THE_MODAL_STRING: &str = "13 31 05 02: 4 false \
    Text { string: Modal, textlayer: Some(5), texttype: None, x: Some(1), y: None }";

#[test]
fn text_of_the_modal_string(rt: HostRuntime) -> Result<(), Fail> {
    assert_shown(&rt, rt.alloc(), Kind::Named, TEXT_OF_THE_MODAL_STRING)
}

/// A cell without a byte, and with a byte that no name has; a string with a byte that no string has.
const NO_NAMES: &str = "\
11 80 00\n\
11 80 02 4120\n\
11 80 02 00ff\n\
13 40 01 1f\n\
13 40 02 487f";

#[test]
fn bytes_that_are_no_name(rt: HostRuntime) -> Result<(), Fail> {
    assert_shown(&rt, rt.alloc(), Kind::Named, NO_NAMES)
}

const STRING_OF_NO_BYTE: &str = "13 5b 00 01 02 00 00: 7 true \
    Text { string: Bytes([]), textlayer: Some(1), texttype: Some(2), x: Some(0), y: Some(0) }";

#[test]
fn string_of_no_byte(rt: HostRuntime) -> Result<(), Fail> {
    assert_shown(&rt, rt.alloc(), Kind::Named, STRING_OF_NO_BYTE)
}

/// The length of the name in two bytes, x in two, y as minus zero, and no y; the length of the string in two bytes, textlayer in
/// two, and no texttype.
const LONGER: &str = "\
11 b0 8100 41 02 02: 7 false Placement { cell: Bytes([65]), quarters: 0, flip: false, x: Some(1), y: Some(1) }\n\
11 b0 01 41 8200 02: 7 false Placement { cell: Bytes([65]), quarters: 0, flip: false, x: Some(1), y: Some(1) }\n\
11 b0 01 41 02 01: 6 false Placement { cell: Bytes([65]), quarters: 0, flip: false, x: Some(1), y: Some(0) }\n\
11 a0 01 41 02: 5 false Placement { cell: Bytes([65]), quarters: 0, flip: false, x: Some(1), y: None }\n\
13 5b 8100 48 07 00 02 05: 9 false Text { string: Bytes([72]), textlayer: Some(7), texttype: Some(0), x: Some(1), y: Some(-2) }\n\
13 5b 01 48 8700 00 02 05: 9 false Text { string: Bytes([72]), textlayer: Some(7), texttype: Some(0), x: Some(1), y: Some(-2) }\n\
13 59 01 48 07 02 05: 7 false Text { string: Bytes([72]), textlayer: Some(7), texttype: None, x: Some(1), y: Some(-2) }";

#[test]
fn only_the_shortest_is_it(rt: HostRuntime) -> Result<(), Fail> {
    assert_shown(&rt, rt.alloc(), Kind::Named, LONGER)
}

/// More bytes than there are.
const LONG_NAME: &str = "11 80 ff*8 7f 41";

#[test]
fn nothing_where_they_are_cut(rt: HostRuntime) -> Result<(), Fail> {
    let alloc = rt.alloc();
    assert_nothing_where_cut(&rt, alloc, Kind::Named, &PLACEMENT)?;
    assert_nothing_where_cut(&rt, alloc, Kind::Named, &TEXT)?;
    assert_shown(&rt, alloc, Kind::Named, LONG_NAME)
}

/// With a repetition, an info byte that no text has, and other ids.
const OTHERS: &str = "\
11 08 00\n\
13 04 00\n\
13 80\n\
12 00\n\
14 00\n\
9100 00";

#[test]
fn nothing_else(rt: HostRuntime) -> Result<(), Fail> {
    assert_shown(&rt, rt.alloc(), Kind::Named, OTHERS)
}

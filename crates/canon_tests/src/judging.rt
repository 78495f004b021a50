//! Records whose canonical bytes are known from outside, and records that no canonical file has there.

use crate::elements::{Plain, name};
use oas_elements::Turns;
use oas_judge::FormJudge;
use std::alloc::Global;

/// A rectangle of layer 1, and one of layer 2.
const FIRST: &[u8] = b"\x14\x7B\x01\x00\x0A\x14\x00\x00";

const SECOND: &[u8] = b"\x14\x7B\x02\x00\x0A\x14\x00\x00";

const PLACEMENT: &[u8] = b"\x11\xB2\x01B\x00\x00";

const TEXT: &[u8] = b"\x13\x5B\x02Hi\x03\x00\x00\x00";

const POLYGON: &[u8] = b"\x15\x3B\x01\x00\x04\x03\x01\x28\x29\x00\x01\x29\x00\x00";

const PATH: &[u8] = b"\x16\xFB\x01\x00\x05\x0F\x0A\x0A\x04\x01\x29\x00\x00\x00";

const CIRCLE: &[u8] = b"\x1B\x3B\x01\x00\x05\x00\x00";

/// Bytes that are not the canonical ones of the rectangle of layer 1.
const OTHERS: [&[u8]; 6] = [
    b"\x14\x7B\x81\x00\x00\x0A\x14\x00\x00",
    b"\x14\x7B\x01\x00\x0A\x14\x01\x00",
    b"\x14\x7A\x00\x0A\x14\x00\x00",
    b"\x14\x7B\x01\x00\x0A\x14\x00",
    b"\x14\x7B\x01\x00\x0A\x14\x00\x00\x00",
    b"",
];

/// Records, each by a word, and whether a judge holds after them.
const ROWS: [(&str, bool); 11] = [
    ("", true),
    ("A placement text first first polygon path circle", true),
    // Names ascend.
    ("A AB B", true),
    ("A A", false),
    ("B AB C", false),
    // Elements ascend in each cell.
    ("A first first second", true),
    ("A second first", false),
    ("A second B first", true),
    ("A second B first circle first", false),
    // The name of the cell is spelled in more bytes than needed.
    ("long-A", false),
    // What has failed stays failed.
    ("refused A first", false),
];

/// Judges the CELL with the name of these letters; these bytes were read. Whether there is one.
fn open(alloc: Global, judge: &mut FormJudge, letters: &[u8], bytes: &[u8]) -> bool {
    let Some(name) = name(alloc, letters) else {
        return false;
    };
    if name.as_bytes().len() > 1 << 30 {
        return false;
    }
    judge.open(name, bytes);
    true
}

/// Judges an element; these bytes were read. Whether there is one.
fn draw(alloc: Global, judge: &mut FormJudge, element: Plain, bytes: &[u8]) -> bool {
    let Some(element) = element.element(alloc) else {
        return false;
    };
    if element.lacks_points() || !element.fits_grid() || element.weight() > 1 << 30 {
        return false;
    }
    judge.draw(element, bytes);
    true
}

/// Judges the record of this word, where `other` is the rectangle of layer 1 with those bytes. Whether there is one.
fn judge_word(alloc: Global, judge: &mut FormJudge, word: &str, other: &[u8]) -> bool {
    match word {
        "A" => open(alloc, judge, b"A", b"\x0E\x01A"),
        "AB" => open(alloc, judge, b"AB", b"\x0E\x02AB"),
        "B" => open(alloc, judge, b"B", b"\x0E\x01B"),
        "C" => open(alloc, judge, b"C", b"\x0E\x01C"),
        "long-A" => open(alloc, judge, b"A", b"\x0E\x81\x00A"),
        "refused" => {
            judge.refuse();
            true
        }
        "other" => draw(alloc, judge, Plain::Rectangle(1), other),
        _ => draw_word(alloc, judge, word),
    }
}

/// Judges the element of this word with its own spelling. Whether there is one.
fn draw_word(alloc: Global, judge: &mut FormJudge, word: &str) -> bool {
    let (element, bytes) = match word {
        "first" => (Plain::Rectangle(1), FIRST),
        "second" => (Plain::Rectangle(2), SECOND),
        "placement" => (Plain::Placement(b"B", (0, 0), Turns::T1, false), PLACEMENT),
        "text" => (Plain::Text(b"Hi", (3, 0), (0, 0)), TEXT),
        "polygon" => (
            Plain::Polygon(&[(0, 0), (0, 20), (10, 20), (10, 0)]),
            POLYGON,
        ),
        "path" => (Plain::Path(5, &[(0, 0), (10, 0)]), PATH),
        "circle" => (Plain::Circle, CIRCLE),
        _ => return false,
    };
    draw(alloc, judge, element, bytes)
}

/// Whether a judge holds after these records; `None` where one of them does not exist.
fn holds(alloc: Global, records: &str, other: &[u8]) -> Option<bool> {
    let mut judge = FormJudge::new();
    let mut are_judged = true;
    for word in records.split_whitespace() {
        are_judged &= judge_word(alloc, &mut judge, word, other);
    }
    are_judged.then_some(judge.holds())
}

/// The first row that doesn't have the given result, and its result.
fn wrong_row<'a>(alloc: Global, rows: &[(&'a str, bool)]) -> Option<(&'a str, Option<bool>)> {
    for (records, wanted) in rows {
        let found = holds(alloc, *records, b"");
        if found != Some(*wanted) {
            return Some((*records, found));
        }
    }
    None
}

#[test]
fn each_row(rt: HostRuntime) {
    assert_eq!(rt; wrong_row(rt.alloc(), &ROWS), None);
}

#[test]
fn other_spellings_fail(rt: HostRuntime) {
    for (row, other) in OTHERS.iter().enumerate() {
        let alone = holds(rt.alloc(), "A other", *other);
        let between = holds(rt.alloc(), "A first other second", *other);
        assert!(rt; [alone, between] == [Some(false); 2], "row {row}");
    }
}

//! Layouts whose bytes are known from outside, into sinks and writers of several kinds.

use crate::elements::{Plain, add_cell};
use crate::narrow::Narrow;
use oas_canon::{Draft, Layout, has_canonical_bytes, put_canonical, write_canonical};
use oas_elements::{Limits, Profile, Turns};
use oas_num::{Counter, Fraction, NotedWriter, Refusal, Why};
use std::alloc::Global;
use test_tools::put_pieces;

/// A layout and its bytes.
#[derive(Clone, Copy)]
struct Row {
    name: &'static str,
    unit: (u64, u64),
    /// The elements of its cell `A` and how often each is in it; `None` where there is no cell.
    elements: Option<&'static [(Plain, u64)]>,
    /// The unit, as START has it, in hex.
    start: &'static str,
    /// What is between START and END, in hex.
    body: &'static str,
    length: u64,
}

/// The last coordinate of the grid.
const END: i64 = 1 << 60;

/// The layout of the cell `A` with one rectangle.
const ONE: Row = Row {
    name: "one rectangle",
    unit: (1000, 1),
    elements: Some(&[(Plain::Rectangle(1), 1)]),
    start: "00E807",
    body: "0E0141147B01000A140000",
    length: 301,
};

const ROWS: [Row; 7] = [
    Row {
        name: "no cell",
        unit: (1000, 1),
        elements: None,
        start: "00E807",
        body: "",
        length: 290,
    },
    Row {
        name: "no cell under a unit of one fifth",
        unit: (2, 10),
        elements: None,
        start: "0205",
        body: "",
        length: 289,
    },
    Row {
        name: "no cell under a unit of three halves",
        unit: (6, 4),
        elements: None,
        start: "040302",
        body: "",
        length: 290,
    },
    ONE,
    Row {
        name: "equal elements are each put",
        unit: (1000, 1),
        elements: Some(&[(Plain::Rectangle(1), 4)]),
        start: "00E807",
        body: "\
            0E0141\
            147B01000A140000\
            147B01000A140000\
            147B01000A140000\
            147B01000A140000",
        length: 325,
    },
    Row {
        name: "each kind has all its fields",
        unit: (1000, 1),
        elements: Some(&[
            (Plain::Circle, 1),
            (Plain::Path(5, &[(0, 0), (10, 0)]), 1),
            (Plain::Polygon(&[(10, 20), (10, 0), (0, 0), (0, 20)]), 1),
            (Plain::Rectangle(1), 1),
            (Plain::Text(b"Hi", (3, 0), (0, 0)), 1),
            (Plain::Placement(b"B", (0, 0), Turns::T3, true), 1),
            (Plain::Placement(b"B", (0, 0), Turns::T1, false), 1),
            (Plain::Rectangle(1), 1),
        ]),
        start: "00E807",
        body: "\
            0E0141\
            11B201420000\
            11B701420000\
            135B02486903000000\
            147B01000A140000\
            147B01000A140000\
            153B010004030128290001290000\
            16FB0100050F0A0A040129000000\
            1B3B0100050000",
        length: 365,
    },
    Row {
        name: "steps are as long as the grid",
        unit: (1000, 1),
        elements: Some(&[
            (Plain::Path(0, &[(END, 0)]), 1),
            (Plain::Polygon(&[(-END, 0), (END, 0), (END, 1)]), 1),
        ]),
        start: "00E807",
        body: "\
            0E0141\
            153B01000402818080808080808080010001028180808080808080\
            2000\
            16FB0100050F000004008080808080808080\
            2000",
        length: 342,
    },
];

impl Row {
    /// The bytes of the layout.
    fn bytes(&self, alloc: Global) -> Option<Vec<u8>> {
        let mut bytes = Vec::new(alloc);
        for piece in ["MAGIC START", self.start, "OFFSETS", self.body, "TAIL"] {
            put_pieces(alloc, &mut bytes, piece).ok()?;
        }
        Some(bytes)
    }

    fn layout(&self, alloc: Global) -> Option<Layout> {
        let unit = Fraction::reduced(self.unit.0, self.unit.1)?;
        let mut draft = Draft::new(alloc, unit, Limits::standard(), Profile::One).ok()?;
        if let Some(elements) = self.elements {
            add_cell(alloc, &mut draft, elements)?;
        }
        draft.seal().ok()
    }
}

/// Whether the layout's bytes are a prefix of these.
fn is_front_of(layout: &Layout, wanted: &[u8]) -> bool {
    match wanted.split_last() {
        Some((_, front)) => has_canonical_bytes(layout, front),
        None => true,
    }
}

/// How many of a layout's bytes are put, counted and written; whether they are the expected ones, as compared and as written;
/// and whether the expected ones without the last are its bytes too.
type Answers = ([u64; 3], [bool; 3]);

/// The result for a layout and the expected bytes.
fn answers(alloc: Global, layout: &Layout, wanted: &[u8]) -> Answers {
    let mut counter = Counter::new();
    let put = put_canonical(layout, &mut counter).unwrap_or(0);
    let mut written = Vec::new(alloc);
    let length = write_canonical(layout, &mut NotedWriter::new(&mut written)).unwrap_or(0);
    let is_written = written.as_slice() == wanted;
    let is_known = has_canonical_bytes(layout, wanted);
    (
        [put, counter.count(), length],
        [is_known, is_written, is_front_of(layout, wanted)],
    )
}

/// The result for a row's layout and bytes.
fn found(alloc: Global, row: &Row) -> Option<Answers> {
    let wanted = row.bytes(alloc)?;
    let layout = row.layout(alloc)?;
    Some(answers(alloc, &layout, wanted.as_slice()))
}

/// The first row that doesn't have the given result, and its result.
fn wrong_row(alloc: Global, rows: &[Row]) -> Option<(&'static str, Option<Answers>)> {
    for row in rows {
        let found = found(alloc, row);
        if found != Some(([row.length; 3], [true, true, false])) {
            return Some((row.name, found));
        }
    }
    None
}

#[test]
fn each_layout_has_its_bytes(rt: HostRuntime) {
    assert_eq!(rt; wrong_row(rt.alloc(), &ROWS), None);
}

/// Writes the layout of one rectangle, and returns where and why that failed.
fn refusal(alloc: Global, writer: &mut Narrow) -> Option<Refusal> {
    let layout = ONE.layout(alloc)?;
    write_canonical(&layout, &mut NotedWriter::new(writer)).err()
}

/// Whether the bytes are the first ones of the layout of one rectangle.
fn are_first(alloc: Global, bytes: &[u8]) -> bool {
    match ONE.bytes(alloc) {
        Some(whole) => whole.starts_with(bytes),
        None => false,
    }
}

/// The result for a writer of this kind that should take the layout of one rectangle: where and why it fails, how many bytes
/// it took, and whether they are the first ones.
fn fault(
    alloc: Global,
    most: usize,
    room: usize,
    fails: bool,
    flushes: bool,
) -> (Option<Refusal>, usize, bool) {
    let mut writer = Narrow {
        took: Vec::new(alloc),
        most,
        room,
        fails,
        flushes,
    };
    let refusal = refusal(alloc, &mut writer);
    let is_front = are_first(alloc, writer.took.as_slice());
    (refusal, writer.took.len(), is_front)
}

/// The result for a writer that fails after this many bytes.
fn fault_behind(room: usize) -> (Option<Refusal>, usize, bool) {
    let refusal = Refusal {
        at: room as u64,
        why: Why::Write,
    };
    (Some(refusal), room, true)
}

#[test]
fn a_fault_comes_with_what_was_taken(rt: HostRuntime) {
    for room in [0, 1, 44, 45, 100, 300] {
        for most in [1, 7, usize::MAX] {
            let full = fault(rt.alloc(), most, room, false, true);
            let failing = fault(rt.alloc(), most, room, true, true);
            assert!(rt; [full, failing] == [fault_behind(room); 2], "by {most}");
        }
    }
}

#[test]
fn a_fault_of_the_flush_comes_after_all(rt: HostRuntime) {
    assert!(rt; fault(rt.alloc(), 9, 301, true, false) == fault_behind(301));
}

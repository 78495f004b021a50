//! The keys of cells: what `sha256sum` prints for the files of one cell each.

use super::{KEY, file_of};
use crate::reading::discard;
use oas_canon::{
    Layout, Limits, NotedWriter, PROFILE, Refusal, SliceSource, Why, cell_key, key, layout_key,
    read_layout, write_cell_keys,
};
use std::alloc::Global;
use std::io;
use std::io::Write;

/// A CELL record: the name `B`.
const B: [u8; 3] = [0x0E, 0x01, 0x42];

/// The keys of the cell `A` with only its rectangle, and of the cell `B` with nothing in it.
const LINES: &str = "\
faa9cb7d21110cae5bde5660c1b56c7b0b00a54880eacf1bfeba45a6cc348d77  A
e548ccba0286fed19248bc56d784a0083342adba183e389cec47947966846bf6  B
";

/// Takes this many bytes, and then fails.
#[derive(Drop)]
struct Narrow {
    took: Vec<u8>,
    room: usize,
}

impl Write for Narrow {
    fn write(&mut self, piece: &[u8]) -> io::Result<usize> {
        let count = self.room.min(piece.len());
        self.took.extend_from_slice(&piece[..count])?;
        self.room -= count;
        Ok(count)
    }

    fn flush(&mut self) -> io::Result<()> {
        Ok(())
    }
}

/// The layout of the file of the head and these bytes.
fn layout_of(alloc: Global, more: &[u8]) -> Option<Layout> {
    let file = file_of(alloc, more)?;
    let mut from = SliceSource::new(&file, 1000);
    read_layout(alloc, &mut from, Limits::standard(), PROFILE).ok()
}

/// Writes the keys of the cells `A` and `B` to a writer with this much room: the result, how many bytes the writer took, and
/// whether they are the first of the lines.
fn written(alloc: Global, room: usize) -> Option<(Result<u64, Refusal>, usize, bool)> {
    let took = Vec::with_capacity(alloc, 256).ok()?;
    let mut out = Narrow { took, room };
    let layout = layout_of(alloc, &B)?;
    let answer = write_cell_keys(&layout, &mut NotedWriter::new(&mut out));
    discard(layout);
    let is_front = LINES.as_bytes().starts_with(out.took.as_slice());
    Some((answer, out.took.len(), is_front))
}

#[test]
fn each_cell_has_its_line(rt: HostRuntime) {
    assert!(rt; written(rt.alloc(), 1000) == Some((Ok(136), 136, true)));
}

/// The key of the only cell of a layout, and that of the layout.
fn only_keys(layout: &Layout) -> Option<[[u8; 32]; 2]> {
    if layout.cell_count() != 1 {
        return None;
    }
    match layout.cells().next() {
        Some((name, elements)) => Some([
            cell_key(layout.unit(), name.as_bytes(), elements),
            layout_key(layout),
        ]),
        None => None,
    }
}

/// The same for the file with only the head.
fn keys_of_its_layout(alloc: Global) -> Option<[[u8; 32]; 2]> {
    let layout = layout_of(alloc, &[])?;
    let keys = only_keys(&layout);
    discard(layout);
    keys
}

/// The key of the file with only the head.
fn file_key(alloc: Global) -> Option<[u8; 32]> {
    let file = file_of(alloc, &[])?;
    key(
        alloc,
        &mut SliceSource::new(&file, 1000),
        Limits::standard(),
    )
    .ok()
}

#[test]
fn a_file_of_one_cell_has_its_key(rt: HostRuntime) {
    let found = (keys_of_its_layout(rt.alloc()), file_key(rt.alloc()));
    assert!(rt; found == (Some([KEY; 2]), Some(KEY)));
}

#[test]
fn a_writer_that_fails(rt: HostRuntime) {
    for room in [0usize, 1, 67, 68, 135] {
        let refusal = Refusal {
            at: room as u64,
            why: Why::Write,
        };
        assert!(rt; written(rt.alloc(), room) == Some((Err(refusal), room, true)));
    }
}

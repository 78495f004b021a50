//! The command `explain`.

mod reasons;

use oas_explain::{Recorded, all_reasons, run_explain};
use oas_num::NotedWriter;
use std::alloc::Global;
use std::io;
use std::io::{ErrorKind, Write};

/// Takes this many bytes, and then fails.
#[derive(Drop)]
struct Room {
    left: usize,
}

impl Write for Room {
    fn write(&mut self, buf: &[u8]) -> io::Result<usize> {
        let count = buf.len().min(self.left);
        if count == 0 && !buf.is_empty() {
            return Err(io::Error::from(ErrorKind::StorageFull));
        }
        self.left -= count;
        Ok(count)
    }

    fn flush(&mut self) -> io::Result<()> {
        Ok(())
    }
}

/// Runs `explain` on a word. Returns its status, and whether it put this text and said this line.
fn explain(alloc: Global, word: &str, text: &str, line: &str) -> (u8, [bool; 2]) {
    let (mut out, mut err): (Vec<u8>, Vec<u8>) = (Vec::new(alloc), Vec::new(alloc));
    let status = run_explain(
        &all_reasons(),
        Some(word),
        &mut NotedWriter::new(&mut out),
        &mut NotedWriter::new(&mut err),
    );
    let is_put = out.as_slice() == text.as_bytes();
    (status, [is_put, err.as_slice() == line.as_bytes()])
}

#[test]
fn one_reason(rt: HostRuntime) {
    let text = "5 EmptyName\n  a cell name has length 0\n  Name the cell.\n";
    for word in ["5", "EmptyName"] {
        assert!(rt;
            explain(rt.alloc(), word, text, "") == (0, [true; 2]),
            "of {word}"
        );
    }
}

#[test]
fn numbers_that_are_none(rt: HostRuntime) {
    let line = "error: no reason has this number or name; `oascanon explain` lists all\n";
    for word in [
        "0",
        "35",
        "05",
        "+5",
        "-1",
        "",
        "five",
        "5 ",
        "emptyname",
        "Empty",
    ] {
        assert!(rt;
            explain(rt.alloc(), word, "", line) == (2, [true; 2]),
            "of {word}"
        );
    }
}

/// Runs `explain` without a word. Returns its status, how many lines it put, and whether it said nothing.
fn explain_all(alloc: Global) -> (u8, usize, bool) {
    let (mut out, mut err): (Vec<u8>, Vec<u8>) = (Vec::new(alloc), Vec::new(alloc));
    let status = run_explain(
        &all_reasons(),
        None,
        &mut NotedWriter::new(&mut out),
        &mut NotedWriter::new(&mut err),
    );
    (status, lines_in(out.as_slice()), err.is_empty())
}

/// How many lines end in these bytes.
fn lines_in(bytes: &[u8]) -> usize {
    let mut count: usize = 0;
    for byte in bytes {
        if *byte == b'\n' {
            count = count.saturating_add(1);
        }
    }
    count
}

#[test]
fn every_reason(rt: HostRuntime) {
    assert!(rt; explain_all(rt.alloc()) == (0, 3 * 47, true));
}

/// Runs `explain` to an output that takes five bytes. Returns its status, and whether it said so and kept the fault.
fn explain_to_five(alloc: Global) -> (u8, [bool; 2]) {
    let mut out = Recorded::new(Room { left: 5 });
    let mut err: Vec<u8> = Vec::new(alloc);
    let status = run_explain(
        &all_reasons(),
        Some("5"),
        &mut out,
        &mut NotedWriter::new(&mut err),
    );
    let is_said = err.as_slice() == "standard output: refused 33 at 5\n".as_bytes();
    let is_kept = matches!(out.fault(), Some(error) if error.kind() == ErrorKind::StorageFull);
    (status, [is_said, is_kept])
}

#[test]
fn an_output_that_fails(rt: HostRuntime) {
    assert!(rt; explain_to_five(rt.alloc()) == (1, [true; 2]));
}

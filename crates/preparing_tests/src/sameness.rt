//! Whether two files are prepared to the same layout.

use crate::devices::Narrow;
use crate::rows::dropping_of;
use oas_num::{INPUT_MAX, NotedWriter, Outlet, SliceSource};
use oas_preparing::{Dropping, Limits, same_telling};
use std::alloc::{AllocError, Global};
use std::process::Abort;
use std::test::Fail;
use test_tools::bytes_of;

/// The rows: a name, what is named to be left out, two files, the status, the output, and what is said of each.
const ROWS: &str = "\
spelled-by-a-number | - | HEAD CELL RECT TAIL | HEAD 0D00 RECT 030141 TAIL | 0 | same | - | -
a-property-of-one | properties | HEAD CELL RECT 1C1401500805 TAIL | HEAD CELL RECT TAIL | 0 | same | left out 1 property | -
properties-of-both | properties | HEAD CELL RECT 1C1401500805 TAIL | HEAD CELL RECT 1C1401500805 1D TAIL | 0 | same | left out 1 property | left out 2 properties
a-trapezoid-with-upright-sides | - | HEAD CELL 19FB01000A140000000000 TAIL | HEAD CELL 147B01000A140000 TAIL | 0 | same | - | -
another-width | - | HEAD CELL RECT TAIL | HEAD CELL 147B01000B140000 TAIL | 3 | different | - | -
once-more | properties | HEAD CELL RECT TAIL | HEAD CELL RECT RECT 1C1401500805 TAIL | 3 | different | - | left out 1 property
another-name | - | HEAD CELL RECT TAIL | HEAD 0E0142 RECT TAIL | 3 | different | - | -
another-unit | - | HEAD CELL RECT TAIL | MAGIC START 00D00F OFFSETS CELL RECT TAIL | 3 | different | - | -
the-first-is-refused | - | HEAD CELL RECT 1C1401500805 TAIL | HEAD CELL 23 TAIL | 1 | - | refused 101 at 45 | -
the-second-is-refused | properties | HEAD CELL RECT 1C1401500805 TAIL | HEAD CELL 23 TAIL | 1 | - | - | refused 12 at 37
";

/// What follows the name in a row.
fn fields_of(row: &str) -> [&str; 7] {
    let mut fields = row.split(" | ").skip(1);
    [
        fields.next().unwrap_or(""),
        fields.next().unwrap_or(""),
        fields.next().unwrap_or(""),
        fields.next().unwrap_or(""),
        fields.next().unwrap_or(""),
        fields.next().unwrap_or(""),
        fields.next().unwrap_or(""),
    ]
}

/// What is said of a file with this name; nothing for `-`.
fn line_of(alloc: Global, name: &str, said: &str) -> Result<String, AllocError> {
    if said == "-" {
        Ok(String::new(alloc))
    } else {
        format!(in alloc; "{name}: {said}\n")
    }
}

/// The status of a comparison, whether its output is this text, and whether its error output is.
fn answer(
    alloc: Global,
    first: &[u8],
    second: &[u8],
    dropping: Dropping,
    output: &[u8],
    lines: &[u8],
) -> (u8, bool, bool) {
    let a = &mut SliceSource::new(first, INPUT_MAX);
    let b = &mut SliceSource::new(second, INPUT_MAX);
    let (mut out, mut err) = (
        Narrow::new(alloc, usize::MAX),
        Narrow::new(alloc, usize::MAX),
    );
    let mut noted = NotedWriter::new(&mut err);
    let mut told = Outlet::new(&mut noted);
    let limits = Limits::standard();
    let status = same_telling(
        alloc,
        "first",
        a,
        "second",
        b,
        &mut NotedWriter::new(&mut out),
        &mut told,
        limits,
        dropping,
    );
    let _ = told.close();
    (
        status,
        out.taken.as_slice() == output,
        err.taken.as_slice() == lines,
    )
}

/// The text of an output; nothing for `-`.
fn output_of(word: &str) -> &'static [u8] {
    match word {
        "same" => b"same\n",
        "different" => b"different\n",
        _ => b"",
    }
}

/// Whether the files of a row have its answer.
fn holds(alloc: Global, row: &str) -> Result<bool, Fail> {
    let [word, first, second, status, output, of_first, of_second] = fields_of(row);
    let (one, other) = (
        line_of(alloc, "first", of_first)?,
        line_of(alloc, "second", of_second)?,
    );
    let lines = format!(in alloc; "{one}{other}")?;
    let (first, second) = (bytes_of(alloc, first)?, bytes_of(alloc, second)?);
    let dropping = dropping_of(word);
    let output = output_of(output);
    let found = answer(alloc, &first, &second, dropping, output, lines.as_bytes());
    Ok(status.parse::<u8>() == Ok(found.0) && found.1 && found.2)
}

#[test]
fn each_row(rt: HostRuntime) -> Result<(), Fail> {
    for row in ROWS.lines() {
        assert!(rt; holds(rt.alloc(), row)?, "{row}");
    }
    Ok(())
}

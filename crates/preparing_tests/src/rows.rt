//! Files through `run_prepare`, over a slice.

use oas_num::{INPUT_MAX, NotedWriter, SliceSource, Source};
use oas_preparing::{Dropping, Limits, run_prepare};
use std::alloc::{AllocError, Global};
use std::process::Abort;
use std::test::Fail;
use test_tools::bytes_of;

/// The rows: a name, what is named to be left out, the file, its result, or `NUMBER@OFFSET` where it is refused, and the line
/// about what was left out.
pub const ROWS: &str = "\
a-file-of-the-profile | - | HEAD CELL RECT TAIL | HEAD CELL RECT TAIL | -
spelled-by-a-number | - | HEAD 0D00 RECT 030141 TAIL | HEAD CELL RECT TAIL | -
nothing-to-leave-out | all | HEAD CELL RECT TAIL | HEAD CELL RECT TAIL | -
a-unit-as-a-float | - | MAGIC START 070000000000408F40 OFFSETS CELL RECT TAIL | HEAD CELL RECT TAIL | -
a-property-that-is-not-named | - | HEAD CELL RECT 1C1401500805 TAIL | 101@45 | -
a-property-under-another-name | layer-names | HEAD CELL RECT 1C1401500805 TAIL | 101@45 | -
a-property | properties | HEAD CELL RECT 1C1401500805 TAIL | HEAD CELL RECT TAIL | 1 property
the-same-twice | properties | HEAD CELL RECT 1C1401500805 1D TAIL | HEAD CELL RECT TAIL | 2 properties
ten-of-them | properties | HEAD CELL RECT 1C1401500805 1D*9 TAIL | HEAD CELL RECT TAIL | 10 properties
a-name-of-properties | properties | HEAD 070150 CELL RECT TAIL | HEAD CELL RECT TAIL | 1 property name
a-name-and-a-string | properties | HEAD 070150 090151 CELL RECT 1C1401500805 TAIL | HEAD CELL RECT TAIL | 1 property, 2 property names
a-name-of-layers | layer-names | HEAD 0B014C0000 CELL RECT TAIL | HEAD CELL RECT TAIL | 1 layer name
names-of-layers | layer-names | HEAD 0B014C0000 0C014C0000 CELL RECT TAIL | HEAD CELL RECT TAIL | 2 layer names
a-name-of-layers-that-is-not-named | properties | HEAD 0B014C0000 CELL RECT TAIL | 102@34 | -
an-extension | extensions | HEAD CELL RECT 20000159 TAIL | HEAD CELL RECT TAIL | 1 extension
a-name-of-extensions | extensions | HEAD 1E000158 CELL RECT TAIL | HEAD CELL RECT TAIL | 1 extension name
an-extension-that-is-not-named | properties | HEAD CELL RECT 20000159 TAIL | 103@45 | -
two-of-each | all | HEAD 070150*2 0B014C0000*2 1E000158*2 CELL RECT 1C1401500805 1D 20000159*2 TAIL | HEAD CELL RECT TAIL | 2 properties, 2 property names, 2 layer names, 2 extensions, 2 extension names
a-name-that-is-left-out-closes-the-cell | properties | HEAD CELL RECT 070150 147B01000A140000 TAIL | 13@48 | -
an-id-that-no-record-has | all | HEAD CELL 23 TAIL | 12@37 | -
nothing-behind-the-head | all | HEAD | 2@34 | -
";

/// What a word names to be left out.
pub fn dropping_of(word: &str) -> Dropping {
    let is_all = word == "all";
    Dropping {
        properties: is_all || word == "properties",
        layer_names: is_all || word == "layer-names",
        extensions: is_all || word == "extensions",
    }
}

/// The name of each file.
pub const NAME: &str = "chip.oas";

/// The status of a run, whether its output is as expected, and whether its line is.
pub type Answer = (u8, bool, bool);

/// The result for a source, apart from an output and a line.
pub fn answer(
    alloc: Global,
    from: &mut impl Source,
    dropping: Dropping,
    output: &[u8],
    line: &str,
) -> Answer {
    let (mut out, mut err): (Vec<u8>, Vec<u8>) = (Vec::new(alloc), Vec::new(alloc));
    let limits = Limits::standard();
    let status = run_prepare(
        alloc,
        NAME,
        from,
        &mut NotedWriter::new(&mut out),
        &mut NotedWriter::new(&mut err),
        limits,
        dropping,
    );
    (
        status.unwrap_or(9),
        out.as_slice() == output,
        err.as_slice() == line.as_bytes(),
    )
}

/// What follows the name in a row: what is left out, the file, its result, and the line.
pub fn fields_of(row: &str) -> [&str; 4] {
    let mut fields = row.split(" | ").skip(1);
    [
        fields.next().unwrap_or(""),
        fields.next().unwrap_or(""),
        fields.next().unwrap_or(""),
        fields.next().unwrap_or(""),
    ]
}

/// The line of a file with this output or refusal in its row, and with this left out.
pub fn line_of(alloc: Global, output: &str, said: &str) -> Result<String, AllocError> {
    match output.split_once('@') {
        Some((number, at)) => format!(in alloc; "{NAME}: refused {number} at {at}\n"),
        None if said == "-" => Ok(String::new(alloc)),
        None => format!(in alloc; "{NAME}: left out {said}\n"),
    }
}

/// The status of a row, and the result for its file. One that is refused has no output.
fn answer_of_row(alloc: Global, row: &str) -> Result<(u8, Answer), Fail> {
    let [word, file, output, said] = fields_of(row);
    let line = line_of(alloc, output, said)?;
    let is_refused = output.contains('@');
    let output = bytes_of(alloc, if is_refused { "" } else { output })?;
    let input = bytes_of(alloc, file)?;
    let from = &mut SliceSource::new(&input, INPUT_MAX);
    let answer = answer(alloc, from, dropping_of(word), &output, &line);
    Ok((u8::from(is_refused), answer))
}

#[test]
fn each_row(rt: HostRuntime) -> Result<(), Fail> {
    for row in ROWS.lines() {
        let (status, answer) = answer_of_row(rt.alloc(), row)?;
        assert!(rt; answer == (status, true, true), "{row}");
    }
    Ok(())
}

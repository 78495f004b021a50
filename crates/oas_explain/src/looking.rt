//! What a refused file looks like from outside.

use std::fs::File;
use std::io::Read;
use std::{fs, io};

/// The system's name for standard input.
const STANDARD_INPUT: &str = "/dev/stdin";

/// How a GDSII file begins: HEADER is a record of six bytes that holds a number of two.
const GDSII: [u8; 4] = [0, 6, 0, 2];

/// How gzip's files begin (RFC 1952, 2.3.1).
const GZIP: [u8; 2] = [0x1F, 0x8B];

/// The magic of OASIS where CR LF became LF.
const LINES: &[u8] = b"%SEMI-OASIS\n";

/// What its first bytes are.
#[derive(Clone, Copy, Debug, PartialEq, Eq)]
pub(crate) enum Format {
    Gdsii,
    Gzip,
    /// OASIS with changed ends of lines.
    Lines,
    Other,
}

/// What was seen of a file.
#[derive(Clone, Copy, Debug, PartialEq, Eq)]
pub(crate) struct Seen {
    /// How many bytes it has, where that is known: for a regular file.
    pub size: Option<u64>,
    pub format: Format,
}

/// Looks at the file with this name, or at standard input. Nothing of a pipe or a device is read.
pub(crate) fn look(rt: &HostRuntime, path: Option<&str>) -> io::Result<Seen> {
    let path = path.unwrap_or(STANDARD_INPUT);
    let found = fs::metadata(rt, path)?;
    if !found.is_file() && !found.is_dir() {
        return Ok(Seen {
            size: None,
            format: Format::Other,
        });
    }
    let mut first = [0; 16];
    let mut file = File::open(rt, path)?;
    file.read(&mut first)?;
    Ok(Seen {
        size: Some(found.len()),
        format: format_of(&first),
    })
}

/// What these first bytes are; a short file is padded with zeros.
fn format_of(first: &[u8]) -> Format {
    if first.starts_with(&GDSII) {
        Format::Gdsii
    } else if first.starts_with(&GZIP) {
        Format::Gzip
    } else if first.starts_with(LINES) {
        Format::Lines
    } else {
        Format::Other
    }
}

//! The polygons and paths without a repetition that are found, compared with what a reader of records returns.

use crate::records::discard;
use oas_num::{INPUT_MAX, SliceSource, Source};
use oas_peek::{peek_path, peek_polygon};
use oas_record::Record;
use std::alloc::Global;
use std::test::Fail;

/// What is looked for.
#[derive(Clone, Copy)]
pub(crate) enum Figure {
    Polygon,
    Path,
}

/// A figure as a debugger prints it after its length, or no text where there is none.
#[derive(Drop)]
struct Told {
    text: String,
    length: usize,
    shortest: bool,
}

/// No figure.
fn untold(alloc: Global) -> Told {
    Told {
        text: String::new(alloc),
        length: 0,
        shortest: false,
    }
}

/// The polygon that is found.
fn polygon_told(alloc: Global, bytes: &[u8]) -> Result<Told, Fail> {
    match peek_polygon(alloc, bytes) {
        Some(ahead) => Ok(Told {
            text: format!(in alloc; "{} {:?}", ahead.length, ahead.polygon)?,
            length: ahead.length,
            shortest: ahead.shortest,
        }),
        None => Ok(untold(alloc)),
    }
}

/// The path that is found.
fn path_told(alloc: Global, bytes: &[u8]) -> Result<Told, Fail> {
    match peek_path(alloc, bytes) {
        Some(ahead) => Ok(Told {
            text: format!(in alloc; "{} {:?}", ahead.length, ahead.path)?,
            length: ahead.length,
            shortest: ahead.shortest,
        }),
        None => Ok(untold(alloc)),
    }
}

/// The record of this many bytes, printed as a figure is, if it is one.
fn text_of(alloc: Global, figure: Figure, record: &Record, length: u64) -> Result<String, Fail> {
    match (figure, record) {
        (Figure::Polygon, Record::Polygon(polygon)) => {
            Ok(format!(in alloc; "{length} {polygon:?}")?)
        }
        (Figure::Path, Record::Path(path)) => Ok(format!(in alloc; "{length} {path:?}")?),
        _ => Ok(String::new(alloc)),
    }
}

/// The figure that a reader returns.
fn read(alloc: Global, figure: Figure, bytes: &[u8]) -> Result<String, Fail> {
    let mut source = SliceSource::new(bytes, INPUT_MAX);
    match Record::read(alloc, &mut source, false) {
        Ok(record) => {
            let text = text_of(alloc, figure, &record, source.at());
            discard(record);
            text
        }
        Err(_refusal) => Ok(String::new(alloc)),
    }
}

/// What a row says about what is found, where a reader returns that text: how many bytes it has, and whether they are in the
/// shortest style; or no text, where both find none; or that it is left to the reader, or unlike what the reader returns.
fn compared(alloc: Global, found: &Told, read: &str) -> Result<String, Fail> {
    let shown = match (found.text.is_empty(), found.text.as_str() == read) {
        (false, true) => format!(in alloc; "{} {}", found.length, found.shortest)?,
        (true, true) => String::new(alloc),
        (true, false) => String::from_str(alloc, "left")?,
        (false, false) => String::from_str(alloc, "unlike")?,
    };
    Ok(shown)
}

/// What a row says about a figure.
pub(crate) fn figure_shown(alloc: Global, figure: Figure, bytes: &[u8]) -> Result<String, Fail> {
    let found = match figure {
        Figure::Polygon => polygon_told(alloc, bytes)?,
        Figure::Path => path_told(alloc, bytes)?,
    };
    let read = read(alloc, figure, bytes)?;
    compared(alloc, &found, &read)
}

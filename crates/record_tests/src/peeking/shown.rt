//! Rows of bytes, and the elements without a repetition that are found there.

use super::figures::{Figure, figure_shown};
use oas_peek::{peek_named, peek_rectangle};
use std::alloc::Global;
use std::process::Abort;
use std::test::Fail;
use test_tools::bytes_of;

/// What is looked for.
#[derive(Clone, Copy)]
pub(crate) enum Kind {
    Rectangle,
    Named,
    Polygon,
    Path,
}

/// The rectangle that is found, as a debugger prints it after its length and whether that is the shortest; or no text.
fn rectangle_shown(alloc: Global, bytes: &[u8]) -> Result<String, Fail> {
    match peek_rectangle(bytes) {
        Some(ahead) => {
            let (length, shortest) = (ahead.length, ahead.shortest);
            Ok(format!(in alloc; "{length} {shortest} {:?}", ahead.rectangle)?)
        }
        None => Ok(String::new(alloc)),
    }
}

/// The placement or the text that is found, printed like the rectangle.
fn named_shown(alloc: Global, bytes: &[u8]) -> Result<String, Fail> {
    match peek_named(bytes) {
        Some(ahead) => {
            let (length, shortest) = (ahead.length, ahead.shortest);
            Ok(format!(in alloc; "{length} {shortest} {:?}", ahead.element)?)
        }
        None => Ok(String::new(alloc)),
    }
}

/// Whether what is found is printed like this.
pub(crate) fn is_shown(
    alloc: Global,
    kind: Kind,
    bytes: &[u8],
    wanted: &str,
) -> Result<bool, Fail> {
    let shown = match kind {
        Kind::Rectangle => rectangle_shown(alloc, bytes)?,
        Kind::Named => named_shown(alloc, bytes)?,
        Kind::Polygon => figure_shown(alloc, Figure::Polygon, bytes)?,
        Kind::Path => figure_shown(alloc, Figure::Path, bytes)?,
    };
    Ok(shown.as_str() == wanted)
}

/// Whether what is found in a row's pieces is printed as the row says after them.
fn is_shown_in(alloc: Global, kind: Kind, row: &str) -> Result<bool, Fail> {
    let (pieces, wanted) = row.split_once(": ").unwrap_or((row, ""));
    let bytes = bytes_of(alloc, pieces)?;
    is_shown(alloc, kind, &bytes, wanted)
}

/// Asserts that what is found in each row's pieces is printed as the row says after them; nothing is found where it says
/// nothing.
pub(crate) fn assert_shown(
    rt: &impl Abort,
    alloc: Global,
    kind: Kind,
    rows: &str,
) -> Result<(), Fail> {
    for row in rows.lines() {
        assert!(rt; is_shown_in(alloc, kind, row)?, "{row}");
    }
    Ok(())
}

/// Asserts that nothing is found where the bytes are cut.
pub(crate) fn assert_nothing_where_cut(
    rt: &impl Abort,
    alloc: Global,
    kind: Kind,
    bytes: &[u8],
) -> Result<(), Fail> {
    for length in 0..bytes.len() {
        let shown = is_shown(alloc, kind, &bytes[..length], "")?;
        assert!(rt; shown, "{length}");
    }
    Ok(())
}

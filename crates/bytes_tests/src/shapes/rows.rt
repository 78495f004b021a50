//! Rows of text that give what is read, and the result.

use oas_num::Why;
use std::alloc::Global;

/// The parts of a row, separated by `|`; missing ones are empty.
pub(crate) fn row_parts(row: &str) -> [&str; 4] {
    let (first, rest) = row.split_once("|").unwrap_or((row, ""));
    let (second, rest) = rest.split_once("|").unwrap_or((rest, ""));
    let (third, fourth) = rest.split_once("|").unwrap_or((rest, ""));
    [first, second, third, fourth]
}

/// The bytes of these numbers.
pub(crate) fn bytes_of(alloc: Global, numbers: &str) -> Result<Vec<u8>, Why> {
    let mut bytes = Vec::new(alloc);
    for word in numbers.split_whitespace() {
        bytes.push(word.parse().unwrap_or(0))?;
    }
    Ok(bytes)
}

/// The coordinates of a point.
pub(crate) fn point(word: &str) -> (i64, i64) {
    let (x, y) = word.split_once(",").unwrap_or(("", ""));
    (x.parse().unwrap_or(i64::MAX), y.parse().unwrap_or(i64::MAX))
}

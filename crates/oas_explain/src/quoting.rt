//! Words of a command to try: names as a shell reads them, and long numbers.

use std::alloc::{AllocError, Global};

/// Whether a shell takes this byte unquoted.
fn is_plain(byte: u8) -> bool {
    byte.is_ascii_alphanumeric() || b"_./+:,@%-".contains(&byte)
}

/// A name after these words, as a shell reads it; nothing for an empty one. None for one that doesn't fit in one line, or if
/// out of memory.
pub(crate) fn quoted(alloc: Global, words: &str, name: &str) -> Option<String> {
    if name.chars().any(|letter| letter.is_control()) {
        return None;
    }
    put_quoted(alloc, words, name).ok()
}

/// Like `quoted`, for a name in one line.
fn put_quoted(alloc: Global, words: &str, name: &str) -> Result<String, AllocError> {
    let mut text = String::new(alloc);
    if name.is_empty() {
        return Ok(text);
    }
    text.push_str(words)?;
    let is_plain = name.bytes().all(is_plain);
    if !is_plain {
        text.push('\'')?;
    }
    // Otherwise it would be an option.
    if name.starts_with('-') {
        text.push_str("./")?;
    }
    put_letters(&mut text, name)?;
    if !is_plain {
        text.push('\'')?;
    }
    Ok(text)
}

/// Puts a name; a single quote in it ends the quotes around it and begins others.
fn put_letters(text: &mut String, name: &str) -> Result<(), AllocError> {
    for letter in name.chars() {
        if letter == '\'' {
            text.push_str("'\\''")?;
        } else {
            text.push(letter)?;
        }
    }
    Ok(())
}

/// A number with a comma before each three digits.
pub(crate) fn grouped(alloc: Global, number: u64) -> Option<String> {
    let digits = format!(in alloc; "{number}").ok()?;
    put_groups(alloc, digits.as_str()).ok()
}

/// These digits, with a comma before each three.
fn put_groups(alloc: Global, digits: &str) -> Result<String, AllocError> {
    let mut text = String::new(alloc);
    let mut left = digits.len();
    for digit in digits.chars() {
        if left % 3 == 0 && left < digits.len() {
            text.push(',')?;
        }
        text.push(digit)?;
        left = left.saturating_sub(1);
    }
    Ok(text)
}

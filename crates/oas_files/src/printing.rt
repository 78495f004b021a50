//! Names as they are printed: each in one line.

use crate::naming::shown_alone;
use std::alloc::{AllocError, Global};

/// A name in one line. One that contains an end of a line is escaped as `sha256sum` does it: `\n`, `\r`, and `\\` for a
/// backslash. Every other name is unchanged, and one that isn't UTF-8 is spelled as by `text_of`.
#[derive(Drop)]
pub enum Printed<'a> {
    Plain(&'a str),
    Escaped(String),
}

impl<'a> Printed<'a> {
    /// The name in one line.
    pub fn new(alloc: Global, name: &'a str) -> Result<Printed<'a>, AllocError> {
        if let Some(shown) = shown_alone(name) {
            return Ok(Printed::Plain(shown));
        }
        if !name.contains('\n') && !name.contains('\r') {
            return Ok(Printed::Plain(name));
        }
        let mut escaped = String::with_capacity(alloc, name.len())?;
        for letter in name.chars() {
            match letter {
                '\n' => escaped.push_str("\\n")?,
                '\r' => escaped.push_str("\\r")?,
                '\\' => escaped.push_str("\\\\")?,
                _ => escaped.push(letter)?,
            }
        }
        Ok(Printed::Escaped(escaped))
    }

    /// Its text.
    pub fn as_str(&self) -> &str {
        match self {
            Printed::Plain(name) => name,
            Printed::Escaped(name) => name.as_str(),
        }
    }

    /// Whether it contained an end of a line.
    pub fn is_escaped(&self) -> bool {
        matches!(self, Printed::Escaped(_))
    }
}

/// The name that was printed like this with the mark of an escaped one; nothing where no name is printed like this.
pub fn unescaped(alloc: Global, shown: &str) -> Result<Option<String>, AllocError> {
    let mut name = String::with_capacity(alloc, shown.len())?;
    let mut letters = shown.chars();
    while let Some(letter) = letters.next() {
        let meant = match letter {
            '\\' => letter_meant(letters.next()),
            _ => Some(letter),
        };
        match meant {
            Some(letter) => name.push(letter)?,
            None => return Ok(None),
        }
    }
    Ok(Some(name))
}

/// The meaning of a letter after a backslash.
fn letter_meant(letter: Option<char>) -> Option<char> {
    match letter? {
        'n' => Some('\n'),
        'r' => Some('\r'),
        '\\' => Some('\\'),
        _ => None,
    }
}

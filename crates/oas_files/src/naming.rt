//! Names of any bytes, as text.
ghost use Rattle.std.specs.Prelude.{◌≡◌, IfOk, IsUtf8, string_bytes};

use std::alloc::{AllocError, Global};

/// The end of the text for a name that isn't UTF-8. No file's name has it.
const MARK: char = '\0';

/// The digits of a byte in hex.
const DIGITS: [char; 16] = [
    '0', '1', '2', '3', '4', '5', '6', '7', '8', '9', 'a', 'b', 'c', 'd', 'e', 'f',
];

/// The text of a name: the name itself where it is UTF-8. Files have only names in UTF-8 here, so for another name it is a
/// text that no file has: each byte that is no printable ASCII character as `\xHH`, a backslash as `\\`, and a mark.
pub fn text_of(alloc: Global, name: &[u8]) -> Result<String, AllocError>
    ensures { IsUtf8 name.now → IfOk result (λ text. string_bytes text ≡ name.now) }
{
    match str::from_utf8(name) {
        Ok(text) => String::from_str(alloc, text),
        Err(_) => escaped(alloc, name),
    }
}

/// The text for a name that isn't UTF-8.
fn escaped(alloc: Global, name: &[u8]) -> Result<String, AllocError> {
    let mut text = String::with_capacity(alloc, name.len())?;
    for byte in name {
        push_escaped(&mut text, *byte)?;
    }
    text.push(MARK)?;
    Ok(text)
}

/// Puts a byte of such a name.
fn push_escaped(text: &mut String, byte: u8) -> Result<(), AllocError> {
    match byte {
        b'\\' => text.push_str("\\\\"),
        b' '..=b'~' => text.push(byte as char),
        _ => {
            text.push_str("\\x")?;
            text.push(DIGITS[(byte >> 4) as usize])?;
            text.push(DIGITS[(byte & 15) as usize])
        }
    }
}

/// The name of a text, as it is printed, where the name isn't UTF-8.
pub fn shown_alone(text: &str) -> Option<&str> {
    text.strip_suffix(MARK)
}

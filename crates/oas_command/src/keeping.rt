//! Lines of saved keys.

/// How many digits a key has.
const DIGITS: usize = 64;

/// A saved key, and the name of its file.
#[derive(Clone, Copy)]
pub struct KeptKey<'a> {
    /// Whether the name is escaped.
    pub is_escaped: bool,
    /// Lower-case hex digits.
    pub digits: &'a [u8],
    pub name: &'a [u8],
}

impl<'a> KeptKey<'a> {
    /// The key and the name in a line without its end, as `key` writes it; nothing where it is no such line.
    pub fn of_line(line: &'a [u8]) -> Option<KeptKey<'a>> {
        let (is_escaped, rest) = match line.strip_prefix(b"\\") {
            Some(rest) => (true, rest),
            None => (false, line),
        };
        let (digits, rest) = rest.split_at_checked(DIGITS)?;
        if !digits.iter().all(is_digit) {
            return None;
        }
        let name = rest.strip_prefix(b"  ")?;
        Some(KeptKey {
            is_escaped,
            digits,
            name,
        })
    }
}

/// Whether it is a lower-case hex digit.
fn is_digit(byte: &u8) -> bool {
    matches!(byte, b'0'..=b'9' | b'a'..=b'f')
}

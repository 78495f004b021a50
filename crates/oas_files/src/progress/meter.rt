//! The lines that say how many bytes were read or written.

use arrayvec::ArrayString;
use std::fmt;
use std::fmt::Write as _;
use std::io::Write;

/// After this many bytes a line is shown again.
pub const STEP: u64 = 64 << 20;

/// The columns of a line that is overwritten: one fewer than a terminal has.
const COLUMNS: usize = 79;

/// Room for a line: its characters have at most four bytes.
const ROOM: usize = 4 * 160;

/// How lines are shown.
#[derive(Clone, Copy, Debug, PartialEq, Eq)]
pub enum Style {
    /// One line, which is overwritten, as on a terminal.
    Over,
    /// Each whole and by itself, as in a log.
    Lines,
}

impl Style {
    /// How many characters of a name are shown.
    fn letters(self) -> usize {
        match self {
            Style::Over => 20,
            Style::Lines => 100,
        }
    }
}

/// What is counted.
#[derive(Clone, Copy)]
pub enum Counted {
    /// Bytes that were read, and of how many where that is known.
    Read { whole: Option<u64> },
    /// Bytes that were written.
    Written,
}

/// Counts the bytes of what has this name, and shows how many there were: at the first, after each `STEP` of them, and when
/// they ended. A fault of the writer that it is shown on changes nothing.
#[derive(Drop)]
pub struct Meter<'a, E> {
    err: E,
    style: Style,
    name: &'a str,
    counted: Counted,
    count: u64,
    /// How many were shown.
    shown: u64,
    /// Whether they ended.
    is_whole: bool,
}

impl<'a, E: Write> Meter<'a, E> {
    /// A meter for bytes that are read, of this many where that is known. It shows that there were none yet.
    pub fn of_read(err: E, style: Style, name: &'a str, whole: Option<u64>) -> Meter<'a, E> {
        let mut meter = Meter::of(err, style, name, Counted::Read { whole });
        meter.show();
        meter
    }

    /// A meter for bytes that are written.
    pub fn of_written(err: E, style: Style, name: &'a str) -> Meter<'a, E> {
        Meter::of(err, style, name, Counted::Written)
    }

    /// A meter for what is counted.
    fn of(err: E, style: Style, name: &'a str, counted: Counted) -> Meter<'a, E> {
        Meter {
            err,
            style,
            name,
            counted,
            count: 0,
            shown: 0,
            is_whole: false,
        }
    }

    /// Counts this many more bytes.
    pub fn add(&mut self, count: usize) {
        self.count = self.count.saturating_add(count as u64);
        if self.count - self.shown.min(self.count) >= STEP {
            self.show();
        }
    }

    /// Shows how many there were, and that what was read is now being sorted.
    pub fn end(&mut self) {
        if !self.is_whole {
            self.is_whole = true;
            self.show();
        }
    }

    /// Removes the line, for other lines.
    pub fn clear(&mut self) {
        if self.style == Style::Over {
            clear(&mut self.err);
        }
    }

    /// Writes the line, all of it at once.
    fn show(&mut self) {
        self.shown = self.count;
        let mut line: ArrayString<ROOM> = ArrayString::new();
        let _ = self.put(&mut line);
        let _ = self.err.write_all(line.as_str().as_bytes());
        let _ = self.err.flush();
    }

    /// Puts the line.
    fn put(&self, line: &mut ArrayString<ROOM>) -> fmt::Result {
        match self.style {
            Style::Over => {
                line.write_str("\r")?;
                self.put_text(line)?;
                let used = line.as_str().chars().count();
                for _ in used..COLUMNS + 1 {
                    line.write_str(" ")?;
                }
                Ok(())
            }
            Style::Lines => {
                self.put_text(line)?;
                line.write_str("\n")
            }
        }
    }

    /// Puts what the line says.
    fn put_text(&self, line: &mut ArrayString<ROOM>) -> fmt::Result {
        put_name(line, self.name, self.style.letters())?;
        let count = self.count;
        match self.counted {
            Counted::Read { whole } => {
                match whole {
                    Some(whole) => {
                        let percent = percent_of(count, whole);
                        write!(line, ": {count} of {whole} bytes read, {percent} %")?;
                    }
                    None => write!(line, ": {count} bytes read")?,
                }
                if self.is_whole {
                    line.write_str(", sorting")
                } else {
                    Ok(())
                }
            }
            Counted::Written => write!(line, ": {count} bytes written"),
        }
    }
}

/// Puts a name, or the last characters of it, this many.
fn put_name(line: &mut ArrayString<ROOM>, name: &str, letters: usize) -> fmt::Result {
    let count = name.chars().count();
    if count > letters {
        line.write_str("..")?;
    }
    for letter in name.chars().skip(count.saturating_sub(letters)) {
        line.write_char(letter)?;
    }
    Ok(())
}

/// What percentage of the whole this many are.
fn percent_of(count: u64, whole: u64) -> u64 {
    if count >= whole {
        return 100;
    }
    (u128::from(count) * 100 / u128::from(whole)) as u64
}

/// Removes a line that a meter may have left.
pub fn clear<E: Write>(err: &mut E) {
    let _ = err.write_all(CLEAR);
    let _ = err.flush();
}

/// What removes the line. It is as long as the line.
const CLEAR: &[u8] =
    b"\r                                                                               \r";

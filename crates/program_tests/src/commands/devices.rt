//! Readers and writers that do what a test asks of them.

use std::io;
use std::io::{ErrorKind, Read, Write};

/// What a reader does after its bytes.
#[derive(Clone, Copy)]
pub enum After {
    /// It ends.
    End,
    /// Each further read fails.
    Fault,
    /// Each further read is interrupted.
    Interruption,
    /// It gives zeros without end.
    Zeros,
}

/// Returns its bytes, at most `most` a call, and then does as `after` says.
#[derive(Drop)]
pub struct Reader<'a> {
    rest: &'a [u8],
    most: usize,
    after: After,
}

impl<'a> Reader<'a> {
    pub fn new(bytes: &'a [u8], most: usize, after: After) -> Reader<'a> {
        Reader {
            rest: bytes,
            most,
            after,
        }
    }
}

impl Read for Reader<'_> {
    fn read(&mut self, buf: &mut [u8]) -> io::Result<usize> {
        if self.rest.is_empty() {
            return match self.after {
                After::End => Ok(0),
                After::Fault => Err(io::Error::from(ErrorKind::Other)),
                After::Interruption => Err(io::Error::from(ErrorKind::Interrupted)),
                After::Zeros => {
                    buf.fill(0);
                    Ok(buf.len())
                }
            };
        }
        let count = self.rest.len().min(self.most).min(buf.len());
        let (now, later) = self.rest.split_at(count);
        buf[..count].copy_from_slice(now);
        self.rest = later;
        Ok(count)
    }
}

/// What a writer does once it has no room.
#[derive(Clone, Copy)]
pub enum Full {
    /// Each further write fails.
    Fault,
    /// Each further write is interrupted.
    Interruption,
    /// Each further write takes nothing.
    Nothing,
}

/// Keeps what it takes, at most `most` bytes a call and `room` in all.
#[derive(Drop)]
pub struct Writer {
    pub taken: Vec<u8>,
    pub most: usize,
    pub room: usize,
    pub full: Full,
    pub flush_fails: bool,
}

impl Writer {
    /// One that takes all.
    pub fn new(taken: Vec<u8>) -> Writer {
        Writer {
            taken,
            most: usize::MAX,
            room: usize::MAX,
            full: Full::Fault,
            flush_fails: false,
        }
    }
}

impl Write for Writer {
    fn write(&mut self, buf: &[u8]) -> io::Result<usize> {
        let count = buf.len().min(self.most).min(self.room);
        if count == 0 && !buf.is_empty() {
            return match self.full {
                Full::Fault => Err(io::Error::from(ErrorKind::Other)),
                Full::Interruption => Err(io::Error::from(ErrorKind::Interrupted)),
                Full::Nothing => Ok(0),
            };
        }
        let (now, _) = buf.split_at(count);
        self.taken.extend_from_slice(now)?;
        self.room -= count;
        Ok(count)
    }

    fn flush(&mut self) -> io::Result<()> {
        if self.flush_fails {
            return Err(io::Error::from(ErrorKind::Other));
        }
        Ok(())
    }
}

//! Readers that fail, and writers that take a fixed number of bytes.

use std::alloc::Global;
use std::io;
use std::io::{ErrorKind, Read, Write};

/// Returns its bytes, and then fails.
#[derive(Drop)]
pub struct Torn<'a> {
    pub rest: &'a [u8],
}

impl Read for Torn<'_> {
    fn read(&mut self, buf: &mut [u8]) -> io::Result<usize> {
        if self.rest.is_empty() {
            return Err(io::Error::from(ErrorKind::Other));
        }
        let count = self.rest.len().min(buf.len());
        let (now, later) = self.rest.split_at(count);
        buf[..count].copy_from_slice(now);
        self.rest = later;
        Ok(count)
    }
}

/// Keeps what it takes, `room` bytes in all, and fails at the next.
#[derive(Drop)]
pub struct Narrow {
    pub taken: Vec<u8>,
    pub room: usize,
}

impl Narrow {
    /// One that took nothing, with this much room.
    pub fn new(alloc: Global, room: usize) -> Narrow {
        Narrow {
            taken: Vec::new(alloc),
            room,
        }
    }
}

impl Write for Narrow {
    fn write(&mut self, buf: &[u8]) -> io::Result<usize> {
        let count = buf.len().min(self.room);
        if count == 0 && !buf.is_empty() {
            return Err(io::Error::from(ErrorKind::Other));
        }
        let (now, _) = buf.split_at(count);
        self.taken.extend_from_slice(now)?;
        self.room -= count;
        Ok(count)
    }

    fn flush(&mut self) -> io::Result<()> {
        Ok(())
    }
}

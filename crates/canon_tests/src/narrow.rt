//! A writer that fails.

use std::alloc::Global;
use std::io::{self, Write};

/// A writer that takes at most `most` bytes a call and `room` in all, and then returns an error, or 0.
#[derive(Drop)]
pub struct Narrow {
    pub took: Vec<u8>,
    pub most: usize,
    pub room: usize,
    pub fails: bool,
    pub flushes: bool,
}

impl Narrow {
    /// A writer that took nothing yet, then fails, and whose flush succeeds.
    pub fn new(alloc: Global, most: usize, room: usize) -> Narrow {
        Narrow {
            took: Vec::new(alloc),
            most,
            room,
            fails: true,
            flushes: true,
        }
    }
}

impl Write for Narrow {
    fn write(&mut self, piece: &[u8]) -> io::Result<usize> {
        let count = self.most.min(self.room).min(piece.len());
        if count == 0 && self.fails {
            return Err(io::Error::from(io::ErrorKind::Other));
        }
        self.took.extend_from_slice(&piece[..count])?;
        self.room -= count;
        Ok(count)
    }

    fn flush(&mut self) -> io::Result<()> {
        if self.flushes {
            Ok(())
        } else {
            Err(io::Error::from(io::ErrorKind::Other))
        }
    }
}

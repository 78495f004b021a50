//! Lists of names and of lines, each ended by one byte: a zero, as `find -print0` prints names, or the end of a line.

use crate::opening::Input;
use std::alloc::Global;
use std::io;
use std::io::{BufRead, BufReader};

/// The items of a list that is being read, each as it is asked for.
#[derive(Drop)]
pub struct Names {
    reader: BufReader<Input>,
    name: Vec<u8>,
    /// What ends each item.
    end: u8,
    /// How many bytes were read.
    taken: u64,
}

impl Names {
    /// The names of an input that was opened, each ended by a zero byte.
    pub fn new(alloc: Global, list: Input) -> io::Result<Names> {
        Names::ended_by(alloc, list, 0)
    }

    /// The items of an input that was opened, each ended by this byte.
    pub fn ended_by(alloc: Global, list: Input, end: u8) -> io::Result<Names> {
        Ok(Names {
            reader: BufReader::new(alloc, list)?,
            name: Vec::new(alloc),
            end,
            taken: 0,
        })
    }

    /// The next item, without the byte that ends it, or nothing at the list's end. The last item may lack that byte.
    pub fn next(&mut self) -> io::Result<Option<&[u8]>> {
        self.name.clear();
        let count = self.reader.read_until(self.end, &mut self.name)?;
        if count == 0 {
            return Ok(None);
        }
        self.taken = self.taken.saturating_add(count as u64);
        if self.name.last() == Some(&self.end) {
            let _ = self.name.pop();
        }
        Ok(Some(self.name.as_slice()))
    }

    /// How many bytes of the list were read.
    pub fn taken(&self) -> u64 {
        self.taken
    }
}

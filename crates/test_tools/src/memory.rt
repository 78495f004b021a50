//! All memory, given back a small piece at a time.
ghost use Rattle.std.specs.Prelude.{◌≡◌};

use std::alloc::{AllocError, Global};

#[cfg(test)]
mod tests;

/// More bytes than any piece of memory has.
const LARGEST: usize = 68_719_476_736;

/// The bytes of the smallest piece.
const SMALLEST: usize = 16;

/// For pieces below this size, each size is asked for: an allocator may keep freed memory apart by its size.
const SMALL: usize = 2048;

/// How many small pieces are kept at most.
const MOST_PIECES: usize = 20_000;

/// How many other pieces are kept.
const MOST_OTHERS: usize = 300_000;

/// The size of one of the rooms that the small pieces are cut from, in bytes. It is below the size from which an allocator gives
/// freed memory back to the system.
const ROOM: usize = 65_536;

/// How many rooms there are. Together they have more bytes than an allocator keeps apart of freed memory by its size.
const ROOMS: usize = 4;

/// Takes pieces of one size until there are none left, or `held` is full.
fn take_pieces(alloc: Global, size: usize, held: &mut Vec<Vec<u8>>) {
    for _ in held.len()..held.capacity() {
        match Vec::with_capacity(alloc, size) {
            Ok(piece) => {
                let _ = held.push(piece);
            }
            Err(AllocError) => break,
        }
    }
}

/// Takes pieces from `most` bytes down to the smallest, until there are none left or `held` is full.
fn fill(alloc: Global, most: usize, held: &mut Vec<Vec<u8>>) {
    let mut size = most;
    for _ in 0..200u32 {
        if size < SMALLEST {
            return;
        }
        take_pieces(alloc, size, held);
        size -= if size > SMALL { size / 2 } else { SMALLEST };
    }
}

/// All memory, kept from the calls that a test makes.
#[derive(Drop)]
pub struct Hoard {
    alloc: Global,
    // The small pieces, which are given back.
    pieces: Vec<Vec<u8>>,
    // All other pieces.
    rest: Vec<Vec<u8>>,
    is_full: bool,
}

impl Hoard {
    /// Takes all memory that there is. It fails where there is too little memory to keep a list of the pieces.
    pub fn new(alloc: Global) -> Result<Hoard, AllocError> {
        let mut pieces = Vec::with_capacity(alloc, MOST_PIECES)?;
        let mut rest = Vec::with_capacity(alloc, MOST_OTHERS)?;
        for _ in 0..ROOMS {
            let _ = pieces.push(Vec::with_capacity(alloc, ROOM)?);
        }
        fill(alloc, LARGEST, &mut rest);
        // The rooms alone are free then: the list that they were in keeps its own memory.
        pieces.clear();
        fill(alloc, SMALLEST, &mut pieces);
        let is_full = Vec::<u8>::with_capacity(alloc, SMALLEST).is_err();
        if !is_full {
            pieces.clear();
        }
        Ok(Hoard {
            alloc,
            pieces,
            rest,
            is_full,
        })
    }

    /// Whether the heap could be filled.
    pub fn is_full(&self) -> bool
        ensures { result ≡ self.now.is_full }
    {
        self.is_full
    }

    /// How many small pieces are left to give back.
    pub fn pieces(&self) -> usize {
        self.pieces.len()
    }

    /// Gives back a small piece, if one is left.
    pub fn give_back(&mut self)
        ensures { self.new.is_full ≡ self.old.is_full }
    {
        let _ = self.pieces.pop();
    }

    /// Takes what was freed since, except the pieces that were given back and are in use.
    pub fn fill_again(&mut self)
        ensures { self.new.is_full ≡ self.old.is_full }
    {
        fill(self.alloc, LARGEST, &mut self.rest);
    }
}

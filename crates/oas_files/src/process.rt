//! The words of the process.

use crate::naming::text_of;
use std::env::{Env, FillError};
use std::io;
use std::io::ErrorKind;

/// How many bytes there is room for in a word at first.
const FIRST_ROOM: usize = 4096;

/// The words of the command line, each of which is a text or denotes a name that is none.
pub fn arguments(rt: &HostRuntime) -> io::Result<Vec<String>> {
    let mut words = Vec::new(rt.alloc());
    let mut room = Vec::new(rt.alloc());
    for place in 0..usize::MAX {
        match read_word(rt, place, &mut room)? {
            Some(count) => words.push(text_of(rt.alloc(), &room[..count.min(room.len())])?)?,
            None => break,
        }
    }
    Ok(words)
}

/// Reads the word at this place into a buffer, which is enlarged until it fits, and returns how many bytes it has; nothing
/// where there is no such word.
fn read_word(rt: &HostRuntime, place: usize, room: &mut Vec<u8>) -> io::Result<Option<usize>> {
    for _ in 0..usize::BITS {
        match rt.arg(place, room.as_mut_slice()) {
            Ok(count) => return Ok(Some(count)),
            Err(FillError::NotPresent) => return Ok(None),
            Err(FillError::TooLong) => {
                room.resize(room.len().saturating_mul(2).max(FIRST_ROOM), 0)?;
            }
        }
    }
    Err(io::Error::from(ErrorKind::OutOfMemory))
}

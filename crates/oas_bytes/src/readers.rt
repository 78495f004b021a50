//! A source over a reader.
ghost use Rattle.std.specs.Prelude.{◌≡◌, IfOk, [], None};
ghost use Rattle.oas_bytes.specs.Readers.{reader_script};
ghost use Rattle.oas_bytes.specs.Script.{Next};

use crate::noted::NotedReader;
use crate::sources::{Source, SourceFault};
use std::alloc::{AllocError, Global};
use std::io::Read;
use std::marker::Model;

/// How a reader's bytes ended.
#[derive(Clone, Copy, Debug, PartialEq, Eq)]
pub enum Ending {
    /// They have not ended.
    Open,
    /// The reader had no more bytes.
    Ended,
    /// The reader failed.
    Failed,
    /// There is a byte after the limit.
    TooLong,
}

/// The bytes of a reader, through a window of 65,536 bytes that `new` reserves.
#[derive(Drop)]
pub struct ReaderSource<R: Read> {
    reader: NotedReader<R>,
    window: Vec<u8>,
    // The next byte's place in the window.
    start: usize,
    // Where the bytes that may be given under the limit end.
    end: usize,
    // Where the reader's bytes end.
    filled: usize,
    // How many bytes were given before those in the window.
    before: u64,
    limit: u64,
    ending: Ending,
}

impl<R: Read> Model for ReaderSource<R> {
    ghost use Rattle.oas_bytes.specs.Readers.{Reading};

    ghost Value = { Reading };

    ghost use Rattle.std.specs.Prelude.{◌+◌, slice_range};
    ghost use Rattle.oas_bytes.specs.Readers.{reader_script, IsSoundReader};

    ghost view = { λ s. record {
      script = reader_script (R.remaining s.reader.reader) s.reader.returned.bytes s.window.items s.start s.filled (s.before + s.start) s.limit s.ending;
      at_hand = slice_range s.window.items s.start s.end;
      returned = s.reader.returned.bytes;
    } };

    ghost invariant = { λ s. IsSoundReader (R.remaining s.reader.reader) s.reader.returned.bytes s.window.items s.start s.end s.filled s.before s.limit s.ending };
}

impl<R: Read + Drop> ReaderSource<R> {
    /// A source of the reader's bytes, which gives at most `limit` of them.
    pub fn new(alloc: Global, reader: R, limit: u64) -> Result<Self, AllocError>
        ensures all { IfOk result (λ s. s.script ≡ reader_script (R.remaining reader) [] [] 0 0 0 limit Ending.Open) }
        ensures none { IfOk result (λ s. s.at_hand ≡ []) }
        ensures uncalled { IfOk result (λ s. s.returned ≡ []) }
    {
        let window = vec![in alloc; 0; 65536]?;
        Ok(ReaderSource {
            reader: NotedReader::new(reader),
            window,
            start: 0,
            end: 0,
            filled: 0,
            before: 0,
            limit,
            ending: Ending::Open,
        })
    }

    /// The next byte or the end, where no byte of the window may be given any more.
    #[cold]
    #[inline(never)]
    fn next_window(&mut self) -> Result<Option<u8>, SourceFault>
        ensures { Next self.old.script result self.new.script }
    {
        match self.ending {
            Ending::Open => {}
            Ending::Ended => return Ok(None),
            Ending::Failed => return Err(SourceFault::Device),
            Ending::TooLong => return Err(SourceFault::TooLong),
        }
        if self.start == self.filled {
            self.before += self.start as u64;
            self.start = 0;
            self.end = 0;
            self.filled = 0;
            match self.reader.read(&mut self.window) {
                Ok(0) => {
                    self.ending = Ending::Ended;
                    return Ok(None);
                }
                Ok(n) => {
                    self.filled = n;
                    self.end = n.min((self.limit - self.before) as usize);
                }
                Err(_) => {
                    self.ending = Ending::Failed;
                    return Err(SourceFault::Device);
                }
            }
        }
        if self.start >= self.end {
            self.ending = Ending::TooLong;
            return Err(SourceFault::TooLong);
        }
        let byte = self.window[self.start];
        self.start += 1;
        Ok(Some(byte))
    }
}

impl<R: Read + Drop> Source for ReaderSource<R> {
    ghost script = { λ s. s.script };

    ghost at_hand = { λ s. s.at_hand };

    #[inline]
    fn next(&mut self) -> Result<Option<u8>, SourceFault> {
        if self.start >= self.end {
            return self.next_window();
        }
        let byte = self.window[self.start];
        self.start += 1;
        Ok(Some(byte))
    }

    fn at(&self) -> u64 {
        // The sum is at most the limit, so it fits; the proof knows this once the sum is read.
        let _limit = self.limit;
        self.before + self.start as u64
    }

    #[inline]
    fn ahead(&self) -> &[u8] {
        &self.window[self.start..self.end]
    }

    #[inline]
    fn skip(&mut self, count: usize) {
        self.start += count;
    }
}

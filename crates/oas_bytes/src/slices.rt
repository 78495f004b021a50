//! A source over a slice.
ghost use Rattle.std.specs.Prelude.{◌≡◌};

use crate::sources::{Source, SourceFault};
use std::marker::Model;

/// The bytes of a slice.
#[derive(Drop)]
pub struct SliceSource<'a> {
    bytes: &'a [u8],
    at: usize,
    limit: u64,
}

impl<'a> Model for SliceSource<'a> {
    ghost use Rattle.oas_bytes.specs.Script.{Script};

    ghost Value = { Script };

    ghost use Rattle.std.specs.Prelude.{◌≤◌, length, min};
    ghost use Rattle.oas_bytes.specs.Script.{slice_script};

    ghost view = { λ s. slice_script s.bytes.now s.limit s.at };

    ghost invariant = { λ s. s.at ≤ min s.limit (length s.bytes.now) };
}

impl<'a> SliceSource<'a> {
    ghost use Rattle.oas_bytes.specs.Script.{slice_script};

    /// A source of these bytes, which gives at most `limit` of them.
    pub fn new(bytes: &'a [u8], limit: u64) -> Self
        ensures { result ≡ slice_script bytes.now limit 0 }
    {
        SliceSource {
            bytes,
            at: 0,
            limit,
        }
    }
}

impl<'a> Source for SliceSource<'a> {
    ghost use Rattle.oas_bytes.specs.Script.{left_of};

    ghost script = { λ s. s };

    ghost at_hand = { λ s. left_of s.rest };

    #[inline]
    fn next(&mut self) -> Result<Option<u8>, SourceFault> {
        if self.at >= self.bytes.len() {
            return Ok(None);
        }
        if self.at as u64 >= self.limit {
            return Err(SourceFault::TooLong);
        }
        let byte = self.bytes[self.at];
        self.at += 1;
        Ok(Some(byte))
    }

    #[inline]
    fn at(&self) -> u64 {
        self.at as u64
    }

    #[inline]
    fn ahead(&self) -> &[u8] {
        let end = self.bytes.len().min(self.limit as usize);
        &self.bytes[self.at..end]
    }

    #[inline]
    fn skip(&mut self, count: usize) {
        self.at += count;
    }
}

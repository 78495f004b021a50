//! A source whose bytes are summed up.
ghost use Rattle.std.specs.Prelude.{◌≡◌, ℕ, List};
ghost use Rattle.oas_bytes.specs.Script.{Consumed};
ghost use Rattle.oas_checksum.specs.Signed.{signed};
ghost use Rattle.oas_checksum.specs.Sums.{AreSums};
ghost use Rattle.oas_checksum.specs.Summing.{IsSummed, IsSummed-prop};

use crate::signing::SignedSums;
use crate::sums::Sums;
use oas_bytes::{Source, SourceFault, Start};
use std::marker::PhantomData;

/// The bytes of a borrowed source, with the sums of those that were taken, except the last four.
#[derive(Drop)]
pub struct SummedSource<'a, S: Source, K: Start> {
    /// The source.
    pub source: &'a mut S,
    /// The sums of the bytes that were taken.
    pub sums: SignedSums,
    /// Where the source was before the first of them.
    pub start: PhantomData<K>,
    ghost summed: { IsSummed K.script K.name source.ghost_name (S.script source.now) sums } by { IsSummed-prop K.script K.name source.ghost_name (S.script source.now) sums },
}

impl<'a, S: Source, K: Start> SummedSource<'a, S, K> {
    /// All bytes that the source will still give. None was taken yet.
    pub fn new(source: &'a mut S) -> Self
        requires named { source.ghost_name ≡ K.name }
        requires starts { S.script source.old ≡ K.script }
        ensures same { result.source.ghost_name ≡ source.entry.ghost_name }
        ensures now { result.source.now ≡ source.old }
    {
        SummedSource {
            source,
            sums: SignedSums::new(),
            start: PhantomData,
        }
    }

    /// The source, and the sums of the bytes that were taken from it, except the last four.
    pub fn finish(self) -> (&'a mut S, Sums)
        ensures same { result.0.ghost_name ≡ K.name }
        ensures now { result.0.now ≡ self.entry.source.now }
        ensures sums { (bytes : List ℕ) → Consumed K.script bytes (S.script result.0.now) → AreSums result.1 (signed bytes) }
    {
        (self.source, self.sums.before())
    }
}

impl<'a, S: Source, K: Start> Source for SummedSource<'a, S, K> {
    ghost script = { λ s. S.script s.source.now };

    ghost at_hand = { λ s. S.at_hand s.source.now };

    fn next(&mut self) -> Result<Option<u8>, SourceFault> {
        let next = self.source.next()?;
        if let Some(byte) = next {
            self.sums.push(byte);
        }
        Ok(next)
    }

    fn at(&self) -> u64 {
        self.source.at()
    }

    fn ahead(&self) -> &[u8] {
        self.source.ahead()
    }

    fn skip(&mut self, count: usize) {
        self.sums.update(&self.source.ahead()[..count]);
        self.source.skip(count);
    }
}

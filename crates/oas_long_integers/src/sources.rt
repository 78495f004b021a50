//! A source whose integers are shortened.
ghost use Rattle.std.specs.Prelude.{◌≡◌};
ghost use Rattle.oas_bytes.specs.declared.readers.Ending.TheVariants.{Open};
ghost use Rattle.oas_long_integers.specs.Shortening.{ending_by, IsShortened, IsShortened-prop};

use crate::places::Place;
use oas_bytes::{Ending, Source, SourceFault};
use std::marker::{Brand, PhantomData};

/// Which source's integers are shortened, where it was before the first byte, and where in an integer that byte is. Each use
/// chooses it.
pub(crate) trait Start {
    ghost use Rattle.oas_bytes.specs.Script.{Script};
    ghost use Rattle.oas_long_integers.specs.declared.places.Place.{Place};
    ghost use base.Fml.{GName};

    ghost script: { Script };

    ghost name: { GName };

    ghost first: { Place };
}

impl Start for Brand {
    ghost use Rattle.std.specs.Prelude.{[]};
    ghost use Rattle.oas_bytes.specs.Script.{slice_script};
    ghost use Rattle.oas_long_integers.specs.declared.places.Place.TheVariants.{Free};

    ghost script = { slice_script [] 0 0 };

    ghost name = { 0 };

    ghost first = { Free };
}

/// How a source ended that returned this.
fn ending_of(fault: SourceFault) -> Ending
    ensures { result ≡ ending_by fault }
{
    match fault {
        SourceFault::Device => Ending::Failed,
        SourceFault::TooLong => Ending::TooLong,
    }
}

/// The bytes of a borrowed source, except the groups of an integer after its tenth.
///
/// A fault of the source below is returned as one of the device. Which fault it was is kept.
#[derive(Drop)]
pub(crate) struct ShortenedSource<'a, S: Source, K: Start> {
    /// The source.
    pub(crate) source: &'a mut S,
    /// Where in an integer the next byte is.
    pub(crate) place: Place,
    /// How many bytes were kept back.
    pub(crate) kept: u64,
    /// How the source ended, if it did.
    pub(crate) ending: Ending,
    /// Where the source was before the first byte.
    pub(crate) start: PhantomData<K>,
    ghost shortened: { IsShortened K.script K.name K.first source.ghost_name (S.script source.now) place kept ending } by { IsShortened-prop K.script K.name K.first source.ghost_name (S.script source.now) place kept ending },
}

impl<'a, S: Source, K: Start> ShortenedSource<'a, S, K> {
    ghost use Rattle.oas_long_integers.specs.Shortening.{short_script, Steps, Counts};

    /// All bytes that the source will still give. None was taken yet.
    pub(crate) fn new(source: &'a mut S, first: Place) -> Self
        requires named { source.ghost_name ≡ K.name }
        requires starts { S.script source.old ≡ K.script }
        requires first { first ≡ K.first }
        ensures same { result.source.ghost_name ≡ source.entry.ghost_name }
        ensures now { result.source.now ≡ source.old }
        ensures place { result.place ≡ first }
        ensures none_kept { result.kept ≡ 0 }
        ensures open { result.ending ≡ Open }
    {
        ShortenedSource {
            source,
            place: first,
            kept: 0,
            ending: Ending::Open,
            start: PhantomData,
        }
    }

    /// Takes a byte of the source: what is given for it, if there is one.
    fn take(&mut self) -> Result<Option<Option<u8>>, SourceFault>
        ensures steps { Steps (short_script K.script K.first (S.script self.old.source.now) self.old.place self.old.kept self.old.ending) result (short_script K.script K.first (S.script self.new.source.now) self.new.place self.new.kept self.new.ending) }
        ensures counts { Counts self.old.kept result self.new.kept }
    {
        match self.source.next() {
            Err(fault) => {
                self.ending = ending_of(fault);
                Err(SourceFault::Device)
            }
            Ok(None) => {
                self.ending = Ending::Ended;
                Ok(None)
            }
            Ok(Some(byte)) => {
                let given = self.place.given_by(byte);
                self.place = self.place.moved(byte);
                if given.is_none() {
                    // The sum is at most how many bytes were given, so it fits; the proof knows this once the sum is read.
                    let _given = self.source.at();
                    self.kept += 1;
                }
                Ok(Some(given))
            }
        }
    }
}

impl<'a, S: Source, K: Start> Source for ShortenedSource<'a, S, K> {
    ghost use Rattle.std.specs.Prelude.{[]};
    ghost use Rattle.oas_long_integers.specs.Shortening.{short_script};

    ghost script = { λ s. short_script K.script K.first (S.script s.source.now) s.place s.kept s.ending };

    // None, since the bytes are made one at a time.
    ghost at_hand = { λ _. [] };

    fn next(&mut self) -> Result<Option<u8>, SourceFault> {
        loop {
            match self.take()? {
                None => return Ok(None),
                Some(Some(byte)) => return Ok(Some(byte)),
                Some(None) => {}
            }
        }
    }

    fn at(&self) -> u64 {
        self.source.at() - self.kept
    }

    fn ahead(&self) -> &[u8] {
        &[]
    }

    fn skip(&mut self, _count: usize) {}
}

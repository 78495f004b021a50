//! Bytes that were kept of a source, and then what it still gives.
ghost use Rattle.std.specs.Prelude.{◌≡◌, false, drop};
ghost use Rattle.oas_num.specs.Script.{Consumed};
ghost use Rattle.oas_judge.specs.Reading.{ReadsLayout};
ghost use Rattle.oas_judge.specs.Parts.{MayWant};
ghost use Rattle.oas_judge.specs.Attempts.{GivesAgain};
ghost use Rattle.oas_judge.specs.Sources.{IsJoined, IsJoined-prop, joined_script, limit_with, hand_of};

use oas_elements::{Limits, Profile};
use oas_num::{Refusal, Source, SourceFault, Why};
use oas_writing::{Layout, read_layout};
use std::alloc::Global;
use std::marker::{Brand, PhantomData};

/// Which bytes were kept, of which source, and where it was before the first of them. Each use chooses it.
pub trait Front {
    ghost use Rattle.std.specs.Prelude.{ℕ, List};
    ghost use Rattle.oas_num.specs.Script.{Script};
    ghost use base.Fml.{GName};

    ghost script: { Script };

    ghost kept: { List ℕ };

    ghost name: { GName };
}

impl Front for Brand {
    ghost use Rattle.std.specs.Prelude.{[]};
    ghost use Rattle.oas_num.specs.Script.{slice_script};

    ghost script = { slice_script [] 0 0 };

    ghost kept = { [] };

    ghost name = { 0 };
}

/// Gives the bytes that were kept of a borrowed source once more, and then what it still gives.
#[derive(Drop)]
pub struct JoinedSource<'a, 'b, S: Source, K: Front> {
    kept: &'b [u8],
    /// How many of these were given.
    at: usize,
    source: &'a mut S,
    /// Whether the source was asked for a byte last.
    asked: bool,
    start: PhantomData<K>,
    ghost joined: { IsJoined K.script K.kept K.name source.ghost_name (S.script source.now) kept.now at asked } by { IsJoined-prop K.script K.kept K.name source.ghost_name (S.script source.now) kept.now at asked },
}

impl<'a, 'b, S: Source, K: Front> JoinedSource<'a, 'b, S, K> {
    /// A source that gives these bytes, which were kept of another one, and then what that still gives.
    pub fn new(kept: &'b [u8], source: &'a mut S) -> Self
        requires named { source.ghost_name ≡ K.name }
        requires kept { kept.now ≡ K.kept }
        requires gave { Consumed K.script kept.now (S.script source.old) }
        ensures gives { joined_script (S.script result.source.now) (drop result.at result.kept.now) result.asked (limit_with K.script result.kept.now)
            ≡ joined_script (S.script source.old) kept.now false (limit_with K.script kept.now) }
        ensures again { GivesAgain K.script (joined_script (S.script result.source.now) (drop result.at result.kept.now) result.asked (limit_with K.script result.kept.now)) }
    {
        JoinedSource {
            kept,
            at: 0,
            source,
            asked: false,
            start: PhantomData,
        }
    }

    /// The source.
    pub fn finish(self) -> &'a mut S
        ensures same { result.ghost_name ≡ K.name }
        ensures now { result.now ≡ self.entry.source.now }
    {
        self.source
    }
}

impl<'a, 'b, S: Source, K: Front> Source for JoinedSource<'a, 'b, S, K> {
    ghost script = { λ j. joined_script (S.script j.source.now) (drop j.at j.kept.now) j.asked (limit_with K.script j.kept.now) };

    ghost at_hand = { λ j. hand_of (drop j.at j.kept.now) (S.at_hand j.source.now) };

    fn next(&mut self) -> Result<Option<u8>, SourceFault> {
        if self.at < self.kept.len() {
            let byte = self.kept[self.at];
            self.at += 1;
            return Ok(Some(byte));
        }
        self.asked = true;
        self.source.next()
    }

    fn at(&self) -> u64 {
        self.source.at() - (self.kept.len() - self.at) as u64
    }

    #[inline]
    fn ahead(&self) -> &[u8] {
        if self.at < self.kept.len() {
            &self.kept[self.at..]
        } else {
            self.source.ahead()
        }
    }

    #[inline]
    fn skip(&mut self, count: usize) {
        if self.at < self.kept.len() {
            self.at += count;
        } else {
            self.asked = false;
            self.source.skip(count);
        }
    }
}

/// Reads the layout of a file from the bytes that were kept of a source, and then from the source. It hands the borrow back,
/// so that its lender knows it as its own.
///
/// If out of memory before all that was kept is read again, the place is `at`: there it might have run out for these bytes.
pub(crate) fn read_joined<'a, S: Source, K: Front>(
    alloc: Global,
    kept: &[u8],
    source: &'a mut S,
    limits: Limits,
    profile: Profile,
    at: u64,
) -> (Result<Layout, Refusal>, &'a mut S)
    requires named { source.ghost_name ≡ K.name }
    requires kept { kept.now ≡ K.kept }
    requires gave { Consumed K.script kept.now (S.script source.old) }
    requires place { MayWant limits K.script at (S.script source.old) }
    ensures same { result.1.ghost_name ≡ source.entry.ghost_name }
    ensures read { ReadsLayout limits profile K.script result.0 (S.script result.1.now) }
{
    let mut joined: JoinedSource<'a, '_, S, K> = JoinedSource::new(kept, source);
    let read = read_layout(alloc, &mut joined, limits, profile);
    let is_left = joined.at < kept.len();
    let source = joined.source;
    if is_left {
        let refusal = Refusal {
            at,
            why: Why::Memory,
        };
        return (Err(refusal), source);
    }
    (read, source)
}

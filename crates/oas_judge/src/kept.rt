//! A source whose bytes are kept.
ghost use Rattle.std.specs.Prelude.{◌≡◌, ◌≤◌, ◌++◌, ◌∷◌, [], List, ℕ, IfSome, IsSomeAnd, option_map};
ghost use Rattle.oas_num.specs.Script.{Script, Consumed, since};
ghost use Rattle.oas_judge.specs.Sources.{IsKept, IsKept-prop};

use oas_num::{Source, SourceFault, Start};
use std::marker::PhantomData;

/// The bytes of a borrowed source, which are kept as they are taken. It gives just what that source gives: where there is no
/// memory to keep them it keeps none any more.
#[derive(Drop)]
pub struct KeptSource<'a, S: Source, K: Start> {
    source: &'a mut S,
    /// All bytes that were taken; None once there was no memory for some of them.
    kept: Option<Vec<u8>>,
    /// The offset of the first of them.
    first: u64,
    start: PhantomData<K>,
    ghost keeps: { IsKept K.script K.name source.ghost_name (S.script source.now) first (option_map (λ bytes. bytes.items) kept) } by { IsKept-prop K.script K.name source.ghost_name (S.script source.now) first (option_map (λ bytes. bytes.items) kept) },
}

/// How many bytes there is room for at first: enough for END, and for most other records.
const ROOM: usize = 512;

/// The same memory with nothing in it, and room for the bytes of most records; None where there is no memory for that.
fn emptied(mut room: Vec<u8>) -> Option<Vec<u8>>
    ensures { IfSome result (λ empty. empty.items ≡ []) }
{
    room.clear();
    room.reserve(ROOM).ok()?;
    Some(room)
}

/// Adds bytes to those that are kept, or keeps none any more where there is no memory for them.
#[inline]
fn keep(kept: &mut Option<Vec<u8>>, more: &[u8])
    ensures { IfSome kept.new (λ after. IsSomeAnd kept.old (λ before. after.items ≡ before.items ++ more.now)) }
{
    let is_full = match kept {
        Some(bytes) => bytes.extend_from_slice(more).is_err(),
        None => false,
    };
    if is_full {
        *kept = None;
    }
}

impl<'a, S: Source, K: Start> KeptSource<'a, S, K> {
    /// Keeps the bytes that a source gives from now on, in this memory, in place of what was there.
    pub fn new(room: Vec<u8>, source: &'a mut S) -> Self
        requires named { source.ghost_name ≡ K.name }
        requires starts { S.script source.old ≡ K.script }
        ensures { S.script result.source.now ≡ K.script }
    {
        let first = source.at();
        KeptSource {
            source,
            kept: emptied(room),
            first,
            start: PhantomData,
        }
    }

    /// The bytes that were taken from an offset on; None where not all are kept.
    pub fn since(&self, at: u64) -> Option<&[u8]>
        requires after { K.script.given ≤ at }
        requires before { at ≤ (S.script self.now.source.now).given }
        ensures { IfSome result (λ bytes. (mid : Script) (more : List ℕ) → at ≡ mid.given → Consumed K.script (since K.script mid) mid → Consumed mid more (S.script self.now.source.now) → bytes.now ≡ more) }
    {
        let kept = self.kept.as_ref()?;
        let from = (at - self.first) as usize;
        Some(&kept[from..])
    }

    /// The source, and all bytes that were taken from it; None where not all are kept.
    pub fn finish(self) -> (&'a mut S, Option<Vec<u8>>)
        ensures same { result.0.ghost_name ≡ K.name }
        ensures now { result.0.now ≡ self.entry.source.now }
        ensures kept { IfSome result.1 (λ bytes. Consumed K.script bytes.items (S.script result.0.now)) }
    {
        (self.source, self.kept)
    }
}

impl<'a, S: Source, K: Start> Source for KeptSource<'a, S, K> {
    ghost script = { λ k. S.script k.source.now };

    ghost at_hand = { λ k. S.at_hand k.source.now };

    fn next(&mut self) -> Result<Option<u8>, SourceFault> {
        let next = self.source.next()?;
        if let Some(byte) = next {
            keep(&mut self.kept, &[byte]);
        }
        Ok(next)
    }

    #[inline]
    fn at(&self) -> u64 {
        self.source.at()
    }

    #[inline]
    fn ahead(&self) -> &[u8] {
        self.source.ahead()
    }

    #[inline]
    fn skip(&mut self, count: usize) {
        keep(&mut self.kept, &self.source.ahead()[..count]);
        self.source.skip(count);
    }
}

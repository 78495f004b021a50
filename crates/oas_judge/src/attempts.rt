//! A source that is read as a canonical file.
ghost use Rattle.std.specs.Prelude.{◌≡◌};
ghost use Rattle.oas_judge.specs.Attempts.{ReadsCanonical};

use crate::given::judge_kept;
use oas_elements::{Limits, Profile};
use oas_num::{Source, Start};
use std::alloc::Global;
use std::marker::Brand;

/// What was taken of a source that was read as a canonical file.
#[derive(Drop)]
pub enum Attempt {
    /// All of it: it is a canonical file, and these are its bytes.
    Canonical(Vec<u8>),
    /// These bytes: it isn't known to be one.
    Taken(Vec<u8>),
}

/// The same as [`read_canonical`], for the source that is named. It hands the borrow back, so that its lender knows it as its
/// own.
fn read_canonical_named<'a, S: Source, K: Start>(
    alloc: Global,
    source: &'a mut S,
    limits: Limits,
    profile: Profile,
) -> (Option<Attempt>, &'a mut S)
    requires named { source.ghost_name ≡ K.name }
    requires starts { S.script source.old ≡ K.script }
    ensures same { result.1.ghost_name ≡ source.entry.ghost_name }
    ensures read { ReadsCanonical limits profile K.script result.0 (S.script result.1.now) }
{
    let (judged, kept, source) = judge_kept::<S, K>(alloc, source, limits, profile);
    let Some(bytes) = kept else {
        return (None, source);
    };
    match judged {
        Ok(verdict) if verdict.canonical => (Some(Attempt::Canonical(bytes)), source),
        _ => (Some(Attempt::Taken(bytes)), source),
    }
}

/// Reads what a source gives as long as it may be an accepted file that is canonical by the profile: up to its end, or up to a
/// record that isn't as in such a file, or isn't accepted. Returns all bytes that were taken; None if out of memory for these.
///
/// Nothing is refused: what isn't canonical is for another reader, of these bytes and then of what the source still gives
/// ([`JoinedSource`](crate::JoinedSource)).
pub fn read_canonical<S: Source>(
    alloc: Global,
    source: &mut S,
    limits: Limits,
    profile: Profile,
) -> Option<Attempt>
    ensures { ReadsCanonical limits profile (S.script source.old) result (S.script source.new) }
{
    let (read, _source) = read_canonical_named::<S, Brand>(alloc, source, limits, profile);
    read
}

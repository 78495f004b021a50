//! A file by its bytes where these are canonical, and by its layout otherwise.
ghost use Rattle.std.specs.Prelude.{◌≡◌, IfSome};
ghost use Rattle.oas_num.specs.Script.{Consumed};
ghost use Rattle.oas_judge.specs.Given.{ReadsGiven, Judges};

use crate::joined::read_joined;
use crate::judge::FileJudge;
use crate::kept::KeptSource;
use crate::parts::{Part, Until, judge_parts};
use oas_elements::{Limits, Profile};
use oas_num::{Refusal, Source, Start, Why};
use oas_writing::{CountedCell, Layout, Reader, find_end_of_input};
use std::alloc::Global;
use std::marker::Brand;

/// An accepted file.
#[derive(Drop)]
pub enum Given {
    /// It is canonical, and these are its bytes.
    Canonical(Vec<u8>),
    /// This is its layout.
    Layout(Layout),
}

/// What was judged of an accepted file or of its first part.
#[derive(Clone, Copy)]
pub(crate) struct Verdict {
    /// Whether it is a whole file, and canonical.
    pub(crate) canonical: bool,
    /// The offset of the record that was read last, or of END.
    pub(crate) at: u64,
}

/// Accepts and judges a file up to its end, or up to a record at which it isn't known to be canonical.
fn judge_front<S: Source>(
    alloc: Global,
    source: &mut S,
    limits: Limits,
    profile: Profile,
) -> Result<Verdict, Refusal>
    ensures { Judges limits profile (S.script source.old) result (S.script source.new) }
{
    let (head, mut judge) = FileJudge::begin(alloc, source, profile)?;
    let mut reader: Reader<CountedCell> = Reader::new(alloc, head.unit, limits, profile);
    let (part, at) = judge_parts(alloc, source, head, &mut reader, &mut judge, Until::Other)?;
    let Part::End(known) = part else {
        return Ok(Verdict {
            canonical: false,
            at,
        });
    };
    find_end_of_input(source)?;
    reader.finish_counting(at)?;
    let canonical = known.unwrap_or(false);
    Ok(Verdict { canonical, at })
}

/// What was judged of a source, the bytes that were taken of it, where there was memory for all of them, and the source. It hands
/// the borrow back, so that its lender knows it as its own.
pub(crate) fn judge_kept<'a, S: Source, K: Start>(
    alloc: Global,
    source: &'a mut S,
    limits: Limits,
    profile: Profile,
) -> (Result<Verdict, Refusal>, Option<Vec<u8>>, &'a mut S)
    requires named { source.ghost_name ≡ K.name }
    requires starts { S.script source.old ≡ K.script }
    ensures same { result.2.ghost_name ≡ K.name }
    ensures judged { Judges limits profile K.script result.0 (S.script result.2.now) }
    ensures kept { IfSome result.1 (λ bytes. Consumed K.script bytes.items (S.script result.2.now)) }
{
    let mut keeping: KeptSource<'a, S, K> = KeptSource::new(Vec::new(alloc), source);
    let judged = judge_front(alloc, &mut keeping, limits, profile);
    let (source, kept) = keeping.finish();
    (judged, kept, source)
}

/// The same as [`read_given`], for the source that is named. It hands the borrow back, so that its lender knows it as its own.
fn read_given_named<'a, S: Source, K: Start>(
    alloc: Global,
    source: &'a mut S,
    limits: Limits,
    profile: Profile,
) -> (Result<Given, Refusal>, &'a mut S)
    requires named { source.ghost_name ≡ K.name }
    requires starts { S.script source.old ≡ K.script }
    ensures same { result.1.ghost_name ≡ source.entry.ghost_name }
    ensures read { ReadsGiven limits profile K.script result.0 (S.script result.1.now) }
{
    let (judged, kept, source) = judge_kept::<S, K>(alloc, source, limits, profile);
    let verdict = match judged {
        Ok(verdict) => verdict,
        Err(refusal) => return (Err(refusal), source),
    };
    let Some(bytes) = kept else {
        let refusal = Refusal {
            at: verdict.at,
            why: Why::Memory,
        };
        return (Err(refusal), source);
    };
    if verdict.canonical {
        return (Ok(Given::Canonical(bytes)), source);
    }
    let (read, source) = read_joined::<S, Brand>(
        alloc, &bytes, source, limits, profile, verdict.at,
    );
    (read.map(Given::Layout), source)
}

/// Reads all that a source gives. Returns the bytes where these are a canonical form by the profile, and otherwise the layout,
/// kept by the profile.
///
/// The file is judged as it is read, and its bytes are kept, until a record isn't as in a canonical file; only then is the
/// layout read, from these bytes and from what the source still gives. A file is refused as
/// [`read_layout`](oas_writing::read_layout) refuses it.
pub fn read_given<S: Source>(
    alloc: Global,
    source: &mut S,
    limits: Limits,
    profile: Profile,
) -> Result<Given, Refusal>
    ensures { ReadsGiven limits profile (S.script source.old) result (S.script source.new) }
{
    let (read, _source) = read_given_named::<S, Brand>(alloc, source, limits, profile);
    read
}

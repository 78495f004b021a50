//! A file that is judged as it is read: a canonical one is what it is prepared to, and isn't read by the standard.
//!
//! Another one is read by the standard from the bytes that were taken, and then from its source.

ghost use Rattle.std.specs.Prelude.{◌≡◌};
ghost use Rattle.oas_num.specs.Script.{Consumed};
ghost use Rattle.oas_preparing.specs.Judged.{OfAgain, OnAgain, ReadsJudged};

use oas_elements::Limits;
use oas_explain::PROFILE;
use oas_num::{Source, Start};
use oas_prepare::{
    Attempt, Dropping, Front, Given, JoinedSource, Rejection, Report, read_canonical, read_prepared,
};
use std::alloc::Global;
use std::marker::Brand;

/// What a file is prepared to and what was left out of it, read by the standard, where these bytes were taken of the source
/// before. It hands the borrow back, so that its lender knows it as its own.
fn read_again<'a, S: Source, J: Front>(
    alloc: Global,
    taken: &[u8],
    from: &'a mut S,
    limits: Limits,
    dropping: Dropping,
) -> (Result<(Given, Report), Rejection>, &'a mut S)
    requires named { from.ghost_name ≡ J.name }
    requires kept { taken.now ≡ J.kept }
    requires gave { Consumed J.script taken.now (S.script from.old) }
    ensures same { result.1.ghost_name ≡ from.entry.ghost_name }
    ensures read { OfAgain J.script (λ again last. ReadsJudged limits dropping again result.0 last) }
{
    let mut again: JoinedSource<'a, '_, S, J> = JoinedSource::new(taken, from);
    let read = read_prepared(alloc, &mut again, limits, PROFILE, dropping);
    let from = again.finish();
    match read {
        Ok((layout, report)) => (Ok((Given::Layout(layout), report)), from),
        Err(rejection) => (Err(rejection), from),
    }
}

/// The same as [`read_judged`], for a source that was at this place.
fn read_judged_from<S: Source, B: Start>(
    alloc: Global,
    from: &mut S,
    limits: Limits,
    dropping: Dropping,
) -> Option<Result<(Given, Report), Rejection>>
    requires { S.script from.old ≡ B.script }
    ensures { OnAgain B.script (λ again read last. ReadsJudged limits dropping again read last) result }
{
    match read_canonical(alloc, from, limits, PROFILE)? {
        Attempt::Canonical(bytes) => Some(Ok((Given::Canonical(bytes), Report::new()))),
        Attempt::Taken(bytes) => {
            let (read, _from) = read_again::<S, Brand>(alloc, &bytes, from, limits, dropping);
            Some(read)
        }
    }
}

/// What a file is prepared to, by its bytes where it is canonical, and otherwise by its layout, and what was left out of it. It is
/// right for a source that gives the bytes that `from` gives. None if out of memory for the bytes that begin as a canonical file.
pub(crate) fn read_judged<S: Source>(
    alloc: Global,
    from: &mut S,
    limits: Limits,
    dropping: Dropping,
) -> Option<Result<(Given, Report), Rejection>>
    ensures { OnAgain (S.script from.old) (λ again read last. ReadsJudged limits dropping again read last) result }
{
    read_judged_from::<S, Brand>(alloc, from, limits, dropping)
}

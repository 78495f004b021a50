//! From a source to a writer: the canonical file of the meaning of a file of the standard.
ghost use Rattle.std.specs.Prelude.{◌≡◌, ◌⊎◌, IfOk, IfErr};
ghost use Rattle.oas_num.specs.declared.refusals.Why.TheVariants.{Write as NotWritten};
ghost use Rattle.oas_narrow.specs.WideWhy.TheVariants.{Profile as ByProfile};
ghost use Rattle.oas_prepare.specs.Reasons.{IsReasoned};
ghost use Rattle.oas_prepare.specs.Run.{IsDone, IsCut, IsStopped, IsPlaced, Exactly};
ghost use Rattle.oas_prepare.specs.Finishing.{Finishes, ReadsPrepared};

use crate::gathering::{Gathered, gather};
use crate::signing::came_whole;
use crate::taking::Preparation;
use oas_canon::{
    ByProfileOne, ByProfileTwo, CompactCell, KeptBy, Layout, finish_layout, write_canonical,
};
use oas_elements::{Limits, Profile};
use oas_narrow::{Dropping, Place, Reader, Rejection, Report, SummedSource, Sums, WideWhy};
use oas_num::{Device, Source, Start};
use std::alloc::Global;
use std::marker::Brand;

/// The layout of all that was gathered, and what was left out. The sums are those of the file's bytes before its signature.
/// It stops at END: with `Checksum` where the signature is another, and then where END refuses its records.
fn finish<P: KeptBy>(
    alloc: Global,
    gathered: Gathered<Reader<CompactCell<P>>>,
    sums: &Sums,
) -> Result<(Layout, Report), Rejection>
    ensures { Finishes P.profile gathered sums.now result }
{
    let Gathered {
        preparation,
        at,
        end,
    } = gathered;
    if !came_whole(end.validation, sums) {
        return Err(Rejection {
            place: Place::File(at),
            why: WideWhy::Checksum,
        });
    }
    let Preparation { reader, report, .. } = preparation;
    let layout = finish_layout(alloc, reader, at)?;
    Ok((layout, report))
}

/// The layout that the profile's records mean to which the records of a file of the standard are translated, and what was left
/// out of it. Only what is named is left out. It stops exactly where [`prepare`] does before it writes, at the same place and
/// for the same reason.
pub fn read_prepared<S: Source>(
    alloc: Global,
    from: &mut S,
    limits: Limits,
    profile: Profile,
    dropping: Dropping,
) -> Result<(Layout, Report), Rejection>
    ensures { ReadsPrepared limits profile dropping (S.script from.old) result (S.script from.new) }
{
    match profile {
        Profile::One => read_kept::<S, ByProfileOne>(alloc, from, limits, dropping),
        Profile::Two => read_kept::<S, ByProfileTwo>(alloc, from, limits, dropping),
    }
}

/// The same, by a profile that is a type.
fn read_kept<S: Source, P: KeptBy>(
    alloc: Global,
    from: &mut S,
    limits: Limits,
    dropping: Dropping,
) -> Result<(Layout, Report), Rejection>
    ensures { ReadsPrepared limits P.profile dropping (S.script from.old) result (S.script from.new) }
{
    let (read, _from) = read_named::<S, P, Brand>(alloc, from, limits, dropping);
    read
}

/// The same, for the source that is named. It hands the borrow back, so that its lender knows it as its own.
fn read_named<'a, S: Source, P: KeptBy, K: Start>(
    alloc: Global,
    from: &'a mut S,
    limits: Limits,
    dropping: Dropping,
) -> (Result<(Layout, Report), Rejection>, &'a mut S)
    requires named { from.ghost_name ≡ K.name }
    requires starts { S.script from.old ≡ K.script }
    ensures same { result.1.ghost_name ≡ from.entry.ghost_name }
    ensures reads { ReadsPrepared limits P.profile dropping (S.script from.old) result.0 (S.script result.1.now) }
{
    let mut summed: SummedSource<'a, S, K> = SummedSource::new(from);
    let outcome = gather(alloc, &mut summed, limits, P::profile(), dropping);
    let (from, sums) = summed.finish();
    let read = match outcome {
        Ok(gathered) => finish::<P>(alloc, gathered, &sums),
        Err(rejection) => Err(rejection),
    };
    (read, from)
}

/// Writes the canonical file of the meaning of a file of the standard, and returns what was left out of it.
///
/// Only what is named is left out. Nothing is written before the whole file was read. After `Why::Write` the writer took the
/// first bytes of the canonical file, as many as the rejection's place says.
pub fn prepare<S: Source, W: Device>(
    alloc: Global,
    from: &mut S,
    to: &mut W,
    limits: Limits,
    profile: Profile,
    dropping: Dropping,
) -> Result<Report, Rejection>
    ensures done { IfOk result (λ report. IsDone limits profile dropping (S.script from.old) (S.script from.new) (W.calls to.old) (W.calls to.new) report) }
    ensures stopped { IfErr result (λ e. (e.why ≡ ByProfile NotWritten) ⊎ IsStopped limits dropping (S.script from.old) e.why (S.script from.new)) }
    ensures placed { IfErr result (λ e. (e.why ≡ ByProfile NotWritten) ⊎ IsPlaced limits dropping (S.script from.old) e (S.script from.new)) }
    ensures reasoned { IfErr result (λ e. (e.why ≡ ByProfile NotWritten) ⊎ IsReasoned limits dropping (S.script from.old) e (S.script from.new)) }
    ensures nothing { IfErr result (λ e. (e.why ≡ ByProfile NotWritten) ⊎ (to.new ≡ to.old)) }
    ensures cut { IfErr result (λ e. e.why ≡ ByProfile NotWritten → IsCut limits profile dropping (S.script from.old) (S.script from.new) (W.calls to.old) (W.calls to.new) e) }
    ensures exactly { Exactly limits dropping (S.script from.old) result (S.script from.new) }
{
    let (layout, report) = read_prepared(alloc, from, limits, profile, dropping)?;
    write_canonical(&layout, to)?;
    Ok(report)
}

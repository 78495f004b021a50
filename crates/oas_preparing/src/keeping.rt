//! A file that is read, with its bytes.

ghost use Rattle.std.specs.Prelude.{◌≡◌, IfOk, IfErr, IfSome};
ghost use Rattle.oas_num.specs.Script.{Consumed};
ghost use Rattle.oas_explain.specs.ProfileConstants.{PROFILE as OfProgram};
ghost use Rattle.oas_prepare.specs.Finishing.{IsReadPrepared};
ghost use Rattle.oas_prepare.specs.Run.{Stops};

use oas_elements::Limits;
use oas_explain::{Layout, PROFILE};
use oas_num::{Source, Start};
use oas_prepare::{Dropping, KeptSource, Rejection, Report, read_prepared};
use std::alloc::Global;
use std::marker::Brand;

/// What [`read_prepared`] returns, by the profile of the program, with all bytes that were taken; None in place of these where
/// there was no memory to keep them, which changes nothing else.
pub(crate) fn read_kept<S: Source>(
    alloc: Global,
    from: &mut S,
    limits: Limits,
    dropping: Dropping,
) -> Result<(Layout, Report, Option<Vec<u8>>), Rejection>
    ensures read { IfOk result (λ read. IsReadPrepared limits OfProgram dropping (S.script from.old) read.0 read.1 (S.script from.new)) }
    ensures kept { IfOk result (λ read. IfSome read.2 (λ bytes. Consumed (S.script from.old) bytes.items (S.script from.new))) }
    ensures stops { IfErr result (λ e. Stops limits dropping (S.script from.old) e (S.script from.new)) }
{
    let (read, _from) = read_named::<S, Brand>(alloc, from, limits, dropping);
    read
}

/// The same, for the source that is named. It hands the borrow back, so that its lender knows it as its own.
fn read_named<'a, S: Source, K: Start>(
    alloc: Global,
    from: &'a mut S,
    limits: Limits,
    dropping: Dropping,
) -> (
    Result<(Layout, Report, Option<Vec<u8>>), Rejection>,
    &'a mut S,
)
    requires named { from.ghost_name ≡ K.name }
    requires starts { S.script from.old ≡ K.script }
    ensures same { result.1.ghost_name ≡ from.entry.ghost_name }
    ensures read { IfOk result.0 (λ read. IsReadPrepared limits OfProgram dropping (S.script from.old) read.0 read.1 (S.script result.1.now)) }
    ensures kept { IfOk result.0 (λ read. IfSome read.2 (λ bytes. Consumed (S.script from.old) bytes.items (S.script result.1.now))) }
    ensures stops { IfErr result.0 (λ e. Stops limits dropping (S.script from.old) e (S.script result.1.now)) }
{
    let mut keeping: KeptSource<'a, S, K> = KeptSource::new(Vec::new(alloc), from);
    let outcome = read_prepared(alloc, &mut keeping, limits, PROFILE, dropping);
    let (source, kept) = keeping.finish();
    let read = match outcome {
        Ok((layout, report)) => Ok((layout, report, kept)),
        Err(rejection) => Err(rejection),
    };
    (read, source)
}

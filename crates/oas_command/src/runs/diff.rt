//! The command `diff`.

ghost use Rattle.std.specs.Prelude.{◌≡◌, Result, IfOk};
ghost use Rattle.oas_num.specs.declared.refusals.Refusal.{Refusal as Refused};
ghost use Rattle.oas_elements.specs.Contents.{Contents};
ghost use Rattle.oas_canon.specs.declared.sameness.Which.{Which as WhichFile};
ghost use Rattle.oas_command.specs.Diff.{ReadsBoth, diff_text, diff_status, length_status};
ghost use Rattle.oas_command.specs.Runs.{Delivers, found_in, blamed, Ends};

use super::ends::{DONE, NO, conclude, refuse};
use oas_canon::{Layout, Limits, PROFILE, Which, read_layout};
use oas_markers::{Options, write_difference};
use oas_num::{Device, Refusal, Sink, Source};
use std::alloc::Global;

/// Writes the difference of the layouts of all that `a` and `b` give within these limits to `out`, as the options say.
/// Returns the status of the command: 0 where what the options compare is the same, so that there is no line, 3 where it
/// differs, or 1 after a refusal, which is named to `told` in a line that begins with the name of the refused file. `a` is read
/// whole before `b` is begun. A fault of `out` is the refusal `Why::Write`, under the name of `a`; a fault of `told` changes
/// nothing.
pub(crate) fn diff_telling<S: Source, T: Source, W: Device, K: Sink>(
    alloc: Global,
    name_a: &str,
    a: &mut S,
    name_b: &str,
    b: &mut T,
    options: Options<'_>,
    out: &mut W,
    told: &mut K,
    limits: Limits,
) -> u8
    ensures { (found : Result (Contents × Contents) (WhichFile × Refused)) × (answer : Result (Contents × Contents) Refused) × (result ≡ diff_status options.entry answer)
        × ReadsBoth T.script limits (S.script a.old) (S.script a.new) b.old b.new found
        × Delivers W.calls (diff_text options.entry) out.old (found_in found) answer out.new
        × Ends K.given K.failures (blamed name_a.now name_b.now found) told.old answer told.new }
{
    match read_both(alloc, a, b, limits) {
        Ok((before, after)) => {
            let written = write_difference(&before, &after, options, out);
            conclude(name_a, written, status_of_length(written), told)
        }
        Err((Which::First, refusal)) => refuse(name_a, refusal, told),
        Err((Which::Second, refusal)) => refuse(name_b, refusal, told),
    }
}

/// The status of a run that wrote a difference of this many bytes.
pub(super) fn status_of_length(written: Result<u64, Refusal>) -> u8
    ensures { IfOk written (λ n. result ≡ length_status n) }
{
    match written {
        Ok(0) | Err(_) => DONE,
        Ok(_) => NO,
    }
}

/// The layouts of two sources. The first is read whole before the second is begun, and where it is refused nothing of the
/// second is read.
pub(super) fn read_both<S: Source, T: Source>(
    alloc: Global,
    a: &mut S,
    b: &mut T,
    limits: Limits,
) -> Result<(Layout, Layout), (Which, Refusal)>
    ensures { ReadsBoth T.script limits (S.script a.old) (S.script a.new) b.old b.new result }
{
    let before = match read_layout(alloc, a, limits, PROFILE) {
        Ok(layout) => layout,
        Err(refusal) => return Err((Which::First, refusal)),
    };
    match read_layout(alloc, b, limits, PROFILE) {
        Ok(after) => Ok((before, after)),
        Err(refusal) => Err((Which::Second, refusal)),
    }
}

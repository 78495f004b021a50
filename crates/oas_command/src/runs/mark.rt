//! The command `diff`, with markers.

ghost use Rattle.std.specs.Prelude.{◌≡◌, Result};
ghost use Rattle.oas_num.specs.declared.refusals.Refusal.{Refusal as Refused};
ghost use Rattle.oas_elements.specs.Contents.{Contents};
ghost use Rattle.oas_canon.specs.declared.sameness.Which.{Which as WhichFile};
ghost use Rattle.oas_command.specs.Diff.{ReadsBoth, diff_text, diff_status};
ghost use Rattle.oas_command.specs.Marking.{Marks, blamed_marking};
ghost use Rattle.oas_command.specs.Runs.{Delivers, found_in, Ends};

use super::diff::{read_both, status_of_length};
use super::ends::{conclude, refuse};
use oas_canon::{Limits, Which};
use oas_markers::{Options, write_difference, write_markers};
use oas_num::{Device, Sink, Source};
use std::alloc::Global;

/// Writes the difference of two layouts to `out` as `diff_telling` does, and after that the markers of what the options
/// compare to `markers`, at most this many, whatever else the options say. The status is that of `diff_telling`, or 1 where
/// `markers` failed: that is the refusal `Why::Write`, under the markers' own name. Where an input is refused, or `out`
/// failed, `markers` is given nothing.
pub fn marking_telling<S: Source, T: Source, W: Device, M: Device, K: Sink>(
    alloc: Global,
    name_a: &str,
    a: &mut S,
    name_b: &str,
    b: &mut T,
    options: Options<'_>,
    out: &mut W,
    name_of_markers: &str,
    markers: &mut M,
    most: u64,
    told: &mut K,
    limits: Limits,
) -> u8
    ensures { (found : Result (Contents × Contents) (WhichFile × Refused)) × (lines : Result (Contents × Contents) Refused) × (last : Result (Contents × Contents) Refused)
        × (result ≡ diff_status options.entry last)
        × ReadsBoth T.script limits (S.script a.old) (S.script a.new) b.old b.new found
        × Delivers W.calls (diff_text options.entry) out.old (found_in found) lines out.new
        × Marks options.entry most M.calls markers.old lines last markers.new
        × Ends K.given K.failures (blamed_marking name_a.now name_b.now name_of_markers.now found lines) told.old last told.new }
{
    match read_both(alloc, a, b, limits) {
        Ok((before, after)) => match write_difference(&before, &after, options, out) {
            Ok(length) => {
                let marked = write_markers(&before, &after, options.choice, most, markers);
                conclude(name_of_markers, marked, status_of_length(Ok(length)), told)
            }
            Err(refusal) => refuse(name_a, refusal, told),
        },
        Err((Which::First, refusal)) => refuse(name_a, refusal, told),
        Err((Which::Second, refusal)) => refuse(name_b, refusal, told),
    }
}

//! The command `show`.

ghost use Rattle.std.specs.Prelude.{◌≡◌, Result};
ghost use Rattle.oas_num.specs.declared.refusals.Refusal.{Refusal as Refused};
ghost use Rattle.oas_elements.specs.Contents.{Contents, meaning_of};
ghost use Rattle.oas_canon.specs.Reading.{ReadsLayout};
ghost use Rattle.oas_canon.specs.Listing.{listing};
ghost use Rattle.oas_command.specs.Runs.{status_of, Delivers, Ends};

use super::ends::{DONE, conclude, refuse};
use oas_canon::{Limits, PROFILE, read_layout, write_listing};
use oas_num::{Device, Sink, Source};
use std::alloc::Global;

/// Writes the listing of the layout of all that `from` gives within these limits to `out`. Returns the status of the command:
/// 0, or 1 after a refusal, which is named to `told` in a line that begins with `name`. A fault of `out` is the refusal
/// `Why::Write`; a fault of `told` changes nothing.
pub(crate) fn show_telling<S: Source, W: Device, K: Sink>(
    alloc: Global,
    name: &str,
    from: &mut S,
    out: &mut W,
    told: &mut K,
    limits: Limits,
) -> u8
    ensures { (found : Result Contents Refused) × (answer : Result Contents Refused) × (result ≡ status_of answer)
        × ReadsLayout limits PROFILE (S.script from.old) found (S.script from.new)
        × Delivers W.calls (λ l. listing (meaning_of l)) out.old found answer out.new
        × Ends K.given K.failures name.now told.old answer told.new }
{
    match read_layout(alloc, from, limits, PROFILE) {
        Ok(layout) => {
            let written = write_listing(&layout, out);
            conclude(name, written, DONE, told)
        }
        Err(refusal) => refuse(name, refusal, told),
    }
}

//! The head of a file of the standard.
ghost use Rattle.std.specs.Prelude.{◌≡◌};
ghost use Rattle.oas_narrow.specs.WideWhy.TheVariants.{Profile};
ghost use Rattle.oas_prepare.specs.Places.{at_file};
ghost use Rattle.oas_prepare.specs.Heads.{ReadsWideHead};

use crate::units::unit_of;
use oas_narrow::{Place, Rejection, WideStart, WideWhy};
use oas_num::{Fraction, Source, Why};
use oas_record::read_magic;
use std::alloc::Global;

/// The offset of START.
const START_AT: u64 = 13;

/// A rejection by the profile at an offset of the file.
fn rejected(at: u64, why: Why) -> Rejection
    ensures { result ≡ at_file at (Profile why) }
{
    Rejection {
        place: Place::File(at),
        why: WideWhy::Profile(why),
    }
}

/// Reads the magic and START, and returns START and the unit as the profile has it. It stops at 0 for the magic, and at 13
/// for START; there with `FloatReal` where the unit is a fraction with a part that isn't below 2^64.
pub(crate) fn read_wide_head<S: Source>(
    alloc: Global,
    source: &mut S,
) -> Result<(WideStart, Fraction), Rejection>
    ensures { ReadsWideHead (S.script source.old) result (S.script source.new) }
{
    if let Err(why) = read_magic(source) {
        return Err(rejected(0, why));
    }
    let head = match WideStart::read(alloc, source) {
        Ok(head) => head,
        Err(why) => return Err(rejected(START_AT, why)),
    };
    match unit_of(head.unit) {
        Some(unit) => Ok((head, unit)),
        None => Err(rejected(START_AT, Why::FloatReal)),
    }
}

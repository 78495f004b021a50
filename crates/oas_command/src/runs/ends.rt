//! How a run ends.

ghost use Rattle.std.specs.Prelude.{◌≡◌, ◌≢◌, ◌⊎◌, Ok};
ghost use Rattle.oas_num.specs.Refusals.{number_of};
ghost use Rattle.oas_command.specs.Lines.{refusal_line};
ghost use Rattle.oas_command.specs.Runs.{status_after, verdict_status, Tells, Ends, Says};

use crate::messages::put_refusal;
use oas_num::{Device, Outlet, Refusal, Sink};

/// The status of a run that did what was asked.
pub(super) const DONE: u8 = 0;

/// The status of a run that refused its input.
const REFUSED: u8 = 1;

/// The status of a run with the result no.
pub(super) const NO: u8 = 3;

/// The status of a run with the result yes or no.
pub fn status_of_verdict(yes: bool) -> u8
    ensures { result ≡ verdict_status (Ok yes) }
{
    if yes { DONE } else { NO }
}

/// The status of two runs together: 1 where one of them was refused, else 3 where the result of one is no.
pub fn worse(a: u8, b: u8) -> u8
    ensures refused { (a ≡ 1) ⊎ (b ≡ 1) → result ≡ 1 }
    ensures no { a ≢ 1 → b ≢ 1 → (a ≡ 3) ⊎ (b ≡ 3) → result ≡ 3 }
    ensures done { a ≡ 0 → b ≡ 0 → result ≡ 0 }
{
    if a == REFUSED || b == REFUSED {
        REFUSED
    } else if a == NO || b == NO {
        NO
    } else {
        a
    }
}

/// Names a refusal, and returns its status.
pub(super) fn refuse<K: Sink>(name: &str, refusal: Refusal, told: &mut K) -> u8
    ensures status { result ≡ 1 }
    ensures tells { Tells K.given K.failures told.old (refusal_line name.now (number_of refusal.why) refusal.at) told.new }
{
    let _ = put_refusal(told, name, refusal);
    REFUSED
}

/// Ends a run whose result should be written, and has this status where it was. Where it wasn't, the refusal is named.
pub(super) fn conclude<K: Sink>(
    name: &str,
    written: Result<u64, Refusal>,
    status: u8,
    told: &mut K,
) -> u8
    ensures answers { result ≡ status_after status written }
    ensures ends { Ends K.given K.failures name.now told.old written told.new }
{
    match written {
        Ok(_) => status,
        Err(refusal) => refuse(name, refusal, told),
    }
}

/// Ends a run that could not begin: names the refusal on `err`, and returns its status.
pub fn run_refused<E: Device>(name: &str, refusal: Refusal, err: &mut E) -> u8
    ensures status { result ≡ 1 }
    ensures tells { Says (E.calls err.old)
        (refusal_line name.now (number_of refusal.why) refusal.at) (E.calls err.new) }
{
    let mut told = Outlet::new(err);
    let status = refuse(name, refusal, &mut told);
    let _ = told.close();
    status
}

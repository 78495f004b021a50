//! How a run ends.

ghost use Rattle.std.specs.Prelude.{◌≡◌};
ghost use Rattle.oas_preparing.specs.Answers.{answered};
ghost use Rattle.oas_explain.specs.Runs.{Tells};
ghost use Rattle.oas_preparing.specs.Lines.{rejection_line};
ghost use Rattle.oas_preparing.specs.Runs.{status_of, Ends};

use crate::lines::{put_rejection, put_report};
use oas_num::{Refusal, Sink};
use oas_prepare::{Rejection, Report};

/// The status of a run that did what was asked.
const DONE: u8 = 0;

/// The status of a run that refused its input.
const REFUSED: u8 = 1;

/// What was left out of a file whose answer was written, or why that was not.
pub(crate) fn answered(report: Report, written: Result<u64, Refusal>) -> Result<Report, Rejection>
    ensures { result ≡ answered report written }
{
    match written {
        Ok(_) => Ok(report),
        Err(refusal) => Err(Rejection::from(refusal)),
    }
}

/// Ends a run: names what was left out, or the rejection, and returns its status.
pub(crate) fn conclude<K: Sink>(name: &str, answer: Result<Report, Rejection>, told: &mut K) -> u8
    ensures answers { result ≡ status_of answer }
    ensures ends { Ends K.given K.failures name.now told.old answer told.new }
{
    match answer {
        Ok(report) => {
            let _ = put_report(told, name, report);
            DONE
        }
        Err(rejection) => reject(name, rejection, told),
    }
}

/// Names a rejection, and returns its status.
pub(crate) fn reject<K: Sink>(name: &str, rejection: Rejection, told: &mut K) -> u8
    ensures status { result ≡ 1 }
    ensures tells { Tells K.given K.failures told.old (rejection_line name.now rejection) told.new }
{
    let _ = put_rejection(told, name, rejection);
    REFUSED
}

//! The command `explain`.

ghost use Rattle.std.specs.Prelude.{◌≡◌, ◌↔◌, None, IfSome, IsNone, IsTrue, OnOk, OnErr, Result};
ghost use Rattle.oas_num.specs.Devices.{TakesAll};
ghost use Rattle.oas_num.specs.Outlets.{IsGiven, IsSent, failures_of};
ghost use Rattle.oas_num.specs.Writing.{Writes};
ghost use Rattle.oas_command.specs.Runs.{BreaksOff};
ghost use Rattle.oas_explain.specs.Texts.{reasons_text, Names, IsCalled, IsOfNone, AreExplained, Explains};

use crate::texts::put_reasons;
use itoa::Buffer;
use oas_command::{run_refused, write_line};
use oas_num::{Device, Outlet, Reason, Refusal, Sink, SinkFault, Why};

/// The status of a run that did what was asked.
const DONE: u8 = 0;

/// The status of a word that is no reason's number or name.
const MISUSED: u8 = 2;

/// The message for such a word.
const NO_REASON: &[u8] = b"error: no reason has this number or name; `oascanon explain` lists all";

/// The output's name in messages.
const OUTPUT: &str = "standard output";

/// Writes the reason with the number or name of the word, or all of them without one, to `out`, and returns the status of the
/// command: 0; 1 where `out` failed; 2 where no reason has that number or name. Each of the last two is said on `err`.
pub fn run_explain<W: Device, E: Device>(
    reasons: &[Reason<'_>],
    word: Option<&str>,
    out: &mut W,
    err: &mut E,
) -> u8
    ensures { Explains W.calls reasons.now word.entry out.old result out.new }
{
    let Some(word) = word else {
        return explain(reasons, out, err);
    };
    match find(reasons, word) {
        Some(reason) => explain(&[*reason], out, err),
        None => {
            let _ = write_line(err, NO_REASON);
            MISUSED
        }
    }
}

/// Writes these reasons, and returns the status.
fn explain<W: Device, E: Device>(reasons: &[Reason<'_>], out: &mut W, err: &mut E) -> u8
    ensures { AreExplained W.calls reasons.now out.old result out.new }
{
    match write_reasons(reasons, out) {
        Ok(()) => DONE,
        Err(at) => {
            let why = Why::Write;
            run_refused(OUTPUT, Refusal { at, why }, err)
        }
    }
}

/// Writes these reasons. Where the writer fails it returns how many bytes it took.
fn write_reasons<W: Device>(reasons: &[Reason<'_>], out: &mut W) -> Result<(), u64>
    ensures written { OnOk result (TakesAll (W.calls out.old) (reasons_text reasons.now) (W.calls out.new)) }
    ensures cut_off { OnErr result (BreaksOff (W.calls out.old) (reasons_text reasons.now) (W.calls out.new)) }
{
    let mut outlet = Outlet::new(out);
    match put_and_close(reasons, &mut outlet) {
        Ok(()) => Ok(()),
        Err(_) => Err(outlet.taken()),
    }
}

/// Puts these reasons into an outlet, and sends all of it to the writer.
fn put_and_close<W: Device>(
    reasons: &[Reason<'_>],
    outlet: &mut Outlet<'_, W>,
) -> Result<(), SinkFault>
    ensures writes { Writes (IsGiven W.calls) failures_of outlet.old (reasons_text reasons.now) result outlet.new }
    ensures all { OnOk result (IsSent outlet.new) }
{
    put_reasons(outlet, reasons)?;
    outlet.close()
}

/// The reason with the number or name of a word.
fn find<'a>(reasons: &'a [Reason<'a>], word: &str) -> Option<&'a Reason<'a>>
    ensures found { IfSome result (λ reason. IsCalled reasons.now word.now reason.now) }
    ensures none { IsNone result → IsOfNone reasons.now word.now }
{
    for reason in reasons {
        if is_called(reason, word) {
            return Some(reason);
        }
    }
    None
}

/// Whether a word is the reason's number, or its name.
fn is_called(reason: &Reason<'_>, word: &str) -> bool
    ensures { IsTrue result ↔ Names word.now reason.now }
{
    let mut number = Buffer::new();
    number.format(reason.number) == word || reason.name == word
}

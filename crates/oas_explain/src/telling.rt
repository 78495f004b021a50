//! Telling what a run said on its error output, and explaining it.

ghost use Rattle.std.specs.Prelude.{◌≡◌, ℕ, List, [], ◌++◌, slice_get};
ghost use Rattle.oas_num.specs.Refusals.{number_of};
ghost use Rattle.oas_num.specs.Writing.{Writes};
ghost use Rattle.oas_command.specs.Runs.{Says, Tells};
ghost use Rattle.oas_explain.specs.Telling.{explanation, explanation_for, place_of, IsExplanation};

use crate::hearing::number_recognized;
use crate::texts::put_explanation;
use oas_num::{Device, Outlet, Reason, Sink, SinkFault, Why};

/// Writes what a run said to `err`. A fault of `err` changes nothing.
pub(crate) fn tell<E: Device>(said: &[u8], err: &mut E)
    ensures { Says (E.calls err.old) said.now (E.calls err.new) }
{
    let mut told = Outlet::new(err);
    told_plainly(said, &mut told);
    let _ = told.close();
}

/// Like `tell`, with a sink.
fn told_plainly<K: Sink>(said: &[u8], told: &mut K)
    ensures { Tells K.given K.failures told.old said.now told.new }
{
    let _ = told.put_all(said);
}

/// Like `tell`, and after the line of a refusal comes a line `  = NAME: MEANING` of its reason, with these words at its end,
/// one `  = REMEDY`, and this advice, each line of which begins with the end of the one before.
pub fn print_explained<E: Device>(
    reasons: &[Reason<'_>],
    words: &str,
    advice: &str,
    said: &[u8],
    err: &mut E,
)
    ensures { (text : List ℕ) × IsExplanation reasons.now words.now advice.now said.now text
        × Says (E.calls err.old) (said.now ++ text) (E.calls err.new) }
{
    let mut told = Outlet::new(err);
    told_explained(reasons, words, advice, said, &mut told);
    let _ = told.close();
}

/// Like `print_explained`, with a sink.
fn told_explained<K: Sink>(
    reasons: &[Reason<'_>],
    words: &str,
    advice: &str,
    said: &[u8],
    told: &mut K,
)
    ensures { (text : List ℕ) × IsExplanation reasons.now words.now advice.now said.now text
        × Tells K.given K.failures told.old (said.now ++ text) told.new }
{
    let _ = put_explained(reasons, words, advice, said, told);
}

/// Puts what a run said, and what explains it.
fn put_explained<K: Sink>(
    reasons: &[Reason<'_>],
    words: &str,
    advice: &str,
    said: &[u8],
    told: &mut K,
) -> Result<(), SinkFault>
    ensures { (text : List ℕ) × IsExplanation reasons.now words.now advice.now said.now text
        × Writes K.given K.failures told.old (said.now ++ text) result told.new }
{
    let number = number_recognized(said);
    told.put_all(said)?;
    put_named(told, reasons, number, words, advice)
}

/// Puts what explains the reason with this number, where there was one.
fn put_named<K: Sink>(
    told: &mut K,
    reasons: &[Reason<'_>],
    number: Option<u8>,
    words: &str,
    advice: &str,
) -> Result<(), SinkFault>
    ensures { Writes K.given K.failures told.old (explanation_for reasons.now words.now advice.now number) result told.new }
{
    let Some(number) = number else {
        return Ok(());
    };
    match reasons.get(place_of(number)) {
        Some(reason) => put_explanation(told, reason, words, advice),
        None => Ok(()),
    }
}

/// The place of the reason with this number: 1 to 34, and after these 101 and those that follow it.
fn place_of(number: u8) -> usize
    ensures { result ≡ place_of number }
{
    match number {
        0..=34 => number.saturating_sub(1) as usize,
        35..=100 => usize::from(u8::MAX),
        _ => (number - 67) as usize,
    }
}

/// Explains a reason in a line `  = NAME: MEANING` and one `  = REMEDY`. A fault of `err` changes nothing.
pub(crate) fn explain_reason<E: Device>(reasons: &[Reason<'_>], why: Why, err: &mut E)
    ensures { Says (E.calls err.old)
        (explanation [] [] (slice_get reasons.now (place_of (number_of why)))) (E.calls err.new) }
{
    let mut told = Outlet::new(err);
    told_reason(reasons, why, &mut told);
    let _ = told.close();
}

/// Like `explain_reason`, with a sink.
fn told_reason<K: Sink>(reasons: &[Reason<'_>], why: Why, told: &mut K)
    ensures { Tells K.given K.failures told.old (explanation [] [] (slice_get reasons.now (place_of (number_of why)))) told.new }
{
    if let Some(reason) = reasons.get(place_of(why.number())) {
        let _ = put_explanation(told, reason, "", "");
    }
}

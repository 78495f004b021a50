//! Putting the texts in which reasons are explained.

ghost use Rattle.std.specs.Prelude.{flat_map};
ghost use Rattle.oas_num.specs.Writing.{Writes};
ghost use Rattle.oas_explain.specs.Texts.{reason_text, reasons_text, explaining_lines};

use itoa::Buffer;
use oas_num::{Reason, Sink, SinkFault};

/// Puts pieces one after another.
fn put_pieces<K: Sink>(sink: &mut K, pieces: &[&[u8]]) -> Result<(), SinkFault>
    ensures { Writes K.given K.failures sink.old (flat_map (λ piece. piece.now) pieces.now) result sink.new }
{
    for piece in pieces {
        sink.put_all(piece)?;
    }
    Ok(())
}

/// Puts a reason: its number and name in a line, and a line each for its meaning and its remedy.
fn put_reason<K: Sink>(sink: &mut K, reason: &Reason<'_>) -> Result<(), SinkFault>
    ensures { Writes K.given K.failures sink.old (reason_text reason.now) result sink.new }
{
    let mut number = Buffer::new();
    let pieces = [
        number.format(reason.number).as_bytes(),
        b" ",
        reason.name.as_bytes(),
        b"\n  ",
        reason.meaning.as_bytes(),
        b"\n  ",
        reason.remedy.as_bytes(),
        b"\n",
    ];
    put_pieces(sink, &pieces)
}

/// Puts several reasons, in their order.
pub(crate) fn put_reasons<K: Sink>(sink: &mut K, reasons: &[Reason<'_>]) -> Result<(), SinkFault>
    ensures { Writes K.given K.failures sink.old (reasons_text reasons.now) result sink.new }
{
    for reason in reasons {
        put_reason(sink, reason)?;
    }
    Ok(())
}

/// Puts the lines that explain a refusal: the name of its reason and when that is given, with these words; its remedy; and
/// this advice, each line of which begins with the end of the one before.
pub(crate) fn put_explanation<K: Sink>(
    sink: &mut K,
    reason: &Reason<'_>,
    words: &str,
    advice: &str,
) -> Result<(), SinkFault>
    ensures { Writes K.given K.failures sink.old (explaining_lines words.now advice.now reason.now) result sink.new }
{
    let pieces = [
        b"  = ",
        reason.name.as_bytes(),
        b": ",
        reason.meaning.as_bytes(),
        words.as_bytes(),
        b"\n  = ",
        reason.remedy.as_bytes(),
        advice.as_bytes(),
        b"\n",
    ];
    put_pieces(sink, &pieces)
}

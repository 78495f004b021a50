//! The lines of the error output.

ghost use Rattle.std.specs.Prelude.{◌≡◌, ◌++◌, flat_map};
ghost use Rattle.oas_num.specs.Writing.{Writes};
ghost use Rattle.oas_prepare.specs.Dropping.{nothing_left_out};
ghost use Rattle.oas_preparing.specs.Lines.{phrase, phrases, listed, report_line, rejection_line};

use crate::kinds::{KINDS, left_out, name_for};
use itoa::Buffer;
use oas_num::{Sink, SinkFault};
use oas_prepare::{Extra, Place, Rejection, Report};

/// Puts pieces one after another.
fn put_pieces<K: Sink>(told: &mut K, pieces: &[&[u8]]) -> Result<(), SinkFault>
    ensures { Writes K.given K.failures told.old (flat_map (λ piece. piece.now) pieces.now) result told.new }
{
    for piece in pieces {
        told.put_all(piece)?;
    }
    Ok(())
}

/// Puts the line that says how many records of each kind were left out, or nothing where none was.
pub fn put_report<K: Sink>(told: &mut K, name: &str, report: Report) -> Result<(), SinkFault>
    ensures puts { Writes K.given K.failures told.old (report_line name.now report) result told.new }
    ensures quiet { report ≡ nothing_left_out → told.new ≡ told.old }
{
    if report == Report::new() {
        return Ok(());
    }
    put_pieces(told, &[name.as_bytes(), b": left out "])?;
    put_phrases(told, report, &KINDS)?;
    told.put_all(b"\n")
}

/// Puts the phrases of those of these kinds of which some were left out, with a comma between two.
fn put_phrases<K: Sink>(told: &mut K, report: Report, kinds: &[Extra]) -> Result<(), SinkFault>
    ensures { Writes K.given K.failures told.old (listed (phrases report kinds.now)) result told.new }
{
    let mut between: &[u8] = b"";
    for kind in kinds {
        let number = left_out(report, *kind);
        if number > 0 {
            put_phrase(told, between, number, name_for(number, *kind))?;
            between = b", ";
        }
    }
    Ok(())
}

/// Puts how many there are with this name, after a separator.
fn put_phrase<K: Sink>(
    told: &mut K,
    between: &[u8],
    number: u64,
    name: &str,
) -> Result<(), SinkFault>
    ensures { Writes K.given K.failures told.old (between.now ++ phrase number name.now) result told.new }
{
    let mut digits = Buffer::new();
    let pieces = [
        between,
        digits.format(number).as_bytes(),
        b" ",
        name.as_bytes(),
    ];
    put_pieces(told, &pieces)
}

/// Puts the line of a rejection: the input's name, the number of the reason, and the place.
pub fn put_rejection<K: Sink>(
    told: &mut K,
    name: &str,
    rejection: Rejection,
) -> Result<(), SinkFault>
    ensures { Writes K.given K.failures told.old (rejection_line name.now rejection) result told.new }
{
    let (mut number, mut first, mut second) = (Buffer::new(), Buffer::new(), Buffer::new());
    let number = number.format(rejection.why.number()).as_bytes();
    let name = name.as_bytes();
    match rejection.place {
        Place::File(at) => {
            let at = first.format(at).as_bytes();
            put_pieces(told, &[name, b": refused ", number, b" at ", at, b"\n"])
        }
        Place::Block { block, within } => {
            let block = first.format(block).as_bytes();
            let within = second.format(within).as_bytes();
            put_pieces(
                told,
                &[
                    name,
                    b": refused ",
                    number,
                    b" at ",
                    block,
                    b"+",
                    within,
                    b"\n",
                ],
            )
        }
    }
}

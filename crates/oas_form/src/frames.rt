//! What is put around elements: the magic and START, the CELL of each cell, and END.

ghost use Rattle.std.specs.Prelude.{◌∷◌, ◌+◌, ◌≤◌, length, IfOk};
ghost use Rattle.oas_num.specs.Writing.{shortest};
ghost use Rattle.oas_form.specs.Bytes.{unit_bytes, head_bytes, opening_bytes, end_bytes};
ghost use Rattle.oas_form.specs.Putting.{Counts};

use crate::parts::{put_bytes, put_number, put_string};
use oas_num::{Sink, SinkFault};

/// The magic, the id of START, and the version string `1.0`.
const START: [u8; 18] = *b"%SEMI-OASIS\r\n\x01\x031.0";

/// The offset-flag 0, and twelve table-offsets of 0.
const OFFSETS: [u8; 13] = [0; 13];

/// The id of CELL by its name.
const CELL: [u8; 1] = [14];

/// The id of END, and the length of its padding.
const END: [u8; 3] = [0x02, 0xFC, 0x01];

/// The padding of END, and the validation-scheme 0.
const PADDING: [u8; 253] = [0; 253];

/// The types of a unit's real: a whole number, one over a number, and a fraction of two.
const WHOLE: u8 = 0;

const RECIPROCAL: u8 = 2;

const RATIO: u8 = 4;

/// Puts the type of a real, and its first part.
fn put_part<K: Sink>(sink: &mut K, kind: u8, part: u64) -> Result<u64, SinkFault>
    ensures counts { Counts K.given K.failures sink.old (kind ∷ shortest part) result sink.new }
    ensures short { IfOk result (λ n. n ≤ 11) }
{
    let front = put_bytes(sink, &[kind])?;
    let number = put_number(sink, part)?;
    Ok(front + number)
}

/// Puts the unit, a fraction in lowest terms.
fn put_unit<K: Sink>(sink: &mut K, num: u64, den: u64) -> Result<u64, SinkFault>
    ensures counts { Counts K.given K.failures sink.old (unit_bytes (record { num = num; den = den })) result sink.new }
    ensures short { IfOk result (λ n. n ≤ 21) }
{
    if den == 1 {
        return put_part(sink, WHOLE, num);
    }
    if num == 1 {
        return put_part(sink, RECIPROCAL, den);
    }
    let upper = put_part(sink, RATIO, num)?;
    let lower = put_number(sink, den)?;
    Ok(upper + lower)
}

/// Puts the magic and START.
pub fn put_head<K: Sink>(sink: &mut K, num: u64, den: u64) -> Result<u64, SinkFault>
    ensures counts { Counts K.given K.failures sink.old (head_bytes (record { num = num; den = den })) result sink.new }
    ensures short { IfOk result (λ n. n ≤ 52) }
{
    let front = put_bytes(sink, &START)?;
    let spelled = put_unit(sink, num, den)?;
    let offsets = put_bytes(sink, &OFFSETS)?;
    Ok(front + spelled + offsets)
}

/// Puts a CELL record by name.
pub fn put_opening<K: Sink>(sink: &mut K, name: &[u8]) -> Result<u64, SinkFault>
    ensures counts { Counts K.given K.failures sink.old (opening_bytes name.now) result sink.new }
    ensures short { IfOk result (λ n. n ≤ 11 + length name.now) }
{
    let id = put_bytes(sink, &CELL)?;
    let string = put_string(sink, name)?;
    Ok(id + string)
}

/// Puts END: 252 zeros of padding, and no signature.
pub fn put_end<K: Sink>(sink: &mut K) -> Result<u64, SinkFault>
    ensures counts { Counts K.given K.failures sink.old end_bytes result sink.new }
    ensures short { IfOk result (λ n. n ≤ 256) }
{
    let front = put_bytes(sink, &END)?;
    let padding = put_bytes(sink, &PADDING)?;
    Ok(front + padding)
}

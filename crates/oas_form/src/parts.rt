//! The parts of records, put and counted.

ghost use Rattle.std.specs.Prelude.{◌≡◌, ◌+◌, ◌%◌, ◌≤◌, ◌^◌, length, nat_abs, true, IfOk};
ghost use Rattle.oas_num.specs.Style.{code};
ghost use Rattle.oas_num.specs.Writing.{shortest, shortest_signed};
ghost use Rattle.oas_elements.specs.Grid.{is_coordinate};
ghost use Rattle.oas_form.specs.Bytes.{string_bytes, place_bytes};
ghost use Rattle.oas_form.specs.Putting.{Counts};

use oas_num::{Sink, SinkFault};

/// The number that spells a signed one: the sign in its lowest bit, the magnitude above it.
pub(crate) fn coded(value: i64) -> u64
    requires { nat_abs value ≤ 2 ^ 61 }
    ensures { result ≡ code value }
{
    let magnitude = 2 * value.unsigned_abs();
    if value < 0 { magnitude + 1 } else { magnitude }
}

/// Puts bytes unchanged, and returns how many.
pub fn put_bytes<K: Sink>(sink: &mut K, bytes: &[u8]) -> Result<u64, SinkFault>
    ensures { Counts K.given K.failures sink.old bytes.now result sink.new }
{
    sink.put_all(bytes)?;
    Ok(bytes.len() as u64)
}

/// The least numbers of two, three, four and five bytes.
const TWO_BYTES: u64 = 1 << 7;

const THREE_BYTES: u64 = 1 << 14;

const FOUR_BYTES: u64 = 1 << 21;

const FIVE_BYTES: u64 = 1 << 28;

/// The lowest seven bits of a number, as a byte that others follow.
#[inline(always)]
fn lowest(value: u64) -> u8
    ensures { result ≡ value % 128 + 128 }
{
    (value % 128) as u8 + 128
}

/// Puts a number of any length, one byte after another.
#[cold]
#[inline(never)]
fn put_long<K: Sink>(sink: &mut K, value: u64) -> Result<u64, SinkFault>
    ensures counts { Counts K.given K.failures sink.old (shortest value) result sink.new }
    ensures short { IfOk result (λ n. n ≤ 10) }
{
    let mut rest = value;
    let mut count = 0;
    while rest >= 128 {
        sink.put(lowest(rest))?;
        rest /= 128;
        count += 1;
    }
    sink.put(rest as u8)?;
    Ok(count + 1)
}

/// Puts a number, seven bits a byte, the lowest first, and returns how many bytes these are. Those of up to four bytes, as
/// most are, go into the sink at once.
#[inline(always)]
pub fn put_number<K: Sink>(sink: &mut K, value: u64) -> Result<u64, SinkFault>
    ensures counts { Counts K.given K.failures sink.old (shortest value) result sink.new }
    ensures short { IfOk result (λ n. n ≤ 10) }
{
    if value < TWO_BYTES {
        sink.put(value as u8)?;
        return Ok(1);
    }
    let second = value / 128;
    if value < THREE_BYTES {
        sink.put_two(lowest(value), second as u8)?;
        return Ok(2);
    }
    let third = second / 128;
    if value < FOUR_BYTES {
        sink.put_three(lowest(value), lowest(second), third as u8)?;
        return Ok(3);
    }
    let fourth = third / 128;
    if value < FIVE_BYTES {
        sink.put_four(lowest(value), lowest(second), lowest(third), fourth as u8)?;
        return Ok(4);
    }
    put_long(sink, value)
}

/// Puts a coordinate or an extension, and returns its length.
pub fn put_coordinate<K: Sink>(sink: &mut K, value: i64) -> Result<u64, SinkFault>
    requires { is_coordinate value ≡ true }
    ensures counts { Counts K.given K.failures sink.old (shortest_signed value) result sink.new }
    ensures short { IfOk result (λ n. n ≤ 10) }
{
    put_number(sink, coded(value))
}

/// Puts x and y, and returns their length. It is inlined in the records' functions, each of which ends with it.
#[inline(always)]
pub fn put_place<K: Sink>(sink: &mut K, x: i64, y: i64) -> Result<u64, SinkFault>
    requires x { is_coordinate x ≡ true }
    requires y { is_coordinate y ≡ true }
    ensures counts { Counts K.given K.failures sink.old (place_bytes x y) result sink.new }
    ensures short { IfOk result (λ n. n ≤ 20) }
{
    let across = put_coordinate(sink, x)?;
    let up = put_coordinate(sink, y)?;
    Ok(across + up)
}

/// Puts a string: its length, and its bytes.
pub(crate) fn put_string<K: Sink>(sink: &mut K, text: &[u8]) -> Result<u64, SinkFault>
    ensures counts { Counts K.given K.failures sink.old (string_bytes text.now) result sink.new }
    ensures short { IfOk result (λ n. n ≤ 10 + length text.now) }
{
    let size = put_number(sink, text.len() as u64)?;
    let bytes = put_bytes(sink, text)?;
    Ok(size + bytes)
}

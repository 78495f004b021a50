//! Numbers and steps, in their shortest spelling.
ghost use Rattle.std.specs.Prelude.{◌≡◌, ◌+◌, ◌^◌, ◌<◌, length, nat_abs};
ghost use Rattle.oas_num.specs.Writing.{Writes, shortest, shortest_signed, shortest_gdelta};
ghost use Rattle.oas_num.specs.Style.{code};

use oas_bytes::{Sink, SinkFault};

/// Puts the shortest spelling of a number (SEMI P39, Integers).
pub fn put_unsigned<K: Sink>(sink: &mut K, value: u64) -> Result<(), SinkFault>
    ensures { Writes K.given K.failures sink.old (shortest value) result sink.new }
{
    let mut rest = value;
    while rest >= 128 {
        sink.put((rest % 128) as u8 + 128)?;
        rest /= 128;
    }
    sink.put(rest as u8)
}

/// How many bytes the shortest spelling of a number has.
pub fn unsigned_len(value: u64) -> u64
    ensures { result ≡ length (shortest value) }
{
    let mut left = value;
    let mut count = 1;
    while left >= 128 {
        left /= 128;
        count += 1;
    }
    count
}

/// The number that spells a signed number: the sign in its lowest bit, the magnitude above it.
fn coded(value: i64) -> u64
    requires { nat_abs value < 2 ^ 63 }
    ensures { result ≡ code value }
{
    let magnitude = 2 * value.unsigned_abs();
    if value < 0 { magnitude + 1 } else { magnitude }
}

/// Puts the shortest spelling of a signed number (SEMI P39, Integers). A number with magnitude 2^63 has none.
pub fn put_signed<K: Sink>(sink: &mut K, value: i64) -> Result<(), SinkFault>
    requires { nat_abs value < 2 ^ 63 }
    ensures { Writes K.given K.failures sink.old (shortest_signed value) result sink.new }
{
    put_unsigned(sink, coded(value))
}

/// Puts the shortest spelling of a g-delta in its second form, which gives both of its parts (SEMI P39, Deltas). Parts with
/// larger magnitudes have none.
pub fn put_gdelta<K: Sink>(sink: &mut K, dx: i64, dy: i64) -> Result<(), SinkFault>
    requires dx { nat_abs dx < 2 ^ 62 }
    requires dy { nat_abs dy < 2 ^ 63 }
    ensures { Writes K.given K.failures sink.old (shortest_gdelta dx dy) result sink.new }
{
    put_unsigned(sink, 2 * coded(dx) + 1)?;
    put_unsigned(sink, coded(dy))
}

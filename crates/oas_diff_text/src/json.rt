//! Strings of JSON.

ghost use Rattle.oas_num.specs.Writing.{Writes};
ghost use Rattle.oas_diff_text.specs.Fields.{escape, escaped, quoted};

use oas_num::{Sink, SinkFault};

/// Puts a byte of a string.
fn put_escape<K: Sink>(sink: &mut K, byte: u8) -> Result<(), SinkFault>
    ensures { Writes K.given K.failures sink.old (escape byte) result sink.new }
{
    if byte == b'"' {
        sink.put_all(b"\\\"")
    } else if byte == b'\\' {
        sink.put_all(b"\\\\")
    } else {
        sink.put(byte)
    }
}

/// Puts the bytes of a string.
fn put_escaped<K: Sink>(sink: &mut K, bytes: &[u8]) -> Result<(), SinkFault>
    ensures { Writes K.given K.failures sink.old (escaped bytes.now) result sink.new }
{
    for byte in bytes {
        put_escape(sink, *byte)?;
    }
    Ok(())
}

/// Puts a string, between its quotes.
pub(crate) fn put_quoted<K: Sink>(sink: &mut K, bytes: &[u8]) -> Result<(), SinkFault>
    ensures { Writes K.given K.failures sink.old (quoted bytes.now) result sink.new }
{
    sink.put(b'"')?;
    put_escaped(sink, bytes)?;
    sink.put(b'"')
}

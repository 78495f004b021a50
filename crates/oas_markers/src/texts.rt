//! Names and strings in XML.

ghost use Rattle.oas_num.specs.Writing.{Writes};
ghost use Rattle.oas_markers.specs.Texts.{escape, escaped, quote, quoted};

use oas_num::{Sink, SinkFault};

/// Puts a byte of a text in XML.
fn put_escape<K: Sink>(sink: &mut K, byte: u8) -> Result<(), SinkFault>
    ensures { Writes K.given K.failures sink.old (escape byte) result sink.new }
{
    if byte == b'&' {
        sink.put_all(b"&amp;")
    } else if byte == b'<' {
        sink.put_all(b"&lt;")
    } else if byte == b'>' {
        sink.put_all(b"&gt;")
    } else {
        sink.put(byte)
    }
}

/// Puts a text in XML.
pub(crate) fn put_escaped<K: Sink>(sink: &mut K, bytes: &[u8]) -> Result<(), SinkFault>
    ensures { Writes K.given K.failures sink.old (escaped bytes.now) result sink.new }
{
    for byte in bytes {
        put_escape(sink, *byte)?;
    }
    Ok(())
}

/// Puts a byte of a string between quotes in XML.
fn put_quote<K: Sink>(sink: &mut K, byte: u8) -> Result<(), SinkFault>
    ensures { Writes K.given K.failures sink.old (quote byte) result sink.new }
{
    if byte == b'\'' {
        sink.put_all(b"\\'")
    } else if byte == b'\\' {
        sink.put_all(b"\\\\")
    } else {
        put_escape(sink, byte)
    }
}

/// Puts a string between quotes in XML.
pub(crate) fn put_quoted<K: Sink>(sink: &mut K, bytes: &[u8]) -> Result<(), SinkFault>
    ensures { Writes K.given K.failures sink.old (quoted bytes.now) result sink.new }
{
    for byte in bytes {
        put_quote(sink, *byte)?;
    }
    Ok(())
}

//! A cell's key and its name, in a line.
ghost use Rattle.std.specs.Prelude.{◌≡◌};
ghost use Rattle.hex.specs.Hex.{encode_lower};
ghost use Rattle.oas_num.specs.Writing.{Writes};
ghost use Rattle.oas_canon.specs.CellKeys.{named_key};

use hex::encode_to_slice;
use oas_num::{Sink, SinkFault};

/// The hex digits of a key.
fn hex_text(key: &[u8; 32]) -> [u8; 64]
    ensures { result ≡ encode_lower key.now }
{
    let mut text = [0; 64];
    let _ = encode_to_slice(key.as_slice(), &mut text);
    text
}

/// Puts a line `HEX  CELL`.
pub(crate) fn put_named_key<K: Sink>(
    sink: &mut K,
    key: &[u8; 32],
    name: &[u8],
) -> Result<(), SinkFault>
    ensures { Writes K.given K.failures sink.old (named_key key.now name.now) result sink.new }
{
    let text = hex_text(key);
    sink.put_all(&text)?;
    sink.put_all(b"  ")?;
    sink.put_all(name)?;
    sink.put(b'\n')
}

//! The classes of strings, and their bytes.
ghost use Rattle.std.specs.Prelude.{◌≡◌, ◌↔◌, IsTrue, IfOk, OnOk, OnErr};
ghost use Rattle.oas_num.specs.Reading.{ReadsPiece, ReadsPieceAs, ClassMay, TextTook};
ghost use Rattle.oas_num.specs.Grammar.{IsSuch, IsByte};
ghost use Rattle.oas_num.specs.Texts.{IsIn, IsOf, IsText};

use crate::refusals::Why;
use crate::spelling::next_byte;
use oas_bytes::Source;
use std::alloc::{AllocError, Global};

/// The classes of the bytes in strings (SEMI P39, Strings).
#[derive(Clone, Copy, Debug, PartialEq, Eq)]
pub enum TextClass {
    /// The bytes of n-strings: printable, without the space, `21` to `7E`.
    Name,
    /// The bytes of a-strings: printable, or a space, `20` to `7E`.
    Label,
}

impl TextClass {
    /// Whether the byte is of the class.
    fn has(self, byte: u8) -> bool
        ensures { IsTrue result ↔ IsIn self byte }
    {
        match self {
            TextClass::Name => byte >= 33 && byte <= 126,
            TextClass::Label => byte >= 32 && byte <= 126,
        }
    }
}

/// The next byte, which must be of the class.
pub fn next_within<S: Source>(class: TextClass, source: &mut S) -> Result<u8, Why>
    ensures { ReadsPiece (IsSuch (IsIn class) IsByte) (ClassMay (IsIn class)) (S.script source.old) result (S.script source.new) }
{
    let byte = next_byte(source)?;
    if !class.has(byte) {
        return Err(Why::StringByte);
    }
    Ok(byte)
}

/// For so many bytes memory is reserved before they are read.
const SHORT: u64 = 64;

/// This many bytes of the class. Beyond the first few it allocates only for what was read.
pub fn read_text<S: Source>(
    alloc: Global,
    class: TextClass,
    count: u64,
    source: &mut S,
) -> Result<Vec<u8>, Why>
    ensures { ReadsPieceAs (λ text. text.items) (IsText (IsIn class) count) (TextTook (IsIn class) count) (S.script source.old) result (S.script source.new) }
{
    let mut text = Vec::new(alloc);
    // Where there is no memory for it, the text grows by itself as far as it can.
    let _ = text.reserve_exact(count.min(SHORT) as usize);
    for _ in 0..count {
        let byte = next_within(class, source)?;
        text.push(byte)?;
    }
    Ok(text)
}

/// Whether each byte is of the class.
pub(crate) fn is_of(class: TextClass, bytes: &[u8]) -> bool
    ensures { IsTrue result ↔ IsOf (IsIn class) bytes.now }
{
    let mut all = true;
    // With no early return many bytes are looked at in one step.
    for byte in bytes {
        all &= class.has(*byte);
    }
    all
}

/// Writes these bytes over those that are held, in their memory where it is enough. If out of memory they stay.
pub(crate) fn overwrite(held: &mut Vec<u8>, bytes: &[u8]) -> Result<(), AllocError>
    ensures ok { OnOk result (held.new.items ≡ bytes.now) }
    ensures err { OnErr result (held.new.items ≡ held.old.items) }
{
    let len = held.len();
    if len < bytes.len() {
        held.extend_from_slice(&bytes[len..])?;
    } else {
        held.truncate(bytes.len());
    }
    held.copy_from_slice(bytes);
    Ok(())
}

/// A copy of the bytes.
pub(crate) fn copy_of(alloc: Global, bytes: &[u8]) -> Result<Vec<u8>, AllocError>
    ensures { IfOk result (λ copy. copy.items ≡ bytes.now) }
{
    let mut copy = Vec::with_capacity(alloc, bytes.len())?;
    copy.extend_from_slice(bytes)?;
    Ok(copy)
}

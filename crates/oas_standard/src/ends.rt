//! The END record, with any validation.
ghost use Rattle.oas_num.specs.Reading.{ReadsPiece};
ghost use Rattle.std.specs.Prelude.{◌≡◌};
ghost use Rattle.oas_record.specs.Trees.{there};
ghost use Rattle.oas_standard.specs.Little.{four};
ghost use Rattle.oas_standard.specs.Ends.{validation_of, SpellsValidation, ValidationTook, SpellsWideEnd, WideEndTook};

use crate::little::read_four;
use crate::long::{read_long, read_long_padding};
use crate::offsets::pass_offsets_if;
use oas_num::{Source, Why};

/// How a file shows that it is complete (SEMI P39, END record, validation-scheme).
#[derive(Clone, Copy, Debug, PartialEq, Eq)]
pub enum Validation {
    /// Scheme 0: by nothing.
    Unvalidated,
    /// Scheme 1: by the CRC-32 of the bytes before the signature.
    Crc32(u32),
    /// Scheme 2: by the sum of the bytes before the signature.
    Checksum32(u32),
}

/// The meaning of a scheme and a signature.
fn validation_of(scheme: u64, signature: Option<u32>) -> Validation
    ensures { result ≡ validation_of scheme signature }
{
    match signature {
        None => Validation::Unvalidated,
        Some(signature) if scheme == 1 => Validation::Crc32(signature),
        Some(signature) => Validation::Checksum32(signature),
    }
}

/// A signature, where there is one: four bytes, the least significant first.
fn read_signature_if<S: Source>(is_given: bool, source: &mut S) -> Result<Option<u32>, Why>
    ensures { ReadsPiece (there is_given four).any (there is_given four).took (S.script source.old) result (S.script source.new) }
{
    if is_given {
        Ok(Some(read_four(source)?))
    } else {
        Ok(None)
    }
}

impl Validation {
    /// A scheme, and its signature where it has one.
    fn read<S: Source>(source: &mut S) -> Result<Validation, Why>
        ensures { ReadsPiece SpellsValidation ValidationTook (S.script source.old) result (S.script source.new) }
    {
        let scheme = read_long(source)?;
        if scheme > 2 {
            return Err(Why::ValidationScheme);
        }
        let signature = read_signature_if(scheme != 0, source)?;
        Ok(validation_of(scheme, signature))
    }
}

/// What the end of a file gives (SEMI P39, END record).
#[derive(Clone, Copy, Debug, PartialEq, Eq)]
pub struct WideEnd {
    /// The scheme and the signature.
    pub validation: Validation,
}

impl WideEnd {
    /// What follows END's id: table-offsets where START says so, padding, the validation-scheme and its signature, with
    /// integers of any number of bytes. The caller must check that END is 256 bytes, its id and its signature included.
    pub fn read<S: Source>(in_end: bool, source: &mut S) -> Result<WideEnd, Why>
        ensures { ReadsPiece (SpellsWideEnd in_end) (WideEndTook in_end) (S.script source.old) result (S.script source.new) }
    {
        pass_offsets_if(in_end, source)?;
        read_long_padding(source)?;
        let validation = Validation::read(source)?;
        Ok(WideEnd { validation })
    }
}

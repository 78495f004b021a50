//! Names and strings of properties and extensions.
ghost use Rattle.oas_num.specs.Reading.{ReadsPiece};
ghost use Rattle.oas_standard.specs.Strings.{SpellsString, StringTook, SpellsAttributed, AttributedTook};

use crate::long::read_long;
use oas_num::{Padding, Source, Spelled, Why, read_unsigned_if};
use std::alloc::Global;

/// What follows the id of a PROPNAME, 7 without a number and 8 with one, or of a PROPSTRING, 9 and 10 (SEMI P39). The string
/// is skipped, and its bytes aren't checked (own rule).
pub fn read_string<S: Source>(
    alloc: Global,
    numbered: bool,
    source: &mut S,
) -> Result<(Padding, Option<u64>), Why>
    ensures { ReadsPiece (SpellsString numbered) (StringTook numbered) (S.script source.old) result (S.script source.new) }
{
    let string = Padding::read(alloc, source)?;
    let number = read_unsigned_if(numbered, source)?;
    Ok((string, number))
}

/// What follows the id of an XNAME, 30 without a number and 31 with one, or of an XELEMENT, 32, which has none (SEMI P39): the
/// attribute in any number of bytes, the string, and the number.
pub fn read_attributed<S: Source>(
    alloc: Global,
    numbered: bool,
    source: &mut S,
) -> Result<(u64, (Padding, Option<u64>)), Why>
    ensures { ReadsPiece (SpellsAttributed numbered) (AttributedTook numbered) (S.script source.old) result (S.script source.new) }
{
    let attribute = read_long(source)?;
    let string = read_string(alloc, numbered, source)?;
    Ok((attribute, string))
}

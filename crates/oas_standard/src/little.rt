//! Numbers in four and eight bytes.
ghost use Rattle.oas_num.specs.Reading.{ReadsPiece};
ghost use Rattle.oas_standard.specs.Little.{IsFour, FourTook, IsEight, EightTook};

use oas_num::{Source, Why, next_byte};

/// A number in four bytes, the least significant first.
pub(crate) fn read_four<S: Source>(source: &mut S) -> Result<u32, Why>
    ensures { ReadsPiece IsFour FourTook (S.script source.old) result (S.script source.new) }
{
    let first = next_byte(source)?;
    let second = next_byte(source)?;
    let third = next_byte(source)?;
    let fourth = next_byte(source)?;
    Ok(
        u32::from(first)
            + u32::from(second) * 0x100
            + u32::from(third) * 0x1_0000
            + u32::from(fourth) * 0x100_0000,
    )
}

/// A number in eight bytes, the least significant first.
pub(crate) fn read_eight<S: Source>(source: &mut S) -> Result<u64, Why>
    ensures { ReadsPiece IsEight EightTook (S.script source.old) result (S.script source.new) }
{
    let low = read_four(source)?;
    let high = read_four(source)?;
    Ok(u64::from(low) + u64::from(high) * 0x1_0000_0000)
}

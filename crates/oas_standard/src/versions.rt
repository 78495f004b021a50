//! The version in START.
ghost use Rattle.oas_num.specs.Reading.{ReadsPiece};
ghost use Rattle.oas_standard.specs.Versions.{passed_label, SpellsVersion, LongVersionTook};

use crate::long::read_long;
use oas_num::{Source, TextClass, Why, next_within};

/// This many bytes of an a-string, which are not kept.
fn pass_label<S: Source>(count: u64, source: &mut S) -> Result<(), Why>
    ensures { ReadsPiece (passed_label count).any (passed_label count).took (S.script source.old) result (S.script source.new) }
{
    for _ in 0..count {
        next_within(TextClass::Label, source)?;
    }
    Ok(())
}

/// The version, an a-string that has to be `1.0`, with a length in any number of bytes. It is compared as it is read, so
/// nothing is allocated.
pub(crate) fn read_version<S: Source>(source: &mut S) -> Result<(), Why>
    ensures { ReadsPiece SpellsVersion LongVersionTook (S.script source.old) result (S.script source.new) }
{
    let length = read_long(source)?;
    if length != 3 {
        pass_label(length, source)?;
        return Err(Why::Version);
    }
    let one = next_within(TextClass::Label, source)?;
    let point = next_within(TextClass::Label, source)?;
    let zero = next_within(TextClass::Label, source)?;
    if one != 0x31 || point != 0x2E || zero != 0x30 {
        return Err(Why::Version);
    }
    Ok(())
}

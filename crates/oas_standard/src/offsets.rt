//! Table-offsets.
ghost use Rattle.oas_num.specs.Reading.{ReadsPiece};
ghost use Rattle.oas_standard.specs.Offsets.{IsLongOffsets, LongOffsetsTook, long_offsets_part};

use crate::long::read_long;
use oas_num::{Source, Why};

/// Table-offsets (SEMI P39, START and END records): six pairs of a flag and an offset, in any number of bytes. They are read
/// and ignored (own rule).
fn pass_offsets<S: Source>(source: &mut S) -> Result<(), Why>
    ensures { ReadsPiece IsLongOffsets LongOffsetsTook (S.script source.old) result (S.script source.new) }
{
    for _ in 0..12u8 {
        read_long(source)?;
    }
    Ok(())
}

/// Table-offsets, where there are any.
pub(crate) fn pass_offsets_if<S: Source>(there: bool, source: &mut S) -> Result<(), Why>
    ensures { ReadsPiece (long_offsets_part there).any (long_offsets_part there).took (S.script source.old) result (S.script source.new) }
{
    if there {
        pass_offsets(source)?;
    }
    Ok(())
}

//! Parts that are read and not kept.
ghost use Rattle.oas_num.specs.Reading.{ReadsPiece};
ghost use Rattle.oas_record.specs.Ends.{IsOffsets, OffsetsTook};
ghost use Rattle.oas_record.specs.Heads.{IsPassedLabel, SkippedTook};

use oas_num::{Source, TextClass, Why, next_within, read_unsigned};

/// Table-offsets (SEMI P39, START and END records): six pairs of a flag and an offset. They are read and ignored (own rule).
pub(crate) fn pass_offsets<S: Source>(source: &mut S) -> Result<(), Why>
    ensures { ReadsPiece IsOffsets OffsetsTook (S.script source.old) result (S.script source.new) }
{
    for _ in 0..12u8 {
        read_unsigned(source)?;
    }
    Ok(())
}

/// This many bytes of an a-string, which are not kept.
pub(crate) fn pass_label<S: Source>(count: u64, source: &mut S) -> Result<(), Why>
    ensures { ReadsPiece (IsPassedLabel count) (SkippedTook count) (S.script source.old) result (S.script source.new) }
{
    for _ in 0..count {
        next_within(TextClass::Label, source)?;
    }
    Ok(())
}

//! The END record.
ghost use Rattle.oas_num.specs.Reading.{ReadsPiece};
ghost use Rattle.oas_num.specs.Style.{Any};
ghost use Rattle.oas_record.specs.Ends.{end_in, EndTook, offsets_if, OffsetsIfTook};

use crate::passing::pass_offsets;
use oas_num::{Padding, Source, Spelled, Why, read_unsigned};
use std::alloc::Global;

/// Table-offsets, where there are any.
pub fn pass_offsets_if<S: Source>(there: bool, source: &mut S) -> Result<(), Why>
    ensures { ReadsPiece (offsets_if there) (OffsetsIfTook there) (S.script source.old) result (S.script source.new) }
{
    if there {
        pass_offsets(source)?;
    }
    Ok(())
}

/// What follows END's id (SEMI P39, END record): table-offsets where START says so, padding, and validation-scheme 0. The
/// caller must check that END is 256 bytes, its id included.
pub(crate) fn read_end<S: Source>(alloc: Global, in_end: bool, source: &mut S) -> Result<(), Why>
    ensures { ReadsPiece (end_in Any in_end) (EndTook in_end) (S.script source.old) result (S.script source.new) }
{
    pass_offsets_if(in_end, source)?;
    Padding::read(alloc, source)?;
    let scheme = read_unsigned(source)?;
    if scheme > 0 {
        return Err(Why::ValidationScheme);
    }
    Ok(())
}

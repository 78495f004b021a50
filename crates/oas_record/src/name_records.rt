//! The records that give names their numbers.
ghost use Rattle.oas_num.specs.Reading.{ReadsPiece};
ghost use Rattle.oas_num.specs.Style.{Any};
ghost use Rattle.oas_record.specs.NameRecords.{cell_name_in, CellNameTook, text_string_in, TextStringTook};

use oas_num::{Label, Name, Source, Spelled, Why, read_unsigned_if};
use std::alloc::Global;

/// What follows the id of a CELLNAME (SEMI P39, CELLNAME records), 3 without a number, 4 with one.
pub(crate) fn read_cell_name<S: Source>(
    alloc: Global,
    numbered: bool,
    source: &mut S,
) -> Result<(Name, Option<u64>), Why>
    ensures { ReadsPiece (cell_name_in Any numbered) (CellNameTook numbered) (S.script source.old) result (S.script source.new) }
{
    let name = Name::read(alloc, source)?;
    let number = read_unsigned_if(numbered, source)?;
    Ok((name, number))
}

/// What follows the id of a TEXTSTRING (SEMI P39, TEXTSTRING records), 5 without a number, 6 with one.
pub(crate) fn read_text_string<S: Source>(
    alloc: Global,
    numbered: bool,
    source: &mut S,
) -> Result<(Label, Option<u64>), Why>
    ensures { ReadsPiece (text_string_in Any numbered) (TextStringTook numbered) (S.script source.old) result (S.script source.new) }
{
    let label = Label::read(alloc, source)?;
    let number = read_unsigned_if(numbered, source)?;
    Ok((label, number))
}

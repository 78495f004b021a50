//! Cells and text strings, as elements refer to them.
ghost use Rattle.oas_num.specs.Grammar.{IsThere};
ghost use Rattle.oas_num.specs.Reading.{ReadsPiece};
ghost use Rattle.oas_num.specs.Pieces.{ThereTook};
ghost use Rattle.oas_num.specs.Style.{Any};
ghost use Rattle.oas_record.specs.References.{cell_in, CellTook, text_in, TextRefTook};

use oas_num::{Label, Name, Source, Spelled, Why, read_unsigned};
use std::alloc::Global;

/// A cell, by its name or by the number of a name record.
#[derive(Debug, Drop)]
pub enum CellRef {
    Number(u64),
    Name(Name),
}

/// A text string, by itself or by the number of a name record.
#[derive(Debug, Drop)]
pub enum TextRef {
    Number(u64),
    Label(Label),
}

/// A cell: a number or a name.
pub(crate) fn read_cell<S: Source>(
    alloc: Global,
    numbered: bool,
    source: &mut S,
) -> Result<CellRef, Why>
    ensures { ReadsPiece (cell_in Any numbered) (CellTook numbered) (S.script source.old) result (S.script source.new) }
{
    if numbered {
        Ok(CellRef::Number(read_unsigned(source)?))
    } else {
        Ok(CellRef::Name(Name::read(alloc, source)?))
    }
}

/// A cell, where one is given.
pub(crate) fn read_cell_if<S: Source>(
    alloc: Global,
    there: bool,
    numbered: bool,
    source: &mut S,
) -> Result<Option<CellRef>, Why>
    ensures { ReadsPiece (IsThere there (cell_in Any numbered)) (ThereTook there (CellTook numbered)) (S.script source.old) result (S.script source.new) }
{
    if there {
        Ok(Some(read_cell(alloc, numbered, source)?))
    } else {
        Ok(None)
    }
}

/// A text string: a number or the string.
fn read_text<S: Source>(alloc: Global, numbered: bool, source: &mut S) -> Result<TextRef, Why>
    ensures { ReadsPiece (text_in Any numbered) (TextRefTook numbered) (S.script source.old) result (S.script source.new) }
{
    if numbered {
        Ok(TextRef::Number(read_unsigned(source)?))
    } else {
        Ok(TextRef::Label(Label::read(alloc, source)?))
    }
}

/// A text string, where one is given.
pub(crate) fn read_text_if<S: Source>(
    alloc: Global,
    there: bool,
    numbered: bool,
    source: &mut S,
) -> Result<Option<TextRef>, Why>
    ensures { ReadsPiece (IsThere there (text_in Any numbered)) (ThereTook there (TextRefTook numbered)) (S.script source.old) result (S.script source.new) }
{
    if there {
        Ok(Some(read_text(alloc, numbered, source)?))
    } else {
        Ok(None)
    }
}

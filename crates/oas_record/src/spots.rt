//! The fields that all elements have.
ghost use Rattle.oas_num.specs.Grammar.{IsThere};
ghost use Rattle.oas_num.specs.Reading.{ReadsPiece};
ghost use Rattle.oas_num.specs.Style.{Any};
ghost use Rattle.oas_record.specs.Fields.{layers_in, LayersTook, RepetitionTook, spot_in, SpotTook};
ghost use Rattle.oas_shape.specs.Repetitions.{rep_field_in};

use oas_num::{Source, Why, read_signed_if, read_unsigned_if};
use oas_shape::RepField;
use std::alloc::Global;

/// The position of an element, and its repetition: the fields that every element record has (SEMI P39, modal variables). A
/// field that isn't given takes the value of its modal variable.
#[derive(Debug, Drop)]
pub struct Spot {
    /// In absolute mode the position, in relative mode a step from the modal one, in grid steps.
    pub x: Option<i64>,
    /// The same along y.
    pub y: Option<i64>,
    /// Without one the element occurs once.
    pub repetition: Option<RepField>,
}

/// Layer and datatype, or textlayer and texttype: bits 0 and 1 of the info byte.
pub fn read_layers<S: Source>(info: u8, source: &mut S) -> Result<(Option<u64>, Option<u64>), Why>
    ensures { ReadsPiece (layers_in Any info) (LayersTook info) (S.script source.old) result (S.script source.new) }
{
    let layer = read_unsigned_if(info & 1 != 0, source)?;
    let datatype = read_unsigned_if(info & 2 != 0, source)?;
    Ok((layer, datatype))
}

/// A repetition, where there is one.
fn read_repetition_if<S: Source>(
    alloc: Global,
    there: bool,
    source: &mut S,
) -> Result<Option<RepField>, Why>
    ensures { ReadsPiece (IsThere there (rep_field_in Any)) (RepetitionTook there) (S.script source.old) result (S.script source.new) }
{
    if there {
        Ok(Some(RepField::read(alloc, source)?))
    } else {
        Ok(None)
    }
}

/// x, y and the repetition, each where it is given.
pub fn read_spot<S: Source>(
    alloc: Global,
    x: bool,
    y: bool,
    repetition: bool,
    source: &mut S,
) -> Result<Spot, Why>
    ensures { ReadsPiece (spot_in Any x y repetition) (SpotTook x y repetition) (S.script source.old) result (S.script source.new) }
{
    let x = read_signed_if(x, source)?;
    let y = read_signed_if(y, source)?;
    let repetition = read_repetition_if(alloc, repetition, source)?;
    Ok(Spot { x, y, repetition })
}

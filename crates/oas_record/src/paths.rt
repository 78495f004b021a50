//! The PATH record.
ghost use Rattle.std.specs.Prelude.{◌≡◌};
ghost use Rattle.oas_num.specs.Grammar.{IsThere};
ghost use Rattle.oas_num.specs.Reading.{ReadsPiece};
ghost use Rattle.oas_num.specs.Pieces.{ThereTook};
ghost use Rattle.oas_num.specs.Style.{Any};
ghost use Rattle.oas_record.specs.Paths.{extension_of, extensions_in, ExtensionsTook, path_in, PathTook};

use crate::polygons::read_points_if;
use crate::spots::{Spot, read_layers, read_spot};
use oas_num::{Source, Why, next_byte, read_signed_if, read_unsigned, read_unsigned_if};
use oas_shape::{ListUse, PointList};
use std::alloc::Global;

/// How far a path goes on past its first or last point (SEMI P39, PATH record, extension-scheme).
#[derive(Clone, Copy, Debug, PartialEq, Eq)]
pub enum Extension {
    /// The number of the modal extension.
    Modal,
    /// Nothing.
    Flush,
    /// The half-width.
    Half,
    /// This far, in grid steps.
    Explicit(i64),
}

impl Extension {
    /// The extension of a code, 0 to 3; only code 3 has the number.
    pub fn of(code: u64, number: Option<i64>) -> Extension
        ensures { result ≡ extension_of code number }
    {
        match number {
            Some(number) => Extension::Explicit(number),
            None => match code {
                0 => Extension::Modal,
                1 => Extension::Flush,
                _ => Extension::Half,
            },
        }
    }
}

/// Both extensions of a path.
#[derive(Clone, Copy, Debug, PartialEq, Eq)]
pub struct Extensions {
    pub start: Extension,
    pub end: Extension,
}

impl Extensions {
    /// The extension-scheme, `0000SSEE`, and the numbers that it requires, that of the start first.
    fn read<S: Source>(source: &mut S) -> Result<Extensions, Why>
        ensures { ReadsPiece (extensions_in Any) ExtensionsTook (S.script source.old) result (S.script source.new) }
    {
        let scheme = read_unsigned(source)?;
        if scheme >= 16 {
            return Err(Why::InfoByte);
        }
        let start = read_signed_if(scheme / 4 == 3, source)?;
        let end = read_signed_if(scheme % 4 == 3, source)?;
        Ok(Extensions {
            start: Extension::of(scheme / 4, start),
            end: Extension::of(scheme % 4, end),
        })
    }
}

/// Both extensions, where they are given.
fn read_extensions_if<S: Source>(there: bool, source: &mut S) -> Result<Option<Extensions>, Why>
    ensures { ReadsPiece (IsThere there (extensions_in Any)) (ThereTook there ExtensionsTook) (S.script source.old) result (S.script source.new) }
{
    if there {
        Ok(Some(Extensions::read(source)?))
    } else {
        Ok(None)
    }
}

/// A path (SEMI P39, PATH record), id 22: the info byte `EWPXYRDL`, then layer, datatype, half-width, extensions, point
/// list, x, y and repetition, each where its bit is 1. x and y are those of the first point.
#[derive(Debug, Drop)]
pub struct Path {
    pub layer: Option<u64>,
    pub datatype: Option<u64>,
    /// In grid steps.
    pub half_width: Option<u64>,
    pub extensions: Option<Extensions>,
    pub points: Option<PointList>,
    pub spot: Spot,
}

impl Path {
    /// What follows the id.
    pub(crate) fn read<S: Source>(alloc: Global, source: &mut S) -> Result<Path, Why>
        ensures { ReadsPiece (path_in Any) PathTook (S.script source.old) result (S.script source.new) }
    {
        let info = next_byte(source)?;
        let layers = read_layers(info, source)?;
        let half_width = read_unsigned_if(info & 64 != 0, source)?;
        let extensions = read_extensions_if(info & 128 != 0, source)?;
        let points = read_points_if(alloc, info & 32 != 0, ListUse::Path, source)?;
        let spot = read_spot(alloc, info & 16 != 0, info & 8 != 0, info & 4 != 0, source)?;
        Ok(Path {
            layer: layers.0,
            datatype: layers.1,
            half_width,
            extensions,
            points,
            spot,
        })
    }
}

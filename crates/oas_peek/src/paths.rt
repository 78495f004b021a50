//! A path at the start of bytes.
ghost use Rattle.std.specs.Prelude.{IfSome};
ghost use Rattle.oas_record.specs.Paths.{extensions_kind};
ghost use Rattle.oas_record.specs.Trees.{there};
ghost use Rattle.oas_peek.specs.Fronts.{ConsumesPrefix};
ghost use Rattle.oas_peek.specs.Paths.{IsPeekedPath, ConsumesPath};

use crate::fronts::Front;
use crate::lists::take_list_if;
use crate::rectangles::take_layers;
use oas_record::{Extension, Extensions, Path, Spot};
use oas_shape::ListUse;
use std::alloc::Global;

/// The id of a path record (SEMI P39, PATH record).
pub(crate) const PATH: u8 = 22;

/// The info byte of a path that gives all its fields, and no repetition.
const ALL_FIELDS: u8 = 0xFB;

/// The extension-scheme of a path whose extensions are both numbers, which is the last one.
const NUMBERS: u64 = 15;

/// A path without a repetition, at the start of some bytes.
#[derive(Debug, Drop)]
pub struct PeekedPath {
    pub path: Path,
    /// How many bytes spell its record, the id included.
    pub length: usize,
    /// Whether they spell it in the shortest style: all fields are given, both extensions by their numbers, the point list has
    /// type 4, each step is given by both components, each number in as few bytes as it needs.
    pub shortest: bool,
}

/// Both extensions, that of the start first (SEMI P39, PATH record, extension-scheme).
fn take_extensions(front: &mut Front<'_>) -> Option<Extensions>
    ensures { IfSome result (λ both. ConsumesPrefix extensions_kind both front.old front.new) }
{
    let scheme = front.unsigned()?;
    if scheme > NUMBERS {
        return None;
    }
    front.note(scheme == NUMBERS);
    let start = front.signed_if(scheme / 4 == 3)?;
    let end = front.signed_if(scheme % 4 == 3)?;
    Some(Extensions {
        start: Extension::of(scheme / 4, start),
        end: Extension::of(scheme % 4, end),
    })
}

/// The same, where they are given.
fn take_extensions_if(front: &mut Front<'_>, here: bool) -> Option<Option<Extensions>>
    ensures { IfSome result (λ both. ConsumesPrefix (there here extensions_kind) both front.old front.new) }
{
    if here {
        Some(Some(take_extensions(front)?))
    } else {
        Some(None)
    }
}

/// A path, after its id.
fn take_path(alloc: Global, front: &mut Front<'_>) -> Option<Path>
    ensures { IfSome result (λ path. ConsumesPath path front.old front.new) }
{
    let info = front.byte()?;
    if info & 4 != 0 {
        return None;
    }
    let (layer, datatype) = take_layers(front, info)?;
    let half_width = front.unsigned_if(info & 64 != 0)?;
    let extensions = take_extensions_if(front, info & 128 != 0)?;
    let points = take_list_if(alloc, front, ListUse::Path, info & 32 != 0)?;
    let x = front.signed_if(info & 16 != 0)?;
    let y = front.signed_if(info & 8 != 0)?;
    front.note(info == ALL_FIELDS);
    Some(Path {
        layer,
        datatype,
        half_width,
        extensions,
        points,
        spot: Spot {
            x,
            y,
            repetition: None,
        },
    })
}

/// The path that the bytes begin with, where it has no repetition and each of its numbers has at most nine bytes. None also
/// where the bytes end before it does, or begin with anything else, or if out of memory.
pub fn peek_path(alloc: Global, bytes: &[u8]) -> Option<PeekedPath>
    ensures { IfSome result (λ ahead. IsPeekedPath bytes.now ahead) }
{
    let mut front = Front::of(bytes);
    if front.byte()? != PATH {
        return None;
    }
    let path = take_path(alloc, &mut front)?;
    Some(PeekedPath {
        path,
        length: bytes.len() - front.left().len(),
        shortest: front.is_shortest(),
    })
}

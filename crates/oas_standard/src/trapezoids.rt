//! The TRAPEZOID and CTRAPEZOID records.
ghost use Rattle.oas_num.specs.Reading.{ReadsPiece};
ghost use Rattle.oas_standard.specs.Trapezoids.{deltas, shape_kind, SpellsTrapezoid, TrapezoidTook, SpellsNamedTrapezoid, NamedTrapezoidTook};
ghost use Rattle.oas_record.specs.Trees.{there};

use oas_num::{Source, Why, next_byte, read_signed_if, read_unsigned, read_unsigned_if};
use oas_record::{Spot, read_layers, read_spot};
use std::alloc::Global;

/// A trapezoid with two sides along an axis (SEMI P39, TRAPEZOID records): the info byte `OWHXYRDL`, then layer, datatype,
/// width, height, each where its bit is 1, the deltas that the id has, and x, y and repetition. x and y are those of the
/// lower left corner of its box.
#[derive(Debug, Drop)]
pub struct Trapezoid {
    /// Whether the left and the right side are parallel, and not the lower and the upper.
    pub upright: bool,
    pub layer: Option<u64>,
    pub datatype: Option<u64>,
    /// Of the box, in grid steps.
    pub width: Option<u64>,
    /// Of the box, in grid steps.
    pub height: Option<u64>,
    /// In grid steps. Where the id has none it is 0.
    pub delta_a: Option<i64>,
    /// In grid steps. Where the id has none it is 0.
    pub delta_b: Option<i64>,
    pub spot: Spot,
}

/// The deltas; the id may have one or both.
fn read_deltas<S: Source>(
    a: bool,
    b: bool,
    source: &mut S,
) -> Result<(Option<i64>, Option<i64>), Why>
    ensures { ReadsPiece (deltas a b).any (deltas a b).took (S.script source.old) result (S.script source.new) }
{
    let first = read_signed_if(a, source)?;
    let second = read_signed_if(b, source)?;
    Ok((first, second))
}

impl Trapezoid {
    /// What follows the id, which says which deltas there are: 23 both, 24 the first, 25 the second.
    pub fn read<S: Source>(
        alloc: Global,
        has_a: bool,
        has_b: bool,
        source: &mut S,
    ) -> Result<Trapezoid, Why>
        ensures { ReadsPiece (SpellsTrapezoid has_a has_b) (TrapezoidTook has_a has_b) (S.script source.old) result (S.script source.new) }
    {
        let info = next_byte(source)?;
        let layers = read_layers(info, source)?;
        let width = read_unsigned_if(info & 64 != 0, source)?;
        let height = read_unsigned_if(info & 32 != 0, source)?;
        let deltas = read_deltas(has_a, has_b, source)?;
        let spot = read_spot(alloc, info & 16 != 0, info & 8 != 0, info & 4 != 0, source)?;
        Ok(Trapezoid {
            upright: info & 128 != 0,
            layer: layers.0,
            datatype: layers.1,
            width,
            height,
            delta_a: deltas.0,
            delta_b: deltas.1,
            spot,
        })
    }
}

/// A trapezoid of one of 26 kinds (SEMI P39, CTRAPEZOID record), id 26: the info byte `TWHXYRDL`, then layer, datatype, kind,
/// width, height, x, y and repetition, each where its bit is 1.
#[derive(Debug, Drop)]
pub struct NamedTrapezoid {
    pub layer: Option<u64>,
    pub datatype: Option<u64>,
    /// The kind, 0 to 25 (ctrapezoid-type).
    pub kind: Option<u64>,
    /// Of the box, in grid steps.
    pub width: Option<u64>,
    /// Of the box, in grid steps.
    pub height: Option<u64>,
    pub spot: Spot,
}

/// A kind, 0 to 25.
fn read_shape_kind<S: Source>(source: &mut S) -> Result<u64, Why>
    ensures { ReadsPiece shape_kind.any shape_kind.took (S.script source.old) result (S.script source.new) }
{
    let kind = read_unsigned(source)?;
    if kind >= 26 {
        return Err(Why::InfoByte);
    }
    Ok(kind)
}

/// A kind, where there is one.
fn read_shape_kind_if<S: Source>(is_given: bool, source: &mut S) -> Result<Option<u64>, Why>
    ensures { ReadsPiece (there is_given shape_kind).any (there is_given shape_kind).took (S.script source.old) result (S.script source.new) }
{
    if is_given {
        Ok(Some(read_shape_kind(source)?))
    } else {
        Ok(None)
    }
}

impl NamedTrapezoid {
    /// What follows the id. A kind above 25 is refused with `InfoByte`.
    pub fn read<S: Source>(alloc: Global, source: &mut S) -> Result<NamedTrapezoid, Why>
        ensures { ReadsPiece SpellsNamedTrapezoid NamedTrapezoidTook (S.script source.old) result (S.script source.new) }
    {
        let info = next_byte(source)?;
        let layers = read_layers(info, source)?;
        let kind = read_shape_kind_if(info & 128 != 0, source)?;
        let width = read_unsigned_if(info & 64 != 0, source)?;
        let height = read_unsigned_if(info & 32 != 0, source)?;
        let spot = read_spot(alloc, info & 16 != 0, info & 8 != 0, info & 4 != 0, source)?;
        Ok(NamedTrapezoid {
            layer: layers.0,
            datatype: layers.1,
            kind,
            width,
            height,
            spot,
        })
    }
}

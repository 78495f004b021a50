//! The LAYERNAME records.
ghost use Rattle.std.specs.Prelude.{◌≡◌};
ghost use Rattle.oas_num.specs.Reading.{ReadsPiece};
ghost use Rattle.oas_standard.specs.LayerNames.{interval_by, SpellsInterval, IntervalTook, SpellsLayerName, LayerNameTook};

use oas_num::{Padding, Source, Spelled, Why, read_unsigned, read_unsigned_if};
use std::alloc::Global;

/// Numbers from one to another, both included (SEMI P39, intervals). Where the first is the larger there are none.
#[derive(Clone, Copy, Debug, PartialEq, Eq)]
pub struct Interval {
    pub low: u64,
    /// None: without an end.
    pub high: Option<u64>,
}

/// The interval of a type and its bounds.
fn interval_by(kind: u64, first: Option<u64>, second: Option<u64>) -> Interval
    ensures { result ≡ interval_by kind first second }
{
    let bound = first.unwrap_or(0);
    if kind == 0 {
        Interval { low: 0, high: None }
    } else if kind == 1 {
        Interval {
            low: 0,
            high: first,
        }
    } else if kind == 2 {
        Interval {
            low: bound,
            high: None,
        }
    } else if kind == 3 {
        Interval {
            low: bound,
            high: first,
        }
    } else {
        Interval {
            low: bound,
            high: second,
        }
    }
}

impl Interval {
    /// An interval. A type above 4 is refused with `InfoByte`.
    fn read<S: Source>(source: &mut S) -> Result<Interval, Why>
        ensures { ReadsPiece SpellsInterval IntervalTook (S.script source.old) result (S.script source.new) }
    {
        let kind = read_unsigned(source)?;
        if kind >= 5 {
            return Err(Why::InfoByte);
        }
        let first = read_unsigned_if(kind != 0, source)?;
        let second = read_unsigned_if(kind == 4, source)?;
        Ok(interval_by(kind, first, second))
    }
}

/// A name for layers and datatypes, or for textlayers and texttypes (SEMI P39, LAYERNAME records), ids 11 and 12. The name is
/// skipped, and its bytes aren't checked (own rule).
#[derive(Clone, Copy, Debug, PartialEq, Eq)]
pub struct LayerName {
    pub name: Padding,
    pub layers: Interval,
    pub datatypes: Interval,
}

impl LayerName {
    /// What follows the id.
    pub fn read<S: Source>(alloc: Global, source: &mut S) -> Result<LayerName, Why>
        ensures { ReadsPiece SpellsLayerName LayerNameTook (S.script source.old) result (S.script source.new) }
    {
        let name = Padding::read(alloc, source)?;
        let layers = Interval::read(source)?;
        let datatypes = Interval::read(source)?;
        Ok(LayerName {
            name,
            layers,
            datatypes,
        })
    }
}

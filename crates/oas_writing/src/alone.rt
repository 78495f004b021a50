//! The canonical bytes of one cell alone, put into a sink.

ghost use Rattle.std.specs.Prelude.{◌+◌, ◌*◌, ◌≤◌, length};
ghost use Rattle.oas_elements.specs.Bag.{items};
ghost use Rattle.oas_elements.specs.Contents.{Contents};
ghost use Rattle.oas_elements.specs.Meaning.{cells_weight};
ghost use Rattle.oas_listing.specs.Acceptance.{Means};
ghost use Rattle.oas_listing.specs.Bytes.{canonical_bytes};
ghost use Rattle.oas_listing.specs.Canonical.{CanonicalForm};
ghost use Rattle.oas_listing.specs.Putting.{Counts};
ghost use Rattle.oas_writing.specs.Alone.{alone, HasCell};

use crate::cells::put_cell;
use oas_listing::{Elements, put_end, put_head};
use oas_num::{Fraction, Sink, SinkFault};

/// Puts the canonical bytes of a unit and one cell alone, by the cell's name and its elements, and returns how many they are.
/// After a fault a prefix of them was put. It allocates nothing.
///
/// Where these are the unit of a layout and one of its cells, they are a canonical form within the layout's limits, and mean
/// that cell alone. There are at most 320, plus 64 for each unit of the cell's weight.
#[tactic(auto, using(crate::proofs::AloneLemmas::alone_form, crate::proofs::AloneLemmas::alone_short))]
pub fn put_cell_alone<K: Sink>(
    unit: Fraction,
    name: &[u8],
    elements: Elements<'_>,
    sink: &mut K,
) -> Result<u64, SinkFault>
    ensures counts { Counts K.given K.failures sink.old (canonical_bytes (alone unit (name.now, items elements.entry))) result sink.new }
    ensures form { (l : Contents) → HasCell unit (name.now, elements.entry) l → CanonicalForm l.limits l.profile (canonical_bytes (alone unit (name.now, items elements.entry))) }
    ensures means { (l : Contents) → HasCell unit (name.now, elements.entry) l → Means (canonical_bytes (alone unit (name.now, items elements.entry))) (alone unit (name.now, items elements.entry)) }
    ensures short { length (canonical_bytes (alone unit (name.now, items elements.entry))) ≤ 320 + 64 * cells_weight (alone unit (name.now, items elements.entry)).cells }
{
    elements.fits();
    let head = put_head(sink, unit.num(), unit.den())?;
    let body = put_cell(sink, name, elements)?;
    let end = put_end(sink)?;
    Ok(head + body + end)
}

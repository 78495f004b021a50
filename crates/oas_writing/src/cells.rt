//! Cells, each with its elements as often as they are there.

ghost use Rattle.std.specs.Prelude.{◌*◌, ◌≤◌, ◌^◌, IfOk};
ghost use Rattle.std.specs.List.{AllByRecursion};
ghost use Rattle.oas_elements.specs.declared.profile.Profile.{Profile as OneProfile};
ghost use Rattle.oas_elements.specs.Bag.{items};
ghost use Rattle.oas_elements.specs.Contents.{expanded, IsCell};
ghost use Rattle.oas_elements.specs.Meaning.{cells_weight};
ghost use Rattle.oas_listing.specs.Bytes.{elements_bytes, cell_bytes, cells_bytes};
ghost use Rattle.oas_listing.specs.Putting.{Counts};

use crate::copies::put_copies;
use oas_listing::{Cells, Elements, put_opening};
use oas_num::{Sink, SinkFault};

/// Puts elements, each as often as it is there.
fn put_elements<K: Sink>(sink: &mut K, elements: Elements<'_>) -> Result<u64, SinkFault>
    ensures counts { Counts K.given K.failures sink.old (elements_bytes (items elements.entry)) result sink.new }
    ensures short { IfOk result (λ n. n ≤ 64 * 2 ^ 30) }
{
    elements.fits();
    let mut count = 0;
    for (element, times) in elements {
        count += put_copies(sink, &element, times)?;
    }
    Ok(count)
}

/// Puts a CELL record by name, and its elements.
pub(crate) fn put_cell<K: Sink>(
    sink: &mut K,
    name: &[u8],
    elements: Elements<'_>,
) -> Result<u64, SinkFault>
    ensures { Counts K.given K.failures sink.old (cell_bytes (name.now, items elements.entry)) result sink.new }
{
    let opening = put_opening(sink, name)?;
    let body = put_elements(sink, elements)?;
    Ok(opening + body)
}

/// Puts cells, one after another.
pub(crate) fn put_cells<K: Sink>(sink: &mut K, cells: Cells<'_>) -> Result<u64, SinkFault>
    requires are { (profile : OneProfile) × AllByRecursion (IsCell profile) cells }
    requires light { cells_weight (expanded cells) ≤ 2 ^ 30 }
    ensures counts { Counts K.given K.failures sink.old (cells_bytes (expanded cells.entry)) result sink.new }
    ensures short { IfOk result (λ n. n ≤ 64 * 2 ^ 30) }
{
    let mut count = 0;
    for (name, elements) in cells {
        count += put_cell(sink, name.as_bytes(), elements)?;
    }
    Ok(count)
}

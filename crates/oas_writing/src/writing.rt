//! The canonical bytes of a layout, put into a sink or written.

ghost use Rattle.std.specs.Prelude.{◌+◌, ◌*◌, ◌≤◌, length, IfErr, IfOk};
ghost use Rattle.oas_num.specs.Written.{IsCutOff, IsWritten};
ghost use Rattle.oas_elements.specs.Contents.{expanded, meaning_of, IsLayout};
ghost use Rattle.oas_elements.specs.Meaning.{cells_weight};
ghost use Rattle.oas_listing.specs.Acceptance.{Means};
ghost use Rattle.oas_listing.specs.Bytes.{canonical_bytes};
ghost use Rattle.oas_listing.specs.Canonical.{CanonicalForm};
ghost use Rattle.oas_listing.specs.Putting.{Counts};

use crate::cells::put_cells;
use oas_listing::{Layout, put_end, put_head};
use oas_num::{Content, Device, Refusal, Sink, SinkFault, write_content};

/// Puts the canonical bytes of a layout, and returns how many they are. After a fault a prefix of them was put.
///
/// They are a canonical form within the layout's limits, and mean the layout. There are at most 320, plus 64 for each unit of
/// its weight. It allocates nothing.
#[tactic(auto, using(crate::proofs::LayoutForms::layout_form, crate::proofs::LayoutForms::layout_means, crate::proofs::LayoutForms::layout_short))]
pub fn put_canonical<K: Sink>(layout: &Layout, sink: &mut K) -> Result<u64, SinkFault>
    ensures counts { Counts K.given K.failures sink.old (canonical_bytes (meaning_of layout.now)) result sink.new }
    ensures form { CanonicalForm layout.now.limits layout.now.profile (canonical_bytes (meaning_of layout.now)) }
    ensures means { Means (canonical_bytes (meaning_of layout.now)) (meaning_of layout.now) }
    ensures short { length (canonical_bytes (meaning_of layout.now)) ≤ 320 + 64 * cells_weight (expanded layout.now.cells) }
    ensures layout { IsLayout layout.now }
{
    let cells = layout.cells();
    let unit = layout.unit();
    let head = put_head(sink, unit.num(), unit.den())?;
    let body = put_cells(sink, cells)?;
    let end = put_end(sink)?;
    Ok(head + body + end)
}

/// The canonical bytes of a layout, as content.
#[derive(Drop)]
struct Canonical<'a> {
    layout: &'a Layout,
}

impl Content for Canonical<'_> {
    ghost use Rattle.oas_elements.specs.Contents.{meaning_of};
    ghost use Rattle.oas_listing.specs.Bytes.{canonical_bytes};

    ghost bytes = { λ content. canonical_bytes (meaning_of content.layout.now) };

    fn put_into<K: Sink>(&self, sink: &mut K) -> Result<(), SinkFault> {
        put_canonical(self.layout, sink)?;
        Ok(())
    }
}

/// Writes the canonical bytes of a layout, and returns how many they are.
///
/// They are a canonical form within the layout's limits, and mean the layout. A fault of the writer is `Why::Write`. Its
/// place is the number of bytes that the writer took: the first ones of these. Where it is the number of all of them, the
/// flush failed.
#[tactic(auto, using(crate::proofs::LayoutForms::layout_form, crate::proofs::LayoutForms::layout_means, crate::proofs::LayoutForms::layout_short))]
pub fn write_canonical<W: Device>(layout: &Layout, writer: &mut W) -> Result<u64, Refusal>
    ensures written { IfOk result (IsWritten W.calls writer.old (canonical_bytes (meaning_of layout.now)) writer.new) }
    ensures refused { IfErr result (IsCutOff W.calls writer.old (canonical_bytes (meaning_of layout.now)) writer.new) }
    ensures form { CanonicalForm layout.now.limits layout.now.profile (canonical_bytes (meaning_of layout.now)) }
    ensures means { Means (canonical_bytes (meaning_of layout.now)) (meaning_of layout.now) }
    ensures short { length (canonical_bytes (meaning_of layout.now)) ≤ 320 + 64 * cells_weight (expanded layout.now.cells) }
    ensures layout { IsLayout layout.now }
{
    // Its clause says that this is a layout.
    let _ = layout.cells();
    write_content(&Canonical { layout }, writer)
}

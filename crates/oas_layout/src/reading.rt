//! From a source to a layout.

ghost use Rattle.oas_form.specs.Reading.{ReadsLayout};

use crate::finishing::finish_layout;
use crate::layout::Layout;
use oas_cells::{ByProfileOne, ByProfileTwo, CompactCell, KeptBy};
use oas_elements::{Limits, Profile};
use oas_form::{Reader, find_end_of_input, take_records};
use oas_num::{Refusal, Source};
use oas_record::read_head;
use std::alloc::Global;

/// Reads all that a source gives, and returns its layout, kept by this profile.
///
/// It is refused where its bytes are no file of the profile, with the offset of the byte at fault and the reason; or it fails
/// where the source, a limit or the memory does (`ReadsLayout` of oas_file).
pub fn read_layout<S: Source>(
    alloc: Global,
    source: &mut S,
    limits: Limits,
    profile: Profile,
) -> Result<Layout, Refusal>
    ensures { ReadsLayout limits profile (S.script source.old) result (S.script source.new) }
{
    match profile {
        Profile::One => read_kept::<S, ByProfileOne>(alloc, source, limits),
        Profile::Two => read_kept::<S, ByProfileTwo>(alloc, source, limits),
    }
}

/// The same, where the profile is a type.
fn read_kept<S: Source, P: KeptBy>(
    alloc: Global,
    source: &mut S,
    limits: Limits,
) -> Result<Layout, Refusal>
    ensures { ReadsLayout limits P.profile (S.script source.old) result (S.script source.new) }
{
    let head = read_head(alloc, source)?;
    let mut reader: Reader<CompactCell<P>> = Reader::new(alloc, head.unit, limits, P::profile());
    let end = take_records(alloc, source, head, &mut reader)?;
    find_end_of_input(source)?;
    finish_layout(alloc, reader, end)
}

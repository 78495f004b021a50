//! Markers with texts from what KLayout writes.

pub mod layouts;

use layouts::{Sketch, kinds, rectangles};
use oas_canon::Layout;
use oas_markers::{Choice, write_markers};
use oas_num::NotedWriter;
use std::test::Fail;

/// The end of a report without items.
const NONE: &str = " <items>
 </items>
</report-database>
";

/// The end of a report of two rectangles that are only in the first layout.
const REMOVED: &str = " <items>
  <item><category>removed.rectangle</category><cell>A</cell><multiplicity>2</multiplicity><values><value>box: (-0.001,-1;0.009,-0.975)</value><value>text: 'layer 1/0'</value></values></item>
 </items>
</report-database>
";

/// The end of a report of two rectangles that are only in the second layout.
const ADDED: &str = " <items>
  <item><category>added.rectangle</category><cell>A</cell><multiplicity>2</multiplicity><values><value>box: (-0.001,-1;0.009,-0.975)</value><value>text: 'layer 1/0'</value></values></item>
 </items>
</report-database>
";

/// Whether the layouts' markers end like this, and their length is returned.
fn mark(rt: &HostRuntime, before: &Layout, after: &Layout, end: &str) -> bool {
    mark_first(rt, before, after, u64::MAX, end)
}

/// Like `mark`, for at most this many markers.
fn mark_first(rt: &HostRuntime, before: &Layout, after: &Layout, most: u64, end: &str) -> bool {
    if before.profile() != after.profile() {
        return false;
    }
    let mut written = Vec::new(rt.alloc());
    let count = write_markers(
        before,
        after,
        Choice::all(),
        most,
        &mut NotedWriter::new(&mut written),
    );
    count == Ok(written.len() as u64) && written.as_slice().ends_with(end.as_bytes())
}

/// Like `mark`, for a second layout with an element of each kind.
fn mark_kinds(rt: &HostRuntime, before: &Layout) -> Result<bool, Fail> {
    let after = kinds(rt.alloc())?;
    Ok(mark(rt, before, &after, NONE))
}

/// Like `mark`, for two such layouts.
fn mark_the_same(rt: &HostRuntime) -> Result<bool, Fail> {
    let before = kinds(rt.alloc())?;
    mark_kinds(rt, &before)
}

#[test]
fn the_same_have_no_item(rt: HostRuntime) -> Result<(), Fail> {
    assert!(rt; mark_the_same(&rt)?);
    Ok(())
}

/// Like `mark`, for the sketches' layouts.
fn mark_rectangles(
    rt: &HostRuntime,
    before: Sketch,
    after: Sketch,
    end: &str,
) -> Result<bool, Fail> {
    let before = rectangles(rt.alloc(), before)?;
    mark_after(rt, &before, after, end)
}

/// Like `mark`, for the second sketch's layout.
fn mark_after(rt: &HostRuntime, before: &Layout, after: Sketch, end: &str) -> Result<bool, Fail> {
    let after = rectangles(rt.alloc(), after)?;
    Ok(mark(rt, before, &after, end))
}

#[test]
fn each_is_in_microns_of_its_own_unit(rt: HostRuntime) -> Result<(), Fail> {
    let (many, one) = ((1000, 1, 3), (3, 2, 1));
    assert!(rt; mark_rectangles(&rt, many, one, REMOVED)?);
    assert!(rt; mark_rectangles(&rt, one, many, ADDED)?);
    Ok(())
}

/// Whether there is no item where none is asked for, of two layouts that differ.
fn mark_none(rt: &HostRuntime, before: &Layout) -> Result<bool, Fail> {
    let after = rectangles(rt.alloc(), (1000, 1, 1))?;
    Ok(mark_first(rt, before, &after, 0, NONE) && mark_first(rt, before, &after, 1, REMOVED))
}

#[test]
fn only_the_first_items_are_written(rt: HostRuntime) -> Result<(), Fail> {
    let before = rectangles(rt.alloc(), (1000, 1, 3))?;
    assert!(rt; mark_none(&rt, &before)?);
    Ok(())
}

//! Listings with texts from outside.

mod faults;
pub mod layouts;

use layouts::{backwards, empty, kinds, rectangles};
use oas_canon::{Layout, write_listing};
use oas_elements::Profile;
use oas_num::NotedWriter;
use std::test::Fail;

/// What `kinds` returns.
const KINDS: &str = "unit 3/2
cell !
cell TOP
placement AB -7 12 3 1
placement Z 0 0 0 0
text 3 4 -1 -2 
text 3 4 5 6 two words 
rectangle 1 0 10 20 -30 -40
rectangle 1 0 10 20 -30 -40
rectangle 18446744073709551615 0 0 0 0 0
polygon 1 2 -5,0 0,9 4,-1
path 6 7 8 -9 10 1,-1
path 6 7 8 0 0 1,-1 1,-1 -1152921504606846976,1152921504606846976
circle 5 6 7 -8 9
";

/// Whether the listing of a layout is this text, and its length is returned.
fn lists(rt: &HostRuntime, layout: Result<Layout, Fail>, text: &str) -> Result<bool, Fail> {
    let layout = layout?;
    let mut written = Vec::new(rt.alloc());
    let count = write_listing(&layout, &mut NotedWriter::new(&mut written));
    Ok(count == Ok(text.len() as u64) && written.as_slice() == text.as_bytes())
}

#[test]
fn each_kind_has_its_line(rt: HostRuntime) -> Result<(), Fail> {
    assert!(rt; lists(&rt, kinds(rt.alloc()), KINDS)?);
    Ok(())
}

#[test]
fn a_layout_without_cells_has_its_unit(rt: HostRuntime) -> Result<(), Fail> {
    assert!(rt; lists(&rt, empty(rt.alloc()), "unit 1000/1\n")?);
    Ok(())
}

#[test]
fn a_rectangle_in_a_cell(rt: HostRuntime) -> Result<(), Fail> {
    let text = "unit 1000/1\ncell A\nrectangle 1 0 10 20 0 0\n";
    assert!(rt; lists(&rt, rectangles(rt.alloc(), 1), text)?);
    Ok(())
}

#[test]
fn equal_elements_are_repeated(rt: HostRuntime) -> Result<(), Fail> {
    let text = "unit 1000/1
cell A
rectangle 1 0 10 20 0 0
rectangle 1 0 10 20 0 0
rectangle 1 0 10 20 0 0
rectangle 1 0 10 20 0 0
";
    assert!(rt; lists(&rt, rectangles(rt.alloc(), 4), text)?);
    Ok(())
}

#[test]
fn a_polygon_is_listed_as_it_is_kept(rt: HostRuntime) -> Result<(), Fail> {
    let polygon = "unit 1000/1\ncell A\npolygon 1 0 0,0 0,20 10,20 10,0\n";
    assert!(rt; lists(&rt, backwards(rt.alloc(), Profile::One), polygon)?);
    let rectangle = "unit 1000/1\ncell A\nrectangle 1 0 10 20 0 0\n";
    assert!(rt; lists(&rt, backwards(rt.alloc(), Profile::Two), rectangle)?);
    Ok(())
}

//! Builds a layout by calls, and writes its canonical file to standard output.
#![tactic(auto)]

use oas_canon::{
    Draft, Element, Fraction, Layout, Limits, Name, NotedWriter, PROFILE, Turns, Why,
    write_canonical,
};
use std::alloc::Global;

/// The cell PAD at this place.
fn placed(alloc: Global, x: i64) -> Result<Element, Why> {
    Ok(Element::Placement {
        cell: Name::new(alloc, b"PAD")?,
        x,
        y: 0,
        turns: Turns::T0,
        flip: false,
    })
}

/// Two cells: one with a rectangle, which is placed three times in the other.
fn build(alloc: Global) -> Result<Layout, Why> {
    let unit = Fraction::reduced(1000, 1).ok_or(Why::Unit)?;
    let mut draft = Draft::new(alloc, unit, Limits::standard(), PROFILE)?;
    let top = draft.add_cell(Name::new(alloc, b"TOP")?)?;
    draft.add(top, placed(alloc, 0)?)?;
    draft.add(top, placed(alloc, 100)?)?;
    draft.add(top, placed(alloc, 200)?)?;
    let pad = draft.add_cell(Name::new(alloc, b"PAD")?)?;
    let rectangle = Element::Rectangle {
        layer: 1,
        datatype: 0,
        width: 80,
        height: 60,
        x: 0,
        y: 0,
    };
    draft.add(pad, rectangle)?;
    Ok(draft.seal()?)
}

fn main(rt: HostRuntime) -> anyhow::Result<()> {
    let layout = build(rt.alloc())?;
    write_canonical(&layout, &mut NotedWriter::new(rt.stdout()))?;
    Ok(())
}

//! Reads an OASIS file from standard input, and prints what its layout holds: the unit, and for each cell how many elements
//! of each kind it has.
#![tactic(auto)]

use oas_canon::{
    Elements, Layout, Limits, PROFILE, ReaderSource, Refusal, ShownElement, read_layout, show,
};
use std::io;

/// How many elements of each kind there are, equal ones each counted.
#[derive(Clone, Copy, Default)]
struct Counts {
    placements: u64,
    texts: u64,
    shapes: u64,
}

impl Counts {
    /// The kinds of a cell. An element comes once, with its count.
    fn of(elements: Elements<'_>) -> Counts {
        let mut counts = Counts::default();
        for (element, times) in elements {
            let count = match show(&element) {
                ShownElement::Placement { .. } => &mut counts.placements,
                ShownElement::Text { .. } => &mut counts.texts,
                _ => &mut counts.shapes,
            };
            *count = count.saturating_add(times);
        }
        counts
    }
}

/// The layout of standard input, or where and why it is refused.
fn read(rt: &HostRuntime) -> Result<Layout, Refusal> {
    let limits = Limits::standard();
    let mut source = ReaderSource::new(rt.alloc(), rt.stdin(), limits.input())?;
    read_layout(rt.alloc(), &mut source, limits, PROFILE)
}

/// Prints what a layout holds.
fn print(rt: &HostRuntime, layout: &Layout) -> io::Result<()> {
    let unit = layout.unit();
    println!(rt; "{}/{} grid steps in a micron", unit.num(), unit.den())?;
    for (name, elements) in layout.cells() {
        let counts = Counts::of(elements);
        println!(rt;
            "{}: {} placements, {} texts, {} shapes",
            name.as_bytes().escape_ascii(),
            counts.placements,
            counts.texts,
            counts.shapes
        )?;
    }
    Ok(())
}

fn main(rt: HostRuntime) -> anyhow::Result<()> {
    let layout = read(&rt)?;
    print(&rt, &layout)?;
    Ok(())
}

//! Differences of some cells and some layers.

use super::differ_by;
use super::layouts::Sketch;
use oas_markers::{Choice, ChosenLayer, Detail, Options, PLAIN};
use std::test::Fail;

/// Three cells, of which each layout has two.
const BEFORE: Sketch<'static> = (1000, "AB", &[(0, 1, 2), (0, 3, 1), (1, 1, 1)]);

const AFTER: Sketch<'static> = (1000, "AC", &[(0, 1, 1), (0, 3, 2), (1, 3, 1)]);

/// Two layers, with all their datatypes.
const LAYERS: &[ChosenLayer] = &[
    ChosenLayer {
        layer: 2,
        datatype: None,
    },
    ChosenLayer {
        layer: 3,
        datatype: None,
    },
];

/// A datatype that no element has.
const OTHER: &[ChosenLayer] = &[ChosenLayer {
    layer: 1,
    datatype: Some(1),
}];

/// Whether the difference of what is chosen is this text.
fn differ(rt: &HostRuntime, choice: Choice<'_>, detail: Detail, text: &str) -> Result<bool, Fail> {
    let options = Options {
        choice,
        detail,
        format: PLAIN,
        limit: None,
    };
    differ_by(rt, BEFORE, AFTER, options, text)
}

#[test]
fn only_cells_that_are_named_are_compared(rt: HostRuntime) -> Result<(), Fail> {
    let text = "- 1 cell B
- 1 rectangle 1 0 10 20 0 0
+ 1 cell C
+ 1 rectangle 3 0 10 20 0 0
";
    let choice = Choice {
        cells: Some(&["C", "D", "B"]),
        layers: None,
    };
    assert!(rt; differ(&rt, choice, Detail::Elements, text)?);
    Ok(())
}

#[test]
fn only_elements_on_the_layers_are_compared(rt: HostRuntime) -> Result<(), Fail> {
    let text = "@ cell A
+ 1 rectangle 3 0 10 20 0 0
@ cell C
+ 1 rectangle 3 0 10 20 0 0
";
    let choice = Choice {
        cells: None,
        layers: Some(LAYERS),
    };
    assert!(rt; differ(&rt, choice, Detail::Elements, text)?);
    let counts = "@ cell A - 0 + 1\n@ cell C - 0 + 1\n";
    assert!(rt; differ(&rt, choice, Detail::Counts, counts)?);
    Ok(())
}

#[test]
fn a_datatype_that_no_element_has_leaves_cells_alone(rt: HostRuntime) -> Result<(), Fail> {
    let choice = Choice {
        cells: Some(&["A"]),
        layers: Some(OTHER),
    };
    assert!(rt; differ(&rt, choice, Detail::Elements, "")?);
    Ok(())
}

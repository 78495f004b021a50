//! The weight of placements and texts at hand, and each reason in turn, where 2^24 elements may weigh 2^28.
ghost use Rattle.std.specs.Prelude.{◌≤◌, ◌^◌};

use super::{discard, label, name, place, placement, text, weighs, write};
use oas_drawing::ModalVariables;
use oas_elements::Limits;
use oas_num::Why;
use oas_peek::{Given, NamedOnce};
use oas_record::{CellRef, TextRef};
use std::alloc::Global;
use std::process::Abort;

/// A placement that gives no coordinate.
fn placed(cell: Given<'_>) -> NamedOnce<'_> {
    NamedOnce::Placement {
        cell,
        quarters: 0,
        flip: false,
        x: None,
        y: None,
    }
}

/// A text that gives no other field.
fn written(string: Given<'_>) -> NamedOnce<'_> {
    NamedOnce::Text {
        string,
        textlayer: None,
        texttype: None,
        x: None,
        y: None,
    }
}

/// The results for an element beyond the grid with weight 3: past each limit, and within them.
fn beyond_the_grid(modal: &ModalVariables, next: &NamedOnce<'_>) -> [Result<u64, Why>; 3] {
    [
        weighs(modal, next, 1 << 24, 1 << 28),
        weighs(modal, next, 0, (1 << 28) - 2),
        weighs(modal, next, 0, 0),
    ]
}

/// In the order of the reasons.
const BEYOND_THE_GRID: [Result<u64, Why>; 3] = [
    Err(Why::TooManyElements),
    Err(Why::TooHeavy),
    Err(Why::CoordinateRange),
];

/// The weight of a placement of the modal cell: before there is one, at the limits, and beyond the grid.
fn placements_weighed(
    alloc: Global,
) -> Result<([Result<u64, Why>; 2], [Result<u64, Why>; 3]), Why> {
    let cell = CellRef::Name(name(alloc)?);
    let mut modal = ModalVariables::new();
    let next = placed(Given::Modal);
    let undefined = weighs(&modal, &next, 1 << 24, 1 << 28);
    place(&mut modal, placement(Some(cell), 1 << 60, None));
    let within = weighs(&modal, &next, (1 << 24) - 1, (1 << 28) - 3);
    place(&mut modal, placement(None, (1 << 60) + 1, None));
    let beyond = beyond_the_grid(&modal, &next);
    discard(modal);
    Ok(([undefined, within], beyond))
}

#[test]
fn reasons_of_placements(rt: HostRuntime) {
    let first = [Err(Why::ModalUndefined), Ok(3)];
    assert!(rt; placements_weighed(rt.alloc()) == Ok((first, BEYOND_THE_GRID)));
}

/// The weight of a text with the modal string: before there is a texttype, and beyond the grid.
fn texts_weighed(alloc: Global) -> Result<(Result<u64, Why>, [Result<u64, Why>; 3]), Why> {
    let string = TextRef::Label(label(alloc)?);
    let mut modal = ModalVariables::new();
    let next = written(Given::Modal);
    write(&mut modal, text(Some(string), None, 5, Some(-6)));
    let undefined = weighs(&modal, &next, 1 << 24, 1 << 28);
    write(&mut modal, text(None, Some(0), 5, Some(-(1 << 60) - 1)));
    let beyond = beyond_the_grid(&modal, &next);
    discard(modal);
    Ok((undefined, beyond))
}

#[test]
fn reasons_of_texts(rt: HostRuntime) {
    let first = Err(Why::ModalUndefined);
    assert!(rt; texts_weighed(rt.alloc()) == Ok((first, BEYOND_THE_GRID)));
}

/// Why what gives a name of its own is refused after this many elements with that weight, if it is.
fn checked(modal: &ModalVariables, next: &NamedOnce<'_>, count: u64, weight: u64) -> Option<Why>
    requires few { count ≤ 2 ^ 24 }
    requires light { weight ≤ 2 ^ 28 }
{
    modal
        .check_named(next, Limits::standard(), count, weight)
        .err()
}

/// Why what weighs 4 is refused at the limit, and past it.
fn at_the_limit(modal: &ModalVariables, next: &NamedOnce<'_>) -> [Option<Why>; 2] {
    [
        checked(modal, next, 0, (1 << 28) - 4),
        checked(modal, next, 0, (1 << 28) - 3),
    ]
}

/// A placement of ABC at the limit and past it, before there is a modal cell and after another; one of a number at the limit,
/// and a text of ABC without a texttype.
fn names_checked(alloc: Global) -> Result<[[Option<Why>; 2]; 3], Why> {
    let cell = CellRef::Name(name(alloc)?);
    let mut modal = ModalVariables::new();
    let next = placed(Given::Bytes(b"ABC"));
    let first = at_the_limit(&modal, &next);
    place(&mut modal, placement(Some(cell), 5, None));
    let behind = at_the_limit(&modal, &next);
    let others = [
        checked(&modal, &placed(Given::Number(7)), 0, (1 << 28) - 1),
        checked(&modal, &written(Given::Bytes(b"ABC")), 1 << 24, 1 << 28),
    ];
    discard(modal);
    Ok([first, behind, others])
}

/// A name that is given has its weight before it is the modal one, whatever that is.
#[test]
fn names_weighed_before_they_are_modal(rt: HostRuntime) {
    let heavy = [None, Some(Why::TooHeavy)];
    let wanted = [heavy, heavy, [None, Some(Why::ModalUndefined)]];
    assert!(rt; names_checked(rt.alloc()) == Ok(wanted));
}

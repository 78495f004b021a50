//! A rectangle without a repetition: its result, and each reason in turn, where 2^24 elements may weigh 2^28.

ghost use Rattle.std.specs.Prelude.{◌≤◌, ◌^◌};

use super::{Seen, at, bare, discard, draw, full, seen};
use oas_drawing::ModalVariables;
use oas_elements::Limits;
use oas_num::Why;
use std::process::Abort;

/// What is seen of the rectangle that was drawn last after this many elements with that weight, or why it is refused.
fn one(modal: &ModalVariables, count: u64, weight: u64) -> Result<Option<Seen>, Why>
    requires few { count ≤ 2 ^ 24 }
    requires light { weight ≤ 2 ^ 28 }
{
    let drawn = modal.one_rectangle(Limits::standard(), count, weight)?;
    let seen = seen(&drawn);
    discard(drawn);
    Ok(seen)
}

/// Before any rectangle; and a square within the limits, and past each of them.
fn within_limits() -> [Result<Option<Seen>, Why>; 4] {
    let mut modal = ModalVariables::new();
    let undefined = one(&modal, 1 << 24, 1 << 28);
    draw(&mut modal, full(10, 20, at(Some(7), Some(-1))));
    draw(&mut modal, bare(true, at(None, Some(3))));
    let inside = one(&modal, (1 << 24) - 1, (1 << 28) - 1);
    let many = one(&modal, 1 << 24, 1 << 28);
    let heavy = one(&modal, (1 << 24) - 1, 1 << 28);
    discard(modal);
    [undefined, inside, many, heavy]
}

#[test]
fn one_rectangle(rt: HostRuntime) {
    let wanted = [
        Err(Why::ModalUndefined),
        Ok(Some((10, 10, 7, 3))),
        Err(Why::TooManyElements),
        Err(Why::TooHeavy),
    ];
    assert!(rt; within_limits() == wanted);
}

/// A rectangle at the edge of the grid, two past it, and the last where it is too heavy.
fn at_the_edge() -> [Result<Option<Seen>, Why>; 4] {
    let mut modal = ModalVariables::new();
    draw(
        &mut modal,
        full(10, 20, at(Some((1 << 60) - 10), Some(-(1 << 60)))),
    );
    let edge = one(&modal, 0, 0);
    draw(&mut modal, bare(false, at(Some((1 << 60) - 9), None)));
    let right = one(&modal, 0, 0);
    draw(&mut modal, bare(false, at(Some(0), Some(-(1 << 60) - 1))));
    let low = one(&modal, 0, 0);
    let heavy = one(&modal, 0, 1 << 28);
    discard(modal);
    [edge, right, low, heavy]
}

#[test]
fn one_rectangle_at_the_edge(rt: HostRuntime) {
    let wanted = [
        Ok(Some((10, 20, (1 << 60) - 10, -(1 << 60)))),
        Err(Why::CoordinateRange),
        Err(Why::CoordinateRange),
        Err(Why::TooHeavy),
    ];
    assert!(rt; at_the_edge() == wanted);
}

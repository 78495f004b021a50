//! What records draw one after another, as shown by the copies of the latest.
mod named;
mod paths;
mod places;
mod rectangles;
mod turns;

ghost use Rattle.std.specs.Prelude.{◌≡◌, ◌≤◌, ◌^◌, None, Some};
ghost use Rattle.oas_record.specs.declared.records.Record.{Record as OneRecord};
ghost use Rattle.oas_drawing.specs.Positions.{IsNear};
ghost use Rattle.oas_drawing.specs.Modal.{stepped};

use oas_drawing::{Drawn, Kind, ModalVariables};
use oas_elements::{Element, Limits};
use oas_num::Why;
use oas_record::{Circle, Placement, Rectangle, Spot};
use oas_shape::{RepField, Repetition};
use std::alloc::Global;
use std::process::Abort;

/// A place without a repetition.
fn at(x: Option<i64>, y: Option<i64>) -> Spot
    ensures { result ≡ record { x = x; y = y; repetition = None } }
{
    Spot {
        x,
        y,
        repetition: None,
    }
}

/// A rectangle of layer 1 with all its fields.
fn full(width: u64, height: u64, spot: Spot) -> Rectangle
    ensures { result.spot ≡ spot }
{
    Rectangle {
        square: false,
        layer: Some(1),
        datatype: Some(0),
        width: Some(width),
        height: Some(height),
        spot,
    }
}

/// A rectangle, or a square, with no field except its place.
fn bare(square: bool, spot: Spot) -> Rectangle
    ensures { result.spot ≡ spot }
{
    Rectangle {
        square,
        layer: None,
        datatype: None,
        width: None,
        height: None,
        spot,
    }
}

/// Draws the rectangle, which is dropped in a step of its own, since that is expensive to prove beside other values.
fn draw(modal: &mut ModalVariables, mut drawn: Rectangle)
    requires { IsNear modal.old.geometry }
    ensures { modal.new ≡ stepped modal.old (OneRecord.Rectangle drawn) }
{
    modal.draw_rectangle(&mut drawn);
}

/// Places a cell by the record, which is dropped in such a step.
fn place(modal: &mut ModalVariables, mut placed: Placement)
    requires { IsNear modal.old.placement }
    ensures { modal.new ≡ stepped modal.old (OneRecord.Placement placed) }
{
    modal.place(&mut placed);
}

/// Drops a value in such a step.
fn discard<T: Drop>(_value: T) {}

/// The last copy of an element.
fn last_copy(
    alloc: Global,
    modal: &ModalVariables,
    kind: Kind,
    repeated: bool,
) -> Result<Drawn, Why> {
    let number = modal.copies(&kind, repeated, Limits::standard(), 0, 0)?;
    if number == 0 || number > 1000 {
        return Err(Why::TooManyElements);
    }
    modal.copy(alloc, &kind, repeated, number - 1)
}

/// Whether the last copy of an element is this.
fn draws(
    alloc: Global,
    modal: &ModalVariables,
    kind: Kind,
    repeated: bool,
    wanted: &Drawn,
) -> bool {
    match last_copy(alloc, modal, kind, repeated) {
        Ok(drawn) => drawn == *wanted,
        Err(_) => false,
    }
}

/// Why an element is refused, if it is.
fn refusal(alloc: Global, modal: &ModalVariables, kind: Kind, repeated: bool) -> Option<Why> {
    last_copy(alloc, modal, kind, repeated).err()
}

/// The width, the height and the place of a rectangle of layer 1, datatype 0.
type Seen = (u64, u64, i64, i64);

/// What is seen of a rectangle; None of any other element.
fn seen(drawn: &Drawn) -> Option<Seen> {
    match drawn {
        Drawn::Named(
            Element::Rectangle {
                layer: 1,
                datatype: 0,
                width,
                height,
                x,
                y,
            },
        ) => Some((*width, *height, *x, *y)),
        _ => None,
    }
}

/// What is seen of the rectangle that was drawn last.
fn last_seen(alloc: Global, modal: &ModalVariables) -> Option<Seen> {
    let drawn = last_copy(alloc, modal, Kind::Rectangle, false).ok()?;
    let seen = seen(&drawn);
    discard(drawn);
    seen
}

/// A rectangle, a square of its width, and a rectangle of that square's size.
fn squares_seen(alloc: Global) -> [Option<Seen>; 3] {
    let mut modal = ModalVariables::new();
    draw(&mut modal, full(10, 20, at(Some(0), Some(0))));
    let rectangle = last_seen(alloc, &modal);
    draw(&mut modal, bare(true, at(Some(20), None)));
    let square = last_seen(alloc, &modal);
    draw(&mut modal, bare(false, at(None, Some(30))));
    let last = last_seen(alloc, &modal);
    discard(modal);
    [rectangle, square, last]
}

#[test]
fn squares(rt: HostRuntime) {
    let wanted = [
        Some((10, 20, 0, 0)),
        Some((10, 10, 20, 0)),
        Some((10, 10, 20, 30)),
    ];
    assert!(rt; squares_seen(rt.alloc()) == wanted);
}

/// Three circles with a radius equal to the grid's, the last at its edge.
fn circles() -> Circle {
    Circle {
        layer: Some(1),
        datatype: Some(2),
        radius: Some(1 << 60),
        spot: Spot {
            x: Some((1 << 60) - 20),
            y: Some(-5),
            repetition: Some(RepField::New(Repetition::Columns { dim: 1, space: 10 })),
        },
    }
}

/// Whether the last of the circles is drawn, and why a rectangle after them is refused.
fn copies_drawn(alloc: Global) -> (bool, Option<Why>) {
    let mut modal = ModalVariables::new();
    modal.draw_circle(&mut circles());
    let last = Drawn::Named(Element::Circle {
        layer: 1,
        datatype: 2,
        radius: 1 << 60,
        x: 1 << 60,
        y: -5,
    });
    let is_drawn = draws(alloc, &modal, Kind::Circle, true, &last);
    let refused = refusal(alloc, &modal, Kind::Rectangle, true);
    discard(modal);
    (is_drawn, refused)
}

#[test]
fn copies(rt: HostRuntime) {
    let wanted = (true, Some(Why::ModalUndefined));
    assert!(rt; copies_drawn(rt.alloc()) == wanted);
}

/// How many copies of a circle there are after this many elements with that weight, or why it is refused.
fn counted(modal: &ModalVariables, repeated: bool, count: u64, weight: u64) -> Result<u64, Why>
    requires few { count ≤ 2 ^ 24 }
    requires light { weight ≤ 2 ^ 28 }
{
    modal.copies(&Kind::Circle, repeated, Limits::standard(), count, weight)
}

/// The counts of three circles and of one at the limits, and one past them.
fn counts() -> [Result<u64, Why>; 4] {
    let mut modal = ModalVariables::new();
    modal.draw_circle(&mut circles());
    let counts = [
        counted(&modal, true, (1 << 24) - 3, 0),
        counted(&modal, true, (1 << 24) - 2, 0),
        counted(&modal, true, 0, (1 << 28) - 2),
        counted(&modal, false, 0, (1 << 28) - 2),
    ];
    discard(modal);
    counts
}

#[test]
fn copies_within_limits(rt: HostRuntime) {
    let wanted = [Ok(3), Err(Why::TooManyElements), Err(Why::TooHeavy), Ok(1)];
    assert!(rt; counts() == wanted);
}

/// Why a square is refused whose corner is past the edge of the grid.
fn far_corner(alloc: Global) -> Option<Why> {
    let mut modal = ModalVariables::new();
    let square = Rectangle {
        square: true,
        layer: Some(1),
        datatype: Some(0),
        width: Some(10),
        height: None,
        spot: at(Some((1 << 60) - 9), None),
    };
    draw(&mut modal, square);
    let refused = refusal(alloc, &modal, Kind::Rectangle, false);
    discard(modal);
    refused
}

#[test]
fn far_corners(rt: HostRuntime) {
    assert!(rt; far_corner(rt.alloc()) == Some(Why::CoordinateRange));
}

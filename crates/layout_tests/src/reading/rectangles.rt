//! A rectangle without a repetition, taken by itself and as a record: the result is the same.

ghost use Rattle.std.specs.Prelude.{◌≡◌, None};

use super::{KeepingOne, expect, finish, listed, unit};
use crate::parts::{discard, limits_of};
use oas_elements::{Limits, Profile};
use oas_layout::{Layout, Reader};
use oas_num::{Name, Refusal, SliceSource, Spelled, Why};
use oas_record::{CellRef, Record, Rectangle, Spot};
use std::alloc::Global;
use std::process::Abort;

/// The result for a rectangle, one that is 5 to its left and 3 above it, and one where the first is.
const LISTED_THREE: &str =
    "unit 1000/1;cell A;1 rectangle 1 0 10 20 0 0;2 rectangle 1 0 10 20 5 -3;";

/// A rectangle there, of that layer, or of the modal one.
fn rectangle(layer: Option<u64>, x: i64, y: i64) -> Rectangle
    ensures { result.spot.repetition ≡ None }
{
    Rectangle {
        square: false,
        layer,
        datatype: Some(0),
        width: Some(10),
        height: Some(20),
        spot: Spot {
            x: Some(x),
            y: Some(y),
            repetition: None,
        },
    }
}

/// Gives the reader a rectangle, by itself or as a record.
fn take_one(reader: &mut KeepingOne, alone: bool, at: u64, next: Rectangle) -> Result<(), Refusal>
    requires { next.spot.repetition ≡ None }
{
    if alone {
        reader.take_rectangle(at, next)
    } else {
        reader.take(at, Record::Rectangle(next))
    }
}

/// Gives the reader a cell and three rectangles.
fn take_three(reader: &mut KeepingOne, alone: bool, cell: Name) -> Result<(), Refusal> {
    reader.take(0, Record::Cell(CellRef::Name(cell)))?;
    take_one(reader, alone, 3, rectangle(Some(1), 5, -3))?;
    reader.take(10, Record::XyRelative)?;
    take_one(reader, alone, 11, rectangle(None, -5, 3))?;
    take_one(reader, alone, 17, rectangle(None, 5, -3))
}

/// The layout of a cell and three rectangles.
fn layout_of_three(
    alloc: Global,
    mut reader: KeepingOne,
    alone: bool,
    cell: Name,
) -> Result<Layout, Refusal> {
    let taken = take_three(&mut reader, alone, cell);
    finish(alloc, reader, taken, 23)
}

/// The result for three rectangles, within these limits: the lines of the layout, or NUMBER@OFFSET.
fn three(alloc: Global, alone: bool, limits: Result<Limits, Why>) -> Option<String> {
    let (unit, limits) = (unit().ok()?, limits.ok()?);
    let cell = Name::read(alloc, &mut SliceSource::new(b"\x01A", 100)).ok()?;
    let reader = Reader::new(alloc, unit, limits, Profile::One);
    listed(alloc, layout_of_three(alloc, reader, alone, cell))
}

/// Two elements are allowed, and then a third is not; or all may weigh 4 with a name that weighs 2.
#[test]
fn taken_or_refused_alike(rt: HostRuntime) {
    for (elements, weight, input, wanted) in [
        (3, 100, 6720, LISTED_THREE),
        (2, 100, 6720, "24@17"),
        (3, 4, 1000, "25@17"),
    ] {
        let limits = limits_of(elements, weight, input);
        expect(&rt, wanted, three(rt.alloc(), true, limits), wanted);
        expect(&rt, wanted, three(rt.alloc(), false, limits), wanted);
    }
}

/// What the reader returns for a rectangle of the modal layer, for one of a layer, and for a record.
fn take_on(reader: &mut KeepingOne, at: u64) -> [Result<(), Refusal>; 3] {
    [
        reader.take_rectangle(at, rectangle(None, 0, 0)),
        reader.take_rectangle(9, rectangle(Some(1), 0, 0)),
        reader.take(11, Record::Pad),
    ]
}

/// What it returns for them in a cell, if it's inside, or outside.
fn take_behind(reader: &mut KeepingOne, inside: bool, at: u64) -> [Result<(), Refusal>; 3] {
    if inside && reader.take(3, Record::Cell(CellRef::Number(7))).is_err() {
        return [Ok(()); 3];
    }
    take_on(reader, at)
}

/// The same for a new reader.
fn answers(alloc: Global, inside: bool, at: u64) -> Result<[Result<(), Refusal>; 3], Why> {
    let mut reader = Reader::new(alloc, unit()?, Limits::standard(), Profile::One);
    let answers = take_behind(&mut reader, inside, at);
    discard(reader);
    Ok(answers)
}

/// A rectangle outside a cell is refused, and one after a variable that no record gave; and then all that follows.
#[test]
fn rectangle_refused_again(rt: HostRuntime) {
    for (inside, at, why) in [
        (false, 7, Why::OutOfPlace(20)),
        (true, 5, Why::ModalUndefined),
    ] {
        let refused = Err(Refusal { at, why });
        assert!(rt;
            answers(rt.alloc(), inside, at) == Ok([refused; 3]),
            "at {at}"
        );
    }
}

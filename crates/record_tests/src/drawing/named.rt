//! Placements and texts at hand: what is drawn, compared with what their records draw.
mod weights;

ghost use Rattle.std.specs.Prelude.{◌≡◌, ◌≤◌, ◌^◌, None, Some, OnOk};
ghost use Rattle.oas_record.specs.declared.records.Record.{Record as OneRecord};
ghost use Rattle.oas_peek.specs.Named.{HasValidName, named_record};
ghost use Rattle.oas_drawing.specs.Positions.{IsNear};
ghost use Rattle.oas_drawing.specs.Modal.{fresh, stepped};

use super::{at, discard, draws, place};
use oas_drawing::{Drawn, DrawnOnce, Kind, ModalVariables};
use oas_elements::{Element, Limits, Turns};
use oas_num::{Label, Name, SliceSource, Spelled, Why};
use oas_peek::{Given, NamedOnce};
use oas_record::{CellRef, Placement, Text, TextRef, Turn};
use std::alloc::{AllocError, Global};
use std::process::Abort;

/// The name AB.
fn name(alloc: Global) -> Result<Name, Why> {
    Name::read(alloc, &mut SliceSource::new(b"\x02AB", 10))
}

/// The string AB.
fn label(alloc: Global) -> Result<Label, Why> {
    Label::read(alloc, &mut SliceSource::new(b"\x02AB", 10))
}

/// The record of a placement of a cell, or of the modal one.
fn placement(cell: Option<CellRef>, x: i64, y: Option<i64>) -> Placement
    ensures { result.spot ≡ record { x = Some x; y = y; repetition = None } }
{
    Placement {
        cell,
        turn: Turn::Quarters(3),
        flip: true,
        spot: at(Some(x), y),
    }
}

/// The record of a text of a string, or of the modal one.
fn text(string: Option<TextRef>, texttype: Option<u64>, x: i64, y: Option<i64>) -> Text
    ensures { result.spot ≡ record { x = Some x; y = y; repetition = None } }
{
    Text {
        string,
        textlayer: Some(4),
        texttype,
        spot: at(Some(x), y),
    }
}

/// Writes a text by the record, which is dropped in a step of its own.
fn write(modal: &mut ModalVariables, mut written: Text)
    requires { IsNear modal.old.text }
    ensures { modal.new ≡ stepped modal.old (OneRecord.Text written) }
{
    modal.write(&mut written);
}

/// The weight of the element, or why it is refused.
fn weighs(modal: &ModalVariables, next: &NamedOnce<'_>, count: u64, weight: u64) -> Result<u64, Why>
    requires few { count ≤ 2 ^ 24 }
    requires light { weight ≤ 2 ^ 28 }
{
    modal.check_named(next, Limits::standard(), count, weight)?;
    match modal.one_named(next) {
        Some(once) => Ok(once.weight()),
        None => Err(Why::ModalUndefined),
    }
}

/// Whether the element is this.
fn is_drawn(alloc: Global, once: &DrawnOnce<'_>, wanted: &Drawn) -> bool {
    match once.try_drawn(alloc) {
        Ok(drawn) => drawn == *wanted,
        Err(AllocError) => false,
    }
}

/// Whether the element is this, once the record has set what it gives.
fn draws_next(
    alloc: Global,
    modal: &mut ModalVariables,
    next: &NamedOnce<'_>,
    wanted: &Drawn,
) -> Result<bool, Why>
    requires placement { IsNear modal.old.placement }
    requires text { IsNear modal.old.text }
    requires named { HasValidName next.now }
    ensures { OnOk result (modal.new ≡ stepped modal.old (named_record next.now)) }
{
    modal.set_fields(next);
    modal.check_named(next, Limits::standard(), 0, 0)?;
    if modal.set_name(alloc, next).is_err() {
        return Err(Why::Memory);
    }
    match modal.one_named(next) {
        Some(once) => Ok(is_drawn(alloc, &once, wanted)),
        None => Ok(false),
    }
}

/// The same, and whether its record, which is of that kind, draws this too.
fn draws_both(
    alloc: Global,
    modal: &mut ModalVariables,
    next: &NamedOnce<'_>,
    kind: Kind,
    wanted: &Drawn,
) -> Result<(bool, bool), Why>
    requires placement { IsNear modal.old.placement }
    requires text { IsNear modal.old.text }
    requires named { HasValidName next.now }
{
    let is_drawn = draws_next(alloc, modal, next, wanted)?;
    Ok((is_drawn, draws(alloc, modal, kind, false, wanted)))
}

/// Whether a placement of AB, a step from the one before, is drawn as this.
fn places(alloc: Global, wanted: &Drawn) -> Result<(bool, bool), Why> {
    let cell = CellRef::Name(name(alloc)?);
    let mut modal = ModalVariables::new();
    place(&mut modal, placement(Some(cell), 5, Some(-6)));
    modal.set_relative(true);
    let next = NamedOnce::Placement {
        cell: Given::Bytes(b"AB"),
        quarters: 3,
        flip: true,
        x: Some(-7),
        y: None,
    };
    let kind = Kind::Placement {
        turn: Turn::Quarters(3),
        flip: true,
    };
    let drawn = draws_both(alloc, &mut modal, &next, kind, wanted);
    discard(modal);
    drawn
}

/// The placement that is drawn.
fn placed_element(alloc: Global) -> Result<Drawn, Why> {
    Ok(Drawn::Named(Element::Placement {
        cell: name(alloc)?,
        x: -2,
        y: -6,
        turns: Turns::T3,
        flip: true,
    }))
}

/// Whether it is drawn.
fn is_placed(alloc: Global) -> Result<(bool, bool), Why> {
    let wanted = placed_element(alloc)?;
    places(alloc, &wanted)
}

#[test]
fn placements(rt: HostRuntime) {
    assert!(rt; is_placed(rt.alloc()) == Ok((true, true)));
}

/// Whether a text of AB is drawn as this.
fn writes(alloc: Global, wanted: &Drawn) -> Result<(bool, bool), Why> {
    let string = TextRef::Label(label(alloc)?);
    let mut modal = ModalVariables::new();
    write(&mut modal, text(Some(string), Some(0), 5, Some(-6)));
    let next = NamedOnce::Text {
        string: Given::Bytes(b"AB"),
        textlayer: None,
        texttype: Some(2),
        x: Some(-7),
        y: None,
    };
    let drawn = draws_both(alloc, &mut modal, &next, Kind::Text, wanted);
    discard(modal);
    drawn
}

/// The text that is drawn.
fn written_element(alloc: Global) -> Result<Drawn, Why> {
    Ok(Drawn::Named(Element::Text {
        string: label(alloc)?,
        textlayer: 4,
        texttype: 2,
        x: -7,
        y: -6,
    }))
}

/// Whether it is drawn.
fn is_written(alloc: Global) -> Result<(bool, bool), Why> {
    let wanted = written_element(alloc)?;
    writes(alloc, &wanted)
}

#[test]
fn texts(rt: HostRuntime) {
    assert!(rt; is_written(rt.alloc()) == Ok((true, true)));
}

/// Whether a placement and a text with numbers are drawn one after another, and the weight of the text.
fn draws_numbers(
    alloc: Global,
    modal: &mut ModalVariables,
    placement: &NamedOnce<'_>,
    text: &NamedOnce<'_>,
    placed: &Drawn,
    written: &Drawn,
) -> Result<(bool, bool, u64), Why>
    requires modal { modal.old ≡ fresh }
    requires placement { HasValidName placement.now }
    requires text { HasValidName text.now }
    requires near { IsNear (stepped fresh (named_record placement.now)).placement }
    requires text_near { IsNear (stepped fresh (named_record placement.now)).text }
{
    let is_placed = draws_next(alloc, modal, placement, placed)?;
    let is_written = draws_next(alloc, modal, text, written)?;
    Ok((is_placed, is_written, weighs(modal, text, 0, 0)?))
}

/// Placement 9 and text 8 at hand.
const NUMBERED: (NamedOnce<'static>, NamedOnce<'static>) = (
    NamedOnce::Placement {
        cell: Given::Number(9),
        quarters: 1,
        flip: false,
        x: None,
        y: Some(3),
    },
    NamedOnce::Text {
        string: Given::Number(8),
        textlayer: Some(1),
        texttype: Some(2),
        x: Some(4),
        y: None,
    },
);

/// What these draw.
const BY_NUMBER: (Drawn, Drawn) = (
    Drawn::PlacementBy {
        number: 9,
        x: 0,
        y: 3,
        turns: Turns::T1,
        flip: false,
    },
    Drawn::TextBy {
        number: 8,
        textlayer: 1,
        texttype: 2,
        x: 4,
        y: 0,
    },
);

/// Whether these are drawn like this, and the weight of the text.
fn numbers_drawn(alloc: Global, placed: &Drawn, written: &Drawn) -> Result<(bool, bool, u64), Why> {
    let (placement, text) = NUMBERED;
    let mut modal = ModalVariables::new();
    let drawn = draws_numbers(alloc, &mut modal, &placement, &text, placed, written);
    discard(modal);
    drawn
}

/// A number sets its variable, and the element has it.
#[test]
fn numbers(rt: HostRuntime) {
    let (placed, written) = BY_NUMBER;
    let drawn = numbers_drawn(rt.alloc(), &placed, &written);
    discard(placed);
    discard(written);
    assert!(rt; drawn == Ok((true, true, 1)));
}

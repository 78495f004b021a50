//! Placements that are turned, and relative mode.
ghost use Rattle.std.specs.Prelude.{◌≡◌, None};

use super::{Seen, at, bare, discard, draw, full, last_copy, last_seen, place, refusal};
use oas_drawing::{Drawn, Kind, ModalVariables};
use oas_elements::Turns;
use oas_num::{Real, Why};
use oas_record::{CellRef, Placement, Turn};
use std::alloc::Global;
use std::process::Abort;

/// Placement 7, without coordinates.
fn seventh() -> Placement
    ensures { result.spot ≡ record { x = None; y = None; repetition = None } }
{
    Placement {
        cell: Some(CellRef::Number(7)),
        turn: Turn::Quarters(0),
        flip: false,
        spot: at(None, None),
    }
}

/// A placement turned by an angle, with a magnification.
fn turned(negative: bool, degrees: u64, magnification: u64) -> Kind {
    Kind::Placement {
        turn: Turn::Degrees {
            magnification: Some(Real {
                negative: false,
                num: magnification,
                den: 1,
            }),
            angle: Some(Real {
                negative,
                num: degrees,
                den: 1,
            }),
        },
        flip: true,
    }
}

/// How placement 7 at the origin is turned; None of any other element.
fn turns_in(drawn: &Drawn) -> Option<Turns> {
    match drawn {
        Drawn::PlacementBy {
            number: 7,
            x: 0,
            y: 0,
            turns,
            flip: true,
        } => Some(*turns),
        _ => None,
    }
}

/// How the last copy is turned, if it is such a placement.
fn turns_of(
    alloc: Global,
    modal: &ModalVariables,
    kind: Kind,
    repeated: bool,
) -> Result<Option<Turns>, Why> {
    let drawn = last_copy(alloc, modal, kind, repeated)?;
    let turns = turns_in(&drawn);
    discard(drawn);
    Ok(turns)
}

/// A rectangle in relative mode, and a placement in it.
fn stepped(alloc: Global) -> (Option<Seen>, Result<Option<Turns>, Why>) {
    let mut modal = ModalVariables::new();
    draw(&mut modal, full(10, 20, at(Some(7), Some(1))));
    modal.set_relative(true);
    draw(&mut modal, bare(false, at(Some(-10), None)));
    let rectangle = last_seen(alloc, &modal);
    place(&mut modal, seventh());
    let placement = turns_of(alloc, &modal, turned(false, 0, 1), false);
    discard(modal);
    (rectangle, placement)
}

#[test]
fn relative_steps(rt: HostRuntime) {
    let wanted = (Some((10, 20, -3, 1)), Ok(Some(Turns::T0)));
    assert!(rt; stepped(rt.alloc()) == wanted);
}

/// Why a placement is refused before any that gives its cell.
fn unplaced(alloc: Global, kind: Kind) -> Option<Why> {
    let modal = ModalVariables::new();
    let refused = refusal(alloc, &modal, kind, false);
    discard(modal);
    refused
}

#[test]
fn turns_before_a_placement(rt: HostRuntime) {
    let refused = unplaced(rt.alloc(), turned(false, 45, 2));
    assert!(rt; refused == Some(Why::ModalUndefined));
}

/// Whether an angle is negative, its degrees, a magnification, and whether the placement is repeated; and how it is turned,
/// or why it is refused.
const TURNS: [(bool, u64, u64, bool, Result<Option<Turns>, Why>); 6] = [
    (false, 45, 2, true, Err(Why::ModalUndefined)),
    (false, 45, 2, false, Err(Why::Magnification)),
    (false, 45, 1, false, Err(Why::Angle)),
    (true, 90, 1, false, Ok(Some(Turns::T3))),
    (false, 450, 1, false, Ok(Some(Turns::T1))),
    (true, 0, 1, false, Ok(Some(Turns::T0))),
];

/// How placement 7 is turned with that turn.
fn placed(alloc: Global, kind: Kind, repeated: bool) -> Result<Option<Turns>, Why> {
    let mut modal = ModalVariables::new();
    place(&mut modal, seventh());
    let turns = turns_of(alloc, &modal, kind, repeated);
    discard(modal);
    turns
}

#[test]
fn turns(rt: HostRuntime) {
    for (negative, degrees, magnification, repeated, wanted) in TURNS {
        let kind = turned(negative, degrees, magnification);
        assert!(rt; placed(rt.alloc(), kind, repeated) == wanted, "{degrees}");
    }
}

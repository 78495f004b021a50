//! Placements and texts that come next to one of their kind, judged by their fields alone and as elements.

use self::Step::{Drawn, Next};
use crate::elements::{Plain, label, name};
use oas_elements::Turns;
use oas_judge::FormJudge;
use std::alloc::Global;

/// What a judge is given.
#[derive(Clone, Copy)]
enum Step {
    /// An element.
    Drawn(Plain),
    /// The fields of a placement or of a text.
    Next(Plain),
}

/// A placement, and second ones with whether a judge holds after both.
const PLACEMENT: Plain = Plain::Placement(b"BB", (5, 5), Turns::T1, false);

const SECOND_PLACEMENTS: [(Plain, bool); 16] = [
    (Plain::Placement(b"BB", (5, 5), Turns::T1, false), true),
    (Plain::Placement(b"BB", (5, 5), Turns::T1, true), true),
    (Plain::Placement(b"BB", (5, 5), Turns::T3, false), true),
    (Plain::Placement(b"BB", (5, 6), Turns::T0, false), true),
    (Plain::Placement(b"BB", (6, -7), Turns::T0, false), true),
    (Plain::Placement(b"BB", (5, 5), Turns::T0, true), false),
    (Plain::Placement(b"BB", (5, 4), Turns::T3, true), false),
    (Plain::Placement(b"BB", (4, 9), Turns::T3, true), false),
    (
        Plain::Placement(b"BB", (i64::MIN, i64::MAX), Turns::T1, false),
        false,
    ),
    (Plain::Placement(b"C", (4, 4), Turns::T0, false), true),
    (Plain::Placement(b"BC", (4, 4), Turns::T0, false), true),
    (Plain::Placement(b"BBA", (4, 4), Turns::T0, false), true),
    (Plain::Placement(b"B", (6, 6), Turns::T3, true), false),
    (Plain::Placement(b"BA", (6, 6), Turns::T3, true), false),
    (Plain::Placement(b"BAZ", (6, 6), Turns::T3, true), false),
    (
        Plain::Placement(b"AZZZZZZZZ", (6, 6), Turns::T3, true),
        false,
    ),
];

/// A text, and second ones with whether a judge holds after both.
const TEXT: Plain = Plain::Text(b"Hi", (3, 2), (5, 5));

const SECOND_TEXTS: [(Plain, bool); 15] = [
    (Plain::Text(b"Hi", (3, 2), (5, 5)), true),
    (Plain::Text(b"Hi", (3, 2), (5, 6)), true),
    (Plain::Text(b"Hi", (3, 2), (6, -7)), true),
    (Plain::Text(b"Hi", (3, 3), (-7, -7)), true),
    (Plain::Text(b"Hi", (4, 0), (-7, -7)), true),
    (Plain::Text(b"Hi", (3, 2), (5, 4)), false),
    (Plain::Text(b"Hi", (3, 1), (9, 9)), false),
    (Plain::Text(b"Hi", (2, 9), (9, 9)), false),
    (Plain::Text(b"I", (0, 0), (4, 4)), true),
    (Plain::Text(b"Hj", (0, 0), (4, 4)), true),
    (Plain::Text(b"Hi ", (0, 0), (4, 4)), true),
    (Plain::Text(b"", (9, 9), (9, 9)), false),
    (Plain::Text(b"H", (9, 9), (9, 9)), false),
    (Plain::Text(b"Hh", (9, 9), (9, 9)), false),
    (Plain::Text(b"Hhi", (9, 9), (9, 9)), false),
];

/// A placement and a text that come late.
const LATE_PLACEMENT: Plain = Plain::Placement(b"BB", (9, 9), Turns::T3, true);

const LATE_TEXT: Plain = Plain::Text(b"Hi", (9, 9), (9, 9));

/// Placements at 0, 0.
const OF_BB: Plain = Plain::Placement(b"BB", (0, 0), Turns::T0, false);

const OF_MANY_BS: Plain = Plain::Placement(b"BBBBBBBBB", (0, 0), Turns::T0, false);

const OF_C: Plain = Plain::Placement(b"C", (0, 0), Turns::T0, false);

const OF_HI: Plain = Plain::Placement(b"Hi", (0, 0), Turns::T0, false);

/// Texts at 0, 0.
const SAYS_BB: Plain = Plain::Text(b"BB", (0, 0), (0, 0));

const SAYS_HI: Plain = Plain::Text(b"Hi", (0, 0), (0, 0));

const SAYS_MORE: Plain = Plain::Text(b"Hiiiiiiii", (0, 0), (0, 0));

const SAYS_I: Plain = Plain::Text(b"I", (0, 0), (0, 0));

/// Steps, each with whether it is judged and whether the judge then holds.
const ROWS: [(&str, &[(Step, bool, bool)]); 6] = [
    (
        "the placement that came next is the latest",
        &[
            (Drawn(LATE_PLACEMENT), true, true),
            (Next(OF_MANY_BS), true, true),
            (Next(OF_C), true, true),
            (Next(OF_C), true, true),
            (Drawn(LATE_PLACEMENT), true, false),
        ],
    ),
    (
        "the text that came next is the latest",
        &[
            (Drawn(LATE_TEXT), true, true),
            (Next(SAYS_MORE), true, true),
            (Next(SAYS_I), true, true),
            (Next(SAYS_I), true, true),
            (Drawn(LATE_TEXT), true, false),
        ],
    ),
    (
        "nothing comes next to no element",
        &[
            (Next(OF_BB), false, true),
            (Next(SAYS_HI), false, true),
            (
                Drawn(Plain::Placement(b"BB", (-9, 0), Turns::T0, false)),
                true,
                true,
            ),
        ],
    ),
    (
        "a text next to a placement changes nothing",
        &[
            (Drawn(PLACEMENT), true, true),
            (Next(SAYS_BB), false, true),
            (Drawn(PLACEMENT), true, true),
            (Next(SAYS_BB), false, true),
            (
                Drawn(Plain::Placement(b"BB", (5, 4), Turns::T1, false)),
                true,
                false,
            ),
        ],
    ),
    (
        "a placement next to a text changes nothing",
        &[
            (Drawn(TEXT), true, true),
            (Next(OF_HI), false, true),
            (Drawn(TEXT), true, true),
            (Next(OF_HI), false, true),
            (Drawn(Plain::Text(b"Hi", (3, 2), (5, 4))), true, false),
        ],
    ),
    (
        "neither comes next to a rectangle",
        &[
            (Drawn(Plain::Rectangle(1)), true, true),
            (Next(OF_BB), false, true),
            (Next(SAYS_HI), false, true),
            (Drawn(Plain::Rectangle(1)), true, true),
        ],
    ),
];

/// Judges a placement or a text by its fields, and returns whether it was judged.
fn follow(alloc: Global, judge: &mut FormJudge, next: Plain) -> Option<bool> {
    match next {
        Plain::Placement(bytes, at, turns, flip) => {
            let name = name(alloc, bytes)?;
            Some(judge.place_next(name.as_bytes(), at, turns, flip))
        }
        Plain::Text(bytes, layers, at) => {
            let label = label(alloc, bytes)?;
            Some(judge.write_next(label.as_bytes(), layers, at))
        }
        _ => None,
    }
}

/// Judges an element, and returns whether there is one.
fn draw(alloc: Global, judge: &mut FormJudge, element: Plain) -> Option<bool> {
    judge.draw_spelled(element.element(alloc)?);
    Some(true)
}

/// Takes a step, and returns whether it was judged and whether the judge then holds.
fn take(alloc: Global, judge: &mut FormJudge, step: Step) -> (Option<bool>, bool) {
    let is_judged = match step {
        Drawn(element) => draw(alloc, judge, element),
        Next(next) => follow(alloc, judge, next),
    };
    (is_judged, judge.holds())
}

/// How many of the steps, made one after another, have the given results.
fn steps_right(alloc: Global, steps: &[(Step, bool, bool)]) -> usize {
    let mut judge = FormJudge::new();
    let mut right = 0usize;
    for (step, is_judged, holds) in steps {
        if take(alloc, &mut judge, *step) == (Some(*is_judged), *holds) {
            right = right.saturating_add(1);
        }
    }
    right
}

/// The first row where not all steps have the given results, and how many have.
fn wrong_row<'a>(
    alloc: Global,
    rows: &[(&'a str, &[(Step, bool, bool)])],
) -> Option<(&'a str, usize)> {
    for (name, steps) in rows {
        let right = steps_right(alloc, *steps);
        if right != steps.len() {
            return Some((*name, right));
        }
    }
    None
}

#[test]
fn each_row(rt: HostRuntime) {
    assert_eq!(rt; wrong_row(rt.alloc(), &ROWS), None);
}

/// How many of two elements are judged as given, the second by its fields, and the second as an element.
fn pair_right(alloc: Global, first: Plain, second: Plain, holds: bool) -> [usize; 2] {
    let first = (Drawn(first), true, true);
    [
        steps_right(alloc, &[first, (Next(second), true, holds)]),
        steps_right(alloc, &[first, (Drawn(second), true, holds)]),
    ]
}

/// The place of the first of these that isn't judged as given after the other element, and how many of the two are.
fn wrong_second(
    alloc: Global,
    first: Plain,
    seconds: &[(Plain, bool)],
) -> Option<(usize, [usize; 2])> {
    for (place, (second, holds)) in seconds.iter().enumerate() {
        let right = pair_right(alloc, first, *second, *holds);
        if right != [2, 2] {
            return Some((place, right));
        }
    }
    None
}

#[test]
fn placements_next_are_judged_as_drawn(rt: HostRuntime) {
    assert_eq!(rt;
        wrong_second(rt.alloc(), PLACEMENT, &SECOND_PLACEMENTS),
        None
    );
}

#[test]
fn texts_next_are_judged_as_drawn(rt: HostRuntime) {
    assert_eq!(rt; wrong_second(rt.alloc(), TEXT, &SECOND_TEXTS), None);
}

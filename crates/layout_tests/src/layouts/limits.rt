//! Limits at and past the bounds of all limits, and drafts at theirs.

use super::elements::twice;
use super::{draft_of_a, layout_of_a, put, put_many, sealed, whole};
use crate::parts::{discard, limits_of};
use oas_elements::{Element, Limits, Profile};
use oas_layout::{Draft, Refused};
use oas_num::Why;
use std::alloc::Global;
use std::process::Abort;

#[test]
fn limits_that_there_are_not(rt: HostRuntime) {
    for (elements, weight, input) in [
        (67108865, 3, 512),
        (1, 1073741825, 274877906944),
        (1, 3, 511),
        (1, 3, 274877906945),
    ] {
        assert!(rt; Limits::new(elements, weight, input) == None);
    }
}

/// How many elements, which weight and how many bytes they allow.
fn bounds(limits: Option<Limits>) -> Option<[u64; 3]> {
    let limits = limits?;
    Some([limits.elements(), limits.weight(), limits.input()])
}

#[test]
fn limits_that_there_are(rt: HostRuntime) {
    for (limits, elements, weight, input) in [
        (Limits::new(1, 3, 512), 1, 3, 512),
        (Some(Limits::standard()), 16777216, 268435456, 68719476736),
        (Some(Limits::large()), 67108864, 1073741824, 274877906944),
    ] {
        assert!(rt;
            (limits, bounds(limits))
                == (
                    Limits::new(elements, weight, input),
                    Some([elements, weight, input])
                )
        );
    }
}

/// The number of the reason for which the draft hands this many of the element back; 0 where it doesn't.
fn number(draft: &mut Draft, given: Element, times: u64, wanted: &Element) -> u8 {
    match put_many(draft, 0, given, times) {
        Ok(()) => 0,
        Err(Refused { why, value: back }) => { if back == *wanted { why.number() } else { 0 } }
    }
}

/// The same for the element of the line.
fn refusal(draft: &mut Draft, alloc: Global, times: u64, line: &str) -> Result<u8, Why> {
    let (given, wanted) = twice(alloc, line)?;
    Ok(number(draft, given, times, &wanted))
}

/// Limits of elements and weight, this many of an element, and the number of the reason: 16 before 24, 24 before 25, 25
/// before 23. Then each coordinate, one past the grid.
const REFUSED: &[([u64; 4], &str)] = &[
    ([16777216, 268435456, 1, 16], "polygon 1 0 0,0 1,1"),
    ([16777216, 268435456, 1, 16], "path 1 0 5 0 0"),
    (
        [16777216, 268435456, 16777217, 24],
        "rectangle 1 0 10 20 0 0",
    ),
    ([1, 3, 5, 16], "polygon 1 0 9,9 2000000000000000000,0"),
    ([1, 3, 5, 16], "path 1 0 9000000000000000000 0 0"),
    ([1, 3, 5, 24], "path 1 0 9000000000000000000 0 0 1,1"),
    ([9, 3, 5, 25], "path 1 0 9000000000000000000 0 0 1,1"),
    ([9, 99, 5, 23], "path 1 0 9000000000000000000 0 0 1,1"),
    ([67108864, 3, 67108864, 25], "rectangle 1 0 1 1 0 0"),
    ([9, 5, 1, 25], "polygon 1 0 0,0 10,0 10,20 0,20"),
    ([9, 99, 1, 23], "rectangle 1 0 1 1 1152921504606846976 0"),
    ([9, 99, 1, 23], "rectangle 1 0 18446744073709551615 1 0 0"),
    ([9, 99, 1, 23], "rectangle 1 0 1 2 0 1152921504606846975"),
    ([9, 99, 1, 23], "text 1 0 0 -1152921504606846977 a"),
    ([9, 99, 1, 23], "placement B -1152921504606846977 0 0 0"),
    ([9, 99, 1, 23], "circle 1 0 1152921504606846977 0 0"),
    ([9, 99, 1, 23], "path 1 0 0 0 1152921504606846977 0,0"),
    ([9, 99, 1, 23], "path 1 0 0 -1152921504606846977 0 0,0"),
    ([9, 99, 1, 23], "polygon 1 0 0,0 1,1 0,1152921504606846977"),
];

/// The number of the reason for which a draft within these limits hands this many of the element of the line back; then how
/// many elements its layout has, and their weight.
fn refused(
    alloc: Global,
    limits: Result<Limits, Why>,
    times: u64,
    line: &str,
) -> Result<[u64; 3], Why> {
    let mut draft = draft_of_a(alloc, limits?, Profile::Two)?;
    let number = refusal(&mut draft, alloc, times, line);
    let layout = sealed(draft, Ok(()))?;
    let (count, weight) = (layout.count(), layout.weight());
    discard(layout);
    Ok([u64::from(number?), count, weight])
}

#[test]
fn reasons_in_their_order(rt: HostRuntime) {
    for &([elements, weight, times, reason], line) in REFUSED {
        let limits = limits_of(elements, weight, 1 << 38);
        assert!(rt;
            refused(rt.alloc(), limits, times, line) == Ok([reason, 0, 2]),
            "at {line}"
        );
    }
}

const AT_THE_EDGE: &str =
    "1 rectangle 1 0 2305843009213693952 2305843009213693952 -1152921504606846976 -1152921504606846976
1 rectangle 1 0 0 0 1152921504606846976 1152921504606846976
1 text 1 0 1152921504606846976 -1152921504606846976 a
1 placement B -1152921504606846976 1152921504606846976 3 1
1 circle 1 0 1152921504606846976 1152921504606846976 0
1 path 1 0 1152921504606846976 -1152921504606846976 1152921504606846976 0,1152921504606846976
1 polygon 1 0 0,0 0,1152921504606846976 -1152921504606846976,0";

/// How many elements the layout of the lines has.
fn count(alloc: Global, lines: &str) -> Result<u64, Why> {
    let layout = layout_of_a(alloc, Profile::One, lines)?;
    let count = layout.count();
    discard(layout);
    Ok(count)
}

#[test]
fn elements_at_the_edge_of_the_grid(rt: HostRuntime) {
    assert!(rt; count(rt.alloc(), AT_THE_EDGE) == Ok(7));
}

/// The number of the reason for which a circle is handed back after the elements of a line.
fn behind(
    alloc: Global,
    limits: Result<Limits, Why>,
    profile: Profile,
    line: &str,
) -> Result<u8, Why> {
    let mut draft = draft_of_a(alloc, limits?, profile)?;
    let added = put(&mut draft, alloc, 0, line);
    let number = refusal(&mut draft, alloc, 1, "circle 1 0 5 0 0");
    discard(whole(draft, added)?);
    number
}

/// A polygon that is kept as its rectangle leaves no more room than the polygon does.
#[test]
fn drafts_that_are_full(rt: HostRuntime) {
    let (alloc, light, standard) = (rt.alloc(), limits_of(9, 7, 768), Ok(Limits::standard()));
    let polygon = "1 polygon 1 0 0,0 10,0 10,20 0,20";
    let rectangles = "16777216 rectangle 1 0 10 20 0 0";
    assert!(rt;
        [
            behind(alloc, light, Profile::One, polygon),
            behind(alloc, light, Profile::Two, polygon),
            behind(alloc, standard, Profile::One, rectangles),
        ] == [Ok(25), Ok(25), Ok(24)]
    );
}

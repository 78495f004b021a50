//! The forms in which elements are kept, and layouts that are the same or not.

use super::{add, draft_of_a, first_elements, holds, is_held, layout_of_a, sealed};
use crate::parts::discard;
use oas_elements::{Element, Limits, Profile};
use oas_layout::{Draft, KeyedElement, Layout};
use oas_num::Why;
use oas_ring::{Point, Points};
use std::alloc::Global;
use std::process::Abort;

/// A profile, the elements that are added, the pairs that are held, and the weight. A polygon is held in its least reading,
/// and under profile two as its rectangle; but not with crossing sides, a side of length 0, or a repeated point.
const KEPT: &[(Profile, &str, &str, u64)] = &[
    (
        Profile::One,
        "1 rectangle 1 0 10 20 0 0\n1 rectangle 1 0 10 20 0 0",
        "2 rectangle 1 0 10 20 0 0",
        4,
    ),
    (
        Profile::Two,
        "1 rectangle 1 0 10 20 0 0\n1 rectangle 1 0 10 20 0 0",
        "2 rectangle 1 0 10 20 0 0",
        4,
    ),
    (
        Profile::One,
        "16777216 rectangle 1 0 10 20 0 0",
        "16777216 rectangle 1 0 10 20 0 0",
        16777218,
    ),
    (
        Profile::One,
        "1 polygon 1 0 0,0 10,0 10,20 0,20\n1 polygon 1 0 10,20 10,0 0,0 0,20",
        "2 polygon 1 0 0,0 0,20 10,20 10,0",
        12,
    ),
    (
        Profile::Two,
        "1 polygon 1 0 0,0 10,0 10,20 0,20\n1 polygon 1 0 10,20 10,0 0,0 0,20",
        "2 rectangle 1 0 10 20 0 0",
        4,
    ),
    (
        Profile::Two,
        "1 polygon 1 0 0,0 10,0 10,20 0,20",
        "1 rectangle 1 0 10 20 0 0",
        3,
    ),
    (
        Profile::One,
        "1 polygon 1 0 0,0 10,0 10,20 0,20\n1 rectangle 1 0 10 20 0 0",
        "1 rectangle 1 0 10 20 0 0\n1 polygon 1 0 0,0 0,20 10,20 10,0",
        8,
    ),
    (
        Profile::Two,
        "1 polygon 1 0 0,0 10,0 10,20 0,20\n1 rectangle 2 0 10 20 0 0\n1 rectangle 1 0 10 20 0 0",
        "2 rectangle 1 0 10 20 0 0\n1 rectangle 2 0 10 20 0 0",
        5,
    ),
    (
        Profile::Two,
        "1 polygon 1 0 0,0 10,20 10,0 0,20",
        "1 polygon 1 0 0,0 0,20 10,0 10,20",
        7,
    ),
    (
        Profile::Two,
        "1 polygon 1 0 0,0 0,0 10,0 10,0",
        "1 polygon 1 0 0,0 0,0 10,0 10,0",
        7,
    ),
    (
        Profile::Two,
        "1 polygon 1 0 0,5 0,0 5,0 0,5",
        "1 polygon 1 0 0,0 0,5 0,5 5,0",
        7,
    ),
    (
        Profile::Two,
        "1 polygon 1 0 2,0 1,0 0,0 1,0",
        "1 polygon 1 0 0,0 1,0 2,0 1,0",
        7,
    ),
    (
        Profile::Two,
        "1 polygon 1 0 -1152921504606846976,-1152921504606846976 1152921504606846976,-1152921504606846976 1152921504606846976,1152921504606846976 -1152921504606846976,1152921504606846976",
        "1 rectangle 1 0 2305843009213693952 2305843009213693952 -1152921504606846976 -1152921504606846976",
        3,
    ),
];

/// The profile of the layout of these lines, whether it has the pairs, and its weight.
fn kept(
    alloc: Global,
    profile: Profile,
    lines: &str,
    pairs: &str,
) -> Result<(Profile, bool, u64), Why> {
    let layout = layout_of_a(alloc, profile, lines)?;
    let is_held = holds(alloc, &layout, pairs);
    let found = (layout.profile(), is_held, layout.weight());
    discard(layout);
    Ok(found)
}

#[test]
fn elements_in_their_kept_forms(rt: HostRuntime) {
    for &(profile, lines, pairs, weight) in KEPT {
        assert!(rt;
            kept(rt.alloc(), profile, lines, pairs) == Ok((profile, true, weight)),
            "at {profile:?} {lines}"
        );
    }
}

/// The elements of one layout and of another, and whether they are the same under profile one and under two.
const SAME: &[(&str, &str, [bool; 2])] = &[
    ("1 text 3 0 0 0 Hi", "1 text 3 0 0 0 Ho", [false, false]),
    (
        "1 circle 1 0 5 0 0",
        "1 circle 1 0 5 0 0\n1 circle 1 0 5 0 0",
        [false, false],
    ),
    ("1 circle 1 0 5 0 0", "1 circle 1 0 5 0 1", [false, false]),
    (
        "1 rectangle 1 0 10 20 0 0",
        "1 rectangle 1 0 10 20 0 0",
        [true, true],
    ),
    (
        "1 circle 1 0 5 0 0\n1 text 3 0 0 0",
        "1 text 3 0 0 0\n1 circle 1 0 5 0 0",
        [true, true],
    ),
    (
        "1 polygon 1 0 0,0 10,0 10,20 0,20",
        "1 polygon 1 0 10,20 10,0 0,0 0,20",
        [true, true],
    ),
    (
        "1 polygon 1 0 0,0 10,0 10,20 0,20",
        "1 rectangle 1 0 10 20 0 0",
        [false, true],
    ),
    (
        "1 polygon 1 0 0,0 10,20 10,0 0,20",
        "1 rectangle 1 0 10 20 0 0",
        [false, false],
    ),
];

pub(super) fn same(a: &Layout, b: &Layout) -> bool {
    a.profile() == b.profile() && a.same(b)
}

/// Whether the layout of these lines is the same as another, either way round, and each is the same as itself.
fn sameness_with(
    alloc: Global,
    profile: Profile,
    a: &Layout,
    lines: &str,
) -> Result<[bool; 4], Why> {
    let b = layout_of_a(alloc, profile, lines)?;
    let sameness = [same(a, &b), same(&b, a), same(a, a), same(&b, &b)];
    discard(b);
    Ok(sameness)
}

/// The same for the layouts of these lines.
fn sameness(alloc: Global, profile: Profile, first: &str, second: &str) -> Result<[bool; 4], Why> {
    let a = layout_of_a(alloc, profile, first)?;
    let sameness = sameness_with(alloc, profile, &a, second);
    discard(a);
    sameness
}

#[test]
fn layouts_that_are_the_same_or_not(rt: HostRuntime) {
    for &(first, second, [one, two]) in SAME {
        assert!(rt;
            [
                sameness(rt.alloc(), Profile::One, first, second),
                sameness(rt.alloc(), Profile::Two, first, second),
            ] == [Ok([one, one, true, true]), Ok([two, two, true, true])],
            "at {first}"
        );
    }
}

/// A ring of 65536 points whose last is the least, from one of them on.
fn long_ring(alloc: Global, from: u32, step: u32) -> Result<Element, Why> {
    let mut list = Vec::new(alloc);
    let mut place = from;
    for _ in 0..65536u32 {
        let x = 65536 - i64::from(place % 65536);
        let y = if place % 2 == 0 { x } else { -x };
        list.push(Point { x, y })?;
        place = place.wrapping_add(step);
    }
    Ok(Element::Polygon {
        layer: 1,
        datatype: 0,
        points: Points::new(list),
    })
}

/// Adds the ring to the first cell in three readings.
fn add_rings(draft: &mut Draft, alloc: Global) -> Result<(), Why> {
    for (from, step) in [(5, 1), (40000, u32::MAX), (65535, u32::MAX)] {
        add(draft, 0, long_ring(alloc, from, step)?, 1)?;
    }
    Ok(())
}

/// The first pair of the first cell.
fn first_pair(layout: &Layout) -> Option<(KeyedElement<'_>, u64)> {
    first_elements(layout)?.next()
}

/// Whether the pair is three of that element.
fn is_three(alloc: Global, pair: Option<(KeyedElement<'_>, u64)>, wanted: &Element) -> bool {
    match pair {
        Some((held, count)) => count == 3 && is_held(alloc, &held, wanted),
        None => false,
    }
}

/// Whether the cell to which they are added has this ring three times.
fn has_three(alloc: Global, ring: &Element) -> Result<bool, Why> {
    let mut draft = draft_of_a(alloc, Limits::standard(), Profile::Two)?;
    let added = add_rings(&mut draft, alloc);
    let layout = sealed(draft, added)?;
    let has_three = is_three(alloc, first_pair(&layout), ring);
    discard(layout);
    Ok(has_three)
}

/// The least point has x = 1, and its neighbours x = 2 and x = 65536.
fn has_long_ring(alloc: Global) -> Result<bool, Why> {
    let wanted = long_ring(alloc, 65535, u32::MAX)?;
    has_three(alloc, &wanted)
}

#[test]
fn a_long_ring_in_three_readings(rt: HostRuntime) {
    assert!(rt; has_long_ring(rt.alloc()) == Ok(true));
}

//! The order of elements.

use super::{holds, layout_of_a};
use crate::parts::discard;
use oas_elements::Profile;
use oas_num::Why;
use std::alloc::Global;
use std::process::Abort;

/// By kind, and then by each field in turn: where two neighbours agree up to a field, that field decides, against those that
/// follow it. Numbers go by value, strings by bytes, a proper prefix first.
const ASCENDING: &str = "2 placement A -7 9 3 1
2 placement A 1 -9 3 1
2 placement A 1 2 1 1
2 placement A 1 2 2 0
2 placement A 1 2 2 1
2 placement A 1 2 3 0
2 placement AA 0 0 0 0
2 placement B -1 0 0 0
2 text 9 9 9 9
2 text 1 0 -5 9 Hi
2 text 1 0 0 -9 Hi
2 text 1 0 0 3 Hi
2 text 1 2 -8 0 Hi
2 text 2 0 0 0 Hi
2 text 0 0 0 0 Hii
2 text 0 0 0 0 Ho
2 rectangle 1 0 7 9 -5 8
2 rectangle 1 0 7 9 5 -8
2 rectangle 1 0 7 9 5 8
2 rectangle 1 0 7 11 0 0
2 rectangle 1 0 10 2 0 0
2 rectangle 1 1 1 1 0 0
2 rectangle 2 0 1 1 0 0
2 rectangle 18446744073709551615 0 1 1 0 0
2 polygon 1 0 -3,5 0,0 9,9
2 polygon 1 0 0,-2 1,4 1,5
2 polygon 1 0 0,0 0,9 2,2
2 polygon 1 0 0,0 1,1 3,2
2 polygon 1 0 0,0 1,1 3,2 2,0
2 polygon 1 0 0,0 1,2 2,0
2 polygon 1 2 -9,-9 0,0 1,0
2 polygon 3 0 -9,-9 0,0 1,0
2 path 1 0 5 -2 9 3,3
2 path 1 0 5 2 -9 3,3
2 path 1 0 5 2 3 -3,3
2 path 1 0 5 2 3 -3,3 0,0
2 path 1 0 5 2 3 -3,4
2 path 1 0 6 0 0 0,0
2 path 1 1 0 0 0 0,0
2 path 2 0 0 0 0 0,0
2 circle 1 0 5 -1 9
2 circle 1 0 5 0 -9
2 circle 1 0 5 0 9
2 circle 1 0 6 -9 0
2 circle 1 1 0 0 0
2 circle 2 0 0 0 0";

/// Whether the elements are given in their order.
fn are_ascending(alloc: Global, profile: Profile) -> Result<bool, Why> {
    let layout = layout_of_a(alloc, profile, ASCENDING)?;
    let are_ascending = holds(alloc, &layout, ASCENDING);
    discard(layout);
    Ok(are_ascending)
}

#[test]
fn elements_are_given_in_their_order(rt: HostRuntime) {
    for profile in [Profile::One, Profile::Two] {
        assert!(rt;
            are_ascending(rt.alloc(), profile) == Ok(true),
            "{profile:?}"
        );
    }
}

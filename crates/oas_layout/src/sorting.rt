//! Runs in the order of their names.

ghost use Rattle.std.specs.List.Sorted.{IsPermutation, IsSortedByKey};
ghost use Rattle.std.specs.Ordering.{nat_cmp};
ghost use Rattle.std.specs.Cmp.Lexicographic.{slice_cmp};

use oas_num::Name;
use oas_runs::{AT_ONCE, Run, number_of, order_of};
use std::alloc::{AllocError, Global};
use std::cmp::Ordering;

/// So many runs are worth a list of their places.
const MANY: usize = 64;

/// Where a run is among all, and the eight bytes of its name behind what all names begin with, as a number. These decide most
/// comparisons, and a sort moves only them.
#[derive(Clone, Copy)]
struct Place {
    front: u64,
    at: usize,
}

/// The first eight bytes as a number with the first byte highest. Where there are fewer, they are padded with zeros.
#[inline(always)]
fn front_of(bytes: &[u8]) -> u64 {
    if bytes.len() >= AT_ONCE {
        return number_of(bytes);
    }
    let mut front = [0; AT_ONCE];
    for (to, byte) in front.iter_mut().zip(bytes) {
        *to = *byte;
    }
    number_of(&front)
}

/// What a name has of these bytes in front.
fn shared_with<'a>(front: &'a [u8], name: &[u8]) -> &'a [u8] {
    if name.starts_with(front) {
        return front;
    }
    let near = front.len().min(name.len());
    for i in 0..near {
        if front[i] != name[i] {
            return &front[..i];
        }
    }
    &front[..near]
}

/// How many bytes all names have in common in front.
fn shared_by_all(runs: &[(Name, Run)]) -> usize {
    let Some((first, _)) = runs.first() else {
        return 0;
    };
    let mut shared = first.as_bytes();
    for (name, _) in runs {
        shared = shared_with(shared, name.as_bytes());
    }
    shared.len()
}

/// The places of all, in their order.
fn places_of(alloc: Global, runs: &[(Name, Run)]) -> Result<Vec<Place>, AllocError> {
    let shared = shared_by_all(runs);
    let mut places = Vec::with_capacity(alloc, runs.len())?;
    for (at, (name, _)) in runs.iter().enumerate() {
        let front = match name.as_bytes().get(shared..) {
            Some(rest) => front_of(rest),
            None => 0,
        };
        places.push(Place { front, at })?;
    }
    Ok(places)
}

/// How the names at two places compare.
#[inline(always)]
fn order(one: &Place, other: &Place, runs: &[(Name, Run)]) -> Ordering {
    if one.front != other.front {
        return one.front.cmp(&other.front);
    }
    match (runs.get(one.at), runs.get(other.at)) {
        (Some((one, _)), Some((other, _))) => order_of(one.as_bytes(), other.as_bytes()),
        _ => Ordering::Equal,
    }
}

/// Where the run of this place is, after those before it were swapped to theirs. It is noted, so that no run is followed twice.
fn follow(places: &mut [Place], place: usize) -> usize {
    let mut at = place;
    for _ in 0..=place {
        at = match places.get(at) {
            Some(next) => next.at,
            None => place,
        };
        if at >= place {
            break;
        }
    }
    if let Some(noted) = places.get_mut(place) {
        noted.at = at;
    }
    at
}

/// Exchanges two runs.
fn exchange(runs: &mut [(Name, Run)], one: usize, other: usize)
    ensures { IsPermutation runs.old runs.new }
{
    if one < runs.len() && other < runs.len() {
        runs.swap(one, other);
    }
}

/// Puts each run in its place.
fn arrange(runs: &mut [(Name, Run)], places: &mut [Place])
    ensures { IsPermutation runs.old runs.new }
{
    for place in 0..runs.len() {
        let at = follow(places, place);
        exchange(runs, place, at);
    }
}

/// Puts many runs in the order of their names, or none where there is no memory for the list of their places.
fn arrange_by_name(alloc: Global, runs: &mut [(Name, Run)]) -> Result<(), AllocError>
    ensures { IsPermutation runs.old runs.new }
{
    if runs.len() < MANY {
        return Ok(());
    }
    let mut places = places_of(alloc, runs)?;
    places.sort_unstable_by(|one, other| order(one, other, runs));
    arrange(runs, &mut places);
    Ok(())
}

/// Puts runs in the order of their names, in place. Names that ascend already are gone through once.
pub(crate) fn sort_by_name(alloc: Global, runs: &mut Vec<(Name, Run)>)
    ensures same { IsPermutation runs.old.items runs.new.items }
    ensures ascending { IsSortedByKey (λ r. r.0) (slice_cmp nat_cmp) runs.new.items }
{
    // Whatever it did, the sort after it puts them in order.
    let _ = arrange_by_name(alloc, runs);
    runs.sort_unstable_by(|one, other| order_of(one.0.as_bytes(), other.0.as_bytes()));
}

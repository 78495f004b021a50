//! The least reading of a ring, in at most seven comparisons a point: three for the least rotation in each
//! direction, and one to compare the two.
//!
//! In a slice the point below all others, if there is one, is found first: each least reading begins there, so only its two
//! directions are left to compare.

ghost use Rattle.std.specs.Prelude.{◌≡◌, ◌+◌, ◌-◌, ◌*◌, ◌<◌, ◌≤◌, ◌^◌, List, length, IfSome};
ghost use Rattle.oas_ring.specs.Points.{list_cmp};
ghost use Rattle.oas_ring.specs.Rings.{rotation};
ghost use Rattle.oas_ring.specs.Readings.{reading_of, directed, IsLeastReadingOf};
ghost use Rattle.oas_ring.specs.Race.{next_order, IsLeastTurn};
ghost use Rattle.oas_ring.specs.SoleLeast.{IsSoleLeast};
ghost use Rattle.oas_ring.specs.declared.point.Point.{Point};

use crate::point::Point;
use crate::race::{Race, advance};
use crate::readings::{Reading, place};
use crate::view::{CountedRing, RingView};
use std::cmp::Ordering;

/// The reading that begins after `turn` points in a direction.
fn reading_from(count: usize, backwards: bool, turn: usize) -> Reading
    requires { turn < count }
    ensures start { result.start < count }
    ensures reading { (p : List Point) → length p ≡ count → reading_of p result ≡ rotation turn (directed backwards p) }
{
    let start = if backwards { count - 1 - turn } else { turn };
    Reading { start, backwards }
}

/// Compares the points after those in which the two candidates agree.
fn compare_next<V: RingView>(view: &mut V, backwards: bool, race: Race) -> Ordering
    requires best { race.best < length (V.points view.old) }
    requires rival { race.rival < length (V.points view.old) }
    requires agreed { race.agreed < length (V.points view.old) }
    requires few { V.steps view.old < 2 ^ 63 }
    ensures order { result ≡ next_order (directed backwards (V.points view.old)) race }
    ensures step { V.steps view.new ≡ V.steps view.old + 1 }
    ensures fixed { V.points view.new ≡ V.points view.old }
{
    let count = view.len();
    let best = reading_from(count, backwards, race.best);
    let rival = reading_from(count, backwards, race.rival);
    let i = place(count, best, race.agreed);
    let j = place(count, rival, race.agreed);
    view.compare(i, j)
}

/// After how many points in one direction the least rotation begins, in at most three comparisons a point.
fn least_turn<V: RingView>(view: &mut V, backwards: bool) -> usize
    requires some { 0 < length (V.points view.old) }
    requires room { length (V.points view.old) ≤ 2 ^ 59 }
    requires few { V.steps view.old + 3 * length (V.points view.old) ≤ 2 ^ 63 }
    ensures within { result < length (V.points view.old) }
    ensures least { IsLeastTurn (directed backwards (V.points view.old)) result }
    ensures cost { V.steps view.new ≤ V.steps view.old + 3 * length (V.points view.old) }
    ensures fixed { V.points view.new ≡ V.points view.old }
{
    let count = view.len();
    let mut race = Race {
        best: 0,
        rival: 1,
        agreed: 0,
    };
    while race.rival < count && race.agreed < count {
        let order = compare_next(view, backwards, race);
        race = advance(race, order);
    }
    race.best
}

/// Compares two readings as lists, in at most one comparison a point.
fn compare_readings<V: RingView>(view: &mut V, a: Reading, b: Reading) -> Ordering
    requires first { a.start < length (V.points view.old) }
    requires second { b.start < length (V.points view.old) }
    requires few { V.steps view.old + length (V.points view.old) ≤ 2 ^ 63 }
    ensures order { result ≡ list_cmp (reading_of (V.points view.old) a) (reading_of (V.points view.old) b) }
    ensures cost { V.steps view.new ≤ V.steps view.old + length (V.points view.old) }
    ensures fixed { V.points view.new ≡ V.points view.old }
{
    let count = view.len();
    for k in 0..count {
        let i = place(count, a, k);
        let j = place(count, b, k);
        match view.compare(i, j) {
            Ordering::Equal => {}
            order => return order,
        }
    }
    Ordering::Equal
}

/// A reading that gives the least list of the ring, in at most seven comparisons a point. Where several
/// readings give that list, it is one of them.
pub fn least_reading_over<V: RingView>(view: &mut V) -> Reading
    requires some { 0 < length (V.points view.old) }
    requires room { length (V.points view.old) ≤ 2 ^ 59 }
    requires few { V.steps view.old ≤ 2 ^ 62 }
    ensures start { result.start < length (V.points view.old) }
    ensures least { IsLeastReadingOf (V.points view.old) (reading_of (V.points view.old) result) }
    ensures cost { V.steps view.new ≤ V.steps view.old + 7 * length (V.points view.old) }
    ensures fixed { V.points view.new ≡ V.points view.old }
{
    let count = view.len();
    let forth = least_turn(view, false);
    let back = least_turn(view, true);
    let forwards = reading_from(count, false, forth);
    let backwards = reading_from(count, true, back);
    match compare_readings(view, forwards, backwards) {
        Ordering::Greater => backwards,
        _ => forwards,
    }
}

/// The place of a point that is strictly below each other one, in one comparison a point; None where the least point occurs
/// more than once.
fn sole_least(points: &[Point]) -> Option<usize>
    requires { 0 < length points.now }
    ensures { IfSome result (IsSoleLeast points.now) }
{
    let mut start = 0;
    let mut least = points[0];
    let mut sole = true;
    for i in 1..points.len() {
        let point = points[i];
        // A greater x decides alone.
        if point.x <= least.x {
            if point.x < least.x || point.y < least.y {
                start = i;
                least = point;
                sole = true;
            } else if point.y == least.y {
                sole = false;
            }
        }
    }
    if sole { Some(start) } else { None }
}

/// The lesser of the two readings that begin at the one point below all others. Each other reading begins at a greater point.
fn least_from(points: &[Point], start: usize) -> Reading
    requires { IsSoleLeast points.now start }
    ensures start { result.start < length points.now }
    ensures least { IsLeastReadingOf points.now (reading_of points.now result) }
{
    let forwards = Reading {
        start,
        backwards: false,
    };
    let backwards = Reading {
        start,
        backwards: true,
    };
    match compare_readings(&mut CountedRing::new(points), forwards, backwards) {
        Ordering::Greater => backwards,
        _ => forwards,
    }
}

/// A reading that gives the least list of the ring, in linear time. Where several readings give that list, it is one of them.
pub fn least_reading(points: &[Point]) -> Reading
    requires { 0 < length points.now }
    ensures start { result.start < length points.now }
    ensures least { IsLeastReadingOf points.now (reading_of points.now result) }
{
    match sole_least(points) {
        Some(start) => least_from(points, start),
        None => least_reading_over(&mut CountedRing::new(points)),
    }
}

//! Two candidates for the least rotation that advance through a list together.
//!
//! The candidates are compared point by point. At the first points that differ the greater candidate is out. So is each start
//! up to the one after the compared points, since a rotation of the lesser candidate beats it. So each comparison moves a
//! candidate on or lengthens the part in which they agree, and none is wasted.

ghost use Rattle.std.specs.Prelude.{◌≡◌, ◌+◌, ◌*◌, ◌<◌, ◌≤◌, ◌^◌, List, length};
ghost use Rattle.oas_ring.specs.Race.{IsRace, next_order};
ghost use Rattle.oas_ring.specs.declared.point.Point.{Point};

use std::cmp::Ordering;

/// Two candidates for the start of the least rotation, `best` before `rival`, and in how many points they agree so far. Every
/// other start before `rival` is out.
#[derive(Clone, Copy, Debug)]
pub(crate) struct Race {
    pub best: usize,
    pub rival: usize,
    pub agreed: usize,
}

/// The race after comparing the points after those in which the candidates agree.
pub(crate) fn advance(race: Race, order: Ordering) -> Race
    requires best { race.best < 2 ^ 59 }
    requires rival { race.rival < 2 ^ 59 }
    requires agreed { race.agreed < 2 ^ 59 }
    ensures rises { race.best + race.rival + race.agreed < result.best + result.rival + result.agreed }
    ensures bounded { race.best < race.rival
        → result.best + result.rival + result.agreed ≤ 2 * race.rival + race.agreed + 1 }
    ensures race { (q : List Point) → IsRace q race → race.rival < length q → race.agreed < length q → order ≡ next_order q race
        → IsRace q result }
{
    match order {
        Ordering::Equal => Race {
            best: race.best,
            rival: race.rival,
            agreed: race.agreed + 1,
        },
        Ordering::Less => Race {
            best: race.best,
            rival: race.rival + race.agreed + 1,
            agreed: 0,
        },
        Ordering::Greater => Race {
            best: race.rival,
            rival: (race.best + race.agreed + 1).max(race.rival + 1),
            agreed: 0,
        },
    }
}

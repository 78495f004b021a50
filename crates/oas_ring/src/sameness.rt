//! Whether two lists of points are the same ring.

ghost use Rattle.std.specs.Prelude.{◌≡◌, ◌<◌, ◌↔◌, length, IsTrue};
ghost use Rattle.oas_ring.specs.Rings.{SameRing};
ghost use Rattle.oas_ring.specs.Readings.{reading_of};

use crate::least::least_reading;
use crate::point::Point;
use crate::readings::{Reading, place};

/// Whether two readings, each of its own list, give one list.
fn same_readings(a: &[Point], in_a: Reading, b: &[Point], in_b: Reading) -> bool
    requires first { in_a.start < length a.now }
    requires second { in_b.start < length b.now }
    requires same { length a.now ≡ length b.now }
    ensures { IsTrue result ↔ (reading_of a.now in_a ≡ reading_of b.now in_b) }
{
    let count = a.len();
    for k in 0..count {
        let i = place(count, in_a, k);
        let j = place(count, in_b, k);
        if a[i] != b[j] {
            return false;
        }
    }
    true
}

/// Whether one list is a rotation of the other or of its reverse, in linear time and without allocation. Two empty lists are
/// the same ring, and lists of different lengths are not.
pub fn same_ring(a: &[Point], b: &[Point]) -> bool
    ensures { IsTrue result ↔ SameRing a.now b.now }
{
    if a.len() != b.len() {
        false
    } else if a.is_empty() {
        true
    } else {
        let in_a = least_reading(a);
        let in_b = least_reading(b);
        same_readings(a, in_a, b, in_b)
    }
}

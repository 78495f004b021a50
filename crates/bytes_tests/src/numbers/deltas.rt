//! Deltas of each kind, in each direction.

use oas_num::{Delta1, Delta2, Delta3, GDelta, SliceSource, Spelled, Why};
use std::alloc::Global;

/// The bytes of a 3-delta and of a g-delta in each of the eight directions, and their step of length five.
const FIVE: [(u8, u8, i64, i64); 8] = [
    (40, 80, 5, 0),
    (41, 82, 0, 5),
    (42, 84, -5, 0),
    (43, 86, 0, -5),
    (44, 88, 5, 5),
    (45, 90, -5, 5),
    (46, 92, -5, -5),
    (47, 94, 5, -5),
];

/// The byte of a 2-delta in each direction along an axis, and its step of length five.
const FIVE_ALONG_AN_AXIS: [(u8, i64, i64); 4] = [(20, 5, 0), (21, 0, 5), (22, -5, 0), (23, 0, -5)];

/// The value that a byte is read as.
fn read_byte<T: Spelled>(alloc: Global, byte: u8) -> Result<T, Why> {
    T::read(alloc, &mut SliceSource::new(&[byte], 1))
}

#[test]
fn directions(rt: HostRuntime) {
    for (delta, general, dx, dy) in FIVE {
        let step = read_byte(rt.alloc(), delta);
        assert!(rt; step == Ok(Delta3 { dx, dy }), "{delta}");
        let step = read_byte(rt.alloc(), general);
        assert!(rt; step == Ok(GDelta { dx, dy }), "{general}");
    }
}

#[test]
fn directions_along_an_axis(rt: HostRuntime) {
    for (delta, dx, dy) in FIVE_ALONG_AN_AXIS {
        let step = read_byte(rt.alloc(), delta);
        assert!(rt; step == Ok(Delta2 { dx, dy }), "{delta}");
    }
}

#[test]
fn two_numbers(rt: HostRuntime) {
    let mut source = SliceSource::new(&[9, 2, 11, 3, 3, 1], 6);
    let steps = [
        GDelta::read(rt.alloc(), &mut source),
        GDelta::read(rt.alloc(), &mut source),
        GDelta::read(rt.alloc(), &mut source),
        GDelta::read(rt.alloc(), &mut source),
    ];
    let expected = [
        Ok(GDelta { dx: 2, dy: 1 }),
        Ok(GDelta { dx: -2, dy: -1 }),
        Ok(GDelta { dx: 0, dy: 0 }),
        Err(Why::Truncated),
    ];
    assert!(rt; steps == expected);
}

#[test]
fn one_number(rt: HostRuntime) {
    let steps = [read_byte(rt.alloc(), 7), read_byte(rt.alloc(), 6)];
    assert!(rt; steps == [Ok(Delta1(-3)), Ok(Delta1(3))]);
}

//! The bytes of numbers.

use oas_num::{
    Counter, NotedWriter, Outlet, Sink, put_gdelta, put_signed, put_unsigned, unsigned_len,
};
use std::alloc::Global;

/// A number, a signed number, or a step that is put.
#[derive(Clone, Copy)]
enum Put {
    Unsigned(u64),
    Signed(i64),
    Step(i64, i64),
}

/// Puts it, and returns whether that succeeds, with the expected number of bytes where it is known before.
fn is_put<K: Sink>(sink: &mut K, what: Put, count: u64) -> bool {
    match what {
        Put::Unsigned(value) => unsigned_len(value) == count && put_unsigned(sink, value).is_ok(),
        Put::Signed(value) => value != i64::MIN && put_signed(sink, value).is_ok(),
        Put::Step(dx, dy) => {
            let within = dx.unsigned_abs() < 1 << 62 && dy != i64::MIN;
            within && put_gdelta(sink, dx, dy).is_ok()
        }
    }
}

/// Whether it is put, the outlet closes, and these are the bytes.
fn is_put_as(alloc: Global, what: Put, bytes: &[u8]) -> [bool; 3] {
    let mut written = Vec::new(alloc);
    let mut writer = NotedWriter::new(&mut written);
    let mut outlet = Outlet::new(&mut writer);
    let put = is_put(&mut outlet, what, bytes.len() as u64);
    let closes = outlet.close().is_ok();
    [put, closes, written.as_slice() == bytes]
}

/// Numbers, signed numbers and steps, and the bytes of each.
const PUT: [(Put, &[u8]); 19] = [
    (Put::Unsigned(0), &[0]),
    (Put::Unsigned(127), &[127]),
    (Put::Unsigned(128), &[128, 1]),
    (Put::Unsigned(16383), &[255, 127]),
    (Put::Unsigned(16384), &[128, 128, 1]),
    (
        Put::Unsigned(u64::MAX),
        &[255, 255, 255, 255, 255, 255, 255, 255, 255, 1],
    ),
    (Put::Signed(0), &[0]),
    (Put::Signed(1), &[2]),
    (Put::Signed(-1), &[3]),
    (Put::Signed(63), &[126]),
    (Put::Signed(-64), &[129, 1]),
    (
        Put::Signed(-i64::MAX),
        &[255, 255, 255, 255, 255, 255, 255, 255, 255, 1],
    ),
    (Put::Step(0, 0), &[1, 0]),
    (Put::Step(1, 0), &[5, 0]),
    (Put::Step(-1, 0), &[7, 0]),
    (Put::Step(0, 1), &[1, 2]),
    (Put::Step(0, -1), &[1, 3]),
    (Put::Step(10, -20), &[41, 41]),
    (
        Put::Step(4611686018427387903, 0),
        &[253, 255, 255, 255, 255, 255, 255, 255, 255, 1, 0],
    ),
];

#[test]
fn numbers_and_steps(rt: HostRuntime) {
    for (what, bytes) in PUT {
        let found = is_put_as(rt.alloc(), what, bytes);
        assert!(rt; found == [true; 3], "{bytes:?}");
    }
}

#[test]
fn bytes_are_counted(rt: HostRuntime) {
    let mut counter = Counter::new();
    let put = put_unsigned(&mut counter, 300).is_ok();
    let found = (put, counter.count());
    assert!(rt; found == (true, 2));
}

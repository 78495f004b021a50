//! Each call once over a small file, and room that is too small.

use super::*;
use std::alloc::Global;
use std::test::Fail;

/// The magic, START with unit 1000, and one cell `A` with one rectangle.
const FRONT: [u8; 45] = [
    0x25, 0x53, 0x45, 0x4D, 0x49, 0x2D, 0x4F, 0x41, 0x53, 0x49, 0x53, 0x0D, 0x0A, 0x01, 0x03, 0x31,
    0x2E, 0x30, 0x00, 0xE8, 0x07, 0, 0, 0, 0, 0, 0, 0, 0, 0, 0, 0, 0, 0, 0x0E, 0x01, 0x41, 0x14,
    0x7B, 0x01, 0x00, 0x0A, 0x14, 0x00, 0x00,
];

/// The standard limits.
const STANDARD: Bounds = Bounds {
    elements: 16_777_216,
    weight: 268_435_456,
    input: 68_719_476_736,
};

/// A file of that front and the canonical END.
fn file() -> [u8; 301] {
    let mut file = [0; 301];
    file[..45].copy_from_slice(&FRONT);
    file[45] = 0x02;
    file[46] = 0xFC;
    file[47] = 0x01;
    file
}

/// Room of so many bytes.
fn room_of(alloc: Global, length: usize) -> Result<Vec<u8>, Fail> {
    let mut room = Vec::new(alloc);
    for _ in 0..length {
        room.push(0xEE)?;
    }
    Ok(room)
}

#[test]
fn a_canonical_file(rt: HostRuntime) -> Result<(), Fail> {
    let alloc = rt.alloc();
    let file = file();
    let mut room = room_of(alloc, 400)?;
    let done = oascanon_c_canonicalize(alloc, &file, &STANDARD, &mut room[..]);
    assert_eq!(rt; (done.status, done.length), (0, 301));
    assert!(rt; room.starts_with(&file));
    assert!(rt; room.iter().skip(301).all(|byte| *byte == 0xEE));
    let mut short = room_of(alloc, 40)?;
    let small = oascanon_c_canonicalize(alloc, &file, &STANDARD, &mut short[..]);
    assert_eq!(rt; (small.status, small.length), (65, 301));
    assert_eq!(rt; oascanon_c_check(alloc, &file, &STANDARD).status, 0);
    assert_eq!(rt; oascanon_c_same(alloc, &file, &file, &STANDARD).status, 0);
    Ok(())
}

#[test]
fn a_listing(rt: HostRuntime) -> Result<(), Fail> {
    let alloc = rt.alloc();
    let file = file();
    let mut room = room_of(alloc, 400)?;
    let lines = oascanon_c_list(alloc, &file, &STANDARD, &mut room[..]);
    assert_eq!(rt; (lines.status, lines.length), (0, 43));
    assert!(rt; room.starts_with(b"unit 1000/1\ncell A\nrectangle 1 0 10 20 0 0\n"));
    Ok(())
}

#[test]
fn reports(rt: HostRuntime) -> Result<(), Fail> {
    let alloc = rt.alloc();
    let file = file();
    let mut taller = file;
    taller[42] = 25;
    let mut room = room_of(alloc, 400)?;
    let keys = oascanon_c_keys(alloc, &file, &STANDARD, &mut room[..]);
    assert_eq!(rt; (keys.status, keys.length), (0, 68));
    assert!(rt;
        room.starts_with(b"faa9cb7d21110cae5bde5660c1b56c7b0b00a54880eacf1bfeba45a6cc348d77  A\n")
    );
    let info = oascanon_c_info(alloc, &file, &STANDARD, &mut room[..]);
    assert_eq!(rt; info.status, 0);
    assert!(rt; room.starts_with(b"{\"cells\":1,\"elements\":1,\"kinds\":{\"circles\":0,"));
    let same = oascanon_c_diff(alloc, &file, &file, &STANDARD, &mut room[..]);
    assert_eq!(rt; (same.status, same.length), (0, 0));
    let differs = oascanon_c_diff(alloc, &file, &taller, &STANDARD, &mut room[..]);
    assert_eq!(rt; (differs.status, differs.length), (64, 65));
    assert!(rt;
        room.starts_with(b"@ cell A\n- 1 rectangle 1 0 10 20 0 0\n+ 1 rectangle 1 0 10 25 0 0\n")
    );
    Ok(())
}

#[test]
fn refusals(rt: HostRuntime) -> Result<(), Fail> {
    let alloc = rt.alloc();
    let file = file();
    let mut digest = [0xEE; 32];
    let cut = oascanon_c_key(alloc, &file[..300], &STANDARD, &mut digest);
    assert_eq!(rt; (cut.status, cut.file, cut.at), (2, 1, 45));
    assert_eq!(rt; digest, [0xEE; 32]);
    let second = oascanon_c_same(alloc, &file, &file[..12], &STANDARD);
    assert_eq!(rt; (second.status, second.file, second.at), (2, 2, 0));
    let none = Bounds {
        elements: 1,
        weight: 1,
        input: 1,
    };
    assert_eq!(rt; oascanon_c_check(alloc, &file, &none).status, 66);
    Ok(())
}

//! Files with a signature. The values are those that zlib 1.2.13 gives for all bytes before them, and sums of these; each
//! file is a head and an END by either scheme.

use crate::devices::Torn;
use oas_num::NotedWriter;
use oas_preparing::{
    Dropping, Limits, PROFILE, Place, ReaderSource, Rejection, SliceSource, Source, Why, WideWhy,
    prepare,
};
use std::alloc::{AllocError, Global};
use std::process::Abort;
use std::test::Fail;

/// The magic, START with unit 1000, and one cell `A` with one rectangle.
const FRONT: [u8; 45] = [
    0x25, 0x53, 0x45, 0x4D, 0x49, 0x2D, 0x4F, 0x41, 0x53, 0x49, 0x53, 0x0D, 0x0A, 0x01, 0x03, 0x31,
    0x2E, 0x30, 0x00, 0xE8, 0x07, 0, 0, 0, 0, 0, 0, 0, 0, 0, 0, 0, 0, 0, 0x0E, 0x01, 0x41, 0x14,
    0x7B, 0x01, 0x00, 0x0A, 0x14, 0x00, 0x00,
];

/// The same with the cell's name by number 0, which no record gives.
const UNNAMED: [u8; 44] = [
    0x25, 0x53, 0x45, 0x4D, 0x49, 0x2D, 0x4F, 0x41, 0x53, 0x49, 0x53, 0x0D, 0x0A, 0x01, 0x03, 0x31,
    0x2E, 0x30, 0x00, 0xE8, 0x07, 0, 0, 0, 0, 0, 0, 0, 0, 0, 0, 0, 0, 0, 0x0D, 0x00, 0x14, 0x7B,
    0x01, 0x00, 0x0A, 0x14, 0x00, 0x00,
];

/// Nothing is named to be left out.
const NOTHING: Dropping = Dropping {
    properties: false,
    layer_names: false,
    extensions: false,
};

/// The CRC-32 of the first head's file before its signature, and its sum.
const CRC: u32 = 0x62EF_9C4A;

const SUM: u32 = 0x693;

/// A head, and an END of 256 bytes by a scheme.
fn signed(alloc: Global, front: &[u8], scheme: u8, signature: u32) -> Result<Vec<u8>, AllocError> {
    let mut file = Vec::from_slice(alloc, front)?;
    file.extend_from_slice(&[0x02, 0xF8, 0x01])?;
    file.extend_from_slice(&[0; 248])?;
    file.push(scheme)?;
    file.extend_from_slice(&signature.to_le_bytes())?;
    Ok(file)
}

/// What is written for a file that a source gives.
fn prepared<S: Source>(alloc: Global, from: &mut S) -> Result<Vec<u8>, Rejection> {
    let mut out: Vec<u8> = Vec::new(alloc);
    prepare(
        alloc,
        from,
        &mut NotedWriter::new(&mut out),
        Limits::standard(),
        PROFILE,
        NOTHING,
    )?;
    Ok(out)
}

/// Where and why a file isn't prepared; None where it is.
fn refused(alloc: Global, file: &[u8]) -> Option<(Place, WideWhy)> {
    let mut from = SliceSource::new(file, 1000);
    let rejection = prepared(alloc, &mut from).err()?;
    Some((rejection.place, rejection.why))
}

/// The first head, and an END without a signature.
fn canonical(alloc: Global) -> Result<Vec<u8>, AllocError> {
    let mut file = Vec::from_slice(alloc, &FRONT)?;
    file.extend_from_slice(&[0x02, 0xFC, 0x01])?;
    file.extend_from_slice(&[0; 253])?;
    Ok(file)
}

/// Whether the first head is prepared with that signature, and how many bytes are read.
fn is_prepared(alloc: Global, scheme: u8, signature: u32) -> Result<(bool, u64), AllocError> {
    let canonical = canonical(alloc)?;
    let file = signed(alloc, &FRONT, scheme, signature)?;
    let mut from = SliceSource::new(&file, 1000);
    let is_canonical = prepared(alloc, &mut from).is_ok_and(|bytes| bytes == canonical);
    Ok((is_canonical, from.at()))
}

#[test]
fn right_ones(rt: HostRuntime) -> Result<(), Fail> {
    for (scheme, signature) in [(1, CRC), (2, SUM)] {
        let found = is_prepared(rt.alloc(), scheme, signature)?;
        assert!(rt; found == (true, 301), "{scheme}");
    }
    Ok(())
}

/// Schemes and wrong signatures: of the bytes from START on, of those before END, of those before the scheme, of the other
/// scheme, and the right one with its bytes reversed.
const WRONG: &[(u8, u32)] = &[
    (1, 12345),
    (1, 0x2AAD_0B1D),
    (1, 0x1683_686C),
    (1, SUM),
    (1, 0x4A9C_EF62),
    (2, 12345),
    (2, 0x37D),
    (2, 0x691),
    (2, CRC),
    (2, 0x9306_0000),
];

#[test]
fn wrong_ones(rt: HostRuntime) -> Result<(), Fail> {
    for (scheme, signature) in WRONG {
        let file = signed(rt.alloc(), &FRONT, *scheme, *signature)?;
        let found = refused(rt.alloc(), &file);
        let wanted = (Place::File(45), WideWhy::Checksum);
        assert!(rt; found == Some(wanted), "{signature:x}");
    }
    Ok(())
}

/// Where and why a file isn't prepared with one bit of the rectangle's height changed.
fn refused_height(
    alloc: Global,
    scheme: u8,
    signature: u32,
) -> Result<Option<(Place, WideWhy)>, AllocError> {
    let mut file = signed(alloc, &FRONT, scheme, signature)?;
    if let Some(height) = file.get_mut(42) {
        *height ^= 4;
    }
    Ok(refused(alloc, &file))
}

#[test]
fn one_wrong_bit(rt: HostRuntime) -> Result<(), Fail> {
    for (scheme, signature) in [(1, CRC), (2, SUM)] {
        let found = refused_height(rt.alloc(), scheme, signature)?;
        let wanted = (Place::File(45), WideWhy::Checksum);
        assert!(rt; found == Some(wanted), "{scheme}");
    }
    Ok(())
}

/// Schemes and signatures of the second head, and why it isn't prepared.
const UNNAMED_ONES: &[(u8, u32, WideWhy)] = &[
    (1, 0xAE5E_B578, WideWhy::Profile(Why::UnknownReference)),
    (1, 0xAE5E_B579, WideWhy::Checksum),
    (2, 0x650, WideWhy::Profile(Why::UnknownReference)),
    (2, 0x651, WideWhy::Checksum),
];

#[test]
fn before_the_records_of_the_end(rt: HostRuntime) -> Result<(), Fail> {
    for (scheme, signature, why) in UNNAMED_ONES {
        let file = signed(rt.alloc(), &UNNAMED, *scheme, *signature)?;
        let found = refused(rt.alloc(), &file);
        assert!(rt; found == Some((Place::File(44), *why)), "{signature:x}");
    }
    Ok(())
}

/// Why a file isn't prepared that is a byte too short, and one that is a byte too long.
fn refused_lengths(
    alloc: Global,
    scheme: u8,
    signature: u32,
) -> Result<[Option<(Place, WideWhy)>; 2], AllocError> {
    let mut file = signed(alloc, &FRONT, scheme, signature)?;
    let short = refused(alloc, file.get(..300).unwrap_or(&[]));
    file.push(0)?;
    Ok([short, refused(alloc, &file)])
}

#[test]
fn behind_the_end(rt: HostRuntime) -> Result<(), Fail> {
    let wanted = [
        Some((Place::File(45), WideWhy::Profile(Why::Truncated))),
        Some((Place::File(301), WideWhy::Profile(Why::TrailingBytes))),
    ];
    for (scheme, signature) in [(1, CRC), (2, SUM), (2, 12345)] {
        let found = refused_lengths(rt.alloc(), scheme, signature)?;
        assert!(rt; found == wanted, "{signature:x}");
    }
    Ok(())
}

/// Why a file isn't prepared where a reader gives this many bytes.
fn why_of_reader(alloc: Global, count: usize) -> Result<Option<WideWhy>, Fail> {
    let file = signed(alloc, &FRONT, 1, CRC)?;
    let rest = file.get(..count).unwrap_or(&[]);
    let mut from = ReaderSource::new(alloc, Torn { rest }, 1000)?;
    match prepared(alloc, &mut from) {
        Ok(_) => Ok(None),
        Err(rejection) => Ok(Some(rejection.why)),
    }
}

#[test]
fn a_device_that_fails(rt: HostRuntime) -> Result<(), Fail> {
    for count in 0..=301usize {
        let found = why_of_reader(rt.alloc(), count)?;
        assert!(rt; found == Some(WideWhy::Profile(Why::Read)), "{count}");
    }
    Ok(())
}

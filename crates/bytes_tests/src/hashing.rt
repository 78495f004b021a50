//! Digests that are known from outside.

use oas_checksum::Sha256;
use std::test::Fail;

/// Texts, and their digests as FIPS 180-4's examples or Python's hashlib give them.
const ROWS: &[(&str, &str)] = &[
    (
        "",
        "e3b0c44298fc1c149afbf4c8996fb92427ae41e4649b934ca495991b7852b855",
    ),
    (
        "abc",
        "ba7816bf8f01cfea414140de5dae2223b00361a396177a9cb410ff61f20015ad",
    ),
    (
        "abcdbcdecdefdefgefghfghighijhijkijkljklmklmnlmnomnopnopq",
        "248d6a61d20638b8e5c026930c3e6039a33ce45964ff2167f6ecedd419db06c1",
    ),
];

/// The digest of bytes that come in two pieces, the first of which has this many.
fn digest(bytes: &[u8], first: usize) -> [u8; 32] {
    let mut hash = Sha256::new();
    let (front, rest) = bytes.split_at(first.min(bytes.len()));
    hash.update(front);
    hash.update(rest);
    hash.finalize()
}

#[test]
fn texts(rt: HostRuntime) -> Result<(), Fail> {
    for &(text, wanted) in ROWS {
        for first in [0, 1, 55, 56, 1000] {
            let found = hex::encode(rt.alloc(), digest(text.as_bytes(), first).as_slice())?;
            assert!(rt; found.as_str() == wanted);
        }
    }
    Ok(())
}

#[test]
fn blocks(rt: HostRuntime) -> Result<(), Fail> {
    let mut bytes = [0u8; 200];
    let mut value = 0u8;
    for byte in &mut bytes {
        *byte = value;
        value = value.wrapping_add(7);
    }
    for first in [0, 1, 63, 64, 65, 128, 200] {
        let found = hex::encode(rt.alloc(), digest(&bytes, first).as_slice())?;
        assert!(rt;
            found.as_str() == "b531abd8dae7232c861ac9f50aff9952d29c8d4c3772551cc5bce5d39d2cd08d"
        );
    }
    Ok(())
}

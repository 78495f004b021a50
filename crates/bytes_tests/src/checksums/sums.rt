//! The sums of a source's bytes: those that zlib 1.2.13 gives for `abc`, after which four bytes are taken that aren't summed,
//! and one isn't taken. Some are taken one by one, and others that are at hand at once.
ghost use Rattle.std.specs.Prelude.{◌≡◌};

use oas_checksum::{SummedSource, Sums};
use oas_num::{SliceSource, Source, Start};
use std::marker::Brand;
use std::test::Fail;

/// The sums before the last four of this many bytes, of which so many are skipped last, and the source that is lent.
fn sums_of<'a, S: Source, K: Start>(
    source: &'a mut S,
    count: usize,
    skipped: usize,
) -> (&'a mut S, Sums)
    requires named { source.ghost_name ≡ K.name }
    requires starts { S.script source.old ≡ K.script }
{
    let mut summed: SummedSource<'a, S, K> = SummedSource::new(source);
    for _ in skipped..count {
        let _byte = summed.next();
    }
    let at_hand = summed.ahead().len();
    summed.skip(skipped.min(at_hand));
    summed.finish()
}

/// The sums of seven bytes that are given, where this many are taken, of which so many are skipped: the CRC-32 and the sum.
fn both(count: usize, skipped: usize) -> (u32, u32) {
    let bytes = [0x61, 0x62, 0x63, 0xFF, 0xFE, 0xFD, 0xFC, 0xFB];
    let mut source = SliceSource::new(&bytes, 8);
    let (_source, sums) = sums_of::<SliceSource, Brand>(&mut source, count, skipped);
    (sums.crc32(), sums.checksum32())
}

#[test]
fn bytes_are_summed(rt: HostRuntime) -> Result<(), Fail> {
    for skipped in 0..4 {
        assert!(rt; both(7, skipped) == (0x3524_41C2, 294));
        assert!(rt; both(5, skipped) == (0xE8B7_BE43, 97));
        assert!(rt; both(4, skipped) == (0, 0));
    }
    for few in 0..5 {
        assert!(rt; both(few, 0) == (0, 0));
        assert!(rt; both(few, few) == (0, 0));
    }
    assert!(rt; both(7, 7) == (0x3524_41C2, 294));
    Ok(())
}

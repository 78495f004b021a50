//! Files that are read up to the first refusal or END, and how many bytes a record takes.

mod fields;
mod memory;

use oas_num::{INPUT_MAX, SliceSource, Source};
use oas_record::{Record, read_head};
use std::alloc::Global;
use std::process::Abort;
use std::test::Fail;
use test_tools::bytes_of;

/// A file in the style of a usual writer, with its names at the end.
const COMPACT: &str =
    "MAGIC 0103312e3000e807010d0114db01000a00001410280d0011f80100000100003232137b00030000000403544f500004014101060248690002 00*12 f001 00*241";

/// Where the source is after each of its records.
const AT: [u64; 10] = [24, 31, 34, 36, 46, 53, 59, 63, 68, 324];

/// The number of a refusal, its place, and the file in pieces.
const ROWS: &str = "\
3 37 HEAD 0e0141147b01008a 80*9 00140100 02fc01 00*253\n\
3 37 HEAD 0e0141147b0100 ff*9 02140100 02fc01 00*253\n\
8 13 MAGIC 0103312e3004d00f 00*14 02fc01 00*253\n\
8 13 MAGIC 0103312e30 00*15 02fc01 00*253\n\
8 13 MAGIC 0103312e30050101 00*13 02fc01 00*253\n\
6 13 MAGIC 0103312e3007 00*13 02fc01 00*253\n\
7 13 MAGIC 0103312e3008 00*13 02fc01 00*253\n\
9 13 MAGIC 0103312e3100e807 00*13 02fc01 00*253\n\
10 13 MAGIC 0103312e3000e80702 00*12 02fc01 00*253\n\
28 34 HEAD 02fb01 00*252\n\
28 34 HEAD 02fd01 00*254\n\
29 34 HEAD 02f801 00*248 0112345678\n\
2 0 -\n\
1 0 26\n\
13 13 MAGIC 22\n\
13 34 HEAD 01\n\
4 34 HEAD 0e0120 02fc01 00*253\n\
5 34 HEAD 0e00 02fc01 00*253\n\
11 37 HEAD 0e014122 02fc01 00*253\n\
12 37 HEAD 0e014123 02fc01 00*253\n\
14 37 HEAD 0e014114fb 02fc01 00*253\n\
14 37 HEAD 0e01411b7b 02fc01 00*253\n\
15 37 HEAD 0e0141153b010006 02fc01 00*253\n\
16 37 HEAD 0e0141153b01000003 02fc01 00*253\n\
16 37 HEAD 0e0141153b01000401 02fc01 00*253\n\
14 37 HEAD 0e014116fb0100051004000000 02fc01 00*253\n\
2 34 HEAD\n\
3 13 MAGIC 80*9 02\n\
2 13 MAGIC 0103312e\n\
4 13 MAGIC 0103317f30\n\
4 13 MAGIC 01041f\n\
2 13 MAGIC 01043131\n\
29 34 HEAD 02fc01 00*252 01\n\
29 34 HEAD 02fb01 00*251 01\n\
28 34 HEAD 02 00*12 f001 00*241\n\
2 34 HEAD 02fd01 00*253\n\
14 34 HEAD 14a0 00*9\n\
14 34 HEAD 1380\n\
17 34 HEAD 14040c\n\
23 34 HEAD 14040a000182808080808080808001\n\
12 34 HEAD 23\n\
11 34 HEAD 07\n\
13 34 HEAD 01";

/// The result of reading a record.
#[derive(Clone, Copy)]
pub(crate) struct Outcome {
    // The number of a refusal, or 0.
    pub(crate) number: u8,
    // Where it is refused, or ends.
    pub(crate) at: u64,
    is_end: bool,
}

/// Drops a record in a step of its own, since that is expensive to prove beside other values.
pub(crate) fn discard(_record: Record) {}

/// Reads a record.
pub(crate) fn read_one(alloc: Global, source: &mut SliceSource<'_>, flag_in_end: bool) -> Outcome {
    match Record::read(alloc, source, flag_in_end) {
        Ok(record) => {
            let is_end = record.is_end();
            discard(record);
            Outcome {
                number: 0,
                at: source.at(),
                is_end,
            }
        }
        Err(refusal) => Outcome {
            number: refusal.why.number(),
            at: refusal.at,
            is_end: false,
        },
    }
}

/// Reads up to the first refusal or END: the number of the refusal, and its place; or 0, and where the file ends.
fn first_refusal(alloc: Global, bytes: &[u8]) -> (u8, u64) {
    let mut source = SliceSource::new(bytes, INPUT_MAX);
    let head = match read_head(alloc, &mut source) {
        Ok(head) => head,
        Err(refusal) => return (refusal.why.number(), refusal.at),
    };
    for _ in 0..1000u32 {
        let read = read_one(alloc, &mut source, head.flag_in_end);
        if read.is_end || read.number > 0 {
            return (read.number, read.at);
        }
    }
    (0, 0)
}

/// Whether the file of a row is refused as the row says.
fn is_refused(alloc: Global, row: &str) -> Result<bool, Fail> {
    let (number, rest) = row.split_once(' ').unwrap_or(("", ""));
    let (at, pieces) = rest.split_once(' ').unwrap_or(("", ""));
    let bytes = bytes_of(alloc, pieces)?;
    let found = first_refusal(alloc, &bytes);
    Ok(found.0 == number.parse().unwrap_or(255) && found.1 == at.parse().unwrap_or(9999))
}

#[test]
fn refusals(rt: HostRuntime) -> Result<(), Fail> {
    for row in ROWS.lines() {
        assert!(rt; is_refused(rt.alloc(), row)?, "{row}");
    }
    Ok(())
}

/// Whether that file begins here.
fn has_head(alloc: Global, source: &mut SliceSource<'_>) -> bool {
    match read_head(alloc, source) {
        Ok(head) => {
            source.at() == 22 && head.unit.num() == 1000 && head.unit.den() == 1 && head.flag_in_end
        }
        Err(_refusal) => false,
    }
}

/// Whether there is a record up to that place, in a file with its flag in END.
fn ends_at(alloc: Global, source: &mut SliceSource<'_>, at: u64) -> bool {
    let read = read_one(alloc, source, true);
    read.number == 0 && read.at == at
}

/// How many records there are, each up to its place.
fn records_at(alloc: Global, source: &mut SliceSource<'_>) -> usize {
    let mut count = 0usize;
    for at in AT {
        count = count.saturating_add(usize::from(ends_at(alloc, source, at)));
    }
    count
}

/// Whether that file begins here, and how many of its records are there.
fn seen(alloc: Global) -> Result<(bool, usize), Fail> {
    let bytes = bytes_of(alloc, COMPACT)?;
    let mut source = SliceSource::new(&bytes, INPUT_MAX);
    Ok((has_head(alloc, &mut source), records_at(alloc, &mut source)))
}

#[test]
fn compact(rt: HostRuntime) -> Result<(), Fail> {
    assert!(rt; seen(rt.alloc())? == (true, AT.len()));
    Ok(())
}

/// How many bytes a record takes of these.
fn taken(alloc: Global, bytes: &[u8]) -> u64 {
    let mut source = SliceSource::new(bytes, INPUT_MAX);
    let read = read_one(alloc, &mut source, false);
    if read.number == 0 { read.at } else { 0 }
}

/// How many bytes a record takes, and bytes that begin with it.
///
/// A square; a path with an explicit start and an explicit end, with one of them, and with none. A path may have no delta, a
/// polygon has two. Cells and strings by number, by themselves, and N ignored where C is 0; angles and magnifications.
const TAKEN: &str = "\
2 140000\n\
2 1b0000\n\
2 150000\n\
2 160000\n\
3 11c00700\n\
4 1180014100\n\
2 11400700\n\
3 12c00700\n\
4 1280014100\n\
2 12400700\n\
2 148000\n\
5 16800f020400\n\
4 16800c020400\n\
4 168003020400\n\
3 168009020400\n\
4 1620020000\n\
6 15200202282900\n\
2 11070000\n\
4 1204000100\n\
5 120204010100\n\
3 13600700\n\
4 1340012000\n\
2 13200700";

/// How many bytes a record takes in a file that is given in pieces.
fn taken_of(alloc: Global, pieces: &str) -> Result<u64, Fail> {
    let bytes = bytes_of(alloc, pieces)?;
    Ok(taken(alloc, &bytes))
}

#[test]
fn bytes_taken(rt: HostRuntime) -> Result<(), Fail> {
    for row in TAKEN.lines() {
        let (number, pieces) = row.split_once(' ').unwrap_or(("", ""));
        let found = taken_of(rt.alloc(), pieces)?;
        assert!(rt; found == number.parse().unwrap_or(9999), "{row}: {found}");
    }
    Ok(())
}

/// Records, and info bits of theirs that each announce a field of one byte.
const BITS: [(u8, &[u8]); 6] = [
    (20, &[1, 2, 4, 8, 16, 32, 64]),
    (27, &[1, 2, 4, 8, 16, 32]),
    (21, &[1, 2, 4, 8, 16]),
    (22, &[1, 2, 4, 8, 16, 64]),
    (17, &[8, 16, 32]),
    (18, &[8, 16, 32]),
];

#[test]
fn info_bits_of_one_byte(rt: HostRuntime) {
    for (id, bits) in BITS {
        for bit in bits {
            assert!(rt; taken(rt.alloc(), &[id, *bit, 0, 0, 0]) == 3, "{id} {bit}");
        }
    }
}

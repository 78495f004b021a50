//! What no contract says: a block is read where memory is there, and which fault is returned for each way to go wrong. The
//! streams were made by zlib 1.2.13, and their data are what was given to it.

use oas_block::{Block, BlockEnd, BlockFault, InflatedSource, read_block};
use oas_num::{ReaderSource, SliceSource, Source, Why};
use oas_standard::BlockHead;
use std::alloc::Global;
use std::io;
use std::io::{ErrorKind, Read};
use std::test::Fail;

/// Heads with their bytes, and their data: nothing, a stored block, one with fixed codes, one with its own.
const GIVEN: &[(&str, &str)] = &[
    ("0000020300", ""),
    (
        "001116011100eeff68656c6c6f2068656c6c6f2068656c6c6f",
        "68656c6c6f2068656c6c6f2068656c6c6f",
    ),
    (
        "00110acb48cdc9c957c8409000",
        "68656c6c6f2068656c6c6f2068656c6c6f",
    ),
    (
        "0050223d8a890900300c0267f574ff190aa628882fc6123a3a950fe6b7e304b1a2d25f2e3e",
        "6263626361616261616162616161636461626161616161616161616162626161616161616161626161616261616163626364646261626162616161626161616161616261626261616164626161616161",
    ),
];

/// Heads with their bytes, and why they aren't read.
const REFUSED: &[(&str, BlockFault)] = &[
    // kind 1
    ("01110acb48cdc9c957c8409000", BlockFault::Kind),
    // one byte fewer stated
    ("00100acb48cdc9c957c8409000", BlockFault::Length),
    // no stream begins like this
    ("0000020700", BlockFault::Deflate),
    // nor like this, after eight bytes of data
    ("00100b13a96664e012616080310000", BlockFault::Deflate),
    // the input ends in the stream
    ("00110acb48cdc9c957c84090", BlockFault::Why(Why::Truncated)),
    // the input ends after the stream
    (
        "00110bcb48cdc9c957c8409000",
        BlockFault::Why(Why::Truncated),
    ),
];

/// Heads with their bytes, whose stream doesn't end as it should, how it ends, and what zlib gives for it.
const WRONG: &[(&str, BlockEnd, &str)] = &[
    // no byte
    ("000000", BlockEnd::Unfinished, ""),
    // the stream is cut
    (
        "00110f13a96664e012616010a96662e01239",
        BlockEnd::Unfinished,
        "147b01000a140000147b02000a14",
    ),
    // no block is marked as the last
    (
        "001116001100eeff147b01000a140000147b02000a14c80100",
        BlockEnd::Unfinished,
        "147b01000a140000147b02000a14c80100",
    ),
    // one more byte stated
    (
        "00120acb48cdc9c957c8409000",
        BlockEnd::Other,
        "68656c6c6f2068656c6c6f2068656c6c6f",
    ),
    // 2^64-1 stated
    (
        "00ffffffffffffffffff010acb48cdc9c957c8409000",
        BlockEnd::Other,
        "68656c6c6f2068656c6c6f2068656c6c6f",
    ),
    // a byte after the stream
    (
        "00110bcb48cdc9c957c840900000",
        BlockEnd::Other,
        "68656c6c6f2068656c6c6f2068656c6c6f",
    ),
];

/// Reads a head and its block.
fn read_from<S: Source>(alloc: Global, source: &mut S, limit: usize) -> Result<Block, BlockFault> {
    match BlockHead::read(source) {
        Ok(head) => read_block(alloc, source, head, limit),
        Err(why) => Err(BlockFault::Why(why)),
    }
}

/// Reads the block in a text.
fn read_text(
    alloc: Global,
    text: &str,
    input: u64,
    limit: usize,
) -> Result<Result<Block, BlockFault>, Fail> {
    let bytes = hex::decode(alloc, text)?;
    let mut source = SliceSource::new(bytes.as_slice(), input);
    Ok(read_from(alloc, &mut source, limit))
}

/// The data of a block that was read, and how its stream ends.
fn given_by(
    alloc: Global,
    found: Result<Block, BlockFault>,
) -> Result<Result<(Vec<u8>, BlockEnd), BlockFault>, Fail> {
    let block = match found {
        Ok(block) => block,
        Err(fault) => return Ok(Err(fault)),
    };
    let mut source = InflatedSource::new(&block.data);
    let mut bytes = Vec::new(alloc);
    for _ in 0..block.data.len() {
        if let Ok(Some(byte)) = source.next() {
            bytes.push(byte)?;
        }
    }
    Ok(Ok((bytes, block.end)))
}

/// Returns its bytes, and then fails.
#[derive(Drop)]
struct Failing<'a> {
    rest: &'a [u8],
}

impl Read for Failing<'_> {
    fn read(&mut self, buf: &mut [u8]) -> io::Result<usize> {
        if self.rest.is_empty() {
            return Err(io::Error::from(ErrorKind::Other));
        }
        let count = self.rest.len().min(buf.len());
        let (now, later) = self.rest.split_at(count);
        buf[..count].copy_from_slice(now);
        self.rest = later;
        Ok(count)
    }
}

/// Whether the block in a text is read, with at most this many bytes, with these data and this end.
fn gives(
    alloc: Global,
    block: &str,
    limit: usize,
    data: &str,
    end: BlockEnd,
) -> Result<bool, Fail> {
    let data = hex::decode(alloc, data)?;
    let found = read_text(alloc, block, 100, limit)?;
    Ok(given_by(alloc, found)? == Ok((data, end)))
}

#[test]
fn blocks_are_read(rt: HostRuntime) -> Result<(), Fail> {
    for &(block, data) in GIVEN {
        let is_given = gives(rt.alloc(), block, data.len() / 2, data, BlockEnd::Whole)?;
        assert!(rt; is_given, "{block}");
    }
    Ok(())
}

#[test]
fn what_a_stream_gave_is_kept(rt: HostRuntime) -> Result<(), Fail> {
    for &(block, end, data) in WRONG {
        assert!(rt; gives(rt.alloc(), block, 100, data, end)?, "{block}");
    }
    Ok(())
}

#[test]
fn blocks_are_refused(rt: HostRuntime) -> Result<(), Fail> {
    for &(block, fault) in REFUSED {
        let found = read_text(rt.alloc(), block, 100, 100)?;
        assert!(rt; found.err() == Some(fault));
    }
    Ok(())
}

#[test]
fn limits_are_kept(rt: HostRuntime) -> Result<(), Fail> {
    let full = read_text(rt.alloc(), "00110acb48cdc9c957c8409000", 100, 16)?;
    assert!(rt; full.err() == Some(BlockFault::Full));
    let long = read_text(rt.alloc(), "00110acb48cdc9c957c8409000", 10, 17)?;
    assert!(rt; long.err() == Some(BlockFault::Why(Why::InputTooLong)));
    Ok(())
}

#[test]
fn a_reader_fails(rt: HostRuntime) -> Result<(), Fail> {
    let bytes = hex::decode(rt.alloc(), "00110acb48cdc9c9")?;
    let reader = Failing { rest: &bytes };
    let mut source = ReaderSource::new(rt.alloc(), reader, 100)?;
    let failed = read_from(rt.alloc(), &mut source, 100);
    assert!(rt; failed.err() == Some(BlockFault::Why(Why::Read)));
    Ok(())
}

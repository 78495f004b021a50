//! Reading a block.
ghost use Rattle.std.specs.Prelude.{◌≡◌, ◌<◌, min};
ghost use Rattle.oas_block.specs.Reading.{ReadsBlock};
ghost use Rattle.oas_block.specs.Inflating.{PassesByte, Passes, Finishes, Judges, FaultOf, EndOf};

use crate::block::{Block, BlockEnd};
use crate::faults::BlockFault;
use crate::fronts::{PrefixSource, Start};
use oas_inflate::{Bits, Fault, Inflated, Stopped, inflate};
use oas_num::{Source, SourceFault, Why};
use oas_standard::BlockHead;
use std::alloc::Global;
use std::marker::{Brand, PhantomData};

/// The data of a block's bytes, at most as many bytes as a limit (SEMI P39, CBLOCK record), or those that its stream gives
/// where it doesn't end as it should. The bytes are the source's next ones, after the head.
pub fn read_block<S: Source>(
    alloc: Global,
    source: &mut S,
    head: BlockHead,
    limit: usize,
) -> Result<Block, BlockFault>
    ensures { ReadsBlock (λ block. block.«data».items) (λ block. block.end) head limit (S.script source.old) result (S.script source.new) }
{
    if head.kind != 0 {
        return Err(BlockFault::Kind);
    }
    if head.deflated == 0 {
        return Ok(Block {
            data: Inflated::new(alloc),
            end: BlockEnd::Unfinished,
        });
    }
    let (read, _source) = read_named::<S, Brand>(alloc, source, head, limit);
    read
}

/// The same, for the source that is named. It hands the borrow back, so that its lender knows it as its own.
fn read_named<'a, S: Source, K: Start>(
    alloc: Global,
    source: &'a mut S,
    head: BlockHead,
    limit: usize,
) -> (Result<Block, BlockFault>, &'a mut S)
    requires named { source.ghost_name ≡ K.name }
    requires starts { S.script source.old ≡ K.script }
    requires count { head.deflated ≡ K.count }
    requires kind { head.kind ≡ 0 }
    requires some { 0 < head.deflated }
    ensures same { result.1.ghost_name ≡ source.entry.ghost_name }
    ensures reads { ReadsBlock (λ block. block.«data».items) (λ block. block.end) head limit (S.script source.old) result.0 (S.script result.1.now) }
{
    let front: PrefixSource<'a, S, K> = PrefixSource {
        source,
        left: head.deflated,
        start: PhantomData,
    };
    let mut bits = Bits::new(front);
    let outcome = inflate(alloc, &mut bits, stop_at(limit, head.inflated));
    let idle = bits.left();
    let mut front = bits.into_source();
    let read = match outcome {
        Ok(plain) => finish(&mut front, plain, head, idle),
        Err(stopped) => cut_off(stopped, head, limit, front.left),
    };
    let PrefixSource {
        source,
        left: _,
        start: _,
    } = front;
    (read, source)
}

/// Takes what is left of a block after its stream, and returns the stream's data.
fn finish<'a, S: Source, K: Start>(
    front: &mut PrefixSource<'a, S, K>,
    plain: Inflated,
    head: BlockHead,
    idle: u8,
) -> Result<Block, BlockFault>
    ensures { Finishes (λ block. block.«data».items) (λ block. block.end) plain.items head.inflated idle (S.script front.old.source.now) front.old.left result (S.script front.new.source.now) front.new.left }
{
    let unread = front.left;
    if let Err(why) = pass(front) {
        return Err(BlockFault::Why(why));
    }
    if front.left > 0 {
        return Err(BlockFault::Why(Why::Truncated));
    }
    Ok(judged(plain, head, unread, idle))
}

/// Where inflating stops: at the limit, or where the data would be longer than the head says.
fn stop_at(limit: usize, inflated: u64) -> usize
    ensures { result ≡ min limit inflated }
{
    if inflated < limit as u64 {
        inflated as usize
    } else {
        limit
    }
}

/// Takes a byte, if one is left.
fn pass_byte<S: Source>(source: &mut S) -> Result<bool, Why>
    ensures { PassesByte (S.script source.old) result (S.script source.new) }
{
    match source.next() {
        Ok(next) => Ok(next.is_some()),
        Err(SourceFault::Device) => Err(Why::Read),
        Err(SourceFault::TooLong) => Err(Why::InputTooLong),
    }
}

/// Takes all bytes that the source will still give.
fn pass<S: Source>(source: &mut S) -> Result<(), Why>
    ensures { Passes (S.script source.old) result (S.script source.new) }
{
    while pass_byte(source)? {}
    Ok(())
}

/// The block of a stream that isn't finished: what was given, where all its bytes were taken, or why it isn't read.
fn cut_off(stopped: Stopped, head: BlockHead, limit: usize, left: u64) -> Result<Block, BlockFault>
    ensures { EndOf (λ block. block.«data».items) (λ block. block.end) head limit left stopped.fault stopped.bytes.items result }
{
    match stopped.fault {
        Fault::Cut if left == 0 => Ok(Block {
            data: stopped.bytes,
            end: BlockEnd::Unfinished,
        }),
        fault => Err(fault_of(fault, head, limit)),
    }
}

/// Why a block isn't read that wasn't inflated. Where its bytes ended too early, the input did.
fn fault_of(fault: Fault, head: BlockHead, limit: usize) -> BlockFault
    ensures { FaultOf head limit fault result }
{
    match fault {
        Fault::Bad(_) => BlockFault::Deflate,
        Fault::Cut => BlockFault::Why(Why::Truncated),
        Fault::Source(SourceFault::Device) => BlockFault::Why(Why::Read),
        Fault::Source(SourceFault::TooLong) => BlockFault::Why(Why::InputTooLong),
        Fault::Memory => BlockFault::Why(Why::Memory),
        Fault::Full if (limit as u64) < head.inflated => BlockFault::Full,
        Fault::Full => BlockFault::Length,
    }
}

/// The bytes that a stream encodes, and whether they are what a head says: as many as that, with no byte unread after the
/// stream, and fewer than eight bits.
fn judged(plain: Inflated, head: BlockHead, unread: u64, idle: u8) -> Block
    ensures { Judges result.«data».items result.end plain.items head.inflated unread idle }
{
    let end = if plain.len() as u64 == head.inflated && unread == 0 && idle < 8 {
        BlockEnd::Whole
    } else {
        BlockEnd::Other
    };
    Block { data: plain, end }
}

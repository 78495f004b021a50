//! The records of a compressed block's data.
ghost use Rattle.std.specs.Prelude.{◌≡◌};
ghost use Rattle.oas_narrow.specs.BlockEnd.{BlockEnd as End};
ghost use Rattle.oas_prepare.specs.Places.{at_file};
ghost use Rattle.oas_prepare.specs.DataReasons.{run_out_why, fault_why};
ghost use Rattle.oas_prepare.specs.Inside.{ConsumesInside, ConsumesData, ConsumesBlock, ended_by, in_block};

use crate::gathering::{Next, take_next};
use crate::taking::Preparation;
use oas_narrow::{
    BlockEnd, BlockFault, BlockHead, CellStore, Inflated, InflatedSource, Place, Reader, Rejection,
    WideWhy, read_block,
};
use oas_num::{Source, Why};
use std::alloc::Global;

/// How many bytes of data a block may have at most, since they are held in memory: 2^30 (own rule).
const DATA_MAX: usize = 1_073_741_824;

/// The interval, in bytes of a block's data, at whose multiples a run of PADs begins anew: 2^20 (own rule).
const RUN_MAX: u64 = 1_048_576;

/// A rejection at an offset in a file, or in a block's data.
pub(crate) fn stopped(at: u64, why: WideWhy) -> Rejection
    ensures { result ≡ at_file at why }
{
    Rejection {
        place: Place::File(at),
        why,
    }
}

/// Takes the next record of a block's data, where neither END nor a block is allowed.
fn take_inside<S: Source, C: CellStore>(
    alloc: Global,
    source: &mut S,
    flag_in_end: bool,
    preparation: &mut Preparation<Reader<C>>,
) -> Result<(), Rejection>
    ensures { ConsumesInside C.store flag_in_end (S.script source.old) preparation.old result (S.script source.new) preparation.new }
{
    let at = source.at();
    match take_next(alloc, source, flag_in_end, at, preparation)? {
        Next::Taken => Ok(()),
        Next::End(_) => Err(stopped(at, WideWhy::Profile(Why::OutOfPlace(2)))),
        Next::Block(_) => Err(stopped(at, WideWhy::CblockNested)),
    }
}

/// Takes the records of a block's data, and returns where in the data the last of them begins, if there is one. A run of PADs
/// counts as one: they change nothing, so they are taken at once.
fn take_data<C: CellStore>(
    alloc: Global,
    plain: &Inflated,
    flag_in_end: bool,
    preparation: &mut Preparation<Reader<C>>,
) -> Result<Option<u64>, Rejection>
    ensures { ConsumesData C.store flag_in_end plain.now.items preparation.old result preparation.new }
{
    let length = plain.len() as u64;
    let mut source = InflatedSource::new(plain);
    let mut last = None;
    'records: loop {
        let within = source.at();
        if within == length {
            return Ok(last);
        }
        let pads = source.skip_zeros(RUN_MAX - within % RUN_MAX);
        if pads == 0 {
            take_inside(alloc, &mut source, flag_in_end, preparation)?;
        }
        last = Some(within);
    }
}

/// Why a block isn't read.
fn fault_why(fault: BlockFault) -> WideWhy
    ensures { result ≡ fault_why fault }
{
    match fault {
        BlockFault::Kind => WideWhy::CblockType,
        BlockFault::Length => WideWhy::CblockLength,
        BlockFault::Deflate => WideWhy::Deflate,
        BlockFault::Why(why) => WideWhy::Profile(why),
        BlockFault::Full => WideWhy::Profile(Why::Memory),
    }
}

/// Why a record that continues past the end of a block's data isn't prepared.
fn run_out_why(end: BlockEnd) -> WideWhy
    ensures { result ≡ run_out_why end }
{
    match end {
        BlockEnd::Whole => WideWhy::CblockBorder,
        BlockEnd::Unfinished => WideWhy::Deflate,
        BlockEnd::Other => WideWhy::CblockLength,
    }
}

/// Where and why a record in the block at that offset isn't prepared, given its place in the block's data.
fn in_block(block: u64, end: BlockEnd, inner: Rejection) -> Rejection
    ensures { result ≡ in_block block end inner }
{
    let place = match inner.place {
        Place::File(within) => Place::Block { block, within },
        place => place,
    };
    let why = match inner.why {
        WideWhy::Profile(Why::Truncated) => run_out_why(end),
        why => why,
    };
    Rejection { place, why }
}

/// Whether a block whose records were all taken ends as it should, and where and why it isn't prepared if not: at the last of
/// them, or at the block where there is none.
fn ended(block: u64, end: BlockEnd, last: Option<u64>) -> Result<(), Rejection>
    ensures { result ≡ ended_by block end last }
{
    if end == BlockEnd::Whole {
        return Ok(());
    }
    let place = match last {
        Some(within) => Place::Block { block, within },
        None => Place::File(block),
    };
    Err(Rejection {
        place,
        why: run_out_why(end),
    })
}

/// Takes a block whose head was read, which begins at byte `at`: its bytes, and the records of the data that they encode.
///
/// It stops at the block where its bytes are not those of a block with that head, as far as they were inflated, and otherwise
/// at the record in its data. A stream that isn't finished, has too few bytes or leaves bytes over stops it at the last
/// record that begins in what there is, where a run of PADs is one record.
pub(crate) fn take_block<S: Source, C: CellStore>(
    alloc: Global,
    source: &mut S,
    at: u64,
    head: BlockHead,
    flag_in_end: bool,
    preparation: &mut Preparation<Reader<C>>,
) -> Result<(), Rejection>
    ensures { ConsumesBlock C.store flag_in_end at head (S.script source.old) preparation.old result (S.script source.new) preparation.new }
{
    let block = match read_block(alloc, source, head, DATA_MAX) {
        Ok(block) => block,
        Err(fault) => {
            return Err(Rejection {
                place: Place::File(at),
                why: fault_why(fault),
            });
        }
    };
    match take_data(alloc, &block.data, flag_in_end, preparation) {
        Ok(last) => ended(at, block.end, last),
        Err(inner) => Err(in_block(at, block.end, inner)),
    }
}

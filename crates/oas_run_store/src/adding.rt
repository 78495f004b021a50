//! One more key, in the rising run or among the loose ones.

ghost use Rattle.std.specs.Prelude.{◌+◌, ◌<◌, ◌^◌, ◌∷◌, OnOk, OnErr};
ghost use Rattle.std.specs.Cmp.Lexicographic.{slice_cmp};
ghost use Rattle.std.specs.Ordering.{nat_cmp};
ghost use Rattle.oas_runs.specs.Runs.{copies, SameTotals};
ghost use Rattle.oas_run_store.specs.Parts.{contents, AreParts};

use crate::rising::Rising;
use crate::sampling::repeats;
use crate::settling::settle;
use oas_runs::{Block, Run};
use std::alloc::{AllocError, Global};

/// How many bytes wait loose, about, at most, if keys repeat: so many are sorted near the processor.
pub(crate) const LEAST: usize = 1 << 20;

/// The same if most keys differ: then fewer runs are merged.
const MOST: usize = 1 << 21;

/// Ensures that one more key can wait loose, beside about `most` bytes.
fn make_room(
    alloc: Global,
    rising: &mut Rising,
    loose: &mut Block,
    runs: &mut Vec<Run>,
    most: &mut usize,
) -> Result<(), AllocError>
    requires { AreParts (slice_cmp nat_cmp) rising.old loose.old runs.old.items }
    ensures parts { AreParts (slice_cmp nat_cmp) rising.new loose.new runs.new.items }
    ensures same { SameTotals (contents rising.new loose.new runs.new.items) (contents rising.old loose.old runs.old.items) }
{
    if loose.size() < *most {
        return Ok(());
    }
    if *most == LEAST && !repeats(alloc, loose.left()) {
        *most = MOST;
        return Ok(());
    }
    *most = LEAST;
    settle(alloc, rising, loose, runs)
}

/// Adds a key this many times to those that wait loose, or nothing.
fn add_loose(
    alloc: Global,
    rising: &mut Rising,
    loose: &mut Block,
    runs: &mut Vec<Run>,
    most: &mut usize,
    key: &[u8],
    times: u64,
) -> Result<(), AllocError>
    requires some { 0 < times }
    requires parts { AreParts (slice_cmp nat_cmp) rising.old loose.old runs.old.items }
    requires room { copies (slice_cmp nat_cmp) key.now (contents rising.old loose.old runs.old.items) + times < 2 ^ 64 }
    ensures parts { AreParts (slice_cmp nat_cmp) rising.new loose.new runs.new.items }
    ensures ok { OnOk result (SameTotals (contents rising.new loose.new runs.new.items) ((key.now, times) ∷ contents rising.old loose.old runs.old.items)) }
    ensures err { OnErr result (SameTotals (contents rising.new loose.new runs.new.items) (contents rising.old loose.old runs.old.items)) }
{
    make_room(alloc, rising, loose, runs, most)?;
    loose.append(key, times)?;
    Ok(())
}

/// Adds a key this many times, or nothing.
pub(crate) fn add_key(
    alloc: Global,
    rising: &mut Rising,
    loose: &mut Block,
    runs: &mut Vec<Run>,
    most: &mut usize,
    key: &[u8],
    times: u64,
) -> Result<(), AllocError>
    requires some { 0 < times }
    requires parts { AreParts (slice_cmp nat_cmp) rising.old loose.old runs.old.items }
    requires room { copies (slice_cmp nat_cmp) key.now (contents rising.old loose.old runs.old.items) + times < 2 ^ 64 }
    ensures parts { AreParts (slice_cmp nat_cmp) rising.new loose.new runs.new.items }
    ensures ok { OnOk result (SameTotals (contents rising.new loose.new runs.new.items) ((key.now, times) ∷ contents rising.old loose.old runs.old.items)) }
    ensures err { OnErr result (SameTotals (contents rising.new loose.new runs.new.items) (contents rising.old loose.old runs.old.items)) }
{
    if rising.put(alloc, key, times)? {
        return Ok(());
    }
    add_loose(alloc, rising, loose, runs, most, key, times)
}

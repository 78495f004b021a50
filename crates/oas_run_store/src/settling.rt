//! The rising run and the loose keys become runs.

ghost use Rattle.std.specs.Prelude.{◌≡◌, ◌<◌, ◌≤◌, [], ◌∷◌, ◌++◌, IfOk, OnOk, IsTrue, vec_len, vec_capacity};
ghost use Rattle.std.specs.Cmp.Lexicographic.{slice_cmp};
ghost use Rattle.std.specs.Ordering.{nat_cmp};
ghost use Rattle.std.specs.List.{All};
ghost use Rattle.oas_runs.specs.Runs.{IsRun, Positive, SameTotals};
ghost use Rattle.oas_run_store.specs.Loose.{first_of, entries_of, Begins};
ghost use Rattle.oas_runs.specs.Entries.{entries, IsBlock};
ghost use Rattle.oas_runs.specs.Blocks.{joined};
ghost use Rattle.oas_run_store.specs.Parts.{contents, AreRuns, AreParts, CountsFit};

use crate::joining::{join_all, join_many};
use crate::loose::{Loose, in_order};
use crate::rising::Rising;
use oas_runs::{BLOCK, Block, Run, read_entry};
use std::alloc::{AllocError, Global};

/// Adds a run to the others, which have room for it.
fn add_run(runs: &mut Vec<Run>, run: Run)
    requires room { vec_len runs.old < vec_capacity runs.old }
    requires run { IsRun (slice_cmp nat_cmp) run }
    requires runs { AreRuns (slice_cmp nat_cmp) runs.old.items }
    ensures runs { AreRuns (slice_cmp nat_cmp) runs.new.items }
    ensures same { SameTotals (joined runs.new.items) (run ++ joined runs.old.items) }
{
    runs.push_reserved(run);
}

/// Closes a rising run, if it has begun, so that another begins; or changes nothing.
fn settle_rising(alloc: Global, rising: &mut Rising, runs: &mut Vec<Run>) -> Result<(), AllocError>
    requires run { IsRun (slice_cmp nat_cmp) rising.old }
    requires runs { AreRuns (slice_cmp nat_cmp) runs.old.items }
    requires fits { CountsFit (slice_cmp nat_cmp) (rising.old ++ joined runs.old.items) }
    ensures run { IsRun (slice_cmp nat_cmp) rising.new }
    ensures runs { AreRuns (slice_cmp nat_cmp) runs.new.items }
    ensures same { SameTotals (rising.new ++ joined runs.new.items) (rising.old ++ joined runs.old.items) }
    ensures ok { OnOk result (rising.new ≡ []) }
{
    if rising.is_empty() {
        return Ok(());
    }
    runs.reserve(1)?;
    let run = rising.close(alloc);
    add_run(runs, run);
    Ok(())
}

/// Adds a key to the run that is made of entries in order; where that run is above it, another begins.
fn put_next(
    alloc: Global,
    summing: &mut Rising,
    runs: &mut Vec<Run>,
    key: &[u8],
    times: u64,
) -> Result<(), AllocError>
    requires run { IsRun (slice_cmp nat_cmp) summing.old }
    requires runs { AreRuns (slice_cmp nat_cmp) runs.old.items }
    requires fits { CountsFit (slice_cmp nat_cmp) ((key.now, times) ∷ (summing.old ++ joined runs.old.items)) }
    ensures run { OnOk result (IsRun (slice_cmp nat_cmp) summing.new) }
    ensures runs { OnOk result (AreRuns (slice_cmp nat_cmp) runs.new.items) }
    ensures same { OnOk result (SameTotals (summing.new ++ joined runs.new.items) ((key.now, times) ∷ (summing.old ++ joined runs.old.items))) }
{
    if times == 0 {
        return Ok(());
    }
    if !summing.put(alloc, key, times)? {
        settle_rising(alloc, summing, runs)?;
        summing.push(alloc, key, times)?;
    }
    Ok(())
}

/// Adds the entry in front of these bytes to that run.
fn put_first(
    alloc: Global,
    summing: &mut Rising,
    runs: &mut Vec<Run>,
    left: &[u8],
) -> Result<(), AllocError>
    requires block { IsBlock left.now }
    requires run { IsRun (slice_cmp nat_cmp) summing.old }
    requires runs { AreRuns (slice_cmp nat_cmp) runs.old.items }
    requires fits { CountsFit (slice_cmp nat_cmp) (first_of (entries left.now) ∷ (summing.old ++ joined runs.old.items)) }
    ensures run { OnOk result (IsRun (slice_cmp nat_cmp) summing.new) }
    ensures runs { OnOk result (AreRuns (slice_cmp nat_cmp) runs.new.items) }
    ensures same { OnOk result (SameTotals (summing.new ++ joined runs.new.items) (first_of (entries left.now) ∷ (summing.old ++ joined runs.old.items))) }
{
    match read_entry(left) {
        Some(entry) => put_next(alloc, summing, runs, entry.key, entry.times),
        None => Ok(()),
    }
}

/// The entries that begin in these places, as runs: one run, where their keys ascend.
fn runs_of(alloc: Global, sorted: &[Loose], bytes: &[u8]) -> Result<Vec<Run>, AllocError>
    requires begin { All (Begins bytes.now) sorted.now }
    requires fits { CountsFit (slice_cmp nat_cmp) (entries_of bytes.now sorted.now) }
    ensures runs { IfOk result (λ runs. AreRuns (slice_cmp nat_cmp) runs.items) }
    ensures same { IfOk result (λ runs. SameTotals (joined runs.items) (entries_of bytes.now sorted.now)) }
{
    let mut summing = Rising::with_bytes(alloc, bytes.len())?;
    let mut runs = Vec::new(alloc);
    for place in sorted {
        put_first(alloc, &mut summing, &mut runs, place.left(bytes))?;
    }
    settle_rising(alloc, &mut summing, &mut runs)?;
    Ok(runs)
}

/// The loose keys, as runs.
fn settled(alloc: Global, loose: &Block) -> Result<Vec<Run>, AllocError>
    requires { CountsFit (slice_cmp nat_cmp) loose.now }
    ensures runs { IfOk result (λ runs. AreRuns (slice_cmp nat_cmp) runs.items) }
    ensures same { IfOk result (λ runs. SameTotals (joined runs.items) loose.now) }
{
    let bytes = loose.left();
    let sorted = in_order(alloc, bytes)?;
    runs_of(alloc, &sorted, bytes)
}

/// Makes runs of the loose keys, or changes nothing.
fn settle_loose(alloc: Global, loose: &mut Block, runs: &mut Vec<Run>) -> Result<(), AllocError>
    requires runs { AreRuns (slice_cmp nat_cmp) runs.old.items }
    requires fits { CountsFit (slice_cmp nat_cmp) (loose.old ++ joined runs.old.items) }
    requires waits { Positive loose.old }
    ensures runs { AreRuns (slice_cmp nat_cmp) runs.new.items }
    ensures waits { Positive loose.new }
    ensures same { SameTotals (loose.new ++ joined runs.new.items) (loose.old ++ joined runs.old.items) }
    ensures ok { OnOk result (loose.new ≡ []) }
{
    let mut more = settled(alloc, loose)?;
    runs.append(&mut more)?;
    loose.clear();
    Ok(())
}

/// Puts a block among what waits loose. If out of memory, it becomes one of the runs, which have room for it.
fn add_block(loose: &mut Block, runs: &mut Vec<Run>, block: Block) -> Result<(), AllocError>
    requires room { vec_len runs.old < vec_capacity runs.old }
    requires run { IsRun (slice_cmp nat_cmp) block }
    requires runs { AreRuns (slice_cmp nat_cmp) runs.old.items }
    requires waits { Positive loose.old }
    ensures runs { AreRuns (slice_cmp nat_cmp) runs.new.items }
    ensures waits { Positive loose.new }
    ensures same { SameTotals (loose.new ++ joined runs.new.items) (block ++ (loose.old ++ joined runs.old.items)) }
{
    match loose.append_all(&block) {
        Ok(()) => Ok(()),
        Err(error) => {
            add_run(runs, Run::of_block(block));
            Err(error)
        }
    }
}

/// Puts the rising run among what waits loose; where it has several blocks, it becomes one of the runs.
fn loosen(
    alloc: Global,
    rising: &mut Rising,
    loose: &mut Block,
    runs: &mut Vec<Run>,
) -> Result<(), AllocError>
    requires { AreParts (slice_cmp nat_cmp) rising.old loose.old runs.old.items }
    ensures parts { AreParts (slice_cmp nat_cmp) rising.new loose.new runs.new.items }
    ensures same { SameTotals (contents rising.new loose.new runs.new.items) (contents rising.old loose.old runs.old.items) }
    ensures ok { OnOk result (rising.new ≡ []) }
{
    runs.reserve(1)?;
    let run = rising.close(alloc);
    match run.into_block() {
        Ok(block) => add_block(loose, runs, block),
        Err(whole) => {
            add_run(runs, whole);
            Ok(())
        }
    }
}

/// Closes the rising run, where it is longer than what waits loose or than a block: then a merge of both costs less than
/// sorting them together.
fn settle_long(
    alloc: Global,
    rising: &mut Rising,
    loose: &Block,
    runs: &mut Vec<Run>,
) -> Result<(), AllocError>
    requires { AreParts (slice_cmp nat_cmp) rising.old loose.now runs.old.items }
    ensures parts { AreParts (slice_cmp nat_cmp) rising.new loose.now runs.new.items }
    ensures same { SameTotals (contents rising.new loose.now runs.new.items) (contents rising.old loose.now runs.old.items) }
{
    if rising.size() <= loose.size().min(BLOCK) {
        return Ok(());
    }
    settle_rising(alloc, rising, runs)
}

/// Makes runs of the rising run and of the loose keys, so that both begin anew. If out of memory, all is still held.
fn settle_parts(
    alloc: Global,
    rising: &mut Rising,
    loose: &mut Block,
    runs: &mut Vec<Run>,
) -> Result<(), AllocError>
    requires { AreParts (slice_cmp nat_cmp) rising.old loose.old runs.old.items }
    ensures parts { AreParts (slice_cmp nat_cmp) rising.new loose.new runs.new.items }
    ensures same { SameTotals (contents rising.new loose.new runs.new.items) (contents rising.old loose.old runs.old.items) }
    ensures rising { OnOk result (rising.new ≡ []) }
    ensures loose { OnOk result (loose.new ≡ []) }
{
    settle_long(alloc, rising, loose, runs)?;
    if rising.is_empty() && loose.is_empty() {
        return Ok(());
    }
    loosen(alloc, rising, loose, runs)?;
    settle_loose(alloc, loose, runs)
}

/// Makes runs of the rising run and of the loose keys, so that both begin anew, and merges runs where there are many. If out of
/// memory, all is still held.
pub(crate) fn settle(
    alloc: Global,
    rising: &mut Rising,
    loose: &mut Block,
    runs: &mut Vec<Run>,
) -> Result<(), AllocError>
    requires { AreParts (slice_cmp nat_cmp) rising.old loose.old runs.old.items }
    ensures parts { AreParts (slice_cmp nat_cmp) rising.new loose.new runs.new.items }
    ensures same { SameTotals (contents rising.new loose.new runs.new.items) (contents rising.old loose.old runs.old.items) }
{
    settle_parts(alloc, rising, loose, runs)?;
    join_many(alloc, runs);
    Ok(())
}

/// Makes one run of all, or none where there are no keys, and returns whether it did. If out of memory, all is still held.
pub(crate) fn settle_all(
    alloc: Global,
    rising: &mut Rising,
    loose: &mut Block,
    runs: &mut Vec<Run>,
) -> bool
    requires { AreParts (slice_cmp nat_cmp) rising.old loose.old runs.old.items }
    ensures parts { AreParts (slice_cmp nat_cmp) rising.new loose.new runs.new.items }
    ensures same { SameTotals (contents rising.new loose.new runs.new.items) (contents rising.old loose.old runs.old.items) }
    ensures rising { IsTrue result → rising.new ≡ [] }
    ensures loose { IsTrue result → loose.new ≡ [] }
    ensures one { IsTrue result → vec_len runs.new ≤ 1 }
{
    if settle_parts(alloc, rising, loose, runs).is_err() {
        return false;
    }
    join_all(alloc, runs)
}

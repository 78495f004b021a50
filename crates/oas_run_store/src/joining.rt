//! Runs that are merged into one.

ghost use Rattle.std.specs.Prelude.{◌≡◌, ◌+◌, ◌<◌, ◌≤◌, [], ◌++◌, length, drop, IfOk, IsTrue, vec_len, vec_capacity};
ghost use Rattle.std.specs.Cmp.Lexicographic.{slice_cmp};
ghost use Rattle.std.specs.Ordering.{nat_cmp};
ghost use Rattle.std.specs.List.{All};
ghost use Rattle.oas_runs.specs.Runs.{IsRun, SameTotals};
ghost use Rattle.oas_runs.specs.Blocks.{joined};
ghost use Rattle.oas_run_store.specs.Parts.{AreRuns, CountsFit};

use crate::loose::eight_of;
use crate::rising::Rising;
use oas_runs::{Run, order_of};
use std::alloc::{AllocError, Global};
use std::cmp::Ordering;

/// So many runs are merged at once: then an entry is moved once where it would be moved four times, two runs at a time.
const MANY: usize = 16;

/// The first eight bytes of the first key that is left, as a number. A run with none comes last.
fn front_of(run: &Run) -> u64 {
    match run.first() {
        Some(entry) => eight_of(entry.key),
        None => u64::MAX,
    }
}

/// The fronts of runs; or out of memory.
fn fronts_of(alloc: Global, runs: &[Run]) -> Result<Vec<u64>, AllocError> {
    let mut fronts = Vec::with_capacity(alloc, runs.len())?;
    for run in runs {
        fronts.push(front_of(run))?;
    }
    Ok(fronts)
}

/// Whether the first key that is left of one run is below that of another. A run with none comes last.
fn is_below(runs: &[Run], one: usize, other: usize) -> bool {
    let (Some(one), Some(other)) = (runs.get(one), runs.get(other)) else {
        return false;
    };
    match (one.first(), other.first()) {
        (Some(one), Some(other)) => order_of(one.key, other.key) == Ordering::Less,
        (first, _) => first.is_some(),
    }
}

/// The run with the lowest first key, of those after this many. Nothing is proved of it: an entry that comes out of order is not
/// moved.
fn lowest(fronts: &[u64], runs: &[Run], from: usize) -> usize {
    let (mut lowest, mut front) = (from, u64::MAX);
    for index in from..fronts.len() {
        let other = fronts[index];
        if other < front || (other == front && is_below(runs, index, lowest)) {
            (lowest, front) = (index, other);
        }
    }
    lowest
}

/// Moves the first entry of a run to the end of another. Where it would be out of order there, where there is none, or if out of
/// memory, it moves nothing. Returns whether it did.
fn move_first(alloc: Global, from: &mut Run, to: &mut Rising) -> Result<bool, AllocError>
    requires from { IsRun (slice_cmp nat_cmp) from.old }
    requires to { IsRun (slice_cmp nat_cmp) to.old }
    requires fits { CountsFit (slice_cmp nat_cmp) (to.old ++ from.old) }
    ensures from { IsRun (slice_cmp nat_cmp) from.new }
    ensures to { IsRun (slice_cmp nat_cmp) to.new }
    ensures same { SameTotals (to.new ++ from.new) (to.old ++ from.old) }
    ensures fewer { IfOk result (λ moved. IsTrue moved → length from.new < length from.old) }
{
    let Some(entry) = from.first() else {
        return Ok(false);
    };
    let is_put = to.put(alloc, entry.key, entry.times)?;
    if is_put {
        let end = entry.end;
        from.pass(end);
    }
    Ok(is_put)
}

/// Moves the lowest of the first entries of the runs after this many to the end of another. Returns whether there was one.
fn move_lowest(
    alloc: Global,
    fronts: &mut Vec<u64>,
    runs: &mut Vec<Run>,
    from: usize,
    to: &mut Rising,
) -> Result<bool, AllocError>
    requires runs { AreRuns (slice_cmp nat_cmp) runs.old.items }
    requires to { IsRun (slice_cmp nat_cmp) to.old }
    requires fits { CountsFit (slice_cmp nat_cmp) (to.old ++ joined runs.old.items) }
    ensures runs { AreRuns (slice_cmp nat_cmp) runs.new.items }
    ensures to { IsRun (slice_cmp nat_cmp) to.new }
    ensures same { SameTotals (to.new ++ joined runs.new.items) (to.old ++ joined runs.old.items) }
    ensures len { vec_len runs.new ≡ vec_len runs.old }
    ensures capacity { vec_capacity runs.new ≡ vec_capacity runs.old }
    ensures fewer { IfOk result (λ moved. IsTrue moved → length (joined runs.new.items) < length (joined runs.old.items)) }
{
    let index = lowest(fronts, runs, from);
    let (Some(run), Some(front)) = (runs.get_mut(index), fronts.get_mut(index)) else {
        return Ok(false);
    };
    let moved = move_first(alloc, run, to)?;
    *front = front_of(run);
    Ok(moved)
}

/// The runs after this many.
fn behind(runs: &[Run], from: usize) -> &[Run]
    ensures { result.now ≡ drop from runs.now }
{
    match runs.get(from..) {
        Some(rest) => rest,
        None => &[],
    }
}

/// Whether nothing is left of these runs.
fn are_over(runs: &[Run]) -> bool
    ensures { IsTrue result → All (λ run. run ≡ []) runs.now }
{
    for run in runs {
        if !run.is_empty() {
            return false;
        }
    }
    true
}

/// Moves the entries of the runs after this many to the end of another, in their order, and returns whether none is left. If out
/// of memory it moves only a part.
fn move_all(alloc: Global, runs: &mut Vec<Run>, from: usize, to: &mut Rising) -> bool
    requires runs { AreRuns (slice_cmp nat_cmp) runs.old.items }
    requires to { IsRun (slice_cmp nat_cmp) to.old }
    requires fits { CountsFit (slice_cmp nat_cmp) (to.old ++ joined runs.old.items) }
    ensures runs { AreRuns (slice_cmp nat_cmp) runs.new.items }
    ensures to { IsRun (slice_cmp nat_cmp) to.new }
    ensures same { SameTotals (to.new ++ joined runs.new.items) (to.old ++ joined runs.old.items) }
    ensures over { IsTrue result → All (λ run. run ≡ []) (drop from runs.new.items) }
    ensures len { vec_len runs.new ≡ vec_len runs.old }
    ensures capacity { vec_capacity runs.new ≡ vec_capacity runs.old }
{
    let Ok(mut fronts) = fronts_of(alloc, runs) else {
        return false;
    };
    while matches!(move_lowest(alloc, &mut fronts, runs, from, to), Ok(true)) {}
    are_over(behind(runs, from))
}

/// About how many bytes these runs have.
fn size_of(runs: &[Run]) -> usize {
    let mut size = 0usize;
    for run in runs {
        size = size.saturating_add(run.size());
    }
    size
}

/// Merges the runs after this many into one, and returns whether it did. If out of memory it leaves several with the same sums.
fn join_from(alloc: Global, runs: &mut Vec<Run>, from: usize) -> bool
    requires runs { AreRuns (slice_cmp nat_cmp) runs.old.items }
    requires fits { CountsFit (slice_cmp nat_cmp) (joined runs.old.items) }
    ensures runs { AreRuns (slice_cmp nat_cmp) runs.new.items }
    ensures same { SameTotals (joined runs.new.items) (joined runs.old.items) }
    ensures one { IsTrue result → vec_len runs.new ≤ from + 1 }
{
    if runs.reserve(1).is_err() {
        return false;
    }
    let Ok(mut whole) = Rising::with_bytes(alloc, size_of(behind(runs, from))) else {
        return false;
    };
    let is_done = move_all(alloc, runs, from, &mut whole);
    if is_done {
        runs.truncate(from);
    }
    runs.push_reserved(whole.close(alloc));
    is_done
}

/// How many of the first runs have more than twice the bytes of all after them.
fn larger(runs: &[Run]) -> usize {
    let mut larger = runs.len();
    let mut after = 0usize;
    for (index, run) in runs.iter().enumerate().rev() {
        let size = run.size();
        if size / 2 <= after {
            larger = index;
        }
        after = after.saturating_add(size);
    }
    larger
}

/// Merges many runs, as far as memory is there, except the first ones that are larger than what comes after them: so an entry is
/// moved about log n times.
pub(crate) fn join_many(alloc: Global, runs: &mut Vec<Run>)
    requires runs { AreRuns (slice_cmp nat_cmp) runs.old.items }
    requires fits { CountsFit (slice_cmp nat_cmp) (joined runs.old.items) }
    ensures runs { AreRuns (slice_cmp nat_cmp) runs.new.items }
    ensures same { SameTotals (joined runs.new.items) (joined runs.old.items) }
{
    if runs.len() >= MANY {
        let from = larger(runs);
        join_from(alloc, runs, from);
    }
}

/// Merges all into one run and returns whether it did. If out of memory it leaves several with the same sums.
pub(crate) fn join_all(alloc: Global, runs: &mut Vec<Run>) -> bool
    requires runs { AreRuns (slice_cmp nat_cmp) runs.old.items }
    requires fits { CountsFit (slice_cmp nat_cmp) (joined runs.old.items) }
    ensures runs { AreRuns (slice_cmp nat_cmp) runs.new.items }
    ensures same { SameTotals (joined runs.new.items) (joined runs.old.items) }
    ensures one { IsTrue result → vec_len runs.new ≤ 1 }
{
    runs.len() < 2 || join_from(alloc, runs, 0)
}

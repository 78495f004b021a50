//! A run is written and read, where memory is there.

use oas_runs::{Growing, Run};
use std::alloc::Global;
use std::test::Fail;

/// Keys of one byte with counts, as a run.
fn written(alloc: Global, entries: &[(u8, u64)]) -> Result<Run, Fail> {
    let mut run = Growing::new(alloc);
    for (key, times) in entries {
        run.append(alloc, &[*key], *times)?;
    }
    Ok(run.into_run())
}

/// Whether these keys come out of a run, in this order.
fn gives(run: &Run, wanted: &[(u8, u64)]) -> bool {
    let mut left = wanted;
    for (key, times) in run.entries() {
        let Some(((byte, count), rest)) = left.split_first() else {
            return false;
        };
        if key != [*byte].as_slice() || times != *count {
            return false;
        }
        left = rest;
    }
    left.is_empty()
}

/// Whether all except the first come out once that is taken.
fn gives_others(alloc: Global) -> Result<bool, Fail> {
    let mut run = written(alloc, &[(0, 7), (1, 2), (3, 400), (9, 1)])?;
    if let Some(entry) = run.first() {
        let end = entry.end;
        run.pass(end);
    }
    Ok(gives(&run, &[(1, 2), (3, 400), (9, 1)]))
}

#[test]
fn a_run_is_gone_over(rt: HostRuntime) -> Result<(), Fail> {
    assert!(rt; gives_others(rt.alloc())?);
    Ok(())
}

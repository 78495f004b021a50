//! Names where allocations fail: a failed call returns out of memory, at the place that it was given.
//!
//! The heap is filled up, and one more small piece is given back before each run, so that the first of 13 names fails before
//! it succeeds. Where the heap cannot be filled, as under an address checker, no call fails, and the results are the same.

use super::memory::many_names;
use super::{KeepingOne, Refused, is_met, refuses_on, unit};
use crate::parts::discard;
use oas_elements::{Limits, Profile};
use oas_layout::Reader;
use oas_num::{Fraction, Name, Refusal, Why};
use oas_record::Record;
use std::alloc::{AllocError, Global};
use std::process::Abort;
use test_tools::Hoard;

/// Where END starts.
const END: u64 = 24;

/// More names than a node of the table holds.
const NAMES: u64 = 13;

/// More runs than it takes until all names are taken.
const RUNS: u32 = 200;

/// Gives the reader 13 of the names one after another, each at its number. How many it takes; none where it fails for another
/// reason than out of memory, or doesn't refuse one more record.
fn take_names(reader: &mut KeepingOne, names: &mut Vec<Name>) -> Option<u64> {
    for at in 0..NAMES {
        let name = names.pop()?;
        if let Err(refusal) = reader.take(at, Record::CellName { name, number: None }) {
            let why = Why::Memory;
            let is_kept = refusal == Refusal { at, why } && refuses_on(reader, END, refusal);
            return if is_kept { Some(at) } else { None };
        }
    }
    Some(NAMES)
}

/// The same for a new reader.
fn taken(alloc: Global, unit: Fraction, names: &mut Vec<Name>) -> Option<u64> {
    let mut reader = Reader::new(alloc, unit, Limits::standard(), Profile::One);
    let count = take_names(&mut reader, names);
    discard(reader);
    count
}

/// Gives back this many pieces, and nothing else that was freed.
fn give_back(hoard: &mut Hoard, pieces: u32) {
    hoard.fill_again();
    for _ in 0..pieces {
        hoard.give_back();
    }
}

/// Runs until all names are taken, each time with one more piece of memory. How often the first name failed before that; none
/// where they are never taken.
fn insist_on_names(
    alloc: Global,
    unit: Fraction,
    names: &mut Vec<Name>,
    hoard: &mut Hoard,
) -> Option<u32> {
    let mut refused = 0u32;
    for pieces in 1..RUNS {
        let count = taken(alloc, unit, names)?;
        if count == NAMES {
            return Some(refused);
        }
        refused = refused.saturating_add(u32::from(count == 0));
        give_back(hoard, pieces);
    }
    None
}

/// Whether the heap can be filled, and how often the first name then fails.
fn names_in_want(alloc: Global, unit: Fraction, names: &mut Vec<Name>) -> Refused {
    match Hoard::new(alloc) {
        Ok(mut hoard) => Ok((
            hoard.is_full(),
            insist_on_names(alloc, unit, names, &mut hoard),
        )),
        Err(AllocError) => Err(Why::Memory),
    }
}

/// The same with names for all runs.
fn names_refused(alloc: Global) -> Refused {
    let unit = unit()?;
    let mut names = many_names(alloc, RUNS * 13)?;
    names_in_want(alloc, unit, &mut names)
}

#[test]
fn names_without_memory(rt: HostRuntime) {
    let refused = names_refused(rt.alloc());
    assert!(rt; is_met(refused), "{refused:?}");
}

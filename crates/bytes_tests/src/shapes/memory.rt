//! Each allocation fails in turn: a call returns out of memory, or what it returns where there is memory.
//!
//! The heap is filled up, and given back a small piece at a time. Where it cannot be filled, as under an address checker, no
//! call fails, and the results are the same.

use oas_num::{SliceSource, Why};
use oas_ring::Point;
use oas_shape::{ListUse, PointList, RepField, Repetition};
use std::alloc::{AllocError, Global};
use std::process::Abort;
use test_tools::Hoard;

/// Reads a polygon of type 0 with 16 deltas.
fn read_list(alloc: Global) -> Result<PointList, Why> {
    let bytes = [0, 16, 4, 4, 4, 4, 4, 4, 4, 4, 4, 4, 4, 4, 4, 4, 4, 4];
    PointList::read(alloc, &mut SliceSource::new(&bytes, 100), ListUse::Polygon)
}

/// Reads a repetition of type 10 with 16 displacements.
fn read_repetition(alloc: Global) -> Result<Repetition, Why> {
    let bytes = [
        10, 15, 16, 16, 16, 16, 16, 16, 16, 16, 16, 16, 16, 16, 16, 16, 16, 16,
    ];
    match RepField::read(alloc, &mut SliceSource::new(&bytes, 100))? {
        RepField::New(repetition) => Ok(repetition),
        RepField::Again => Err(Why::ModalUndefined),
    }
}

/// Whether the list that is read has its vertices.
fn reads_list(alloc: Global) -> Result<bool, Why> {
    Ok(read_list(alloc)?.len() == 18)
}

/// Whether a copy of the list has them.
fn copies_list(alloc: Global, list: &PointList) -> Result<bool, Why> {
    match list.try_clone(alloc) {
        Ok(copy) => Ok(copy.len() == 18),
        Err(AllocError) => Err(Why::Memory),
    }
}

/// Whether the list gives them, with the last at the right place.
fn walks_list(alloc: Global, list: &PointList) -> Result<bool, Why> {
    let points = list.vertices(alloc, Point { x: 1, y: 2 })?;
    Ok(points.len() == 18 && points[17] == (Point { x: 1, y: 18 }))
}

/// Whether the repetition that is read has its copies.
fn reads_repetition(alloc: Global) -> Result<bool, Why> {
    Ok(read_repetition(alloc)?.count() == Some(17))
}

/// Whether a copy of the repetition has them.
fn copies_repetition(alloc: Global, repetition: &Repetition) -> Result<bool, Why> {
    match repetition.try_clone(alloc) {
        Ok(copy) => Ok(copy.count() == Some(17)),
        Err(AllocError) => Err(Why::Memory),
    }
}

/// What each of the five calls returns.
fn answers(alloc: Global, list: &PointList, repetition: &Repetition) -> [Result<bool, Why>; 5] {
    [
        reads_list(alloc),
        copies_list(alloc, list),
        walks_list(alloc, list),
        reads_repetition(alloc),
        copies_repetition(alloc, repetition),
    ]
}

/// Counts the failed calls, each at its place. Whether all fail out of memory, or return what they should.
fn count(refused: &mut [u32; 5], answers: [Result<bool, Why>; 5]) -> bool {
    let mut all = true;
    for i in 0..5 {
        all &= match answers[i] {
            Ok(is_right) => is_right,
            Err(why) => {
                refused[i] = refused[i].saturating_add(1);
                why == Why::Memory
            }
        };
    }
    all
}

/// How often each call fails while memory comes back, and whether all return what they should.
fn insist(
    alloc: Global,
    list: &PointList,
    repetition: &Repetition,
    hoard: &mut Hoard,
) -> ([u32; 5], bool) {
    let mut refused = [0; 5];
    let mut all = true;
    for _ in 0..hoard.pieces() {
        all &= count(&mut refused, answers(alloc, list, repetition));
        hoard.give_back();
    }
    (refused, all)
}

/// Whether each call failed, if the heap could be filled.
fn are_met(refused: [u32; 5], is_full: bool) -> [bool; 5] {
    let mut met = [!is_full; 5];
    for i in 0..5 {
        met[i] |= refused[i] > 0;
    }
    met
}

/// Whether, where the heap can be filled, each call fails, and whether all return what they should.
fn in_want(alloc: Global, list: &PointList, repetition: &Repetition) -> ([bool; 5], bool) {
    match Hoard::new(alloc) {
        Ok(mut hoard) => {
            let (refused, all) = insist(alloc, list, repetition, &mut hoard);
            (are_met(refused, hoard.is_full()), all)
        }
        Err(AllocError) => ([false; 5], false),
    }
}

/// The same, and what they return where there is memory again.
fn seen(alloc: Global) -> Result<(([bool; 5], bool), [Result<bool, Why>; 5]), Why> {
    let list = read_list(alloc)?;
    let repetition = read_repetition(alloc)?;
    let in_want = in_want(alloc, &list, &repetition);
    Ok((in_want, answers(alloc, &list, &repetition)))
}

#[test]
fn lists_and_repetitions_without_memory(rt: HostRuntime) {
    assert!(rt; seen(rt.alloc()) == Ok((([true; 5], true), [Ok(true); 5])));
}

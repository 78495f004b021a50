//! Sealing fails in turn: it returns out of memory, or the layout.

use super::want::Want;
use super::{add_cells, draft_of_a, put, sealed, whole};
use crate::parts::discard;
use oas_elements::{Limits, Profile};
use oas_layout::{Draft, Layout};
use oas_num::Why;
use std::alloc::{AllocError, Global};
use std::process::Abort;

/// The names of 25 cells, the last one first.
const NAMES: &str = "Z Y X W V U T S R Q P O N M L K J I H G F E D C B";

/// Adds these cells to a draft of A, and three circles to A.
fn add_many(draft: &mut Draft, alloc: Global) -> Result<(), Why> {
    add_cells(draft, alloc, NAMES)?;
    put(draft, alloc, 0, "3 circle 1 0 5 0 0")
}

/// A draft of them.
fn draft_of_many(alloc: Global) -> Result<Draft, Why> {
    let mut draft = draft_of_a(alloc, Limits::standard(), Profile::One)?;
    let added = add_many(&mut draft, alloc);
    whole(draft, added)
}

/// Whether it is the layout of such a draft.
fn is_of_many(layout: &Layout) -> bool {
    layout.cell_count() == 26 && layout.count() == 3 && layout.weight() == 55
}

/// Seals one draft after the other, each after a failure with one more piece of memory. Whether each layout is as it should
/// be.
fn seal_all(drafts: Vec<Draft>, want: &mut Want) -> bool {
    let mut all = true;
    for draft in drafts {
        match draft.seal() {
            Ok(layout) => all &= is_of_many(&layout),
            Err(AllocError) => want.give_back_anew(),
        }
    }
    all
}

/// 200 such drafts.
fn drafts_of_many(alloc: Global) -> Result<Vec<Draft>, Why> {
    let mut drafts = Vec::new(alloc);
    for _ in 0..200u32 {
        drafts.push(draft_of_many(alloc)?)?;
    }
    Ok(drafts)
}

/// Seals them where all memory is taken at first. Whether each layout is as it should be, and whether, where the heap was
/// full, a seal failed.
fn seal_in_want(alloc: Global, drafts: Vec<Draft>) -> [bool; 2] {
    match Want::new(alloc) {
        Ok(mut want) => {
            let all = seal_all(drafts, &mut want);
            [all, want.refused > 0 || !want.hoard.is_full()]
        }
        Err(AllocError) => [false, false],
    }
}

/// The same, and whether the layout of one that is sealed after them is as it should be.
fn seals(alloc: Global) -> Result<([bool; 2], bool), Why> {
    let last = draft_of_many(alloc)?;
    let drafts = drafts_of_many(alloc)?;
    let in_want = seal_in_want(alloc, drafts);
    let layout = sealed(last, Ok(()))?;
    let is_right = is_of_many(&layout);
    discard(layout);
    Ok((in_want, is_right))
}

#[test]
fn seals_without_memory(rt: HostRuntime) {
    assert!(rt; seals(rt.alloc()) == Ok(([true, true], true)));
}

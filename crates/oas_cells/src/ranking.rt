//! The order of names, so that what waits for them can be placed in the order of its keys. That order is for speed alone:
//! nothing is promised of it, and a cell is the same in whatever order it is filled.

use crate::cells::CompactCell;
use crate::profiles::KeptBy;
use crate::sorting::MANY;
use oas_num::{Label, Name};
use oas_reader::NameTable;
use std::alloc::{AllocError, Global};
use std::cmp::Ordering;

/// Where the names of numbers stand in the order of their bytes: those of cells, and after them all text strings.
#[derive(Drop)]
pub struct Ranks {
    cells: Vec<u32>,
    strings: Vec<u32>,
}

impl Ranks {
    /// The ranks of all names whose numbers come in order, as in most files; or out of memory.
    pub(crate) fn of(
        alloc: Global,
        names: &NameTable<Name>,
        strings: &NameTable<Label>,
    ) -> Result<Ranks, AllocError> {
        let names = names.in_order();
        let cells = ranks_of(alloc, names, 0)?;
        let strings = ranks_of(alloc, strings.in_order(), narrow(names.len()))?;
        Ok(Ranks { cells, strings })
    }

    /// The rank of a cell's name.
    #[inline(always)]
    pub(crate) fn of_cell(&self, number: u32) -> u32 {
        rank_at(&self.cells, number)
    }

    /// The rank of a text string.
    #[inline(always)]
    pub(crate) fn of_string(&self, number: u32) -> u32 {
        rank_at(&self.strings, number)
    }
}

/// A number in 32 bits, or the highest of them.
fn narrow(number: usize) -> u32 {
    u32::try_from(number).unwrap_or(u32::MAX)
}

/// The rank of a number; the last, where it has none.
#[inline(always)]
fn rank_at(ranks: &[u32], number: u32) -> u32 {
    match ranks.get(number as usize) {
        Some(rank) => *rank,
        None => u32::MAX,
    }
}

/// The order of the names of two numbers.
fn order_of_names<S: Ord>(names: &[S], one: u32, other: u32) -> Ordering {
    match (names.get(one as usize), names.get(other as usize)) {
        (Some(one), Some(other)) => one.cmp(other),
        _ => Ordering::Equal,
    }
}

/// The numbers of these names, in the order of the names.
fn numbers_in_order<S: Ord>(alloc: Global, names: &[S]) -> Result<Vec<u32>, AllocError> {
    let mut numbers = Vec::with_capacity(alloc, names.len())?;
    for number in 0..narrow(names.len()) {
        numbers.push(number)?;
    }
    numbers.sort_unstable_by(|one, other| order_of_names(names, *one, *other));
    Ok(numbers)
}

/// The rank of each of these names, from this one on.
fn ranks_of<S: Ord>(alloc: Global, names: &[S], first: u32) -> Result<Vec<u32>, AllocError> {
    let mut ranks = vec![in alloc; u32::MAX; names.len()]?;
    let mut rank = first;
    for number in numbers_in_order(alloc, names)? {
        if let Some(place) = ranks.get_mut(number as usize) {
            *place = rank;
        }
        rank = rank.saturating_add(1);
    }
    Ok(ranks)
}

/// How many names are worth their ranks, for each that waits for one.
const NAMES: usize = 4;

/// The ranks by which [`CompactCell::into_run`] is faster, where enough waits in some of these cells that they are worth their
/// time; or out of memory.
pub fn ranks_for<P: KeptBy>(
    alloc: Global,
    cells: &[CompactCell<P>],
    names: &NameTable<Name>,
    strings: &NameTable<Label>,
) -> Result<Option<Ranks>, AllocError> {
    let mut waiting = 0usize;
    for cell in cells {
        let count = cell.count_waiting();
        if count >= MANY {
            waiting = waiting.saturating_add(count);
        }
    }
    let all = names
        .in_order()
        .len()
        .saturating_add(strings.in_order().len());
    if waiting == 0 || all / NAMES > waiting {
        return Ok(None);
    }
    Ok(Some(Ranks::of(alloc, names, strings)?))
}

//! A store of keys, which are bytes, each with its count, in little more memory than their bytes.
//!
//! What this crate promises to the crates above it:
//!
//! - A [`KeyStore`] takes keys in any order; contracts see it as the ascending list of keys with their counts. If out of
//!   memory, [`KeyStore::add`] changes nothing. [`KeyStore::close`] returns a run (`Run` of oas_runs) of just that list,
//!   which ascends strictly, or, if out of memory, the store unchanged. [`KeyStore::rest`] gives back idle memory, and
//!   doesn't change the list. [`KeyStore::take_few`] takes the list out as one block, where its keys are few, and
//!   [`KeyStore::of_block`] is the store of such a block. [`KeyStore::settle`] changes nothing, and keys that ascend from then
//!   on are a rising run, whatever was there.
//! - The tally of any list of keys and counts (`tally`, specs/Tally.antt) is determined by its sums alone: a run with these
//!   sums is that tally (`run_is_tally`, specs/Laws/TallyLaws.antt).
//!
//! How a store is built. A key above all of the rising run is put at its end, and one that equals its last key adds to that
//! count. So keys that ascend are written once and never compared again. Any other key waits loose, unsorted, among at most 2
//! MiB of such keys, or 1 MiB where a sample shows that they repeat. When these are full they are sorted and equal ones are
//! joined. The rising run and the sorted keys become runs. Where there are sixteen runs or more, the last of them are merged at
//! once, except those at the front that are larger than twice what comes after them. So there are few runs, and a key is moved
//! about log n times in whatever order keys come. A rising run that is no longer than what waits, or than a block, is put among
//! it first, so that both become one run: most stores of a few keys never merge. No contract is about time or about bytes.
//!
//! A sort moves where the keys begin, not the keys: 16 bytes each, of which eleven are bytes of the key, after those of the first
//! eight that all keys that wait have in common, and one says how many. For keys of one kind on one layer these decide most
//! comparisons. A sort is not promised to be correct: what comes out of order begins another run. Nor is the choice of
//! the run with the lowest key: an entry that would be out of order is not moved.
#![tactic(auto)]

mod adding;
mod joining;
mod loose;
mod rising;
mod sampling;
mod settling;
mod store;

pub use store::KeyStore;

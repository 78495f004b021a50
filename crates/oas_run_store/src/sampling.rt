//! Whether keys repeat, by a sample of them.

ghost use Rattle.oas_runs.specs.Entries.{IsBlock};

use oas_runs::{after, read_entry};
use std::alloc::{AllocError, Global};

/// So many keys show whether most of them differ.
const SAMPLE: usize = 1024;

/// Keys repeat if more than one in so many is the same as another.
const PART: usize = 8;

/// So many of a key's last bytes are looked at.
const TAIL: usize = 64;

/// A sum of a key's length and of its last bytes in their order, which two different keys seldom have in common.
fn sum_of(key: &[u8]) -> u64 {
    let mut sum = key.len() as u64;
    for byte in &key[key.len().saturating_sub(TAIL)..] {
        sum = sum
            .wrapping_mul(0x100_0000_01b3)
            .wrapping_add(u64::from(*byte));
    }
    sum
}

/// The sums of the first keys.
fn first_sums(alloc: Global, bytes: &[u8]) -> Result<Vec<u64>, AllocError>
    requires { IsBlock bytes.now }
{
    let mut sums = Vec::with_capacity(alloc, SAMPLE)?;
    let mut left = bytes;
    while let Some(entry) = read_entry(left) {
        if sums.len() >= SAMPLE {
            return Ok(sums);
        }
        sums.push(sum_of(entry.key))?;
        left = after(left, entry.end);
    }
    Ok(sums)
}

/// How many are the same as the one before.
fn repeated(sums: &[u64]) -> usize {
    let mut count: usize = 0;
    for pair in sums.windows(2) {
        if pair[0] == pair[1] {
            count = count.saturating_add(1);
        }
    }
    count
}

/// Whether many of the first keys of a block are the same. If out of memory, they are taken to be.
#[cold]
#[inline(never)]
pub(crate) fn repeats(alloc: Global, bytes: &[u8]) -> bool
    requires { IsBlock bytes.now }
{
    let Ok(mut sums) = first_sums(alloc, bytes) else {
        return true;
    };
    sums.sort_unstable();
    repeated(&sums) > sums.len() / PART
}

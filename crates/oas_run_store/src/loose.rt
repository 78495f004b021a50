//! The loose keys, put into order.

ghost use Rattle.std.specs.Prelude.{◌≡◌, ◌≤◌, IfOk, length, drop};
ghost use Rattle.std.specs.List.{All};
ghost use Rattle.oas_runs.specs.Entries.{entries, IsBlock};
ghost use Rattle.oas_runs.specs.Runs.{SameTotals};
ghost use Rattle.oas_run_store.specs.Loose.{entries_of, Begins};

use oas_runs::{AT_ONCE, after, number_of, order_of, read_entry};
use std::alloc::{AllocError, Global};
use std::cmp::Ordering;

/// Where an entry that waits begins, and eleven bytes of its key, after those of the first eight that all keys have in common,
/// with their count behind them, as two numbers. They decide most comparisons, and each of keys without more bytes. It has 16
/// bytes, so that a sort moves little.
#[derive(Clone, Copy)]
pub(crate) struct Loose {
    front: u64,
    next: u32,
    at: u32,
}

impl Loose {
    /// The bytes that begin with its entry.
    #[inline(always)]
    pub(crate) fn left(self, bytes: &[u8]) -> &[u8]
        requires { Begins bytes.now self }
        ensures { result.now ≡ drop self.at bytes.now }
    {
        after(bytes, self.at as usize)
    }

    /// Whether its key has no bytes after these.
    #[inline(always)]
    fn is_whole(self) -> bool {
        self.next % 256 < FRONT as u32
    }
}

/// How many bytes two numbers have: eleven of a key, and their count.
const FRONT: usize = AT_ONCE + 4;

/// The first eleven bytes, and how many there are, or 12 if there are more, as two numbers, each with its first byte highest.
/// Where there are fewer, they are padded with zeros. So the order of these is that of the bytes, where neither begins with the
/// other, as with keys of elements. Elsewhere two keys may be taken as equal, which costs a run.
#[inline(always)]
fn front_of(bytes: &[u8]) -> (u64, u32) {
    if bytes.len() >= FRONT {
        return (number_of(bytes), next_of(bytes, FRONT as u8));
    }
    let mut front = [0; FRONT];
    for (to, byte) in front.iter_mut().zip(bytes) {
        *to = *byte;
    }
    (number_of(&front), next_of(&front, bytes.len() as u8))
}

/// The three bytes after the first eight, and a count, as a number.
#[inline(always)]
fn next_of(bytes: &[u8], count: u8) -> u32
    requires { 12 ≤ length bytes.now }
{
    u32::from_be_bytes([bytes[8], bytes[9], bytes[10], count])
}

/// The bytes of a key after this many.
fn behind(key: &[u8], shared: usize) -> &[u8] {
    match key.get(shared..) {
        Some(rest) => rest,
        None => &[],
    }
}

/// The byte that announces a number of eight bytes in an entry.
const LONG: u8 = 255;

/// The number in front of an entry, and the bytes after it.
fn number_in_front(bytes: &[u8]) -> (usize, &[u8]) {
    match bytes.first() {
        Some(first) if *first < LONG => (usize::from(*first), behind(bytes, 1)),
        _ => (long_in_front(bytes), behind(bytes, 9)),
    }
}

/// A number of eight bytes, the low ones first, after the byte that announces it.
fn long_in_front(bytes: &[u8]) -> usize {
    if bytes.len() < 9 {
        return 0;
    }
    u64::from_le_bytes([
        bytes[1], bytes[2], bytes[3], bytes[4], bytes[5], bytes[6], bytes[7], bytes[8],
    ]) as usize
}

/// The key of the entry in front. A sort may not ask for what is known of the bytes, so here they may be any.
fn key_in_front(bytes: &[u8]) -> &[u8] {
    let (len, after_len) = number_in_front(bytes);
    let (_, key) = number_in_front(after_len);
    match key.get(..len) {
        Some(key) => key,
        None => key,
    }
}

/// Which of two keys is lower, by all their bytes.
#[inline(never)]
fn order_of_keys(one: &Loose, other: &Loose, bytes: &[u8]) -> Ordering {
    order_of(
        key_in_front(behind(bytes, one.at as usize)),
        key_in_front(behind(bytes, other.at as usize)),
    )
}

/// Which of two keys is lower.
#[inline(always)]
fn order(one: &Loose, other: &Loose, bytes: &[u8]) -> Ordering {
    if one.front != other.front {
        return one.front.cmp(&other.front);
    }
    if one.next != other.next {
        return one.next.cmp(&other.next);
    }
    if one.is_whole() {
        return Ordering::Equal;
    }
    order_of_keys(one, other, bytes)
}

/// The first eight bytes as a number with the first byte highest. Where there are fewer, they are padded with zeros.
#[inline(always)]
pub(crate) fn eight_of(bytes: &[u8]) -> u64 {
    if bytes.len() >= AT_ONCE {
        return number_of(bytes);
    }
    front_of(bytes).0
}

/// How many entries there are, the first eight bytes of the first key, and the bits in which those of others differ.
#[derive(Clone, Copy)]
struct Common {
    count: usize,
    front: u64,
    differ: u64,
}

impl Common {
    /// The same with one more key.
    #[inline(always)]
    fn with(self, key: &[u8]) -> Common {
        Common {
            count: self.count.saturating_add(1),
            front: self.front,
            differ: self.differ | (eight_of(key) ^ self.front),
        }
    }

    /// How many of the first eight bytes are the same in all keys.
    fn shared(self) -> usize {
        (self.differ.leading_zeros() / u8::BITS) as usize
    }
}

/// What all keys of a block have in common.
fn common_to_all(bytes: &[u8]) -> Common
    requires { IsBlock bytes.now }
{
    let mut common = Common {
        count: 0,
        front: match read_entry(bytes) {
            Some(entry) => eight_of(entry.key),
            None => 0,
        },
        differ: 0,
    };
    let mut left = bytes;
    while let Some(entry) = read_entry(left) {
        common = common.with(entry.key);
        left = after(left, entry.end);
    }
    common
}

/// In fewer bytes than this it isn't worth the time to find what keys have in common.
const FEW: usize = 4096;

/// Most entries have at least this many bytes.
const SHORT: usize = 16;

/// What the keys of a block are taken to have in common: nothing, where they are few.
fn common_to(bytes: &[u8]) -> Common
    requires { IsBlock bytes.now }
{
    if bytes.len() < FEW {
        return Common {
            count: bytes.len() / SHORT + 1,
            front: 0,
            differ: u64::MAX,
        };
    }
    common_to_all(bytes)
}

/// Where the entries of a block begin. Memory for this many is reserved at once.
fn begins_of(
    alloc: Global,
    bytes: &[u8],
    count: usize,
    shared: usize,
) -> Result<Vec<Loose>, AllocError>
    requires { IsBlock bytes.now }
    ensures begin { IfOk result (λ all. All (Begins bytes.now) all.items) }
    ensures same { IfOk result (λ all. SameTotals (entries_of bytes.now all.items) (entries bytes.now)) }
{
    let mut all = Vec::with_capacity(alloc, count)?;
    let mut at = 0;
    while let Some(entry) = read_entry(after(bytes, at)) {
        let Ok(begin) = u32::try_from(at) else {
            return Err(AllocError);
        };
        let (front, next) = front_of(behind(entry.key, shared));
        all.push(Loose {
            front,
            next,
            at: begin,
        })?;
        at += entry.end;
    }
    Ok(all)
}

/// Where the entries of a block begin, in the order of their keys.
pub(crate) fn in_order(alloc: Global, bytes: &[u8]) -> Result<Vec<Loose>, AllocError>
    requires { IsBlock bytes.now }
    ensures begin { IfOk result (λ all. All (Begins bytes.now) all.items) }
    ensures same { IfOk result (λ all. SameTotals (entries_of bytes.now all.items) (entries bytes.now)) }
{
    let common = common_to(bytes);
    let mut all = begins_of(alloc, bytes, common.count, common.shared())?;
    all.sort_unstable_by(|one, other| order(one, other, bytes));
    Ok(all)
}

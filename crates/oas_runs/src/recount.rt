//! The count of the last entry, changed where it stands.

ghost use Rattle.std.specs.Prelude.{◌≡◌, ◌+◌, ◌-◌, ◌<◌, ◌≤◌, ◌^◌, [], ◌∷◌, ◌++◌, List, ℕ, OnOk, OnErr, length, take, drop};
ghost use Rattle.std.specs.Int.{w64, to_le_bytes};
ghost use Rattle.oas_runs.specs.Entries.{IsBlock, entries, entry_bytes};

use crate::entry::{LONG, after, push_entry, read_entry};
use std::alloc::{AllocError, Global};

/// Adds to the count of the last entry, which begins after this many bytes; or changes nothing. The count is changed where it
/// stands, unless it has a byte and will have nine.
#[inline(never)]
pub(crate) fn count_last(
    bytes: &mut Vec<u8>,
    alloc: Global,
    at: usize,
    more: u64,
) -> Result<(), AllocError>
    requires within { at ≤ length bytes.old.items }
    requires block { IsBlock (drop at bytes.old.items) }
    requires last { (p : List ℕ × ℕ) × (entries (drop at bytes.old.items) ≡ p ∷ []) × (p.1 + more < 2 ^ 64) }
    ensures ok { OnOk result ((p : List ℕ × ℕ) × (entries (drop at bytes.old.items) ≡ p ∷ []) × (bytes.new.items ≡ take at bytes.old.items ++ entry_bytes (p.0, p.1 + more))) }
    ensures err { OnErr result (bytes.new.items ≡ bytes.old.items) }
{
    let Some(entry) = read_entry(after(bytes, at)) else {
        return Ok(());
    };
    let times = entry.times + more;
    let key_start = at + (entry.end - entry.key.len());
    if times < u64::from(LONG) {
        bytes[key_start - 1] = times as u8;
        return Ok(());
    }
    if entry.times >= u64::from(LONG) {
        replace_number(bytes, key_start, times);
        return Ok(());
    }
    let mut counted = Vec::new(alloc);
    push_entry(&mut counted, entry.key, times)?;
    replace_end(bytes, at, &counted)
}

/// Puts a number, with its low bytes first, in place of the eight bytes that end after this many.
fn replace_number(bytes: &mut Vec<u8>, end: usize, number: u64)
    requires long { 8 ≤ end }
    requires within { end ≤ length bytes.old.items }
    ensures { bytes.new.items ≡ take (end - 8) bytes.old.items ++ (to_le_bytes w64 number ++ drop end bytes.old.items) }
{
    bytes[end - 8..end].copy_from_slice(&number.to_le_bytes());
}

/// Replaces all bytes after this many by others, or changes nothing.
fn replace_end(bytes: &mut Vec<u8>, at: usize, end: &[u8]) -> Result<(), AllocError>
    requires { at ≤ length bytes.old.items }
    ensures ok { OnOk result (bytes.new.items ≡ take at bytes.old.items ++ end.now) }
    ensures err { OnErr result (bytes.new.items ≡ bytes.old.items) }
{
    bytes.reserve_exact(end.len())?;
    bytes.truncate(at);
    bytes.extend_from_slice(end)
}

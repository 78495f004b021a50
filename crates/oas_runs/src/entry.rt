//! An entry as bytes: the length of its key, its count, and the key.

ghost use Rattle.std.specs.Prelude.{◌≡◌, ◌+◌, ◌<◌, ◌≤◌, [], ◌∷◌, ◌++◌, OnOk, OnErr, IsTrue, IsFalse, IfSome, IfNone, length, take, drop, slice_index};
ghost use Rattle.oas_runs.specs.Entries.{number_bytes, entry_bytes, number_at, number_size, entries, IsBlock};

use crate::room::reserve_more;
use std::alloc::AllocError;

/// The byte that announces a number of eight bytes. Numbers below it are one byte.
pub(crate) const LONG: u8 = 255;

/// How many bytes of an entry are not its key, where both numbers are one byte.
pub(crate) const SHORT_HEAD: usize = 2;

/// The same where both numbers are long.
const LONG_HEAD: usize = 18;

/// Puts a number at the end, or a prefix of it.
fn push_number(bytes: &mut Vec<u8>, number: u64) -> Result<(), AllocError>
    ensures ok { OnOk result (bytes.new.items ≡ bytes.old.items ++ number_bytes number) }
    ensures err { OnErr result (take (length bytes.old.items) bytes.new.items ≡ bytes.old.items) }
{
    if number < u64::from(LONG) {
        if bytes.push(number as u8).is_err() {
            return Err(AllocError);
        }
        return Ok(());
    }
    if bytes.push(LONG).is_err() {
        return Err(AllocError);
    }
    bytes.extend_from_slice(&number.to_le_bytes())
}

/// Puts an entry at the end, or a prefix of it.
fn push_parts(bytes: &mut Vec<u8>, key: &[u8], times: u64) -> Result<(), AllocError>
    ensures ok { OnOk result (bytes.new.items ≡ bytes.old.items ++ entry_bytes (key.now, times)) }
    ensures err { OnErr result (take (length bytes.old.items) bytes.new.items ≡ bytes.old.items) }
{
    push_number(bytes, key.len() as u64)?;
    push_number(bytes, times)?;
    bytes.extend_from_slice(key)
}

/// Puts an entry at the end, or nothing.
#[inline(never)]
fn push_long(bytes: &mut Vec<u8>, key: &[u8], times: u64) -> Result<(), AllocError>
    ensures ok { OnOk result (bytes.new.items ≡ bytes.old.items ++ entry_bytes (key.now, times)) }
    ensures err { OnErr result (bytes.new.items ≡ bytes.old.items) }
{
    reserve_more(bytes, key.len() + LONG_HEAD)?;
    let before = bytes.len();
    let pushed = push_parts(bytes, key, times);
    if pushed.is_err() {
        bytes.truncate(before);
    }
    pushed
}

/// Puts two numbers of a byte each and a key at the end, or nothing.
#[inline(always)]
fn push_short(bytes: &mut Vec<u8>, len: u8, times: u8, key: &[u8]) -> Result<(), AllocError>
    ensures ok { OnOk result (bytes.new.items ≡ bytes.old.items ++ len ∷ times ∷ key.now) }
    ensures err { OnErr result (bytes.new.items ≡ bytes.old.items) }
{
    reserve_more(bytes, key.len() + SHORT_HEAD)?;
    bytes.push_reserved(len);
    bytes.push_reserved(times);
    bytes.extend_from_slice(key)
}

/// Puts an entry at the end, or nothing. One whose numbers have a byte each, as nearly all do, reserves memory once.
#[inline(always)]
pub(crate) fn push_entry(bytes: &mut Vec<u8>, key: &[u8], times: u64) -> Result<(), AllocError>
    ensures ok { OnOk result (bytes.new.items ≡ bytes.old.items ++ entry_bytes (key.now, times)) }
    ensures err { OnErr result (bytes.new.items ≡ bytes.old.items) }
{
    if key.len() < usize::from(LONG) && times < u64::from(LONG) {
        return push_short(bytes, key.len() as u8, times as u8, key);
    }
    push_long(bytes, key, times)
}

/// A number that was read, and how many bytes it takes.
#[derive(Drop)]
struct Number {
    value: u64,
    size: usize,
}

/// Reads the first number.
fn read_number(bytes: &[u8]) -> Number
    requires some { 0 < length bytes.now }
    requires long { slice_index bytes.now 0 ≡ 255 → 9 ≤ length bytes.now }
    ensures value { result.value ≡ number_at bytes.now }
    ensures size { result.size ≡ number_size bytes.now }
{
    let first = bytes[0];
    if first < LONG {
        return Number {
            value: u64::from(first),
            size: 1,
        };
    }
    let value = u64::from_le_bytes([
        bytes[1], bytes[2], bytes[3], bytes[4], bytes[5], bytes[6], bytes[7], bytes[8],
    ]);
    Number { value, size: 9 }
}

/// The bytes after this many.
#[inline(always)]
pub fn after(bytes: &[u8], skipped: usize) -> &[u8]
    requires { skipped ≤ length bytes.now }
    ensures { result.now ≡ drop skipped bytes.now }
{
    &bytes[skipped..]
}

/// This many bytes after this many.
#[inline(always)]
fn part(bytes: &[u8], skipped: usize, len: usize) -> &[u8]
    requires { skipped + len ≤ length bytes.now }
    ensures { result.now ≡ take len (drop skipped bytes.now) }
{
    &bytes[skipped..skipped + len]
}

/// An entry that was read, and where it ends.
#[derive(Drop)]
pub struct Entry<'a> {
    pub key: &'a [u8],
    pub times: u64,
    pub end: usize,
}

/// Whether there is no entry.
pub(crate) fn is_over(bytes: &[u8]) -> bool
    ensures over { IsTrue result → entries bytes.now ≡ [] }
    ensures left { IsFalse result → entries bytes.now ≡ [] → ⊥ }
{
    if bytes.is_empty() {
        return true;
    }
    false
}

/// Reads the first entry, whatever its numbers are.
#[inline(never)]
fn read_long(bytes: &[u8]) -> Option<Entry<'_>>
    requires { IsBlock bytes.now }
    ensures none { IfNone result (entries bytes.now ≡ []) }
    ensures some { IfSome result (λ e. entries bytes.now ≡ (e.key.now, e.times) ∷ entries (drop e.end bytes.now)) }
    ensures rest { IfSome result (λ e. IsBlock (drop e.end bytes.now)) }
    ensures within { IfSome result (λ e. e.end ≤ length bytes.now) }
    ensures end { IfSome result (λ e. 0 < e.end) }
{
    if bytes.is_empty() {
        return None;
    }
    let size = read_number(bytes);
    let times = read_number(after(bytes, size.size));
    let start = size.size + times.size;
    let len = size.value as usize;
    Some(Entry {
        key: part(bytes, start, len),
        times: times.value,
        end: start + len,
    })
}

/// Reads the first entry. One whose numbers have a byte each is read without a call.
#[inline(always)]
pub fn read_entry(bytes: &[u8]) -> Option<Entry<'_>>
    requires { IsBlock bytes.now }
    ensures none { IfNone result (entries bytes.now ≡ []) }
    ensures some { IfSome result (λ e. entries bytes.now ≡ (e.key.now, e.times) ∷ entries (drop e.end bytes.now)) }
    ensures rest { IfSome result (λ e. IsBlock (drop e.end bytes.now)) }
    ensures within { IfSome result (λ e. e.end ≤ length bytes.now) }
    ensures end { IfSome result (λ e. 0 < e.end) }
{
    if bytes.len() < SHORT_HEAD || bytes[0] == LONG || bytes[1] == LONG {
        return read_long(bytes);
    }
    let len = usize::from(bytes[0]);
    Some(Entry {
        key: part(bytes, SHORT_HEAD, len),
        times: u64::from(bytes[1]),
        end: SHORT_HEAD + len,
    })
}

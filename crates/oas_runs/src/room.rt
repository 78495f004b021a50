//! How bytes grow.

ghost use Rattle.std.specs.Prelude.{◌≡◌, ◌+◌, ◌≤◌, OnOk, vec_len, vec_capacity};

use std::alloc::AllocError;

/// Memory is reserved for at least this many bytes at a time.
const LEAST: usize = 1024;

/// How much of the present size is reserved at once: a quarter. So bytes are moved only a few times each while they grow, and
/// at most a fifth of many bytes is idle.
const PART: usize = 4;

/// Makes room for this many more bytes.
#[inline(always)]
pub(crate) fn reserve_more(bytes: &mut Vec<u8>, more: usize) -> Result<(), AllocError>
    ensures items { bytes.new.items ≡ bytes.old.items }
    ensures ok { OnOk result (vec_len bytes.new + more ≤ vec_capacity bytes.new) }
{
    if more <= bytes.capacity() - bytes.len() {
        return Ok(());
    }
    grow(bytes, more)
}

/// Reserves room for this many more bytes, or for a part of the present size, where that is more.
#[inline(never)]
fn grow(bytes: &mut Vec<u8>, more: usize) -> Result<(), AllocError>
    ensures items { bytes.new.items ≡ bytes.old.items }
    ensures ok { OnOk result (vec_len bytes.new + more ≤ vec_capacity bytes.new) }
{
    let part = (bytes.len() / PART).max(LEAST);
    bytes.reserve_exact(part.max(more))
}

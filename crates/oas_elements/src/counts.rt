//! Counts by key.

ghost use Rattle.std.specs.Prelude.{◌≡◌, ◌+◌, ◌<◌, ◌^◌, unwrap_or, OnOk, OnErr};
ghost use Rattle.std.specs.BTreeMap.{get, insert_entry, IsOrdered, IsUnchanged};

use std::alloc::{AllocError, Global};
use std::collections::BTreeMap;

/// Adds to the count of a key, in one search for its place, or changes nothing.
pub fn count_up<K: Ord + Drop>(
    counts: &mut BTreeMap<K, u64>,
    key: K,
    times: u64,
) -> Result<(), AllocError>
    requires { unwrap_or (get K.cmp counts.old key) 0 + times < 2 ^ 64 }
    ensures entries { OnOk result (counts.new.entries ≡ insert_entry K.cmp counts.old.entries key (unwrap_or (get K.cmp counts.old key) 0 + times)) }
    ensures ordered { OnOk result (IsOrdered K.cmp counts.new) }
    ensures err { OnErr result (IsUnchanged counts.old counts.new) }
{
    let entry = match counts.entry(key) {
        Ok(entry) => entry,
        Err(_) => return Err(AllocError),
    };
    *entry.or_insert(0) += times;
    Ok(())
}

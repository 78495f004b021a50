//! Memory comes back.

use super::*;
use std::test::Fail;

/// While the heap is full, allocations fail; once pieces are given back, they succeed.
#[test]
fn memory_comes_back(rt: HostRuntime) -> Result<(), Fail> {
    let alloc = rt.alloc();
    let mut hoard = Hoard::new(alloc)?;
    let mut refused = 0u32;
    for left in 0..hoard.pieces() {
        if Vec::<u8>::with_capacity(alloc, 1000).is_err() {
            refused = refused.saturating_add(1);
        }
        let before = hoard.pieces();
        hoard.give_back();
        assert!(rt; before > 0 && hoard.pieces() == before - 1, "{left}");
    }
    hoard.give_back();
    assert!(rt; hoard.pieces() == 0 && (!hoard.is_full() || refused > 0));
    hoard.fill_again();
    let is_full = hoard.is_full();
    assert!(rt; !is_full || Vec::<u8>::with_capacity(alloc, 1000).is_err());
    drop(hoard);
    assert!(rt; Vec::<u8>::with_capacity(alloc, 1000).is_ok());
    Ok(())
}

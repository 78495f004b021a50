//! Keys come in bad orders: more of them than wait loose, with a few more that rise or wait. The expected result is known by
//! arithmetic.

ghost use Rattle.std.specs.Prelude.{◌≡◌, ◌+◌, ◌<◌, ◌^◌, OnOk};
ghost use Rattle.std.specs.Cmp.Lexicographic.{slice_cmp};
ghost use Rattle.std.specs.Ordering.{nat_cmp};
ghost use Rattle.oas_elements.specs.Bag.{put_more};
ghost use Rattle.oas_run_store.specs.Tally.{count_at};

use oas_run_store::KeyStore;
use oas_runs::Run;
use std::alloc::{AllocError, Global};
use std::process::Abort;

/// How many numbers come, in most orders.
const COUNT: u32 = 100_000;

/// An order in which numbers come.
#[derive(Clone, Copy, Debug)]
enum Order {
    Ascending,
    Descending,
    Sawtooth,
    OrganPipe,
    Scattered,
    Few,
    /// This many ascend, and then this many below them descend.
    Apart(u32, u32),
    /// This many ascend, and then they descend this many times.
    Again(u32, u32),
}

impl Order {
    /// How many numbers come.
    fn count(self) -> u32 {
        match self {
            Order::Apart(rising, loose) => rising.saturating_add(loose),
            Order::Again(rising, rounds) => rising.saturating_mul(rounds.saturating_add(1)),
            _ => COUNT,
        }
    }

    /// The number that comes after this many others.
    fn number(self, before: u32) -> u32 {
        match self {
            Order::Ascending => before,
            Order::Descending => (COUNT - 1).saturating_sub(before),
            Order::Sawtooth => before % 25_000,
            Order::OrganPipe => before.min((COUNT - 1).saturating_sub(before)),
            Order::Scattered => before.wrapping_mul(7919) % COUNT,
            Order::Few => before.wrapping_mul(7) % 10,
            Order::Apart(rising, loose) => {
                if before < rising {
                    return loose.saturating_add(before);
                }
                loose.saturating_sub((before - rising).saturating_add(1))
            }
            Order::Again(rising, _) => {
                if before < rising {
                    return before;
                }
                rising.saturating_sub((before % rising.max(1)).saturating_add(1))
            }
        }
    }
}

/// Adds a key once, at the second try if the first fails.
fn insist(store: &mut KeyStore, key: &[u8]) -> Result<(), AllocError>
    requires { count_at (slice_cmp nat_cmp) store.old key.now + 1 < 2 ^ 64 }
    ensures { OnOk result (store.new ≡ put_more (slice_cmp nat_cmp) store.old key.now 1) }
{
    match store.add(key, 1) {
        Ok(()) => Ok(()),
        Err(AllocError) => store.add(key, 1),
    }
}

/// Adds a key once, and has the store put all that it has into runs where it `settles` behind it.
fn put(store: &mut KeyStore, key: &[u8], settles: bool) -> Result<(), AllocError>
    requires { count_at (slice_cmp nat_cmp) store.old key.now + 1 < 2 ^ 64 }
    ensures { OnOk result (store.new ≡ put_more (slice_cmp nat_cmp) store.old key.now 1) }
{
    insist(store, key)?;
    if settles {
        store.settle()?;
    }
    Ok(())
}

/// A store of the numbers in an order, four bytes each. It settles behind each number whose place is a multiple of `every`, if that
/// isn't 0.
fn filled(alloc: Global, order: Order, every: u32) -> Result<KeyStore, AllocError> {
    let mut store = KeyStore::new(alloc);
    for k in 0..order.count() {
        let key = order.number(k).to_be_bytes();
        put(&mut store, &key, every > 0 && k % every == 0)?;
    }
    Ok(store)
}

/// What a store holds, at the second try if the first fails.
fn closed(store: KeyStore) -> Result<Run, AllocError> {
    match store.close() {
        Ok(run) => Ok(run),
        Err(store) => match store.close() {
            Ok(run) => Ok(run),
            Err(_store) => Err(AllocError),
        },
    }
}

/// How many numbers come out of a run, each this many times; or which one does not.
fn numbers_of(run: &Run, times: u64) -> Result<u32, u32> {
    let mut next: u32 = 0;
    for (key, count) in run.entries() {
        if key != next.to_be_bytes().as_slice() || count != times {
            return Err(next);
        }
        next = next.saturating_add(1);
    }
    Ok(next)
}

/// The same, for the numbers in an order.
fn numbers(alloc: Global, order: Order, times: u64) -> Result<Result<u32, u32>, AllocError> {
    let run = closed(filled(alloc, order, 0)?)?;
    Ok(numbers_of(&run, times))
}

/// Asserts for each order that the numbers below the first one beside it come out, each as often as the second says.
fn assert_numbers(
    rt: &impl Abort,
    alloc: Global,
    rows: &[(Order, u32, u64)],
) -> Result<(), AllocError> {
    for (order, distinct, times) in rows {
        let found = numbers(alloc, *order, *times)?;
        assert!(rt; found == Ok(*distinct), "{order:?}: {found:?}");
    }
    Ok(())
}

const ANY_ORDER: &[(Order, u32, u64)] = &[
    (Order::Ascending, 100_000, 1),
    (Order::Descending, 100_000, 1),
    (Order::Sawtooth, 25_000, 4),
    (Order::OrganPipe, 50_000, 2),
    (Order::Scattered, 100_000, 1),
    (Order::Few, 10, 10_000),
];

#[test]
fn keys_come_in_any_order(rt: HostRuntime) -> Result<(), AllocError> {
    assert_numbers(&rt, rt.alloc(), ANY_ORDER)
}

const FEW_KEYS: &[(Order, u32, u64)] = &[
    (Order::Apart(0, 0), 0, 1),
    (Order::Apart(1, 0), 1, 1),
    (Order::Apart(1, 1), 2, 1),
    (Order::Apart(100, 3), 103, 1),
    (Order::Apart(3, 100), 103, 1),
    (Order::Apart(40, 41), 81, 1),
    (Order::Again(1, 1), 1, 2),
    (Order::Again(20, 1), 20, 2),
    (Order::Again(20, 300), 20, 301),
];

#[test]
fn a_few_keys_rise_or_wait(rt: HostRuntime) -> Result<(), AllocError> {
    assert_numbers(&rt, rt.alloc(), FEW_KEYS)
}

const BLOCKS_OF_KEYS: &[(Order, u32, u64)] = &[
    (Order::Apart(10_000, 30_000), 40_000, 1),
    (Order::Apart(12_000, 30_000), 42_000, 1),
    (Order::Apart(30_000, 10_000), 40_000, 1),
    (Order::Again(10_900, 1), 10_900, 2),
];

#[test]
fn a_block_of_keys_rises_or_waits(rt: HostRuntime) -> Result<(), AllocError> {
    assert_numbers(&rt, rt.alloc(), BLOCKS_OF_KEYS)
}

/// Asserts that the numbers in an order come out of the many runs of a store that settles behind each of so many.
fn assert_settled(
    rt: &impl Abort,
    alloc: Global,
    order: Order,
    every: u32,
    found: (u32, u64),
) -> Result<(), AllocError> {
    let run = closed(filled(alloc, order, every)?)?;
    assert!(rt; numbers_of(&run, found.1) == Ok(found.0), "{order:?}");
    Ok(())
}

#[test]
fn many_runs_become_one(rt: HostRuntime) -> Result<(), AllocError> {
    assert_settled(&rt, rt.alloc(), Order::Scattered, 2_000, (100_000, 1))?;
    assert_settled(&rt, rt.alloc(), Order::Sawtooth, 1_000, (25_000, 4))
}

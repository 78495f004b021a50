//! Runs of keys, and a store that takes keys in any order.

mod orders;
mod runs;

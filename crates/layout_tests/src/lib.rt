//! What no contract of the crates that read records to a layout says, tested by their public calls alone: calls succeed where
//! memory is there; and the results that are known from outside. The tests are in a crate of their own so that those crates
//! are proved without them.
//!
//! | file | what it tests |
//! |---|---|
//! | reading | oas_reader: records whose layouts are known |
//! | stores | oas_runs, oas_run_store: keys in bad orders; where one allocation fails (`rt try --test --fail-alloc`), a second
//! call of a store succeeds |
//! | layouts | oas_elements, oas_layout: drafts, and elements whose order, kept forms and reasons are known |
//! | parts.rt | what several of them use |
#![tactic(auto)]

#[cfg(test)]
mod layouts;
#[cfg(test)]
mod parts;
#[cfg(test)]
mod reading;
#[cfg(test)]
mod stores;

//! What no contract of oas_prepare and oas_preparing says, tested by their public calls alone: files of the standard, what
//! they are prepared to and the messages about them; readers and writers that fail; and out of memory. The tests are in a
//! crate of their own so that both are proved without them.
#![tactic(auto)]

#[cfg(test)]
mod block_rows;
#[cfg(test)]
mod blocks;
#[cfg(test)]
mod checks;
#[cfg(test)]
mod devices;
#[cfg(test)]
mod faults;
#[cfg(test)]
mod keys;
#[cfg(test)]
mod lines;
#[cfg(test)]
mod memory;
#[cfg(test)]
mod rows;
#[cfg(test)]
mod runs;
#[cfg(test)]
mod sameness;
#[cfg(test)]
mod signatures;

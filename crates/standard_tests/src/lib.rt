//! What no contract of the crates that read what is outside the profile says, tested by their public calls alone: records and
//! blocks are read where memory is there; which fault is returned for each way to go wrong; and corners, reals and the records
//! returned for others that are known from outside. The tests are in a crate of their own so that those crates are proved
//! without them.
#![tactic(auto)]

#[cfg(test)]
mod blocks;
#[cfg(test)]
mod corners;
#[cfg(test)]
mod records;
#[cfg(test)]
mod resolver;

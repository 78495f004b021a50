//! What no contract says of bytes, and of the numbers and shapes that are spelled in them, tested by public calls alone:
//! calls succeed where memory is there; and the results for bytes that are known from outside. The tests are in a crate of
//! their own so that those crates are proved without them.
//!
//! | file | what it tests |
//! |---|---|
//! | streams | oas_bytes: readers that give few bytes a call, writers that take few, and the result where they fail |
//! | checksums | oas_checksum: sums that are known from outside |
//! | hashing | oas_checksum: digests that are known from outside |
//! | inflating | oas_inflate and oas_inflated: streams of zlib's |
//! | numbers | oas_num: the values of spellings that are known from outside, and refusals as they are printed |
//! | rings | oas_ring: readings of rings that are known from outside or found by trying all |
//! | shapes | oas_shape: point lists and repetitions, by their bytes |
#![tactic(auto)]

#[cfg(test)]
mod checksums;
#[cfg(test)]
mod hashing;
#[cfg(test)]
mod inflating;
#[cfg(test)]
mod numbers;
#[cfg(test)]
mod rings;
#[cfg(test)]
mod shapes;
#[cfg(test)]
mod streams;

//! SHA-256 (FIPS 180-4), with the message schedule computed four words at a time.

mod block;
mod constants;
mod hasher;
mod lanes;
mod scalars;

pub use hasher::Sha256;

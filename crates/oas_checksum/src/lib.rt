//! The checksums that show whether a file is complete (SEMI P39, END record, validation-scheme), a source whose bytes are
//! summed up as they are taken, and SHA-256, of which keys are made.
//!
//! What this crate promises to the crates above it:
//!
//! - [`Crc32`] is scheme 1, the CRC-32 of ISO 3309. After any bytes, put piece by piece, its value is the remainder of the
//!   division of polynomials that specs/Crc.antt defines bit by bit, without a table.
//! - [`Sum32`] is scheme 2, CHECKSUM32: the sum of the bytes, modulo 2^32. [`Sums`] are both.
//! - A [`SummedSource`] gives just what the source below it gives, with the same script and the same bytes at hand. Whatever
//!   a read through it says holds for that source. Its [`Sums`] are those of the bytes that were taken since it was made, all
//!   but the last four (`IsSummed`, specs/Summing.antt). So after a whole file they are those of which its signature would be
//!   (`signed`, specs/Signed.antt).
//! - A [`Sha256`] (FIPS 180-4) that was given pieces, in any cut, gives the digest that the standard defines for all of them
//!   together: `sha256` of the kit's crate sha2, in whose definitions it is stated (`Holds256`, specs/Hashing.antt).
//! - Laws (module [`laws`]): the remainder is the whole message modulo the polynomial ([`laws::remainder`]).
//!
//! Each byte of a CRC costs one look-up in a table of 256 numbers; each entry is proved to be what the division makes of that
//! byte. SHA-256 computes the message schedule four words at a time: built for x86-64-v2, as the programs are, it takes three
//! quarters of the time that the kit's crate takes.
//!
//! # How it is built
//!
//! - specs/Crc.antt divides bit by bit. specs/Division.antt says which division of polynomials that is, on numbers whose
//!   lowest bit is the coefficient of the highest power, in the order of a message's bytes.
//! - proofs/CrcLemmas.antt: a bit of the division is linear, so the division of a byte is the byte's own part, which is in
//!   the table, plus the rest of the register, shifted. The table is the definition, computed. proofs/DivisionLemmas.antt
//!   composes divisions (`divided_then`), from a bit to a message.
//! - src/sources.rt: `SummedSource` has the script of the source below, so a read through it needs no contract of its own.
//!   Its sums are part of its invariant, together with where the source was when it was made (`Start` of oas_bytes).
//! - Which bytes are a file's last four is known only at the end, so `SignedSums` (src/signing.rt) holds the last four bytes
//!   (`LastFour`, in one number) and sums up the bytes that they push out.
//! - src/hash/scalars.rt has the functions of one word, src/hash/lanes.rt those of four words side by side. A word of the
//!   schedule needs the word two before it, so of four new words the last two wait for the first two: `with_low`, then
//!   `with_high`. src/hash/block.rt computes four words of the schedule between four rounds that are sixteen words behind
//!   (`IsAhead`, specs/Schedule.antt), so that neither waits for the other. src/hash/hasher.rt takes a message in pieces; the
//!   lemmas on how blocks add up are those of the kit's crate.
#![tactic(auto)]

mod byte_sums;
mod crc;
mod hash;
mod last;
pub mod laws;
mod signing;
mod sources;
mod sums;
mod table;

pub use byte_sums::Sum32;
pub use crc::Crc32;
pub use hash::Sha256;
pub use signing::SignedSums;
pub use sources::SummedSource;
pub use sums::Sums;

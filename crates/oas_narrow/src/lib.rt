//! How a file of the standard becomes one of the profile: which records of the profile its records are translated to, what is
//! left out, and why it isn't prepared.
//!
//! What this crate promises to the crates above it:
//!
//! - The definitions (specs/): the role of a record in a file of the profile (Roles.antt); which records of the profile a
//!   list of the standard's records is translated to, by the rules of `oas_trapezoids`, why one more isn't prepared after
//!   others, and what is counted (Narrowing.antt); what a file of the standard is (WideFiles.antt); which files are prepared,
//!   and what they mean (Preparable.antt).
//! - [`Role`] is the role of a record in a file of the profile: whether a cell is open after it, what stops it depending on
//!   what is named to be left out, and whether it is counted.
//! - [`with_turns`] replaces a placement by reals by the placement of the profile ([`laws::placements`]).
//! - [`Report`] counts what was left out, capped to 64 bits.
//!
//! A record is left out because the user names its kind ([`Dropping`]): otherwise it stops the file. A name record that is
//! left out closes the open cell, as each name record does (SEMI P39, CELL record). The records of a compressed block are the
//! file's, as if they were there by themselves (SEMI P39, CBLOCK record); the block itself is no record.
//!
//! # How it is built
//!
//! - specs/Narrowing.antt: `narrowed` is the list of the profile's records that a list of the standard's is translated to:
//!   for each of those, what oas_trapezoids returns for it after the ones before it (`translated_after`). Whether a cell is
//!   open is looked up in the standard's records (`is_open`), since a name record that is left out closes its cell too; an
//!   element after it is `OutOfPlace`, and the reader of oas_reader need not know. `obstacle_after` is why one more record
//!   isn't prepared: because of what is named, outside a cell, because of what oas_trapezoids says about it, or because of
//!   what the profile says about the records that it is translated to.
//! - specs/Placements.antt, src/turning.rt: a placement by reals is translated to one of the profile. A real of types 0 to 5
//!   is unchanged, so that a record of the profile is translated to itself. Of a float only what the profile decides on is
//!   kept: magnification 1 or another, and a number of quarter turns or none. So the profile's reader refuses for its own
//!   reasons in its own order, and no number is rounded. Whether a float is a multiple of 90 is found without large numbers:
//!   what is halved is divided, and what is doubled is doubled modulo whole turns. `laws::placements` says that this is right
//!   (proofs/TurningLaws.antt).
//! - specs/WideFiles.antt and Preparable.antt: what a file of the standard is, which files are prepared, what they mean.
//!   Before END a file has items, each a record or a block of records (`item_in`); all else is about the one list of their
//!   records (`records_of`), so a block changes only the bytes: it closes no cell, and modal variables continue across its
//!   borders.
#![tactic(auto)]

mod dropping;
pub mod laws;
mod places;
mod roles;
mod turning;

// The crates below, for those above.
pub use dropping::{Dropping, Extra, Report};
pub use oas_block::{
    BlockEnd, BlockFault, BlockHead, Inflated, InflatedSource, Validation, WideEnd, WideReal,
    WideRecord, WideStart, WideWhy, read_block,
};
pub use oas_checksum::{SummedSource, Sums};
pub use oas_reader::{CellStore, Reader};
pub use oas_trapezoids::{Resolved, Resolver};
pub use places::{Place, Rejection};
pub use roles::Role;
pub use turning::with_turns;

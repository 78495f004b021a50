//! From a file of the standard to the canonical file of the records that it is translated to.
//!
//! What this crate promises to the crates above it:
//!
//! - [`prepare`] returns Ok exactly where the source gives a file of the standard that can be prepared, under the limits and
//!   with what is named to be left out. Then a writer took the canonical form of the meaning of the profile's records that
//!   its records are translated to, and the result has how many records of each kind were left out (`IsDone`,
//!   specs/Run.antt). Otherwise nothing was written, or the writer failed after a prefix of it.
//! - [`read_prepared`] returns that meaning as a `Layout` in place of writing it, and the same counts (`IsReadPrepared`,
//!   specs/Finishing.antt).
//! - The clauses cover both outcomes. A rejection with a reason of the bytes says that no file that can be prepared begins
//!   with what was taken. Where the source had given nothing before, it also says that its place is one at which every file
//!   that continues these bytes stops. A place in a block is in one that is there: in its data, or in bytes that encode none.
//! - Such a rejection's reason is the right one (`IsReasoned`, specs/Reasons.antt): the bytes that were taken decide it,
//!   together with the place, also where several reasons hold for one place.
//! - A block's data are held in memory while its records are taken, at most 2^30 bytes of them; more are refused as out of
//!   memory (own rule).
//! - Laws, from the definitions alone ([`laws`]): a file means one layout. Two files whose records are translated to the same
//!   layout are prepared to the same bytes. A file that the profile accepts is prepared to its canonical file with nothing
//!   left out. What is prepared is prepared to itself. The last record of a block's data, where a run of PADs is one, is at
//!   one place.
//!
//! The definitions of which files are prepared, and what they mean, are those of `oas_narrow`. The records of the profile go
//! to the reader of `oas_reader`, with cells that are held as keys, and what it took to `finish_layout` of `oas_layout` and to
//! the writer of `oas_writing`: there is one canonical form and one way to it.
//!
//! # How it is built
//!
//! - src/taking.rt: a `Preparation` is a reader, over cells of any kind, and the `Resolver` of oas_trapezoids before it, with
//!   what is counted; it represents a list of the standard's records (`Stands`). A record of the profile goes to the reader as
//!   it is, unless there was a trapezoid or geometry of an extension since the CELL; the resolver then only tracks what it sets
//!   (proofs/Plain.antt). A placement or a text without a repetition sets nothing that is tracked.
//! - src/gathering.rt: the loop over the records. A rectangle, a placement, a text, a polygon or a path without a repetition
//!   that the source has at hand is read by oas_peek, and then its bytes are skipped. What spells a record of the profile
//!   spells that record among those of the standard (`laws::records` of oas_standard), so it is what the slower read would
//!   return (proofs/AtHand.antt). As in oas_file, a rectangle, a placement or a text is then no whole record.
//!   proofs/Fronts.antt, Refusing.antt, Gathered.antt and Ending.antt correspond to the files of the same kind in oas_file,
//!   whose records are those of the profile; what holds of both is proved in oas_num (PrefixLemmas, RefusingLemmas).
//! - src/inside.rt: a block. Its data are read into memory, at most 2^30 bytes of them, and their records are taken from
//!   there as those of the file are from its source (proofs/Inner.antt and InnerStops.antt). Only a run of PADs is taken at
//!   once: proofs/Pads.antt says that a PAD changes nothing, Runs.antt where a run begins. Then its place is put before
//!   theirs (`in_block`). How a file goes on after a block's head is proved once, in `block_goes_on` (proofs/Blocks.antt);
//!   from it follow both that a block is one more item, and that a file stops at it or in it. That items have one reading
//!   (proofs/Items.antt) rests on that of records and on oas_block's law of one data.
//! - src/preparing.rt: `read_prepared` goes from the profile to a type by it (`KeptBy`), and `finish` from what was gathered to
//!   the layout.
//! - src/signing.rt: whether a signature is right, by the sums of the bytes before it. `read_named` (src/preparing.rt) reads
//!   through a `SummedSource` of oas_checksum, since what the signature covers is known only at END.
//! - src/units.rt: a float's unit as a fraction in lowest terms; proofs/Doubling.antt has how lowest terms change when a
//!   fraction is doubled.
#![tactic(auto)]

mod gathering;
mod heads;
mod inside;
pub mod laws;
mod preparing;
mod signing;
mod taking;
mod units;

// The crates below, for those above.

pub use oas_canon::{
    Attempt, Front, Given, JoinedSource, KeptSource, Layout, Limits, PROFILE, Refusal, Sink,
    SinkFault, SliceSource, Which, Why, given_key, has_canonical_bytes, key, put_canonical,
    put_cell_keys, put_listing, read_canonical, read_given, read_layout, same_files, write_given,
};
pub use oas_narrow::{Dropping, Extra, Place, Rejection, Report, WideWhy};
pub use preparing::{prepare, read_prepared};

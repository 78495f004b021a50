//! Records of the profile with integers of any number of bytes (SEMI P39, Unsigned integers): read by the readers of
//! oas_record, whose integers have at most ten, over a source that shortens them.
//!
//! What this crate promises to the crate above it:
//!
//! - [`read_after`] reads what follows a record's id. Once shortened, the bytes that it took are a spelling of the record
//!   that it returns. A refusal says of the shortened bytes what a read of `oas_record` says of bytes (`ReadsRecord`,
//!   specs/Reading.antt). The places are those of the source that it is handed.
//! - The shortened form of some bytes is these bytes except the groups of an integer after its tenth. The tenth is
//!   unchanged where those after it are zero, or else makes the integer 2^64 or above (`shortened`, specs/Places.antt).
//! - A spelling with integers of any number of bytes is one whose shortened form is a spelling (`IsAnyLength`,
//!   specs/AnyLength.antt). No such spelling is a prefix of another, and it is decidable whether there is one at a place.
//! - What is spelled with integers of at most ten bytes is its own shortened form. So are the bytes of a read that fails,
//!   except where an integer is refused at its tenth byte (proofs/TameRecords.antt).
//!
//! A byte from 80 on is treated as a group of an integer. So a source may be shortened only where no other such byte is
//! possible: not in strings of any bytes, floats, compressed bytes and signatures. An info byte may be 80 or more and is in
//! no integer, so after an id that has one the first byte is given unchanged (`first_of`, specs/AnyLength.antt).
//!
//! # How it is built
//!
//! It has no grammar of its own: reading is that of oas_record through a `ShortenedSource`, and a spelling with integers of
//! any number of bytes is one whose shortened form is a spelling as before.
//!
//! - src/sources.rt: a `ShortenedSource` gives nine groups of an integer as they come, and holds the tenth back until the
//!   last is there: then it gives it alone, unchanged or as 127. No other byte waits, so whatever was given, the source
//!   below is just after it. A step takes one byte (`take`), and `next` repeats it until something is given; `Quiet`
//!   (proofs/SourceLemmas.antt) is what holds in between.
//! - src/places.rt, specs/Places.antt: where in an integer a byte is, what is given for it there (`given_by`), and where
//!   the next one is (`moved`); for a list, `shortened` and `after`. specs/Laws/PlaceLaws.antt: piece by piece; two
//!   prefixes of the same bytes for which the same is given are the same, where nothing is held back after them; and a
//!   prefix of what is given has a prefix of the bytes.
//! - specs/Shortening.antt: the script of a shortened source is that of the source below, shortened (`short_script`): fewer
//!   bytes are given, so it never comes to the limit, and both faults are given as the device's. Which it was is kept
//!   (`ending`). Which bytes the source gave since the beginning is its invariant (`IsShortened`), over `Start`.
//! - specs/AnyLength.antt: `any_length` makes such a choice from a choice, with its laws. Two spellings at one place are the
//!   same, since where the same is given for the same bytes, the same was taken. There is one at a place exactly where there
//!   is one in its shortened form.
//! - specs/Reading.antt: what a read says about the source below. For bytes that no contract knows, the only known fact is
//!   that the shortened ones are fewer, so a record's read (oas_standard, proofs/AnyLengthLemmas.antt) counts the rest to its
//!   id, whose number of bytes is free.
//! - For that the bytes of a read must be their own shortened form where all integers have at most ten bytes (`Tame`): a
//!   lemma for each combinator (proofs/TameLemmas.antt) and for each field (TameFields.antt). A search puts them together
//!   along the tree of each row in the table of ids (`tame_rows`, TameRecords.antt), so a kind more needs no line there.
//!   `Tame` also says that a device's fault may be wherever a source's limit may: through a shortened source both are the
//!   device's, and which it was is looked up after the read (`judged`).
#![tactic(auto)]

mod places;
mod records;
mod sources;

pub use records::read_after;

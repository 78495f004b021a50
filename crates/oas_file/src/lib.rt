//! A whole file: what it is and means, which files are accepted, where others are refused, and giving the records of one to
//! a reader.
//!
//! What this crate promises to the crates above it:
//!
//! - The parts of reading a file: [`take_record`] takes the next record, or END (`ConsumesNext`, specs/Gathering.antt);
//!   [`take_records`] gives all of them to a reader, with any stores (`Gathers`); [`find_end_of_input`] finds that nothing
//!   follows (`FindsEnd`). [`find_record`] finds a record that is at hand (`IsAtHand`, specs/Finding.antt).
//! - What a crate that reads a layout with them promises: `ReadsLayout` (specs/Reading.antt). The layout is the same as the
//!   file's meaning, and in order (`IsLayout` of oas_elements), so there is only one. The clauses cover both outcomes. A
//!   refusal with a reason of the bytes says that no accepted file begins with what was taken. `Why::Truncated` says that
//!   what was taken to the end is no accepted file. The reasons of the device and of the source's limit say that the source
//!   returned them.
//! - Where the source had given nothing before: the offset of a refusal with a reason of the file is a place at which every
//!   file that continues it is refused (`IsPlaced`). Each refusal says which of the bytes that were taken decided, and that
//!   its reason holds for them (`IsReasoned`, specs/Deciding.antt).
//! - Laws, from the definitions alone: [`laws`]. A file has one reading and one meaning, and is either accepted or refused at
//!   exactly one place.
//!
//! The definitions: what a file is, in a style (specs/Files.antt); which files are accepted, and what they mean
//! (specs/Acceptance.antt); where a file is refused (specs/Places.antt), and which bytes decide that it is
//! (specs/Deciding.antt). oas_record defines what a record is, and oas_reader what records mean and why they are refused.
//!
//! Whether an allocation succeeds is outside every contract: what allocates may return `Why::Memory`.
//!
//! # How it is built
//!
//! | specs/ | What |
//! |---|---|
//! | Files, FileLaws | the grammar of a file, once, over a `Style`; prefixes of a file (`PrefixOf`); the grammar's three laws
//! |
//! | Acceptance | which files are accepted (`Allowed` record by record, `IsWhole` at END, `Accepted`), and what they mean (`Means`) |
//! | Places | where a file is refused: five cases of `RefusedAt` |
//! | Deciding | which bytes decide that, and after what: six cases of `DecidedAt`; where a reader that keeps the bytes may
//! run out of memory: three cases of `OutOfMemoryAt` |
//! | Reading | what reading a layout does |
//! | Gathering | what its parts do: one record, all records, the end of the input |
//! | Finding | a record at hand |
//!
//! src/reading.rt: each record goes by value to a `Reader` of oas_reader until END (`take_next`), and then comes the end of the
//! input. A record at hand is read from the bytes there, and as many are skipped: a rectangle, a placement, a text, a polygon
//! or a path by oas_peek, where the id of the record says which of these to try, and any other by src/records.rt. One that
//! isn't at hand is read from the source. A crate above reads START before (oas_record), and decides END after: so a byte after
//! END is refused before what END itself refuses.
//!
//! How the proof goes.
//!
//! 1. *What was taken represents its records.* The invariant of the one loop is `HasGathered`: the bytes taken are a prefix
//!    of a file with the records so far; the reader represents these (`Represents` of oas_reader, which says what one more
//!    record does); and they are allowed. The loop's contract quantifies over where the read began (`HasBegun`), so the loop
//!    is about the whole file.
//! 2. *Two prefixes of one file compare* (`fronts`, proofs/Fronts.antt): they have one START, and their records are the same,
//!    or one list goes on with a record where the other has ended. This is the one lemma on how a file goes on, and follows
//!    from "no record is a prefix of another". It holds of files of any kind, and is proved for these in oas_num
//!    (proofs/PrefixLemmas.antt); so is what follows from it: after a prefix of a file comes another of its records or END
//!    (`file_expects`), and the records of an accepted file's prefix are allowed (`prefix_allowed`).
//! 3. *A read that fails refuses the file* (`read_refused` of oas_num, proofs/Refusing.antt), in the magic, in START and in a
//!    record alike: what a file requires there couldn't be read, and what fits nothing there fits no file (`Wants` of
//!    oas_num). What was read and isn't accepted is refused out of memory, or so that no accepted file goes on like this
//!    (`judged_refused` of oas_num). For each reason in oas_reader's definitions proofs/Judged.antt shows that it isn't about
//!    the input's end, the device or the memory.
//! 4. *Three facts at once.* In each situation the refusal, its place and what decided it are one triple (`Refuses`):
//!    `head_refuses`, `record_refuses`, `gather_refuses` (proofs/Taking.antt), `not_ended` and `finished`
//!    (proofs/Ending.antt). Where the source has ended, no bytes follow: this gives the place of a file that is cut off, and
//!    of what END refuses.
//! 5. *One place* (proofs/PlaceLaws.antt) follows from 2 for each pair of cases. An accepted file is the case in which END is
//!    there and nothing is cut off.
//! 6. *Some place* (proofs/SomePlaces.antt) goes through the bytes. At each place it is decidable whether there is a spelling
//!    (`IsFound` of oas_record, specs/Found.antt): it is for what is made of spellings for which it is. So each kind of
//!    record has it from its tree; FoundRecords.antt adds END's length and START. Where there is a record by which all are
//!    still allowed, the next is looked for, and each takes at least one byte. Where there is none, or one that is refused,
//!    that is the place. Where END is there the file is accepted, or has its place there or after it.
#![tactic(auto)]

pub mod laws;
mod reading;
mod records;

// The crates below, for those above.
pub use oas_reader::{
    CellStore, CountedCell, NameTable, Reader, Room, Taken, accept_cells, cell_meant,
};
pub use reading::{find_end_of_input, take_records};
pub use records::{Found, find_record, take_record};

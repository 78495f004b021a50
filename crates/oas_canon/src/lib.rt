//! From a file to its one canonical spelling, and what depends on it alone: whether a file is canonical, whether two mean the
//! same layout, and a file's key. Also from the canonical spelling by profile one to that by profile two.
//!
//! What this crate promises to the one above it, in the words of its contracts (specs/Run.antt):
//!
//! - [`canonicalize`] writes the canonical file of what a source gives (`IsDone`), exactly where that file is accepted, and
//!   writes nothing else. A refusal other than `Why::Write` leaves the writer unchanged. After `Why::Write` the writer took
//!   the first bytes of the canonical file, as many as the refusal's place says (`IsCut`).
//! - [`is_canonical`] returns whether the bytes of an accepted file are its canonical form (`IsJudged`), and keeps no
//!   element. [`same_files`] returns whether two accepted files mean the same layout (`IsCompared`), and [`key`] the SHA-256
//!   of an accepted file's canonical form (`IsKeyed`).
//! - [`layout_key`] returns the key of a layout, and [`cell_key`] that of one cell: the SHA-256 of the canonical file that has
//!   the layout's unit and that cell alone (specs/CellKeys.antt). [`write_cell_keys`] writes the key of each cell, with the
//!   cell's name (`cell_key_lines`), and [`put_cell_keys`] puts the same into a sink.
//! - [`rekey`] writes the canonical file by profile two of a file that is canonical by profile one (`IsRekeyed`,
//!   specs/Rekeying.antt). For an accepted file that isn't, it returns [`Rekeyed::NotProfile1`] and leaves the writer
//!   unchanged (`IsOther`).
//! - Each of them refuses as [`read_layout`] does, whose words are in the contracts: no accepted file goes on
//!   from what was taken (`IsRefused`), the place (`IsPlaced`), and which bytes decide it, for which reason (`IsReasoned`). A
//!   refusal of [`same_files`] names its file; nothing of the second is read where the first is refused. [`is_canonical`] and
//!   [`rekey`] may run out of memory at any byte, at the offset of the current part (`HasNoMemory`).
//! - For known bytes under the source's limit and over a device that has not failed, each of them also promises that it
//!   succeeds exactly where the files are accepted, unless the writer or the memory fails (`Exactly`, `ExactlyBoth`).
//! - Limits are handed in. The profile, which says which elements are the same, is [`PROFILE`], except for re-keying.
//! - The laws of files and of canonical forms, from the definitions alone, are in [`laws`].
//!
//! [`open_source`] makes the source of a reader for a call under limits: it gives no more bytes than they allow (`IsOpened`,
//! specs/Opening.antt). Its script's `history` is what the calls of the reader's `read` returned, as far as it was given. So
//! these are the bytes of which a contract says that they were taken from it.
//!
//! A caller needs this crate alone: it re-exports the sources and sinks, refusals, limits, layouts and drafts of those below,
//! and the writers of the canonical form and the listing (docs/LIBRARY.md).
//!
//! `oas_file` defines what a file is, means and is refused for, and `oas_form` what a canonical form is.
//! This crate only defines what a run does.
//!
//! Whether an allocation succeeds is outside every contract: what allocates may return `Why::Memory`.
//!
//! # How it is built
//!
//! It combines oas_layout, oas_writing and oas_judge, and promises for whole runs what they promise for their parts. It has no
//! reader and no writer of its own. `canonicalize`, `key` and `same_files` begin with `read_given` of oas_judge: a file that is
//! canonical already is its own canonical form, so its bytes are written, hashed and compared as they are; of any other the
//! layout is read, and `write_canonical`, `layout_key` and `Layout::same` follow. `is_canonical` is that of oas_judge. `rekey` is
//! `read_judged` of oas_judge, which judges by profile one and keeps the layout by profile two, and then `write_canonical`.
//!
//! - src/canonical.rt, checking.rt, sameness.rt, keys.rt, rekeying.rt: one call each. src/cell_keys.rt, specs/CellKeys.antt:
//!   the keys of a layout and of its cells, by `put_canonical` and `put_cell_alone` into a sink that hashes.
//!   src/named_keys.rt: the line of a cell's key. src/profile.rt: the profile of the first four (`PROFILE`, which is profile
//!   two). It is said nowhere else: their contracts, and those of the command, refer to it. Re-keying names both profiles
//!   itself.
//! - src/given.rt, specs/Given.antt: the canonical file of what was read, written, hashed and compared.
//! - src/hashing.rt: a sink that hashes, a window of bytes at a time.
//! - specs/Run.antt: what a run does, over two scripts and what the writer holds: `IsTaken` (an accepted file was taken to
//!   its end), `IsDone`, `IsCut`, `IsKeyed`, `IsJudged`, `IsCompared`; `Exactly` and `ExactlyBoth` are about bytes that are
//!   known. specs/Rekeying.antt: `IsRekeyed`, `IsRekeyedInPart`, `IsOther`, and `StaysSo`, for a file that is re-keyed
//!   already.
//!
//! How the proof goes:
//!
//! 1. *A layout that was read, and its canonical bytes* (proofs/Whole.antt). `IsRead` of oas_file has the file's meaning,
//!    which is the same as the layout's. By `canonical_form` of oas_form the layout's canonical bytes are a canonical form
//!    under the limits and the profile that were handed in, and mean the layout. So they are the canonical form of the file
//!    (`is_form`). A canonical form is that of itself (`own` of oas_form), so for both kinds of what was read there is the
//!    file's canonical form (`has_form`), and `done`, `cut` and `keyed` are records of what is there.
//! 2. *Whether it is canonical* (`judged`): what oas_judge promises, in the words of this crate.
//! 3. *Whether two are the same* (`compared`): two files mean the same layout exactly if their canonical forms are equal, by a
//!    law of oas_form. `Layout::same` says it for two layouts (`layouts_alike`).
//! 4. *Exactly* is by cases on why a file was refused: what the bytes decided holds whatever follows; at the end of the input
//!    nothing follows; a device that has not failed and a limit that isn't exceeded leave only the writer and the memory.
//! 5. *Re-keying* (proofs/RekeyLemmas.antt). The layout that was read in the judge's pass is that of the bytes taken, so by 1
//!    its canonical bytes by profile two are their canonical form (`rekeyed`). By oas_form's law what is re-keyed is unchanged
//!    by re-keying (`stays`).
#![tactic(auto)]

mod canonical;
mod cell_keys;
mod checking;
mod given;
mod hashing;
mod keys;
pub mod laws;
mod named_keys;
mod opening;
mod profile;
mod rekeying;
mod sameness;

// The crates below, for those above.
pub use canonical::canonicalize;
pub use cell_keys::{cell_key, layout_key, put_cell_keys, write_cell_keys};
pub use checking::is_canonical;
pub use given::{given_key, write_given};
pub use keys::key;
pub use oas_elements::{Element, Extensions, Layer, Limits, Profile, Turns};
pub use oas_judge::{
    Attempt, ByProfileOne, ByProfileTwo, Cells, CompactCell, Draft, Elements, Front, Given,
    JoinedSource, KeptBy, KeptSource, KeyedElement, Layout, Refused, ShownElement, ShownPoints,
    find_end_of_input, finish_layout, has_canonical_bytes, put_canonical, put_listing,
    read_canonical, read_given, read_layout, show, write_canonical, write_listing,
};
pub use oas_num::{
    Counter, Device, Fraction, INPUT_MAX, Label, Name, NotedWriter, Outlet, ReaderSource, Reason,
    Refusal, Sink, SinkFault, SliceSource, Source, SourceFault, Why, profile_reasons,
};
pub use oas_ring::{Point, Points};
pub use opening::open_source;
pub use profile::PROFILE;
pub use rekeying::{Rekeyed, rekey};
pub use sameness::{Which, same_files};

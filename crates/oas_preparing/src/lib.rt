//! The runs of the command `oasprep`: from a file of the standard to the canonical file of what its records are translated
//! to, and answers about that file, which isn't written for them. They are generic over their inputs and outputs, so that
//! tests call them over memory; the program opens the streams of its process and calls them. What they promise to it:
//!
//! - [`run_prepare`] returns status 0 where `oas_prepare::prepare` would return Ok, and 1 where it would stop. What was read and
//!   written is all that the contract of that call says for its result (`Prepares`, specs/Runs.antt). What the error output
//!   took is a prefix of one line: after an Ok of the line that says what was left out, which is empty where nothing was;
//!   otherwise of the rejection's line (`said`).
//! - [`prepare_telling`] is the same over a sink for that line, whose contract counts failures: the line was put, unless the
//!   sink failed (`Ends`).
//! - They judge the file as they read it, and so does the key: a canonical file isn't read by the standard. What they promise is
//!   about a source that gives the bytes which their source gives (`OnAgain`, specs/Judged.antt): that source itself where the
//!   file is canonical, and otherwise one that gives the bytes which were taken once more, and then the others.
//! - [`prepared_key`] returns the SHA-256 of the canonical file that `prepare` writes, and stops exactly as that does
//!   (`KeysPrepared`, specs/Answers.antt). [`key_telling`] writes that key and a name in a line (`Delivers`): the line of
//!   `oas_command` (`named_key_line`). Its status and its line on the error output are as above; where the writer failed that
//!   is the line of a rejection.
//! - [`prepared_same`] returns whether two files mean the same layout once they are prepared, which is whether `prepare` writes
//!   the same file for both (`ComparesPrepared`, specs/Sameness.antt). [`same_telling`] writes that in the line of
//!   `oascanon same`; its status is 0 or 3, or 1 after a refusal.
//! - [`prepared_check`] returns whether a file is, byte for byte, the canonical file that `prepare` writes for it
//!   (`ChecksPrepared`, specs/Checks.antt), and [`check_telling`] writes that in the line of `oascanon check --names`, with
//!   the same statuses.
//! - [`put_report`] puts the line `NAME: left out 12 properties, 3 layer names`, or nothing (`report_line`, specs/Lines.antt),
//!   and [`put_rejection`] the line `NAME: refused N at OFFSET`, or `NAME: refused N at P+Q` for a place in a block
//!   (`rejection_line`).
//!
//! It prepares by the profile of the command `oascanon` (`oas_canon::PROFILE`), so what it writes is canonical to that
//! command.
//!
//! # How it is built
//!
//! - src/lines.rt, specs/Lines.antt: the line of what was left out is its phrases, one for each kind of which there is a
//!   record, with a comma between two; without a phrase there is no line. The loop puts the separator before each phrase,
//!   which is nothing before the first (`behind`, proofs/PhraseLemmas.antt). There is a phrase exactly where something was
//!   left out, which is proved there too.
//! - src/judged.rt: the read that judges. A canonical file is prepared to itself, with nothing left out (`own_taken` of
//!   oas_prepare, proofs/ProfileFiles.antt; proofs/JudgedLemmas.antt).
//! - src/kinds.rt: the kinds in words. src/runs.rt: the run that writes the canonical file. src/ends.rt: how each run ends.
//! - src/keys.rt: what was read, a layout or the bytes of a canonical file, is keyed as it is (`given_key` of oas_canon). That
//!   this is the key of the file that `prepare` writes follows from what oas_prepare proves of its own writing (`taken` of its
//!   proofs/Whole.antt). A run that answers has two results: what was found, and the answer, which is the same where its text
//!   was written (proofs/AnswerLemmas.antt).
//! - src/sameness.rt: two layouts that were read are compared as they are (`Layout::same`). That their canonical files are
//!   equal exactly if they are the same is proved in oas_prepare (proofs/Sameness.antt).
//! - src/checks.rt: the bytes of a file are compared with the canonical ones of the layout that it was read to, as these are
//!   made (`has_canonical_bytes` of oas_writing). src/keeping.rt: the file is read through a source that keeps the bytes as they
//!   are taken (`KeptSource` of oas_judge). It has the script of the source below, so the read stops as it would without it.
//!   If there is no memory for a byte, nothing is kept any more and the read goes on: a file that isn't prepared is refused
//!   for its own reason, and one that is, as out of memory at END. That may happen to each file that is prepared, so the
//!   contract needs no case for it; END is the last 256 bytes (proofs/EndLemmas.antt).
//!
//! `oasprep` has its words in src/usage.rt (`parse`), and `main` opens the streams, as oascanon's does. Its profile is
//! `PROFILE` of oas_canon, which is that of the first command. What each run is given in addition to its files is the `Session`
//! of `oas_explain`, which also recognizes the place in a block.
#![tactic(auto)]

mod checks;
mod ends;
mod judged;
mod keeping;
mod keys;
mod kinds;
mod lines;
mod runs;
mod sameness;

// The crates below, for those above.
pub use checks::{check_telling, prepared_check};
pub use keys::{key_telling, prepared_key};
pub use lines::{put_rejection, put_report};
pub use oas_explain::{
    Asked, BINARY, CANONICAL, End, Existing, Incoming, Label, Limits, Named, OfEach, Onward,
    Outcome, Outgoing, Outlet, PROFILE, Pair, Printed, ReaderSource, Said, Session, SliceSource,
    Source, Why, ended, ended_by_text, file_of_word, label_of, mark_output, misused, name_of,
    of_all, of_listed, words_of,
};
pub use oas_prepare::{Dropping, Place, Rejection, Report, WideWhy, prepare};
pub use runs::{prepare_telling, run_prepare};
pub use sameness::{Comparison, prepared_same, same_telling};

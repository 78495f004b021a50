//! What both programs stand on: the reasons for which a file is refused, in words; the message of a run with its reason
//! explained; and what each run of a command line is given in addition to its files.
//!
//! What this crate promises to the program:
//!
//! - [`all_reasons`] has each reason once, by ascending numbers, 1 to 34 and 101 to 113: its number, name, meaning and remedy.
//!   The first 34 are those of oas_num.
//! - [`run_explain`] writes the text of the reason with this number or name, or of all without a word, and returns status 0;
//!   or 1, where the output failed after a prefix of it; or 2 where no reason has that number or name, and then it writes
//!   nothing (`Explains`, specs/Texts.antt).
//! - [`Voice`] writes the line that a run said on its error output, or a prefix of it where that fails. [`print_explained`]
//!   writes the same, and after it, where it is the line of a refusal, the lines that explain its reason, with the advice
//!   that it is given (`IsExplanation`, specs/Telling.antt). What [`advise`] advises is tested.
//! - [`Recorded`] writes what is below it, and keeps why that failed.
//! - [`Session`] has the limits that are asked for, explains refusals and shows progress where that is (`HoldsFor`,
//!   specs/Session.antt). Each source that it opens gives at most as many bytes as its limits allow (`IsOpened`), and each
//!   output is one of the name that it is given, or standard output, and does to a file of that name as it is told
//!   (`IsOutput`).
//!
//! Which words the process was given, and what is done with each of many files, is tested ([`words_of`], [`of_all`],
//! [`of_listed`], [`of_items`]).
#![tactic(auto)]

mod advice;
mod explain;
mod hearing;
mod looking;
mod many;
mod naming;
mod outcome;
mod quoting;
mod reasons;
mod recording;
mod session;
mod table;
mod telling;
mod texts;
mod voice;
mod words;

// The crates below, for those above.
pub use advice::{Asked, Onward, advise};
pub use explain::run_explain;
pub use many::{OfEach, OfItem, of_all, of_items, of_listed};
pub use naming::{CANONICAL, Named, Pair, label_of};
pub use oas_command::{
    Choice, Detail, Device, End, Form, KeptKey, Label, Layout, Limits, Options, Outlet, PLAIN,
    PROFILE, PairWork, ReaderSource, Sink, SliceSource, Source, Which, Why, Work,
    has_canonical_bytes, kept_telling, layout_key, marking_telling, name_of, pair_work_telling,
    run_refused, run_unopened, status_of_verdict, work_telling, write_named_check, write_named_key,
    write_sameness,
};
pub use oas_files::{
    Existing, Input, Output, Printed, file_of_word, is_same_file, is_taken, mark_output,
    progress as files_progress, text_of, unescaped,
};
pub use oas_num::Reason;
pub use outcome::{Outcome, ended};
pub use reasons::all_reasons;
pub use recording::Recorded;
pub use session::{Incoming, Outgoing, STANDARD_OUTPUT, Said, Session};
pub use telling::print_explained;
pub use voice::Voice;
pub use words::{BINARY, ended_by_text, misused, words_of};

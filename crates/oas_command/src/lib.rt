//! The runs of the command `oascanon`: the canonical form of an OASIS file, and what can be asked about one. They are generic
//! over their inputs and outputs, so that tests call them over memory; the program opens the streams of its process and calls
//! them. What a run has to say on the error output it puts into a `Sink`, whose contract counts failures: the line was put,
//! unless the sink failed (`Tells`, specs/Runs.antt), so that the prover refuses a line that is left out. What they promise to
//! the program:
//!
//! - [`work_telling`] and [`pair_work_telling`] do what is asked of one file and of two ([`Work`], [`PairWork`]), each by
//!   cases (`DoesWork`, `DoesPairWork`, specs/Work.antt):
//!   - `Canon` returns status 0 where `oas_canon::canonicalize` returned Ok, and 1 where it refused. What was read and written
//!     is all that the contract of that call says for its result (`Canonicalizes`, specs/Calls.antt), including the offset and
//!     the reason of a refusal. The line of a refusal is put, and nothing after an Ok (`Ends`, specs/Runs.antt).
//!   - `Check`, `Key`, `Show` and `Same` each promise what the contract of the call that they make says about the result
//!     (`Judges`, `Keys`, `ReadsLayout`, `Compares`). The text of the result was written, or the writer failed after a prefix
//!     of it that is as long as the refusal says; without a result nothing was written (`Delivers`). The status is 0; for
//!     `Check` or `Same` with the result no it is 3; after a refusal it is 1. The line of a refusal is as above, for `Same`
//!     under the name of the refused file. `NamedCheck` and `NamedKey` have the file's name in the text.
//!   - `CellKeys` is like `Show`: its text is the key of each cell (`cell_key_lines`, of `oas_canon`'s specs/CellKeys.antt).
//!   - `Info` finds the facts of the layout that was read, or out of memory for them or their text (`Informs`,
//!     specs/Info.antt), and delivers that text, in the requested format. The status and the line are as above.
//!   - `Diff` reads two files and delivers their difference, as its options say (`ReadsBoth`, `diff_text`, specs/Diff.antt).
//!   - `Rekey` returns status 0 where `oas_canon::rekey` re-keyed, 3 where it returned that the file isn't canonical by profile
//!     one, and 1 where it refused, and promises all that the contract of that call says (`RekeysFile`). The line of that
//!     result is put (`EndsRekeying`, specs/Rekeying.antt).
//! - [`kept_telling`] says for a saved key whether it is the key of the file (`Agrees`, specs/Keeping.antt).
//! - [`marking_telling`] delivers the difference of two files, and after that another writer takes its markers, at most as many
//!   as are asked for, or a prefix of them where it failed (`Marks`, specs/Marking.antt). The refusal of that writer is under
//!   the markers' own name.
//! - [`run_refused`] and [`run_unopened`] end a run that could not begin: the error output took the line
//!   `NAME: refused N at OFFSET` (`refusal_line`, specs/Lines.antt) or `NAME: cannot be opened` (`unopened_line`,
//!   specs/Unopened.antt), or fails after a prefix of it (`Says`).
//! - [`limits_of`] returns the limits with the flag `--large` and without it.
//! - [`write_line`] writes a line to an output, or a prefix of it (`IsWritten`, `IsCutOff`), [`write_named_key`] that of a key
//!   and a name, [`write_named_check`] that of a check with a name, and [`write_sameness`] that of a comparison.
//!   `oas_preparing` writes its answers by them.
//!
//! A caller needs `oas_canon` in addition to this crate, for sources and limits.
//!
//! # How it is built
//!
//! Each run makes one call of a crate below, whose clauses its contract repeats (specs/Calls.antt), and then writes the
//! result. `Delivers` (specs/Runs.antt) leads from that call's result to the result of the run, `status_of` or
//! `verdict_status` from there to the status, and `Ends` to the line of a refusal. `rekey_telling` has three ways to end, two
//! of them with a line: there `rekey_status` and `EndsRekeying` (specs/Rekeying.antt) are used instead. `marking_telling`
//! writes two texts, and `Marks` (specs/Marking.antt) leads from the result of the first to that of both. What an error output
//! has that is behind a sink follows from the laws of `Outlet` in oas_bytes (proofs/MessageLemmas.antt). The proof of
//! `put_refusal` joins its six parts by `PutSoFar` (oas_num), a prefix that was put and what is left of the line.
//!
//! That a refused file writes nothing needs no proof of its own: `canonicalize` leaves its writer unchanged (`nothing`). The
//! same holds for `rekey`, and for a file that isn't canonical by profile one (`unwritten`).
//!
//! The tests, in program_tests, are tables of rows as text, since a table of values would be expensive to prove, and some
//! files. `src/commands/table.rt` has the worked rows. `modal_table.rt`, `readings_table.rt` and, under limits of their own,
//! `limits_table.rt` have rows that each rule out a wrong reading of the rules; rows that need no limits are in tests/rows,
//! which costs the prover nothing. `rows.rt` and `readings.rt` read the tables. `runs.rt` reads rows of any command:
//! `answers.rt` has a table of those whose output is text, `rekeying.rt` one of `rekey`. `devices.rt` has the readers and
//! writers, which `faults.rt`, `marking.rt` and `memory.rt` use, and `by_name.rt` runs over files by name.
#![tactic(auto)]

mod keeping;
mod limits;
mod lines;
mod messages;
mod runs;
mod unopened;
mod work;

// The crates below, for those above.
pub use keeping::KeptKey;
pub use limits::limits_of;
pub use lines::{End, Label, write_line};
pub use oas_canon::{
    Device, Layout, Limits, Outlet, PROFILE, ReaderSource, Refusal, Sink, SliceSource, Source,
    Which, Why, has_canonical_bytes, layout_key, open_source,
};
pub use oas_info::Form;
pub use oas_markers::{Choice, ChosenLayer, Detail, Options, PLAIN};
pub use runs::{
    kept_telling, marking_telling, run_refused, status_of_verdict, worse, write_named_check,
    write_named_key, write_sameness,
};
pub use unopened::{name_of, run_unopened};
pub use work::{PairWork, Work, pair_work_telling, work_telling};

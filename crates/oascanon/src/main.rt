//! The command `oascanon`: the canonical form of an OASIS file, and what can be asked about one.
//!
//! `oas_request` returns the task that its words request, and [`plan`] has what a task comes to: which run, on which files, and
//! to which output (`IsPlanOf`, specs/Plan.antt). The runs of `oas_command` do the work; [`one_file`] and [`two_files`] open
//! the streams of the process and call them, [`asking`] asks a question about many files, and [`keeping`] checks saved keys.
//! What each run is given in addition to its files, the words of the process, and what is done with each of many files, is in
//! `oas_explain`: a run says its line into memory, and it is printed on standard error, with its reason explained where that
//! is requested. [`guards`] looks for files that an output would overwrite.
//!
//! Not covered by a contract: that each run gets what was opened for it.
//!
//! # How it is built
//!
//! `oascanon` promises nothing to a crate above; its promise is to the caller of the program. `plan.rt` chooses the run, by a
//! contract that has each task with all its options, and `src/main.rt` does what the plan says, in one `match`. `one_file.rt`
//! and `two_files.rt` open the files of each run and print what it said. `asking.rt` has what is done with each of many files,
//! and `keeping.rt` what is done with each line of a list of keys. It has no tests of its own except the stored run: those of
//! runs over files by name are program_tests' `by_name.rt`.
//!
//! A run says its line into memory that was reserved before (`Voice::room`), and `oas_explain` prints it on standard error,
//! followed by the lines of its reason where `--explain` requests that, or standard error is a terminal. `advise` of
//! oas_explain looks at the refused file once more from outside (looking.rt), and says what to try (advice.rt), depending on
//! what was asked (oascanon's advising.rt). So no signature of a run depends on it. `oas_explain` recognizes the number in the
//! line byte by byte (`hears`, specs/Hearing.antt): no place in a line goes on with the `d` of `refused`, so what comes before
//! it, also a name that looks like a refusal, is forgotten there. The `progress` of oas_files is between a file and its run,
//! and ignores the line's faults.
//!
//! That a refused file creates nothing needs no proof of its own either: the writer that a refusal leaves unchanged is an
//! `Output` that isn't created (specs/Creating.antt of oas_files).
//!
//! `bench/canon` runs the built program beside bench/canonical, a plain Rust program for the same rules, on the files of
//! bench/canon_files.py. `bench/questions` measures `keys` and `info` beside `key`, and `diff` beside `same`.
//! `tests/reference` is a second program for the same rules, in Python: `compare` gives random files to both, also to
//! `oasprep`, and `readings` changes its rules one at a time and looks for a row that shows the difference. `tests/rows` has
//! rows for the built programs, and files that KLayout wrote.
#![tactic(auto)]

mod advising;
mod asking;
mod guards;
mod keeping;
mod one_file;
mod plan;
mod two_files;

ghost use Rattle.oas_explain.specs.Session.{HoldsFor};

use asking::Asking;
use oas_explain::{
    Asked, BINARY, Existing, Onward, STANDARD_OUTPUT, Session, all_reasons, ended, ended_by_text,
    mark_output, misused, of_all, of_listed, run_explain, words_of,
};
use oas_request::{Request, parse};
use plan::{Plan, plan_of};
use std::io::IsTerminal;
use std::process::ExitCode;

/// The status of a run that did what was asked.
const DONE: u8 = 0;

fn main(rt: HostRuntime) -> ExitCode {
    let status = match words_of(&rt) {
        Ok(words) => understood(&rt, words.as_slice()),
        Err(status) => status,
    };
    ExitCode::from(status)
}

/// Does what the words request, and returns the status.
fn understood(rt: &HostRuntime, words: &[String]) -> u8 {
    match parse(rt.alloc(), words) {
        Ok(request) => answer(rt, &request),
        Err(error) => ended_by_text(rt, error.exit_code() as u8, error.print(rt)),
    }
}

/// Does what is requested, and returns the status.
fn answer(rt: &HostRuntime, request: &Request<'_>) -> u8 {
    let plan = plan_of(&request.task);
    if plan.is_binary() && !request.insists && rt.stdout().is_terminal() {
        return misused(rt, BINARY);
    }
    let status = ended(run(&session_of(rt, request), plan));
    if status != DONE && plan.is_binary() {
        mark_output(rt);
    }
    status
}

/// What holds for the runs of a request.
fn session_of<'a>(rt: &'a HostRuntime, request: &Request<'_>) -> Session<'a>
    ensures { HoldsFor request.now.is_large request.now.explains request.now.shows_progress result }
{
    let large = request.is_large;
    Session::new(rt, large, request.explains, request.shows_progress)
}

/// Does what is planned, and returns the status; or that of a run that could not begin.
fn run<'a>(session: &Session<'a>, plan: Plan<'a>) -> Result<u8, u8> {
    match plan {
        Plan::OneFile(one) => one.run(session),
        Plan::TwoFiles(two) => two.run(session),
        Plan::Marking(marking) => marking.run(session),
        Plan::Each(question, paths) => Ok(of_all(session, &Asking { question }, paths)),
        Plan::EachListed(question, list) => of_listed(session, &Asking { question }, list),
        Plan::CheckKeys(kept) => kept.check(session),
        Plan::Explain(number) => explain(session, number),
    }
}

/// Prints what a reason means, and returns the status.
fn explain(session: &Session<'_>, number: Option<&str>) -> Result<u8, u8> {
    let mut said = session.room(STANDARD_OUTPUT, STANDARD_OUTPUT.len())?;
    let mut out = session.output(None, Existing::Replaced);
    let status = run_explain(&all_reasons(), number, &mut out, &mut said);
    let asked = Asked {
        path: None,
        onward: Onward::Shown,
    };
    session.tell(said.get_ref(), None, out.fault(), asked);
    Ok(status)
}

//! The command `oasprep`: the canonical file of an OASIS file as tools write it, and answers about it.
//!
//! [`usage`] has the command line, and [`requests`] returns what its words request. The runs of `oas_preparing` do the work;
//! [`runs`] opens the streams of the process and calls them. What each run is given in addition to its files, the words of
//! the process, and what is done with each of many files, is in `oas_explain`, as for `oascanon`: a run says its line into
//! memory, and it is printed on standard error.
//!
//! Not covered by a contract: that the run gets what was opened.
#![tactic(auto)]

mod requests;
mod runs;
mod usage;

ghost use Rattle.oas_preparing.specs.Session.{HoldsFor};

use oas_preparing::{
    BINARY, Session, ended, ended_by_text, mark_output, misused, of_all, of_listed, words_of,
};
use requests::{Inputs, Request, Task, parse};
use runs::{Asking, Comparing, Preparing};
use std::io::IsTerminal;
use std::process::ExitCode;

/// The status of a run that did what was asked.
const DONE: u8 = 0;

fn main(rt: HostRuntime) -> ExitCode {
    let status = match words_of(&rt) {
        Ok(words) => understood(&rt, words.as_slice()),
        Err(status) => status,
    };
    ExitCode::from(status)
}

/// Does what the words request, and returns the status.
fn understood(rt: &HostRuntime, words: &[String]) -> u8 {
    match parse(rt.alloc(), words) {
        Ok(request) => answer(&session_of(rt, &request), &request),
        Err(error) => ended_by_text(rt, error.exit_code() as u8, error.print(rt)),
    }
}

/// What holds for the runs of a request.
fn session_of<'a>(rt: &'a HostRuntime, request: &Request<'_>) -> Session<'a>
    ensures { HoldsFor request.now.is_large request.now.explains request.now.shows_progress result }
{
    let large = request.is_large;
    Session::new(rt, large, request.explains, request.shows_progress)
}

/// Does what is requested, and returns the status.
fn answer<'a>(session: &Session<'a>, request: &Request<'a>) -> u8 {
    let dropping = request.dropping;
    match &request.task {
        Task::Prepare {
            input,
            output,
            insists,
        } => {
            let (input, output) = (*input, *output);
            let preparing = Preparing {
                input,
                output,
                dropping,
            };
            prepare(session, preparing, *insists)
        }
        Task::Each(question, inputs) => {
            let question = *question;
            ask(session, &Asking { question, dropping }, inputs)
        }
        Task::Same { first, second } => {
            let (first, second) = (*first, *second);
            let comparing = Comparing {
                first,
                second,
                dropping,
            };
            ended(comparing.run(session))
        }
    }
}

/// Asks about each of these inputs, and returns the status of all.
fn ask(session: &Session<'_>, asking: &Asking, inputs: &Inputs<'_>) -> u8 {
    match inputs {
        Inputs::Named(paths) => of_all(session, asking, paths.as_slice()),
        Inputs::Listed(list) => ended(of_listed(session, asking, *list)),
    }
}

/// Prepares a file. Standard output is a terminal only where that is insisted on. Returns the status.
fn prepare<'a>(session: &Session<'a>, preparing: Preparing<'a>, insists: bool) -> u8 {
    if preparing.output.is_some() {
        return ended(preparing.run(session));
    }
    if !insists && session.rt.stdout().is_terminal() {
        return misused(session.rt, BINARY);
    }
    let status = ended(preparing.run(session));
    if status != DONE {
        mark_output(session.rt);
    }
    status
}

//! What the words of the command line request.

use crate::differences::{Asked, Markers, diff_of, has_layers};
use crate::questions::{Ending, Inputs, Question, key_of, question_of};
use crate::usage::oascanon;
use clap::error::ErrorKind;
use clap::{ArgMatches, Command, Error};
use oas_files::file_of_word;
use std::alloc::{AllocError, Global};
use std::convert::AsStr;

/// What a command line requests.
#[derive(Debug, Drop, PartialEq, Eq)]
pub struct Request<'a> {
    pub task: Task<'a>,
    /// Whether the large limits hold.
    pub is_large: bool,
    /// Whether refusals are explained.
    pub explains: bool,
    /// Whether long work shows how far it is.
    pub shows_progress: bool,
    /// Whether `-` names standard output, so that a file goes there even if it is a terminal.
    pub insists: bool,
}

/// A command, and its files by name. Without a name an input is standard input, and an output standard output.
#[derive(Debug, Drop, PartialEq, Eq)]
pub enum Task<'a> {
    Canon {
        input: Option<&'a str>,
        output: Option<&'a str>,
        /// Whether a file under the output's name stays.
        keeps_old: bool,
    },
    Ask {
        question: Question,
        inputs: Inputs<'a>,
    },
    /// Whether the keys in a list are still valid.
    CheckKeys {
        /// The list: each line is the key of a file and its name.
        list: Option<&'a str>,
        ending: Ending,
        /// Whether nothing is printed for a key that is valid.
        is_quiet: bool,
    },
    Same {
        first: Option<&'a str>,
        second: Option<&'a str>,
    },
    Diff {
        first: Option<&'a str>,
        second: Option<&'a str>,
        asked: Asked<'a>,
        /// The file for the markers, if they are requested, and how many there are at most.
        markers: Option<Markers<'a>>,
    },
    Show {
        input: Option<&'a str>,
    },
    Keys {
        input: Option<&'a str>,
    },
    Info {
        input: Option<&'a str>,
        /// Whether the output is JSON.
        is_json: bool,
    },
    Rekey {
        old: Option<&'a str>,
        new: Option<&'a str>,
    },
    Explain {
        number: Option<&'a str>,
    },
}

/// What the words request.
pub fn parse<'a, S: AsStr>(alloc: Global, words: &'a [S]) -> Result<Request<'a>, Error> {
    let mut command = oascanon(alloc)?;
    request_by(alloc, &mut command, words)
}

/// Why words that `clap` understands request nothing.
#[derive(Clone, Copy)]
enum Misuse {
    /// They name standard input or output twice.
    SharedStream,
    /// They name a layer that is none.
    Layer,
}

/// What the words of this command line request.
fn request_by<'a, S: AsStr>(
    alloc: Global,
    command: &mut Command<'a>,
    words: &'a [S],
) -> Result<Request<'a>, Error> {
    match found_by(alloc, command, words)? {
        Ok(request) => Ok(request),
        Err(misuse) => Err(error_of(command, misuse)),
    }
}

/// What the words of this command line request, where they aren't misused.
fn found_by<'a, S: AsStr>(
    alloc: Global,
    command: &mut Command<'a>,
    words: &'a [S],
) -> Result<Result<Request<'a>, Misuse>, Error> {
    let matches = command.try_get_matches_from_mut(words)?;
    if !names_layers(&matches) {
        return Ok(Err(Misuse::Layer));
    }
    match request_of(alloc, &matches)? {
        Some(request) => Ok(Ok(request)),
        None => Ok(Err(Misuse::SharedStream)),
    }
}

/// Whether each word for a layer is one.
fn names_layers(matches: &ArgMatches<'_>) -> bool {
    match matches.subcommand() {
        Some((_, found)) => has_layers(found),
        None => true,
    }
}

/// The error for words that are misused.
fn error_of(command: &mut Command<'_>, misuse: Misuse) -> Error {
    let (kind, message) = match misuse {
        Misuse::SharedStream => (
            ErrorKind::ArgumentConflict,
            "standard input and standard output can each stand for one file only",
        ),
        Misuse::Layer => (
            ErrorKind::ValueValidation,
            "a layer is a number, or two with a slash between them: L or L/D",
        ),
    };
    match command.error(kind, message) {
        Ok(error) => error,
        Err(error) => Error::from(error),
    }
}

/// What these matches request. None where standard input would be read twice, or two texts written to standard output.
pub fn request_of<'a>(
    alloc: Global,
    matches: &ArgMatches<'a>,
) -> Result<Option<Request<'a>>, AllocError> {
    let Some((name, found)) = matches.subcommand() else {
        return Ok(None);
    };
    let Some(task) = task_of(alloc, name, found)? else {
        return Ok(None);
    };
    Ok(Some(Request {
        task,
        is_large: found.get_flag("large"),
        explains: found.get_flag("explain"),
        shows_progress: found.get_flag("progress"),
        insists: is_dash(found, "OUT") || is_dash(found, "NEW"),
    }))
}

/// The task of the command with this name.
fn task_of<'a>(
    alloc: Global,
    name: &str,
    found: &ArgMatches<'a>,
) -> Result<Option<Task<'a>>, AllocError> {
    match name {
        "check" => question_of(alloc, Question::Check, found),
        "key" => key_of(alloc, found),
        "canon" => Ok(Some(Task::Canon {
            input: file_of(found, "IN"),
            output: file_of(found, "OUT"),
            keeps_old: found.get_flag("no-clobber"),
        })),
        "show" => Ok(Some(Task::Show {
            input: file_of(found, "IN"),
        })),
        "keys" => Ok(Some(Task::Keys {
            input: file_of(found, "IN"),
        })),
        "info" => Ok(Some(Task::Info {
            input: file_of(found, "IN"),
            is_json: found.get_flag("json"),
        })),
        "same" => Ok(same_of(found)),
        "diff" => diff_of(alloc, found),
        "rekey" => Ok(Some(Task::Rekey {
            old: file_of(found, "OLD"),
            new: file_of(found, "NEW"),
        })),
        "explain" => Ok(Some(Task::Explain {
            number: found.get_str("N"),
        })),
        _ => Ok(None),
    }
}

/// Whether an argument is `-`.
fn is_dash(found: &ArgMatches<'_>, argument: &str) -> bool {
    found.get_str(argument) == Some("-")
}

/// The file of an argument, if it names one.
pub fn file_of<'a>(found: &ArgMatches<'a>, argument: &str) -> Option<&'a str> {
    file_of_word(found.get_str(argument)?)
}

/// The task of `same`, unless both files are standard input.
fn same_of<'a>(found: &ArgMatches<'a>) -> Option<Task<'a>> {
    let (first, second) = two_of(found)?;
    Some(Task::Same { first, second })
}

/// The files A and B, unless both are standard input.
pub fn two_of<'a>(found: &ArgMatches<'a>) -> Option<(Option<&'a str>, Option<&'a str>)> {
    let (first, second) = (file_of(found, "A"), file_of(found, "B"));
    if first.is_none() && second.is_none() {
        return None;
    }
    Some((first, second))
}

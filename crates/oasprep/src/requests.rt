//! What the words of the command line request.

use crate::usage::{EXTENSIONS, FILES, LAYER_NAMES, PROPERTIES, oasprep};
use clap::error::ErrorKind;
use clap::{ArgMatches, Command, Error};
use oas_preparing::{Dropping, file_of_word};
use std::alloc::{AllocError, Global};
use std::convert::AsStr;

/// What a command line requests.
#[derive(Debug, Drop, PartialEq, Eq)]
pub struct Request<'a> {
    pub task: Task<'a>,
    /// What is to be left out.
    pub dropping: Dropping,
    /// Whether the large limits hold.
    pub is_large: bool,
    /// Whether refusals are explained.
    pub explains: bool,
    /// Whether long work shows how far it is.
    pub shows_progress: bool,
}

/// What is to be done, and with which files. Without a name an input is standard input, and the output standard output.
#[derive(Debug, Drop, PartialEq, Eq)]
pub enum Task<'a> {
    /// Write what a file is prepared to.
    Prepare {
        input: Option<&'a str>,
        output: Option<&'a str>,
        /// Whether `-` names standard output, so that the file goes there even if it is a terminal.
        insists: bool,
    },
    /// Answer a question about each file.
    Each(Question, Inputs<'a>),
    /// Print whether two files are prepared to the same layout.
    Same {
        first: Option<&'a str>,
        second: Option<&'a str>,
    },
}

/// What is asked about each of many files.
#[derive(Clone, Copy, Debug, PartialEq, Eq)]
pub enum Question {
    /// The key of what it is prepared to.
    Key,
    /// Whether it is what it is prepared to.
    Check,
}

/// The files of a question.
#[derive(Debug, Drop, PartialEq, Eq)]
pub enum Inputs<'a> {
    Named(Vec<Option<&'a str>>),
    /// The files that the list with this name, or that on standard input, names.
    Listed(Option<&'a str>),
}

/// What the words request.
pub fn parse<'a, S: AsStr>(alloc: Global, words: &'a [S]) -> Result<Request<'a>, Error> {
    let mut command = oasprep(alloc)?;
    found_by(alloc, &mut command, words)
}

/// What the words of this command line request.
fn found_by<'a, S: AsStr>(
    alloc: Global,
    command: &mut Command<'a>,
    words: &'a [S],
) -> Result<Request<'a>, Error> {
    let found = command.try_get_matches_from_mut(words)?;
    match misfit_of(&found) {
        Some(message) => Err(conflict(command, message)),
        None => Ok(request_of(alloc, &found)?),
    }
}

/// The error for files that don't fit what is asked of them.
fn conflict(command: &mut Command<'_>, message: &str) -> Error {
    match command.error(ErrorKind::ArgumentConflict, message) {
        Ok(error) => error,
        Err(error) => Error::from(error),
    }
}

/// What is wrong with the files for what is asked of them, if anything is.
fn misfit_of(found: &ArgMatches<'_>) -> Option<&'static str> {
    let words = found.get_strs(FILES).unwrap_or(&[]);
    if found.get_flag("same") && words.len() != 2 {
        return Some("--same takes two files");
    }
    if question_of(found).is_some() || found.get_flag("same") {
        if dashes(words) > 1 {
            return Some("standard input can stand for one file only");
        }
    } else if words.len() > 2 {
        return Some("one file is prepared to another; --key and --check take more");
    }
    None
}

/// What is asked about each file, if anything is.
fn question_of(found: &ArgMatches<'_>) -> Option<Question> {
    if found.get_flag("key") {
        Some(Question::Key)
    } else if found.get_flag("check") {
        Some(Question::Check)
    } else {
        None
    }
}

/// How many of these words are standard input.
fn dashes(words: &[&str]) -> usize {
    words
        .iter()
        .filter(|word| file_of_word(**word).is_none())
        .count()
}

/// What these matches request, whose files fit.
fn request_of<'a>(alloc: Global, found: &ArgMatches<'a>) -> Result<Request<'a>, AllocError> {
    let task = if let Some(question) = question_of(found) {
        Task::Each(question, inputs_of(alloc, found)?)
    } else if found.get_flag("same") {
        comparing(found.get_strs(FILES).unwrap_or(&[]))
    } else {
        preparing(found.get_strs(FILES).unwrap_or(&[]))
    };
    Ok(Request {
        task,
        dropping: dropping_of(found),
        is_large: found.get_flag("large"),
        explains: found.get_flag("explain"),
        shows_progress: found.get_flag("progress"),
    })
}

/// The task of preparing the first of these files to the second.
fn preparing<'a>(words: &[&'a str]) -> Task<'a> {
    let output = word_at(words, 1);
    Task::Prepare {
        input: file_named(word_at(words, 0)),
        output: file_named(output),
        insists: output == Some("-"),
    }
}

/// The task of comparing the first two of these files.
fn comparing<'a>(words: &[&'a str]) -> Task<'a> {
    Task::Same {
        first: file_named(word_at(words, 0)),
        second: file_named(word_at(words, 1)),
    }
}

/// The word at this place, if there is one.
fn word_at<'a>(words: &[&'a str], place: usize) -> Option<&'a str> {
    match words.get(place) {
        Some(word) => Some(*word),
        None => None,
    }
}

/// The file that a word names, if there is one that does.
fn file_named<'a>(word: Option<&'a str>) -> Option<&'a str> {
    file_of_word(word?)
}

/// The files of a question. Without words it is standard input.
fn inputs_of<'a>(alloc: Global, found: &ArgMatches<'a>) -> Result<Inputs<'a>, AllocError> {
    if let Some(list) = found.get_str("files0-from") {
        return Ok(Inputs::Listed(file_of_word(list)));
    }
    let words = found.get_strs(FILES).unwrap_or(&[]);
    let mut inputs = Vec::with_capacity(alloc, words.len().max(1))?;
    put_inputs(&mut inputs, words)?;
    Ok(Inputs::Named(inputs))
}

/// Puts the files that these words name. Without words it is standard input.
fn put_inputs<'a>(inputs: &mut Vec<Option<&'a str>>, words: &[&'a str]) -> Result<(), AllocError> {
    if words.is_empty() {
        inputs.push(None)?;
    }
    for word in words {
        inputs.push(file_of_word(word))?;
    }
    Ok(())
}

/// What is named to be left out.
fn dropping_of(found: &ArgMatches<'_>) -> Dropping {
    let named = found.get_strs("drop").unwrap_or(&[]);
    Dropping {
        properties: named.contains(&PROPERTIES),
        layer_names: named.contains(&LAYER_NAMES),
        extensions: named.contains(&EXTENSIONS),
    }
}

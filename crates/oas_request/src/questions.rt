//! Questions about files, and the inputs of each.

use crate::commands::{Task, file_of};
use clap::ArgMatches;
use oas_files::file_of_word;
use std::alloc::{AllocError, Global};

/// What can be asked about many files.
#[derive(Clone, Copy, Debug, PartialEq, Eq)]
pub enum Question {
    /// Whether it is canonical.
    Check,
    /// Its key, in lines that end like this.
    Key(Ending),
}

/// What ends the lines of an output.
#[derive(Clone, Copy, Debug, PartialEq, Eq)]
pub enum Ending {
    Newline,
    /// A zero byte; names are unchanged.
    Zero,
}

/// The inputs of a question.
#[derive(Debug, Drop, PartialEq, Eq)]
pub enum Inputs<'a> {
    /// One, whose line has no name.
    One(Option<&'a str>),
    /// These: each line has a name.
    Named(Vec<Option<&'a str>>),
    /// The files that the list with this name, or that on standard input, names.
    Listed(Option<&'a str>),
}

/// The task of a question, unless two of its inputs are standard input.
pub fn question_of<'a>(
    alloc: Global,
    question: Question,
    found: &ArgMatches<'a>,
) -> Result<Option<Task<'a>>, AllocError> {
    let Some(inputs) = inputs_of(alloc, found)? else {
        return Ok(None);
    };
    Ok(Some(Task::Ask { question, inputs }))
}

/// The task of `key`: the keys of files, or whether those of a list are still valid.
pub fn key_of<'a>(alloc: Global, found: &ArgMatches<'a>) -> Result<Option<Task<'a>>, AllocError> {
    let ending = if found.get_flag("zero") {
        Ending::Zero
    } else {
        Ending::Newline
    };
    match found.get_str("check") {
        Some(list) => Ok(Some(Task::CheckKeys {
            list: file_of_word(list),
            ending,
            is_quiet: found.get_flag("quiet"),
        })),
        None => question_of(alloc, Question::Key(ending), found),
    }
}

/// The inputs of a question.
fn inputs_of<'a>(alloc: Global, found: &ArgMatches<'a>) -> Result<Option<Inputs<'a>>, AllocError> {
    if let Some(list) = found.get_str("files0-from") {
        return Ok(Some(Inputs::Listed(file_of_word(list))));
    }
    let words = found.get_strs("IN").unwrap_or(&[]);
    let has_names = found.get_flag("names") || found.get_flag("zero");
    if words.len() <= 1 && !has_names {
        return Ok(Some(Inputs::One(file_of(found, "IN"))));
    }
    let mut inputs = Vec::with_capacity(alloc, words.len().max(1))?;
    put_inputs(&mut inputs, words)?;
    Ok(named(inputs))
}

/// Puts the inputs that these words name. Without words it is standard input.
fn put_inputs<'a>(inputs: &mut Vec<Option<&'a str>>, words: &[&'a str]) -> Result<(), AllocError> {
    if words.is_empty() {
        inputs.push(None)?;
    }
    for word in words {
        inputs.push(file_of_word(word))?;
    }
    Ok(())
}

/// These inputs, unless two of them are standard input.
fn named<'a>(inputs: Vec<Option<&'a str>>) -> Option<Inputs<'a>> {
    if inputs.iter().filter(|input| input.is_none()).count() > 1 {
        None
    } else {
        Some(Inputs::Named(inputs))
    }
}

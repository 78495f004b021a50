//! Command lines: what they request, or with which status they end.

use oas_request::{Ending, Inputs, Question, Request, Task, parse};
use std::alloc::{AllocError, Global};
use std::test::Fail;

/// Whether these words request this, or with which status they end.
fn answer(alloc: Global, words: &[&str], wanted: &Request<'_>) -> Result<bool, i32> {
    match parse(alloc, words) {
        Ok(request) => Ok(request == *wanted),
        Err(error) => Err(error.exit_code()),
    }
}

/// Whether the words of a line request this, or with which status they end.
pub fn asks(
    alloc: Global,
    line: &str,
    wanted: Request<'_>,
) -> Result<Result<bool, i32>, AllocError> {
    let words: Vec<&str> = line.split_whitespace().collect(alloc)?;
    Ok(answer(alloc, words.as_slice(), &wanted))
}

/// With which status the words of a line end, or that they are understood.
fn status_of(alloc: Global, line: &str) -> Result<Option<i32>, AllocError> {
    let words: Vec<&str> = line.split_whitespace().collect(alloc)?;
    Ok(match parse(alloc, words.as_slice()) {
        Ok(_) => None,
        Err(error) => Some(error.exit_code()),
    })
}

/// A request for a task, under the large limits or not, without other flags.
pub fn plain<'a>(task: Task<'a>, is_large: bool) -> Request<'a> {
    Request {
        task,
        is_large,
        explains: false,
        shows_progress: false,
        insists: false,
    }
}

/// A question about one file.
fn ask<'a>(question: Question, input: Option<&'a str>) -> Task<'a> {
    let inputs = Inputs::One(input);
    Task::Ask { question, inputs }
}

/// A question about the files of a list.
fn ask_listed<'a>(question: Question, list: Option<&'a str>) -> Task<'a> {
    let inputs = Inputs::Listed(list);
    Task::Ask { question, inputs }
}

/// Whether the keys of a list are still valid.
fn kept<'a>(list: Option<&'a str>, ending: Ending, is_quiet: bool) -> Task<'a> {
    Task::CheckKeys {
        list,
        ending,
        is_quiet,
    }
}

/// The task of a row: its name, and its files; most have one.
fn task_of<'a>(name: &str, file: Option<&'a str>, other: Option<&'a str>) -> Task<'a> {
    match name {
        "canon" => Task::Canon {
            input: file,
            output: other,
            keeps_old: false,
        },
        "canon to a free name" => Task::Canon {
            input: file,
            output: other,
            keeps_old: true,
        },
        "kept keys" => kept(file, Ending::Newline, false),
        "kept keys in silence" => kept(file, Ending::Newline, true),
        "kept keys by zeros" => kept(file, Ending::Zero, true),
        "check" => ask(Question::Check, file),
        "key" => ask(Question::Key(Ending::Newline), file),
        "listed check" => ask_listed(Question::Check, file),
        "listed key" => ask_listed(Question::Key(Ending::Newline), file),
        "show" => Task::Show { input: file },
        "keys" => Task::Keys { input: file },
        "info" => Task::Info {
            input: file,
            is_json: false,
        },
        "info in JSON" => Task::Info {
            input: file,
            is_json: true,
        },
        "same" => Task::Same {
            first: file,
            second: other,
        },
        "rekey" => Task::Rekey {
            old: file,
            new: other,
        },
        _ => Task::Explain { number: file },
    }
}

/// Lines with no flag except `--large`: what each requests, under which limits, and its files; most have one.
const PLAIN: &str = "\
oascanon canon | canon | standard | - | -
oascanon canon a | canon | standard | a | -
oascanon canon a b | canon | standard | a | b
oascanon canon --large | canon | large | - | -
oascanon canon --large a | canon | large | a | -
oascanon canon a b --large | canon | large | a | b
oascanon canon - - | canon | standard | - | -
oascanon canon ./- - | canon | standard | ./- | -
oascanon canon --no-clobber a b | canon to a free name | standard | a | b
oascanon key --check a | kept keys | standard | a | -
oascanon key --check=- --large | kept keys | large | - | -
oascanon key --quiet --check a | kept keys in silence | standard | a | -
oascanon key -q -z --check a | kept keys by zeros | standard | a | -
oascanon canon -- --large | canon | standard | --large | -
oascanon check | check | standard | - | -
oascanon check - | check | standard | - | -
oascanon check --large a | check | large | a | -
oascanon key | key | standard | - | -
oascanon key a --large | key | large | a | -
oascanon check --files0-from=a | listed check | standard | a | -
oascanon key --large --files0-from - | listed key | large | - | -
oascanon show | show | standard | - | -
oascanon show --large a | show | large | a | -
oascanon keys a | keys | standard | a | -
oascanon info a | info | standard | a | -
oascanon info --json a | info in JSON | standard | a | -
oascanon same a b | same | standard | a | b
oascanon same - --large b | same | large | - | b
oascanon rekey a b | rekey | standard | a | b
oascanon rekey --large - - | rekey | large | - | -
oascanon explain | explain | standard | - | -
oascanon explain 23 | explain | standard | 23 | -
oascanon explain Magic | explain | standard | Magic | -
";

/// The five parts of a row.
fn parts_of(row: &str) -> Option<(&str, &str, &str, &str, &str)> {
    let (line, rest) = row.split_once(" | ")?;
    let (task, rest) = rest.split_once(" | ")?;
    let (limits, rest) = rest.split_once(" | ")?;
    let (file, other) = rest.split_once(" | ")?;
    Some((line, task, limits, file, other))
}

/// The name of a file, where a row has one.
fn file_of(name: &str) -> Option<&str> {
    if name == "-" { None } else { Some(name) }
}

/// Whether the line of a row requests what the row says, or with which status it ends.
fn asks_as_said(alloc: Global, row: &str) -> Result<Result<bool, i32>, Fail> {
    let (line, task, limits, file, other) = parts_of(row).ok_or("a row has five parts")?;
    let task = task_of(task, file_of(file), file_of(other));
    let mut wanted = plain(task, limits == "large");
    // Only where `-` is an output.
    wanted.insists = line.ends_with("- -");
    Ok(asks(alloc, line, wanted)?)
}

#[test]
fn words_of_each_command(rt: HostRuntime) -> Result<(), Fail> {
    for row in PLAIN.lines() {
        assert_eq!(rt; asks_as_said(rt.alloc(), row)?, Ok(true), "at {row}");
    }
    Ok(())
}

/// Whether the words of a line request the keys of these files, with their names, or with which status they end.
fn asks_named(
    alloc: Global,
    line: &str,
    files: &[Option<&str>],
) -> Result<Result<bool, i32>, AllocError> {
    let mut inputs = Vec::new(alloc);
    inputs.extend_from_slice(files)?;
    let (question, inputs) = (Question::Key(Ending::Newline), Inputs::Named(inputs));
    asks(alloc, line, plain(Task::Ask { question, inputs }, false))
}

#[test]
fn words_of_several_files(rt: HostRuntime) -> Result<(), Fail> {
    let rows: [(&str, &[Option<&str>]); 4] = [
        ("oascanon key a b", &[Some("a"), Some("b")]),
        ("oascanon key a - a", &[Some("a"), None, Some("a")]),
        ("oascanon key --names a", &[Some("a")]),
        ("oascanon key --names", &[None]),
    ];
    for (line, files) in rows {
        assert_eq!(rt; asks_named(rt.alloc(), line, files)?, Ok(true), "at {line}");
    }
    Ok(())
}

/// Lines that request nothing.
const REFUSED: &str = "\
oascanon
oascanon flatten
oascanon --large
oascanon --large canon
oascanon canon a b c
oascanon same
oascanon same a
oascanon same a b c
oascanon same - -
oascanon diff a b --limit
oascanon diff a b --limit x
oascanon diff a b --limit=-1
oascanon diff a b --cell
oascanon diff a b --layer
oascanon diff a b --layer x
oascanon diff a b --layer 1/
oascanon diff a b --layer /1
oascanon diff a b --layer 1/2/3
oascanon diff a b --layer 1 --layer=-1
oascanon diff a b --layer 18446744073709551616
oascanon diff a b --markers
oascanon diff a b --markers -
oascanon diff a b --markers m --markers n
oascanon diff a b --markers m --markers-limit
oascanon diff a b --markers m --markers-limit x
oascanon diff a b --markers m --markers-limit=-1
oascanon diff a b --markers-limit 7
oascanon diff a b --unit
oascanon diff a b --unit mm
oascanon diff a b --unit=
oascanon diff a b --unit um --unit grid
oascanon diff a b --json --json
oascanon same --json a b
oascanon same --brief a b
oascanon same --markers m a b
oascanon rekey
oascanon rekey a
oascanon rekey a b c
oascanon show a b
oascanon key a - -
oascanon check --names - -
oascanon key --files0-from a b
oascanon key --files0-from a --files0-from b
oascanon key --files0-from
oascanon key --check a b
oascanon key --check a --files0-from b
oascanon key --check
oascanon check --check a
oascanon show --no-clobber a
oascanon show --names a
oascanon canon --small
oascanon canon --large --large
oascanon canon --large=1
oascanon canon -l
oascanon explain 1 2
oascanon explain --large
";

#[test]
fn words_that_are_refused(rt: HostRuntime) -> Result<(), Fail> {
    for line in REFUSED.lines() {
        assert_eq!(rt; status_of(rt.alloc(), line)?, Some(2), "at {line}");
    }
    Ok(())
}

#[test]
fn words_that_ask_for_help(rt: HostRuntime) -> Result<(), Fail> {
    for line in [
        "oascanon --help",
        "oascanon -h",
        "oascanon --version",
        "oascanon help",
        "oascanon help canon",
        "oascanon canon --help",
        "oascanon same --help",
        "oascanon rekey --help",
    ] {
        assert_eq!(rt; status_of(rt.alloc(), line)?, Some(0), "at {line}");
    }
    Ok(())
}

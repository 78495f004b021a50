//! The command line: its commands and the help on them, by `clap`.

use crate::arguments::{
    A, Argument, B, BRIEF, CELL, CHECK, EXPLAIN, IN, INPUTS, JSON, JSON_LINES, LARGE, LAYER, LIMIT,
    LIST, MARKERS, MARKERS_LIMIT, NAMES, NEW, NO_CLOBBER, NUMBER, OLD, OUT, PROGRESS, QUIET, UNIT,
    ZERO, put_arguments,
};
use clap::{Command, Error};
use std::alloc::Global;

/// A command: its purpose in a line, the text below its help, and its arguments.
#[derive(Clone, Copy)]
struct Described<'a> {
    name: &'a str,
    about: &'a str,
    after: &'a str,
    arguments: &'a [Argument<'a>],
}

/// The program's version, and the profiles that it knows.
const VERSION: &str = "0.3.0-dev (profiles one and two; answers by profile two)";

/// The text below the program's help.
const EXAMPLES: &str = "\
Examples: oascanon same before.oas after.oas
          oascanon key --names *.oas >keys
          oascanon canon chip.oas canonical.oas";

/// The text below the help of a command: an example, and how it ends.
const AFTER_CANON: &str = "Example:
  oascanon canon chip.oas canonical.oas

It reads chip.oas, and writes canonical.oas: a file that stands there is
replaced once the new one is whole. So of `canon *.oas` the second name is
written; --no-clobber refuses an OUT that exists.

Status:
  0  done
  1  refused (NAME: refused REASON at OFFSET), a file can't be opened, or
     OUT exists and isn't to be replaced
  2  the command line isn't understood";

const AFTER_CHECK: &str = "Example:
  oascanon check --names *.oas

Status:
  0  canonical
  1  refused (NAME: refused REASON at OFFSET), or a file can't be opened
  2  the command line isn't understood
  3  not canonical; of many files, one is not, and none was refused";

const AFTER_SAME: &str = "Example:
  oascanon same before.oas after.oas

Status:
  0  the same layout
  1  refused (NAME: refused REASON at OFFSET), or a file can't be opened
  2  the command line isn't understood
  3  different layouts";

const AFTER_DIFF: &str = "Example:
  oascanon diff --brief before.oas after.oas
  oascanon diff --markers changes.lyrdb before.oas after.oas
  oascanon diff --cell TOP --layer 5 --layer 7/1 before.oas after.oas
  oascanon diff --json --unit um before.oas after.oas

With --cell or --layer all else is left out of both files before they are
compared, and the status is that of what is left. Placements and cells are on
no layer, so --layer leaves them out.

Status:
  0  the same layout
  1  refused (NAME: refused REASON at OFFSET), or a file can't be opened
  2  the command line isn't understood
  3  different layouts";

const AFTER_SHOW: &str = "Example:
  oascanon show chip.oas | less

Status:
  0  done
  1  refused (NAME: refused REASON at OFFSET), or a file can't be opened
  2  the command line isn't understood";

const AFTER_KEY: &str = "Example:
  find vault -name '*.oas' -print0 | oascanon key --files0-from=- >keys
  oascanon key --check keys --quiet

Status:
  0  done; with --check, each key holds
  1  refused (NAME: refused REASON at OFFSET), or a file can't be opened
  2  the command line isn't understood
  3  with --check: a key has changed, and no file was refused";

const AFTER_KEYS: &str = "Example:
  oascanon keys chip.oas >cells

Status:
  0  done
  1  refused (NAME: refused REASON at OFFSET), or a file can't be opened
  2  the command line isn't understood";

const AFTER_INFO: &str = "Example:
  oascanon info --json chip.oas

Status:
  0  done
  1  refused (NAME: refused REASON at OFFSET), or a file can't be opened
  2  the command line isn't understood";

const AFTER_REKEY: &str = "Example:
  oascanon rekey old.oas new.oas

A polygon that goes round a rectangle is that rectangle by profile 2, by which
each command answers, and was a polygon by profile 1.

Status:
  0  done
  1  refused (NAME: refused REASON at OFFSET), or a file can't be opened
  2  the command line isn't understood
  3  not canonical by profile 1 (NAME: not profile 1 canonical)";

const AFTER_EXPLAIN: &str = "Example:
  oascanon explain 23
  oascanon explain CoordinateRange

Status:
  0  done
  1  standard output failed
  2  the command line isn't understood, or no reason is called so";

/// The commands, in the order of the help.
const COMMANDS: [Described<'static>; 10] = [
    Described {
        name: "canon",
        about: "Writes the canonical form of a file",
        after: AFTER_CANON,
        arguments: &[LARGE, EXPLAIN, PROGRESS, IN, OUT, NO_CLOBBER],
    },
    Described {
        name: "check",
        about: "Says whether files are canonical as they stand",
        after: AFTER_CHECK,
        arguments: &[LARGE, EXPLAIN, PROGRESS, INPUTS, NAMES, LIST],
    },
    Described {
        name: "same",
        about: "Says whether two files mean the same layout",
        after: AFTER_SAME,
        arguments: &[LARGE, EXPLAIN, PROGRESS, A, B],
    },
    Described {
        name: "diff",
        about: "Lists what one of two files has more often than the other",
        after: AFTER_DIFF,
        arguments: &[
            LARGE,
            EXPLAIN,
            PROGRESS,
            A,
            B,
            CELL,
            LAYER,
            BRIEF,
            JSON_LINES,
            UNIT,
            LIMIT,
            MARKERS,
            MARKERS_LIMIT,
        ],
    },
    Described {
        name: "show",
        about: "Lists the layout that a file means",
        after: AFTER_SHOW,
        arguments: &[LARGE, EXPLAIN, PROGRESS, IN],
    },
    Described {
        name: "key",
        about: "Writes the SHA-256 of the canonical forms of files",
        after: AFTER_KEY,
        arguments: &[
            LARGE, EXPLAIN, PROGRESS, INPUTS, NAMES, LIST, ZERO, CHECK, QUIET,
        ],
    },
    Described {
        name: "keys",
        about: "Writes such a key of each cell alone, and its name",
        after: AFTER_KEYS,
        arguments: &[LARGE, EXPLAIN, PROGRESS, IN],
    },
    Described {
        name: "info",
        about: "Counts what a file holds, by kind and by layer",
        after: AFTER_INFO,
        arguments: &[LARGE, EXPLAIN, PROGRESS, IN, JSON],
    },
    Described {
        name: "rekey",
        about: "Makes a canonical file of profile 2 from one of profile 1",
        after: AFTER_REKEY,
        arguments: &[LARGE, EXPLAIN, PROGRESS, OLD, NEW],
    },
    Described {
        name: "explain",
        about: "Says what a reason for a refusal means, and what to do",
        after: AFTER_EXPLAIN,
        arguments: &[NUMBER],
    },
];

/// The program's command line.
pub fn oascanon<'a>(alloc: Global) -> Result<Command<'a>, Error> {
    let mut commands = Vec::with_capacity(alloc, COMMANDS.len())?;
    put_commands(&mut commands, alloc, &COMMANDS)?;
    let line = Command::new(alloc, "oascanon")
        .about("The canonical form of OASIS mask layouts (SEMI P39); of other files by oasprep")
        .after_help(EXAMPLES)
        .version(VERSION)
        .subcommand_required(true);
    Ok(line.subcommands(commands)?)
}

/// Puts the commands of a table.
fn put_commands<'a>(
    commands: &mut Vec<Command<'a>>,
    alloc: Global,
    table: &[Described<'a>],
) -> Result<(), Error> {
    for described in table {
        commands.push(command_of(alloc, described)?)?;
    }
    Ok(())
}

/// The command that this describes.
fn command_of<'a>(alloc: Global, described: &Described<'a>) -> Result<Command<'a>, Error> {
    let mut arguments = Vec::with_capacity(alloc, described.arguments.len())?;
    put_arguments(&mut arguments, alloc, described.arguments)?;
    let command = Command::new(alloc, described.name)
        .about(described.about)
        .after_help(described.after);
    Ok(command.args(arguments)?)
}

//! The command line: its options and the help on them, by `clap`.

use clap::{Arg, ArgAction, Command, Error};
use std::alloc::{AllocError, Global};

/// The program's version, and the profile for which it prepares.
const VERSION: &str = "0.3.0-dev (for profile two)";

/// The words for what may be left out.
pub const PROPERTIES: &str = "properties";

pub const LAYER_NAMES: &str = "layer-names";

pub const EXTENSIONS: &str = "extensions";

const KINDS: [&str; 3] = [PROPERTIES, LAYER_NAMES, EXTENSIONS];

/// The name of the files in matches.
pub const FILES: &str = "FILE";

/// The questions about each of many files, of which one is asked.
const OF_EACH: &str = "question";

/// The forms of the command line.
const USAGE: &str = "oasprep [OPTIONS] [IN [OUT]]
       oasprep --key|--check [OPTIONS] [FILE]...
       oasprep --same [OPTIONS] A B";

/// The text below the help.
const AFTER: &str = "Examples:
  oasprep --drop properties,layer-names chip.oas prepared.oas
  oasprep --drop properties,layer-names --key *.oas >keys

Status: 0 done, or yes; 3 no; 2 the command line isn't understood
  1 refused (NAME: refused REASON at OFFSET), or a file can't be opened";

/// The program's command line.
pub fn oasprep<'a>(alloc: Global) -> Result<Command<'a>, Error> {
    let command = Command::new(alloc, "oasprep")
        .about("OASIS files as tools write them, in the canonical form of oascanon")
        .override_usage(USAGE)
        .after_help(AFTER)
        .version(VERSION);
    Ok(with_settings(alloc, with_tasks(alloc, command)?)?)
}

/// This command line with what is left out, with what is asked, and with its files.
fn with_tasks<'a>(alloc: Global, command: Command<'a>) -> Result<Command<'a>, AllocError> {
    command
        .arg(drops(alloc))?
        .arg(key(alloc)?)?
        .arg(check(alloc)?)?
        .arg(same(alloc)?)?
        .arg(list(alloc)?)?
        .arg(files(alloc))
}

/// This command line with what holds for each run.
fn with_settings<'a>(alloc: Global, command: Command<'a>) -> Result<Command<'a>, AllocError> {
    command
        .arg(large(alloc))?
        .arg(explain(alloc))?
        .arg(progress(alloc))
}

/// `--drop WHAT,..`
fn drops<'a>(alloc: Global) -> Arg<'a> {
    Arg::new(alloc, "drop")
        .long("drop")
        .value_name("WHAT")
        .action(ArgAction::Append)
        .value_delimiter(',')
        .value_parser(KINDS.as_slice())
        .help("Leaves these out, and counts them; several by commas")
}

/// `--key`
fn key<'a>(alloc: Global) -> Result<Arg<'a>, AllocError> {
    Arg::new(alloc, "key")
        .long("key")
        .action(ArgAction::SetTrue)
        .help("Prints KEY  NAME for each FILE, with the key of what is prepared")
        .group(OF_EACH)
}

/// `--check`
fn check<'a>(alloc: Global) -> Result<Arg<'a>, AllocError> {
    Arg::new(alloc, "check")
        .long("check")
        .action(ArgAction::SetTrue)
        .help("Prints NAME: canonical, or not canonical, for each FILE as it is")
        .group(OF_EACH)
}

/// `--same`
fn same<'a>(alloc: Global) -> Result<Arg<'a>, AllocError> {
    Arg::new(alloc, "same")
        .long("same")
        .action(ArgAction::SetTrue)
        .help("Says whether A and B are prepared to the same layout")
        .conflicts_with("key")?
        .conflicts_with("check")
}

/// `--files0-from F`
fn list<'a>(alloc: Global) -> Result<Arg<'a>, AllocError> {
    Arg::new(alloc, "files0-from")
        .long("files0-from")
        .value_name("F")
        .help("Reads names from F, each ended by a zero byte")
        .requires_arg(OF_EACH)?
        .conflicts_with(FILES)
}

/// `FILE..`
fn files<'a>(alloc: Global) -> Arg<'a> {
    Arg::new(alloc, FILES)
        .action(ArgAction::Append)
        .num_args(0..)
        .hide(true)
}

/// `--large`
fn large<'a>(alloc: Global) -> Arg<'a> {
    Arg::new(alloc, "large")
        .long("large")
        .action(ArgAction::SetTrue)
        .help("Takes up to 2^26 elements and 2^38 bytes [else 2^24, 2^36]")
}

/// `--explain`
fn explain<'a>(alloc: Global) -> Arg<'a> {
    Arg::new(alloc, "explain")
        .long("explain")
        .action(ArgAction::SetTrue)
        .help("Says below a refusal what it means, and what to try")
}

/// `--progress`
fn progress<'a>(alloc: Global) -> Arg<'a> {
    Arg::new(alloc, "progress")
        .long("progress")
        .action(ArgAction::SetTrue)
        .help("Shows how many bytes were read and written")
}

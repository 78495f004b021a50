//! The arguments of commands, as help names them, made by `clap`.

use clap::{Arg, ArgAction, value_parser};
use std::alloc::{AllocError, Global};

/// An argument of a command. The name of a flag or an option is its word too.
#[derive(Clone, Copy)]
pub struct Argument<'a> {
    name: &'a str,
    kind: Kind<'a>,
    help: &'a str,
}

/// What kind of argument it is; an option has a name for its value.
#[derive(Clone, Copy)]
enum Kind<'a> {
    /// A word that may be left out.
    Optional,
    /// A word that has to be there.
    Required,
    /// As many words as there are.
    Many,
    Flag,
    /// A flag that has a letter too.
    ShortFlag(char),
    /// Such a flag, which is allowed only with this option, one in place of all names.
    FlagOf(char, &'a str),
    Option(&'a str),
    /// An option that may be given several times.
    Repeated(&'a str),
    /// An option whose value is a number.
    Number(&'a str),
    /// Such an option, which is allowed only with this one.
    NumberOf(&'a str, &'a str),
    /// An option whose value is one of these words.
    OneOf(&'a str, &'a [&'a str]),
    /// An option in place of the words `IN`.
    InPlaceOfInputs(&'a str),
    /// An option in place of these words and of the option for their list.
    InPlaceOfNames(&'a str),
}

pub const LARGE: Argument<'static> = Argument {
    name: "large",
    kind: Kind::Flag,
    help: "Takes up to 2^26 elements and 2^38 bytes [else 2^24, 2^36]",
};

pub const EXPLAIN: Argument<'static> = Argument {
    name: "explain",
    kind: Kind::Flag,
    help: "Says below a refusal what it means, and what to try",
};

pub const PROGRESS: Argument<'static> = Argument {
    name: "progress",
    kind: Kind::Flag,
    help: "Shows how many bytes were read and written",
};

pub const IN: Argument<'static> = Argument {
    name: "IN",
    kind: Kind::Optional,
    help: "The OASIS file to read [default: standard input]",
};

pub const OUT: Argument<'static> = Argument {
    name: "OUT",
    kind: Kind::Optional,
    help: "The file to write, or replace, once IN was read whole [default: standard output]",
};

pub const NO_CLOBBER: Argument<'static> = Argument {
    name: "no-clobber",
    kind: Kind::Flag,
    help: "Refuses an OUT that exists",
};

pub const INPUTS: Argument<'static> = Argument {
    name: "IN",
    kind: Kind::Many,
    help: "The OASIS files to read [default: standard input]",
};

pub const NAMES: Argument<'static> = Argument {
    name: "names",
    kind: Kind::Flag,
    help: "Gives the answer a name, of one file too",
};

pub const LIST: Argument<'static> = Argument {
    name: "files0-from",
    kind: Kind::InPlaceOfInputs("F"),
    help: "Reads names from F, each ended by a zero byte",
};

pub const ZERO: Argument<'static> = Argument {
    name: "zero",
    kind: Kind::ShortFlag('z'),
    help: "Ends lines by a zero byte, with each name as it is",
};

pub const CHECK: Argument<'static> = Argument {
    name: "check",
    kind: Kind::InPlaceOfNames("LIST"),
    help: "Says whether the keys in LIST still hold",
};

pub const QUIET: Argument<'static> = Argument {
    name: "quiet",
    kind: Kind::FlagOf('q', "check"),
    help: "Says of the keys in LIST only which don't hold",
};

pub const A: Argument<'static> = Argument {
    name: "A",
    kind: Kind::Required,
    help: "An OASIS file, or - for standard input",
};

pub const B: Argument<'static> = Argument {
    name: "B",
    kind: Kind::Required,
    help: "Another",
};

pub const BRIEF: Argument<'static> = Argument {
    name: "brief",
    kind: Kind::Flag,
    help: "Prints for each cell how many elements only one has",
};

pub const LIMIT: Argument<'static> = Argument {
    name: "limit",
    kind: Kind::Number("N"),
    help: "Prints N lines, and a line ... where there are more",
};

pub const CELL: Argument<'static> = Argument {
    name: "cell",
    kind: Kind::Repeated("NAME"),
    help: "Compares this cell alone; may be given several times",
};

pub const LAYER: Argument<'static> = Argument {
    name: "layer",
    kind: Kind::Repeated("L[/D]"),
    help: "Compares this layer alone, or of it datatype D; as often",
};

pub const MARKERS: Argument<'static> = Argument {
    name: "markers",
    kind: Kind::Option("FILE"),
    help: "Writes the difference to FILE too, for KLayout",
};

pub const MARKERS_LIMIT: Argument<'static> = Argument {
    name: "markers-limit",
    kind: Kind::NumberOf("N", "markers"),
    help: "Writes at most N markers [default: 100000]",
};

pub const JSON: Argument<'static> = Argument {
    name: "json",
    kind: Kind::Flag,
    help: "Prints a JSON object in place of lines",
};

pub const JSON_LINES: Argument<'static> = Argument {
    name: "json",
    kind: Kind::Flag,
    help: "Prints a JSON object in place of each line",
};

pub const UNIT: Argument<'static> = Argument {
    name: "unit",
    kind: Kind::OneOf("UNIT", &["grid", "um"]),
    help: "Prints coordinates in grid steps or in microns [default: grid]",
};

pub const OLD: Argument<'static> = Argument {
    name: "OLD",
    kind: Kind::Required,
    help: "An OASIS file that is canonical by profile 1",
};

pub const NEW: Argument<'static> = Argument {
    name: "NEW",
    kind: Kind::Required,
    help: "The file to write, or replace, once OLD was read whole",
};

pub const NUMBER: Argument<'static> = Argument {
    name: "N",
    kind: Kind::Optional,
    help: "The number or the name of a reason [default: all]",
};

/// Puts these arguments.
pub fn put_arguments<'a>(
    all: &mut Vec<Arg<'a>>,
    alloc: Global,
    arguments: &[Argument<'a>],
) -> Result<(), AllocError> {
    for argument in arguments {
        all.push(argument_of(alloc, argument)?)?;
    }
    Ok(())
}

/// The argument, as `clap` takes it.
fn argument_of<'a>(alloc: Global, argument: &Argument<'a>) -> Result<Arg<'a>, AllocError> {
    let word = Arg::new(alloc, argument.name).help(argument.help);
    let option = argument.name;
    match argument.kind {
        Kind::Optional => Ok(word),
        Kind::Required => Ok(word.required(true)),
        Kind::Many => Ok(word.action(ArgAction::Append).num_args(0..)),
        Kind::Flag => Ok(word.long(option).action(ArgAction::SetTrue)),
        Kind::ShortFlag(letter) => {
            Ok(word.long(option).short(letter).action(ArgAction::SetTrue))
        }
        Kind::FlagOf(letter, needed) => {
            let flag = word.long(option).short(letter).action(ArgAction::SetTrue);
            // What an option requires is excused where that conflicts with a word that is there.
            flag.requires_arg(needed)?
                .conflicts_with_all(&[IN.name, LIST.name])
        }
        Kind::Option(value)
        | Kind::Repeated(value)
        | Kind::Number(value)
        | Kind::NumberOf(value, _)
        | Kind::OneOf(value, _) => valued_of(word.long(option).value_name(value), argument.kind),
        Kind::InPlaceOfInputs(value) => {
            word.long(option).value_name(value).conflicts_with(IN.name)
        }
        Kind::InPlaceOfNames(value) => {
            let option = word.long(option).value_name(value);
            option.conflicts_with_all(&[IN.name, LIST.name])
        }
    }
}

/// The option with what its kind says of its value.
fn valued_of<'a>(option: Arg<'a>, kind: Kind<'a>) -> Result<Arg<'a>, AllocError> {
    match kind {
        Kind::Repeated(_) => Ok(option.action(ArgAction::Append)),
        Kind::Number(_) => Ok(option.value_parser(value_parser!(u64))),
        Kind::NumberOf(_, needed) => option.value_parser(value_parser!(u64)).requires_arg(needed),
        Kind::OneOf(_, words) => Ok(option.value_parser(words)),
        _ => Ok(option),
    }
}

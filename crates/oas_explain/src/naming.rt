//! Files of a command line by their names: in messages, in the lines of results, and in advice.

use crate::advice::{Asked, Onward};
use oas_command::{End, Label};
use oas_files::Printed;

/// The name of standard input in the lines of results, as programs read it.
const STANDARD_INPUT: &str = "-";

/// The output that advice names where the command has none.
pub const CANONICAL: &str = "canonical.oas";

/// How the line of a result with this end names the file with this path, or standard input. Where the line ends with a zero
/// byte the name is unchanged.
pub fn label_of<'a>(path: Option<&'a str>, printed: &'a Printed<'a>, end: End) -> Label<'a> {
    let (name, is_escaped) = match (path, end) {
        (None, _) => (STANDARD_INPUT, false),
        (Some(_), End::Newline) => (printed.as_str(), printed.is_escaped()),
        (Some(path), End::Zero) => (path, false),
    };
    Label {
        name,
        is_escaped,
        end,
    }
}

/// A file of a command line, and its name as it is printed.
#[derive(Clone, Copy)]
pub struct Named<'a> {
    pub path: Option<&'a str>,
    pub name: &'a str,
}

/// Two such files.
#[derive(Clone, Copy)]
pub struct Pair<'a> {
    pub first: Named<'a>,
    pub second: Named<'a>,
}

impl<'a> Pair<'a> {
    /// What was asked of the one of them whose refusal was said.
    pub fn asked(self, said: &[u8]) -> Asked<'a> {
        let path = if said.starts_with(self.first.name.as_bytes()) {
            self.first.path
        } else {
            self.second.path
        };
        let onward = Onward::Written(CANONICAL);
        Asked { path, onward }
    }
}

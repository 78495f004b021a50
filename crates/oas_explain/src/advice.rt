//! What follows a refusal besides its reason: what its file looks like, and a command to try.

use crate::hearing::number_recognized;
use crate::looking::{Format, look};
use crate::quoting::{grouped, quoted};
use std::alloc::Global;

/// What was asked of a file.
#[derive(Clone, Copy)]
pub struct Asked<'a> {
    /// The file, where it was given by name.
    pub path: Option<&'a str>,
    pub onward: Onward<'a>,
}

/// Where the canonical file goes that is made in place of the refused one.
#[derive(Clone, Copy)]
pub enum Onward<'a> {
    /// To standard output.
    Shown,
    /// To this command.
    Piped(&'a str),
    /// To the file with this name.
    Written(&'a str),
}

/// What is left out of a file as most tools write it.
const MOSTLY: &str = "properties,layer-names";

/// What a run said, and what was asked.
#[derive(Clone, Copy)]
struct Refused<'a> {
    rt: &'a HostRuntime,
    said: &'a [u8],
    asked: Asked<'a>,
}

/// Advice after the line of a refusal: lines that begin with the end of the one before. Nothing, where there is none, or if
/// out of memory.
pub fn advise(rt: &HostRuntime, said: &[u8], asked: Asked<'_>) -> Option<String> {
    let refused = Refused { rt, said, asked };
    match number_recognized(said)? {
        1 => refused.of_format(),
        2 => refused.of_length(),
        3 | 6 | 11 | 29 | 101 | 102 => refused.to_prepare(MOSTLY),
        103 => refused.to_prepare("properties,layer-names,extensions"),
        32 => refused.of_fault(),
        _ => None,
    }
}

impl Refused<'_> {
    fn alloc(&self) -> Global {
        self.rt.alloc()
    }

    /// The file's name after a space, as a shell reads it; nothing for standard input.
    fn file(&self) -> Option<String> {
        quoted(self.alloc(), " ", self.asked.path.unwrap_or(""))
    }

    /// What follows a command that writes the canonical file to standard output, or has these words before a file.
    fn onward(&self, before_file: &str) -> Option<String> {
        let alloc = self.alloc();
        match self.asked.onward {
            Onward::Shown => Some(String::new(alloc)),
            Onward::Piped(command) => format!(in alloc; " | {command}").ok(),
            Onward::Written(path) => quoted(alloc, before_file, path),
        }
    }

    /// To prepare the file without what is named.
    fn to_prepare(&self, what: &str) -> Option<String> {
        let (file, onward) = (self.file()?, self.onward(self.before_output())?);
        format!(in self.alloc(); "\n  = try: oasprep --drop {what}{file}{onward}").ok()
    }

    /// What comes between `oasprep`'s input and its output.
    fn before_output(&self) -> &str {
        if self.asked.path.is_some() {
            " "
        } else {
            " - "
        }
    }

    /// What a file looks like that isn't OASIS.
    fn of_format(&self) -> Option<String> {
        let file = self.file()?;
        match look(self.rt, self.asked.path).ok()?.format {
            Format::Gdsii => self.of_gdsii(&file),
            Format::Gzip => {
                let onward = self.onward(" >")?;
                format!(in self.alloc();
                    "\n  = looks like gzip\n  = try: gzip -dc{file}{onward}"
                ).ok()
            }
            Format::Lines => {
                format!(in self.alloc();
                    "\n  = looks like OASIS copied as text: get the file again, as binary"
                ).ok()
            }
            Format::Other => None,
        }
    }

    /// What to try with GDSII.
    fn of_gdsii(&self, file: &str) -> Option<String> {
        let from = if file.is_empty() { " /dev/stdin" } else { file };
        let to = match self.asked.onward {
            Onward::Written(path) => quoted(self.alloc(), " ", path)?,
            _ => String::from_str(self.alloc(), " canonical.oas").ok()?,
        };
        format!(in self.alloc();
            "\n  = looks like GDSII\n  = try: klayout-to-canonical{from}{to}"
        ).ok()
    }

    /// Where a file ends early.
    fn of_length(&self) -> Option<String> {
        let size = look(self.rt, self.asked.path).ok()?.size?;
        if size == 0 {
            return format!(in self.alloc(); "\n  = the file is empty").ok();
        }
        let whole = grouped(self.alloc(), offset_heard(self.said)?)?;
        let all = grouped(self.alloc(), size)?;
        format!(in self.alloc(); "\n  = ends early: {whole} of {all} bytes are whole records").ok()
    }

    /// Why a file can't be read, in the system's words.
    fn of_fault(&self) -> Option<String> {
        match look(self.rt, self.asked.path) {
            Ok(_) => None,
            Err(error) => format!(in self.alloc(); "\n  = {error}").ok(),
        }
    }
}

/// The offset in the line of a refusal.
fn offset_heard(said: &[u8]) -> Option<u64> {
    let line = str::from_utf8(said).ok()?;
    let (_, offset) = line.trim_end().rsplit_once(' ')?;
    offset.parse::<u64>().ok()
}

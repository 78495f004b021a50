//! Inputs by name.
ghost use Rattle.std.specs.Prelude.{◌≡◌, None, IfOk, IsOk, is_some};
ghost use Rattle.oas_files.specs.Opening.{is_named};

use crate::naming::shown_alone;
use std::fs::File;
use std::io;
use std::io::{ErrorKind, Read, Stdin};

/// What is read: standard input, or a file that has a name. What one of these reads is what the one below it reads.
#[derive(Drop)]
pub enum Opened<S, F> {
    Standard(S),
    Named(F),
}

/// Standard input of the process, or a file of the system.
pub type Input = Opened<Stdin, File>;

impl Opened<Stdin, File> {
    /// The file with this name, or standard input. A name that isn't UTF-8 can't be opened.
    pub fn open(rt: &HostRuntime, path: Option<&str>) -> io::Result<Input>
        ensures named { IfOk result (λ input. is_named input ≡ is_some path.entry) }
        ensures standard { path.entry ≡ None → IsOk result }
    {
        match path {
            Some(path) if shown_alone(path).is_some() => {
                Err(io::Error::from(ErrorKind::InvalidFilename))
            }
            Some(path) => Ok(Opened::Named(File::open(rt, path)?)),
            None => Ok(Opened::Standard(rt.stdin())),
        }
    }

    /// How many bytes it has, where that is known: for a regular file.
    pub fn size(&self) -> Option<u64> {
        match self {
            Opened::Standard(_) => None,
            Opened::Named(file) => {
                let found = file.metadata().ok()?;
                if found.is_file() {
                    Some(found.len())
                } else {
                    None
                }
            }
        }
    }
}

impl<S: Read, F: Read> Read for Opened<S, F> {
    ghost use Rattle.oas_files.specs.Opening.{remaining_of};

    ghost remaining = { remaining_of S.remaining F.remaining };

    fn read(&mut self, buf: &mut [u8]) -> io::Result<usize> {
        match self {
            Opened::Standard(standard) => standard.read(buf),
            Opened::Named(file) => file.read(buf),
        }
    }
}

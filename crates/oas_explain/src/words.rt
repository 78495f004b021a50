//! The words that the process was given, and the texts for those that request no run.

use oas_files::arguments;
use std::io;
use std::io::ErrorKind;

/// The status of help and of the version.
const DONE: u8 = 0;

/// The status where these can't be printed.
const FAILED: u8 = 1;

/// The status of a command line that isn't understood.
const MISUSED: u8 = 2;

/// The message where a file would go to a terminal.
pub const BINARY: &str = "a binary file isn't written to a terminal; name OUT, or - to insist";

/// The words of the command line, as texts, or the exit status where they can't be read.
pub fn words_of(rt: &HostRuntime) -> Result<Vec<String>, u8> {
    if let Ok(words) = arguments(rt) {
        return Ok(words);
    }
    Err(misused(rt, "the command line can't be read"))
}

/// Says what is wrong with the words of the command line, and returns the status.
pub fn misused(rt: &HostRuntime, what: &str) -> u8 {
    let _ = eprintln!(rt; "error: {what}");
    MISUSED
}

/// The exit status of words that request no run, once the text for them was printed, or was not: 0 for help and the version,
/// or 1 where standard output failed; 2 for words that aren't understood. Nothing is said of an output whose reader went away.
pub fn ended_by_text(rt: &HostRuntime, status: u8, printed: io::Result<()>) -> u8 {
    match printed {
        Err(fault) if status == DONE => {
            if fault.kind() != ErrorKind::BrokenPipe {
                let _ = eprintln!(rt; "error: standard output: {fault}");
            }
            FAILED
        }
        _ => status,
    }
}

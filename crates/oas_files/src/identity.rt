//! Whether two names have one file.

use std::fs;
use std::fs::Metadata;
use std::os::unix::fs::MetadataExt;

/// The system's name for a process's standard input.
const STANDARD_INPUT: &str = "/dev/stdin";

/// Whether the first name, or standard input without one, and the second have one regular file, also by links.
pub fn is_same_file(rt: &HostRuntime, first: Option<&str>, second: &str) -> bool {
    let first = fs::metadata(rt, first.unwrap_or(STANDARD_INPUT));
    match (first, fs::metadata(rt, second)) {
        (Ok(first), Ok(second)) => first.is_file() && is_one_file(&first, &second),
        _ => false,
    }
}

/// Whether something is under this name, also a link that leads nowhere.
pub fn is_taken(rt: &HostRuntime, name: &str) -> bool {
    fs::symlink_metadata(rt, name).is_ok()
}

/// Whether two files are one: on one device, under one number.
pub(crate) fn is_one_file(first: &Metadata, second: &Metadata) -> bool {
    first.dev() == second.dev() && first.ino() == second.ino()
}

//! Unnamed pipes from one program to the next. A program that refuses its input marks the pipe that it leaves empty, by the
//! bit that lets others execute it, which has no meaning for a pipe. So the next program knows that a line already says why
//! nothing came.

use std::fs;
use std::os::unix::fs::PermissionsExt;

const STANDARD_INPUT: &str = "/proc/self/fd/0";

const STANDARD_OUTPUT: &str = "/proc/self/fd/1";

/// The bit of the mark.
const MARK: u32 = 0o001;

/// Marks standard output, where that is an unnamed pipe. A fault changes nothing.
pub fn mark_output(rt: &HostRuntime) {
    if !is_unnamed(rt, STANDARD_OUTPUT) {
        return;
    }
    if let Ok(found) = fs::metadata(rt, STANDARD_OUTPUT) {
        let mut permissions = found.permissions();
        permissions.set_mode(permissions.mode() | MARK);
        let _ = fs::set_permissions(rt, STANDARD_OUTPUT, permissions);
    }
}

/// Whether standard input is an unnamed pipe with the mark.
pub fn is_input_marked(rt: &HostRuntime) -> bool {
    if !is_unnamed(rt, STANDARD_INPUT) {
        return false;
    }
    match fs::metadata(rt, STANDARD_INPUT) {
        Ok(found) => found.permissions().mode() & MARK != 0,
        Err(_) => false,
    }
}

/// Whether there is a pipe without a name at this path. One in a folder keeps its rights.
fn is_unnamed(rt: &HostRuntime, path: &str) -> bool {
    match fs::read_link(rt, path) {
        Ok(name) => name.as_str().starts_with("pipe:["),
        Err(_) => false,
    }
}

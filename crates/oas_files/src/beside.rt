//! New files next to others, each held by a lock until its run ends.

use crate::identity::is_one_file;
use std::alloc::Global;
use std::fmt::Write as _;
use std::fs::{File, OpenOptions, TryLockError};
use std::io::ErrorKind;
use std::os::unix::fs::OpenOptionsExt;
use std::path::PathBuf;
use std::{fs, io};

/// How many names are tried for the new file. A name is taken where another run writes to the same name.
const NAMES: u32 = 100;

/// How many bytes of a name fit into the new file's name; the system accepts names of 255.
const ROOM: usize = 240;

/// A new file with this mode in the folder of another, with its path. Its name begins with a dot. What a run that was killed
/// left under that name is removed.
pub fn create_beside(rt: &HostRuntime, target: &PathBuf, mode: u32) -> io::Result<(File, PathBuf)> {
    let alloc = rt.alloc();
    let name = target.file_name().unwrap_or("out");
    for n in 0..NAMES {
        let beside = target.with_file_name(alloc, &name_beside(alloc, name, n)?)?;
        remove_left(rt, &beside);
        if let Some(file) = create_held(rt, &beside, mode)? {
            return Ok((file, beside));
        }
    }
    Err(io::Error::from(ErrorKind::AlreadyExists))
}

/// The n-th name that is tried: `.NAME.oascanon-N`.
fn name_beside(alloc: Global, name: &str, n: u32) -> io::Result<String> {
    let (front, _) = name.split_at(name.floor_char_boundary(ROOM));
    let mut beside = String::new(alloc);
    match write!(beside, ".{front}.oascanon-{n}") {
        Ok(()) => Ok(beside),
        Err(_) => Err(io::Error::from(ErrorKind::OutOfMemory)),
    }
}

/// Removes the file of this name, unless a run holds it.
fn remove_left(rt: &HostRuntime, beside: &PathBuf) {
    if !fs::symlink_metadata(rt, beside).is_ok_and(|found| found.is_file()) {
        return;
    }
    let Ok(file) = OpenOptions::new().write(true).open(rt, beside) else {
        return;
    };
    if file.try_lock().is_ok() && stands(rt, &file, beside) {
        let _ = fs::remove_file(rt, beside);
    }
}

/// The new file with this name, which the run holds from now on. There is none where another run has that name.
fn create_held(rt: &HostRuntime, beside: &PathBuf, mode: u32) -> io::Result<Option<File>> {
    let mut options = OpenOptions::new();
    options.write(true).create_new(true).mode(mode);
    let file = match options.open(rt, beside) {
        Ok(file) => file,
        Err(error) if error.kind() == ErrorKind::AlreadyExists => return Ok(None),
        Err(error) => return Err(error),
    };
    // Before the lock another run may have taken the file for a left one. Where a file system has no locks, left files aren't
    // removed.
    match file.try_lock() {
        Err(TryLockError::WouldBlock) => Ok(None),
        Err(TryLockError::Error(_)) => Ok(Some(file)),
        Ok(()) if stands(rt, &file, beside) => Ok(Some(file)),
        Ok(()) => Ok(None),
    }
}

/// Whether the open file is the one under this name.
fn stands(rt: &HostRuntime, file: &File, path: &PathBuf) -> bool {
    match (file.metadata(), fs::symlink_metadata(rt, path)) {
        (Ok(open), Ok(named)) => is_one_file(&open, &named),
        _ => false,
    }
}

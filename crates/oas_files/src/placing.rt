//! The place of a new file.

use std::fs::Metadata;
use std::io::ErrorKind;
use std::path::PathBuf;
use std::{fs, io};

/// How many links are followed, as many as the system follows.
const LINKS: u32 = 40;

/// The folders whose names denote open files of a process: what is reached through them is written directly.
const OPEN_FILES: [&str; 2] = ["/proc/", "/dev/fd/"];

/// The place of a regular file.
#[derive(Drop)]
pub struct Place {
    /// Its name, with links followed.
    pub path: PathBuf,
    /// What is there already.
    pub standing: Option<Metadata>,
}

impl Place {
    /// The place of this name. There is none where what is there is written directly, as a device or a pipe, and where no
    /// file can be, as in place of a folder.
    pub fn of(rt: &HostRuntime, name: &str) -> io::Result<Option<Place>> {
        let standing = match fs::metadata(rt, name) {
            Ok(found) if found.is_file() => Some(found),
            Ok(_) => return Ok(None),
            Err(error) if error.kind() == ErrorKind::NotFound => None,
            Err(error) => return Err(error),
        };
        if !is_file_name(name) {
            return Ok(None);
        }
        let path = followed(rt, name)?;
        if is_open_file(path.as_str()) || !is_file_name(path.as_str()) {
            return Ok(None);
        }
        Ok(Some(Place { path, standing }))
    }
}

/// Whether a file can have this name: it doesn't end as a folder's.
fn is_file_name(name: &str) -> bool {
    let last = match name.rsplit_once('/') {
        Some((_, last)) => last,
        None => name,
    };
    !matches!(last, "" | "." | "..")
}

/// Whether the name denotes an open file of a process.
fn is_open_file(name: &str) -> bool {
    OPEN_FILES.iter().any(|folder| name.starts_with(*folder))
}

/// The name that the links of this name lead to, also where nothing is there.
fn followed(rt: &HostRuntime, name: &str) -> io::Result<PathBuf> {
    let mut path = PathBuf::from_str(rt.alloc(), name)?;
    for _ in 0..LINKS {
        if is_open_file(path.as_str()) || !is_link(rt, &path) {
            return Ok(path);
        }
        let text = fs::read_link(rt, &path)?;
        path.set_file_name(text.as_str())?;
    }
    Err(io::Error::from(ErrorKind::FilesystemLoop))
}

/// Whether a link is under this name.
fn is_link(rt: &HostRuntime, path: &PathBuf) -> bool {
    fs::symlink_metadata(rt, path).is_ok_and(|found| found.is_symlink())
}

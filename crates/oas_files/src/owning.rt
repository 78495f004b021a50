//! The owner and the rights of a new file that replaces another.

use std::fs::{File, Metadata, Permissions};
use std::io;
use std::os::unix::fs::{MetadataExt, PermissionsExt, fchown};

/// The bits of a mode by which a program runs as the file's owner, and as its group.
const SET_USER: u32 = 0o4000;

const SET_GROUP: u32 = 0o2000;

/// The bits of a mode that say what the file's group may do, and what all may do.
const GROUP: u32 = 0o070;

const OTHERS: u32 = 0o007;

/// What a new file has in common with the old one.
#[derive(Clone, Copy, Debug, PartialEq, Eq)]
pub enum Kept {
    Both,
    /// Its group, and another owner.
    Group,
    /// Another owner and another group.
    Neither,
}

/// Gives a new file the owner, the group and the mode of an old one, as far as the system lets the process.
pub fn take_over(file: &File, old: &Metadata) -> io::Result<()> {
    let kept = give_away(file, old);
    file.set_permissions(Permissions::from_mode(mode_kept(old.mode(), kept)))
}

/// Gives a new file the owner and the group of an old one, or the group alone, and returns what it has.
fn give_away(file: &File, old: &Metadata) -> Kept {
    if fchown(file, Some(old.uid()), Some(old.gid())).is_ok() {
        Kept::Both
    } else if fchown(file, None, Some(old.gid())).is_ok() {
        Kept::Group
    } else {
        Kept::Neither
    }
}

/// The mode of a file that has this in common with another of that mode. A program doesn't run as an owner or a group that
/// wasn't kept, and a group that wasn't kept may do what all may.
pub fn mode_kept(mode: u32, kept: Kept) -> u32 {
    match kept {
        Kept::Both => mode,
        Kept::Group => mode & !SET_USER,
        Kept::Neither => (mode & !SET_USER & !SET_GROUP & !GROUP) | ((mode & OTHERS) << 3),
    }
}

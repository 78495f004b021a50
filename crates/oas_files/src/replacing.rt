//! A file that takes its place once it is whole.
ghost use Rattle.std.specs.Prelude.{◌≡◌, ◌≢◌, [], IfOk, OnErr, IsOk};
ghost use Rattle.oas_files.specs.declared.replacing.Stage.TheVariants.{Beside as IsBeside, Placed as IsPlaced, Gone as IsGone};

use crate::beside::create_beside;
use crate::owning::take_over;
use crate::placing::Place;
use oas_bytes::NotedWriter;
use std::fs::File;
use std::io::{ErrorKind, Write};
use std::path::PathBuf;
use std::{fs, io};

/// Nobody else reads the new file before it has the old one's mode.
const OWN: u32 = 0o600;

/// The mode of a file that replaces none; the process's mask takes bits from it.
const ALL: u32 = 0o666;

/// What happens to a file in the place.
#[derive(Clone, Copy, Debug, PartialEq, Eq)]
pub enum Existing {
    Replaced,
    /// It stays, and the new file finds no place.
    Kept,
}

/// Where a new file is.
#[derive(Clone, Copy, Debug, PartialEq, Eq)]
pub enum Stage {
    /// Next to its place. What is there is unchanged.
    Beside,
    /// In its place.
    Placed,
    /// It could not be written, and its place is unchanged; except that a new file that is cut off by a limit on the size of
    /// files stays there cut off.
    Gone,
}

/// A new file next to its place. When it is flushed it is brought to the disk, gets the owner, the group and the mode of the
/// file that it replaces, and takes the place by a rename. Until then, and after any fault, the place is unchanged.
#[derive(Drop)]
pub struct Replacement<'a> {
    rt: &'a HostRuntime,
    file: NotedWriter<File>,
    beside: PathBuf,
    place: Place,
    existing: Existing,
    stage: Stage,
}

impl<'a> Replacement<'a> {
    /// One for this place.
    pub fn new(rt: &'a HostRuntime, place: Place, existing: Existing) -> io::Result<Replacement<'a>>
        ensures stage { IfOk result (λ replacement. replacement.stage ≡ IsBeside) }
        ensures none { IfOk result (λ replacement. replacement.file.taken.bytes ≡ []) }
    {
        let mode = if place.standing.is_some() { OWN } else { ALL };
        let (file, beside) = create_beside(rt, &place.path, mode)?;
        Ok(Replacement {
            rt,
            file: NotedWriter::new(file),
            beside,
            place,
            existing,
            stage: Stage::Beside,
        })
    }

    /// Ends the new file at a fault of this kind. It is removed. But where a limit on the size of files cuts off one that
    /// replaces none, what was written takes the place, since that is all that such a limit allows there.
    fn end(&mut self, kind: ErrorKind)
        ensures gone { self.new.stage ≡ IsGone }
        ensures taken { self.new.file ≡ self.old.file }
    {
        if self.stage == Stage::Beside {
            if kind == ErrorKind::FileTooLarge && self.place.standing.is_none() {
                let _ = self.take_name();
            } else {
                let _ = fs::remove_file(self.rt, &self.beside);
            }
        }
        self.stage = Stage::Gone;
    }

    /// Brings the new file to the disk, and into its place.
    fn take_place(&mut self) -> io::Result<()>
        ensures placed { IsOk result → self.new.stage ≡ IsPlaced }
        ensures stays { OnErr result (self.new.stage ≡ self.old.stage) }
        ensures taken { self.new.file ≡ self.old.file }
    {
        if let Some(old) = &self.place.standing {
            take_over(self.file.get_ref(), old)?;
        }
        self.file.get_ref().sync_all()?;
        self.take_name()?;
        self.stage = Stage::Placed;
        Ok(())
    }

    /// Gives the new file the name of its place. A second name is given only where there is no file with that name.
    fn take_name(&self) -> io::Result<()> {
        match self.existing {
            Existing::Replaced => fs::rename(self.rt, &self.beside, &self.place.path),
            Existing::Kept => {
                fs::hard_link(self.rt, &self.beside, &self.place.path)?;
                let _ = fs::remove_file(self.rt, &self.beside);
                Ok(())
            }
        }
    }
}

impl Write for Replacement<'_> {
    ghost use Rattle.std.specs.Prelude.{◌≡◌, ◌≢◌, Some};
    ghost use Rattle.std.specs.Io.{WritesAtMost};
    ghost use Rattle.std.specs.Io.KnownBytes.{WriteAppends};

    ghost contents = { λ r. Some r.file.taken.bytes };

    fn write(&mut self, buf: &[u8]) -> io::Result<usize>
        ensures bound { WritesAtMost result buf.now }
        ensures bytes { WriteAppends (Some self.old.file.taken.bytes) (Some self.new.file.taken.bytes) result buf.now }
        ensures gone { OnErr result (self.new.stage ≡ IsGone) }
        ensures stays { IsOk result → self.new.stage ≡ self.old.stage × (self.old.stage ≢ IsGone) }
    {
        if self.stage == Stage::Gone {
            return Err(io::Error::from(ErrorKind::Other));
        }
        let written = self.file.write(buf);
        if written.is_err() {
            self.end(kind_of(&written));
        }
        written
    }

    fn flush(&mut self) -> io::Result<()>
        ensures bytes { self.new.file.taken.bytes ≡ self.old.file.taken.bytes }
        ensures gone { OnErr result (self.new.stage ≡ IsGone) }
        ensures placed { IsOk result → self.new.stage ≡ IsPlaced }
    {
        match self.stage {
            Stage::Beside => {
                let placed = self.take_place();
                if let Err(error) = &placed {
                    self.end(error.kind());
                }
                placed
            }
            Stage::Placed => {
                let flushed = self.file.flush();
                if flushed.is_err() {
                    self.stage = Stage::Gone;
                }
                flushed
            }
            Stage::Gone => Err(io::Error::from(ErrorKind::Other)),
        }
    }
}

/// The kind of a fault.
fn kind_of(written: &io::Result<usize>) -> ErrorKind {
    match written {
        Ok(_) => ErrorKind::Other,
        Err(error) => error.kind(),
    }
}

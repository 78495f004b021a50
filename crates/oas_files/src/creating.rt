//! Outputs: standard output, or a file that is created, or replaced, from its first byte on.
ghost use Rattle.std.specs.Prelude.{◌≡◌, ◌<◌, true, false, [], Some, IfOk};
ghost use Rattle.std.specs.Io.{WritesAtMost};
ghost use Rattle.std.specs.Io.KnownBytes.{WriteAppends};
ghost use Rattle.oas_files.specs.Creating.{is_created, IsOutput};
ghost use Rattle.oas_files.specs.declared.replacing.Existing.TheVariants.{Replaced, Kept};

use crate::identity::is_taken;
use crate::placing::Place;
use crate::replacing::{Existing, Replacement};
use oas_bytes::NotedWriter;
use std::fs::File;
use std::io;
use std::io::{ErrorKind, Stdout, Write};

/// Where the bytes of a new file go.
#[derive(Drop)]
enum Destination<'a> {
    /// Under its name: a device or a pipe, which is written directly.
    InPlace(NotedWriter<File>),
    /// Next to its place, until all are written.
    Beside(Replacement<'a>),
}

impl<'a> Destination<'a> {
    ghost use Rattle.oas_files.specs.Taking.{taken_there};

    /// Where the bytes for this name go, depending on what is there.
    fn open(rt: &'a HostRuntime, path: &str, existing: Existing) -> io::Result<Destination<'a>>
        ensures { IfOk result (λ file. taken_there file ≡ []) }
    {
        if existing == Existing::Kept && is_taken(rt, path) {
            return Err(io::Error::from(ErrorKind::AlreadyExists));
        }
        match Place::of(rt, path)? {
            Some(place) => Ok(Destination::Beside(Replacement::new(rt, place, existing)?)),
            None => Ok(Destination::InPlace(NotedWriter::new(File::create(rt, path)?))),
        }
    }
}

impl Write for Destination<'_> {
    ghost use Rattle.std.specs.Prelude.{Some};
    ghost use Rattle.oas_files.specs.Taking.{taken_there};

    ghost contents = { λ d. Some (taken_there d) };

    fn write(&mut self, buf: &[u8]) -> io::Result<usize> {
        match self {
            Destination::InPlace(file) => file.write(buf),
            Destination::Beside(replacement) => replacement.write(buf),
        }
    }

    fn flush(&mut self) -> io::Result<()> {
        match self {
            Destination::InPlace(file) => file.flush(),
            Destination::Beside(replacement) => replacement.flush(),
        }
    }
}

/// A file that is created when the first byte is written to it. If nothing is written nothing is created, and what is under
/// its name is unchanged. A regular file comes to its name by the flush after the last byte. If that is never reached, what
/// was there is unchanged, and where nothing was, nothing is.
#[derive(Drop)]
pub struct NewFile<'a> {
    rt: &'a HostRuntime,
    path: &'a str,
    existing: Existing,
    file: Option<Destination<'a>>,
}

impl<'a> NewFile<'a> {
    ghost use Rattle.oas_files.specs.Taking.{taken_of};

    /// One that isn't created yet, and replaces a file under its name.
    pub fn new(rt: &'a HostRuntime, path: &'a str) -> NewFile<'a>
        ensures path { result.path ≡ path.entry }
        ensures existing { result.existing ≡ Replaced }
        ensures uncreated { is_created result ≡ false }
    {
        NewFile {
            rt,
            path,
            existing: Existing::Replaced,
            file: None,
        }
    }

    /// One that isn't created yet, and never is where something is under its name.
    pub fn keeping_old(rt: &'a HostRuntime, path: &'a str) -> NewFile<'a>
        ensures path { result.path ≡ path.entry }
        ensures existing { result.existing ≡ Kept }
        ensures uncreated { is_created result ≡ false }
    {
        NewFile {
            existing: Existing::Kept,
            ..NewFile::new(rt, path)
        }
    }

    /// Creates the file, and writes to it.
    fn begin(&mut self, buf: &[u8]) -> io::Result<usize>
        requires { is_created self.old ≡ false }
        ensures bound { WritesAtMost result buf.now }
        ensures bytes { WriteAppends (Some []) (Some (taken_of self.new)) result buf.now }
        ensures taken { IfOk result (λ _. is_created self.new ≡ true) }
        ensures path { self.new.path ≡ self.old.path }
        ensures existing { self.new.existing ≡ self.old.existing }
    {
        let mut file = Destination::open(self.rt, self.path, self.existing)?;
        let count = file.write(buf);
        self.file = Some(file);
        count
    }
}

impl Write for NewFile<'_> {
    ghost use Rattle.std.specs.Prelude.{[], Some, Ok};
    ghost use Rattle.std.specs.Io.{WritesAtMost};
    ghost use Rattle.std.specs.Io.KnownBytes.{WriteAppends};
    ghost use Rattle.oas_files.specs.Taking.{taken_of};

    ghost contents = { λ f. Some (taken_of f) };

    fn write(&mut self, buf: &[u8]) -> io::Result<usize>
        ensures bound { WritesAtMost result buf.now }
        ensures bytes { WriteAppends (Some (taken_of self.old)) (Some (taken_of self.new)) result buf.now }
        ensures nothing { buf.now ≡ [] → (result ≡ Ok 0) × (self.new ≡ self.old) }
        ensures taken { IfOk result (λ count. 0 < count → is_created self.new ≡ true) }
        ensures stays { is_created self.old ≡ true → is_created self.new ≡ true }
        ensures path { self.new.path ≡ self.old.path }
        ensures existing { self.new.existing ≡ self.old.existing }
    {
        if buf.is_empty() {
            return Ok(0);
        }
        match &mut self.file {
            Some(file) => file.write(buf),
            None => self.begin(buf),
        }
    }

    fn flush(&mut self) -> io::Result<()>
        ensures bytes { taken_of self.new ≡ taken_of self.old }
        ensures uncreated { is_created self.old ≡ false → (result ≡ Ok tt) × (self.new ≡ self.old) }
        ensures stays { is_created self.new ≡ is_created self.old }
        ensures path { self.new.path ≡ self.old.path }
        ensures existing { self.new.existing ≡ self.old.existing }
    {
        match &mut self.file {
            Some(file) => file.flush(),
            None => Ok(()),
        }
    }
}

/// Where a file is written to.
#[derive(Drop)]
pub enum Output<'a> {
    Standard(NotedWriter<Stdout>),
    New(NewFile<'a>),
}

impl<'a> Output<'a> {
    /// The new file with this name, which replaces one that is there; or standard output.
    pub fn new(rt: &'a HostRuntime, path: Option<&'a str>) -> Output<'a>
        ensures { IsOutput path.entry Replaced result }
    {
        match path {
            Some(path) => Output::New(NewFile::new(rt, path)),
            None => Output::Standard(NotedWriter::new(rt.stdout())),
        }
    }

    /// The new file with this name, which is created only where nothing is there; or standard output.
    pub fn keeping_old(rt: &'a HostRuntime, path: Option<&'a str>) -> Output<'a>
        ensures { IsOutput path.entry Kept result }
    {
        match path {
            Some(path) => Output::New(NewFile::keeping_old(rt, path)),
            None => Output::Standard(NotedWriter::new(rt.stdout())),
        }
    }
}

impl Write for Output<'_> {
    ghost use Rattle.std.specs.Prelude.{Some};
    ghost use Rattle.oas_files.specs.Taking.{taken_by};

    ghost contents = { λ o. Some (taken_by o) };

    fn write(&mut self, buf: &[u8]) -> io::Result<usize> {
        match self {
            Output::Standard(standard) => standard.write(buf),
            Output::New(file) => file.write(buf),
        }
    }

    fn flush(&mut self) -> io::Result<()> {
        match self {
            Output::Standard(standard) => standard.flush(),
            Output::New(file) => file.flush(),
        }
    }
}

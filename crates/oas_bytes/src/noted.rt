//! All calls of a reader, with the history of what they returned, and of a writer, with the history of what they took and a
//! count of those that failed.
//!
//! That `read` here calls the reader's own `read`, and `write` the writer's own `write`, is to be read. No clause can demand it
//! of a device whose bytes no contract knows, as a file.
ghost use Rattle.std.specs.Prelude.{◌≡◌, [], ◌++◌, take, IfOk, OnErr};
ghost use Rattle.std.specs.Io.{ReadsAtMost};
ghost use Rattle.std.specs.Io.KnownBytes.{Keeps, ReadConsumes, WriteAppends};

use crate::devices::Device;
use crate::history::History;
use std::io::{self, Read, Write};

/// A reader, and the bytes that its calls of `read` returned.
#[derive(Drop)]
pub(crate) struct NotedReader<R> {
    reader: R,
    returned: History,
}

impl<R: Read> NotedReader<R> {
    /// One that was not called.
    pub(crate) fn new(reader: R) -> NotedReader<R>
        ensures reader { result.reader ≡ reader }
        ensures none { result.returned.bytes ≡ [] }
    {
        NotedReader {
            reader,
            returned: History::new(),
        }
    }

    /// Calls the reader once, and notes what it returned.
    pub(crate) fn read(&mut self, buf: &mut [u8]) -> io::Result<usize>
        ensures bound { ReadsAtMost result buf.new }
        ensures bytes { ReadConsumes (R.remaining self.old.reader) (R.remaining self.new.reader) result buf.new }
        ensures noted { IfOk result (λ n. self.new.returned.bytes ≡ self.old.returned.bytes ++ take n buf.new) }
        ensures none { OnErr result (self.new.returned.bytes ≡ self.old.returned.bytes) }
    {
        let count = self.reader.read(buf)?;
        self.returned.note(&buf[..count]);
        Ok(count)
    }
}

/// A writer, and the bytes that its calls of `write` took of what they were handed. So a contract that names the contents of a
/// writer speaks of these bytes, whatever the writer is. It counts its calls that failed, too.
#[derive(Drop)]
pub struct NotedWriter<W> {
    writer: W,
    taken: History,
    // A byte for each call that failed.
    failed: History,
}

impl<W: Write> NotedWriter<W> {
    ghost use Rattle.oas_bytes.specs.Devices.{Wrote, Flushed};
    ghost use Rattle.oas_bytes.specs.Noted.{calls_noted};

    /// One that was not called.
    pub fn new(writer: W) -> NotedWriter<W>
        ensures writer { result.writer ≡ writer }
        ensures none { result.taken.bytes ≡ [] }
        ensures never { result.failed.bytes ≡ [] }
    {
        NotedWriter {
            writer,
            taken: History::new(),
            failed: History::new(),
        }
    }

    /// The writer.
    pub fn get_ref(&self) -> &W
        ensures { result.now ≡ self.now.writer }
    {
        &self.writer
    }

    /// The writer.
    pub fn into_inner(self) -> W
        ensures { result ≡ self.writer }
    {
        self.writer
    }

    /// Calls the writer once, and notes what it took, or that it failed.
    fn send(&mut self, buf: &[u8]) -> io::Result<usize>
        ensures wrote { Wrote (calls_noted self.old) buf.now result (calls_noted self.new) }
        ensures handed { WriteAppends (W.contents self.old.writer) (W.contents self.new.writer) result buf.now }
    {
        let written = self.writer.write(buf);
        match written {
            Ok(0) if !buf.is_empty() => self.failed.note(&[0]),
            Ok(count) => self.taken.note(&buf[..count]),
            Err(_) => self.failed.note(&[0]),
        }
        written
    }

    /// Flushes the writer, and notes whether that failed.
    fn settle(&mut self) -> io::Result<()>
        ensures flushed { Flushed (calls_noted self.old) result (calls_noted self.new) }
        ensures handed { Keeps (W.contents self.old.writer) (W.contents self.new.writer) }
    {
        let flushed = self.writer.flush();
        if flushed.is_err() {
            self.failed.note(&[0]);
        }
        flushed
    }
}

impl<W: Write> Write for NotedWriter<W> {
    ghost use Rattle.std.specs.Prelude.{◌≡◌, Some};
    ghost use Rattle.std.specs.Io.{WritesAtMost};
    ghost use Rattle.std.specs.Io.KnownBytes.{Keeps, WriteAppends};

    ghost contents = { λ w. Some w.taken.bytes };

    fn write(&mut self, buf: &[u8]) -> io::Result<usize>
        ensures bound { WritesAtMost result buf.now }
        ensures bytes { WriteAppends (Some self.old.taken.bytes) (Some self.new.taken.bytes) result buf.now }
        ensures handed { WriteAppends (W.contents self.old.writer) (W.contents self.new.writer) result buf.now }
    {
        self.send(buf)
    }

    fn flush(&mut self) -> io::Result<()>
        ensures bytes { self.new.taken.bytes ≡ self.old.taken.bytes }
        ensures handed { Keeps (W.contents self.old.writer) (W.contents self.new.writer) }
    {
        self.settle()
    }
}

impl<W: Write> Device for NotedWriter<W> {
    ghost use Rattle.std.specs.Io.KnownBytes.{Keeps, WriteAppends};
    ghost use Rattle.oas_bytes.specs.Devices.{Wrote, Flushed};
    ghost use Rattle.oas_bytes.specs.Noted.{calls_noted};

    ghost calls = { calls_noted };

    fn write(&mut self, buf: &[u8]) -> io::Result<usize>
        ensures wrote { Wrote (calls_noted self.old) buf.now result (calls_noted self.new) }
        ensures handed { WriteAppends (W.contents self.old.writer) (W.contents self.new.writer) result buf.now }
    {
        self.send(buf)
    }

    fn flush(&mut self) -> io::Result<()>
        ensures flushed { Flushed (calls_noted self.old) result (calls_noted self.new) }
        ensures handed { Keeps (W.contents self.old.writer) (W.contents self.new.writer) }
    {
        self.settle()
    }
}

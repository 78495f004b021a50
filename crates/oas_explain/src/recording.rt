//! A device over a writer, which keeps why it failed.

ghost use Rattle.std.specs.Prelude.{◌≡◌, [], None};

use oas_num::{Device, History};
use std::io;
use std::io::Write;

/// A device that writes what is below it, counts its failures, and keeps why it failed the last time.
#[derive(Drop)]
pub struct Recorded<W> {
    inner: W,
    fault: Option<io::Error>,
    // A byte for each call that failed.
    failed: History,
}

impl<W: Write> Recorded<W> {
    /// One over this writer, which has not failed yet.
    pub fn new(inner: W) -> Recorded<W>
        ensures { (result.inner ≡ inner) × (result.fault ≡ None) × (result.failed.bytes ≡ []) }
    {
        Recorded {
            inner,
            fault: None,
            failed: History::new(),
        }
    }

    /// Why it failed, if it did.
    pub fn fault(&self) -> Option<io::Error>
        ensures { result ≡ self.now.fault }
    {
        self.fault
    }
}

impl<W: Write> Device for Recorded<W> {
    ghost use Rattle.std.specs.Prelude.{◌≡◌, Some, IfErr, OnOk};
    ghost use Rattle.oas_num.specs.Devices.{Wrote, Flushed};
    ghost use Rattle.oas_explain.specs.Recording.{calls_recorded};

    ghost calls = { calls_recorded W.contents };

    fn write(&mut self, buf: &[u8]) -> io::Result<usize>
        ensures wrote { Wrote (calls_recorded W.contents self.old) buf.now result (calls_recorded W.contents self.new) }
        ensures fault { IfErr result (λ error. self.new.fault ≡ Some error) }
        ensures as_before { OnOk result (self.new.fault ≡ self.old.fault) }
    {
        let written = self.inner.write(buf);
        match written {
            Ok(0) if !buf.is_empty() => self.failed.note(&[0]),
            Ok(_) => {}
            Err(error) => {
                self.failed.note(&[0]);
                self.fault = Some(error);
            }
        }
        written
    }

    fn flush(&mut self) -> io::Result<()>
        ensures flushed { Flushed (calls_recorded W.contents self.old) result (calls_recorded W.contents self.new) }
        ensures fault { IfErr result (λ error. self.new.fault ≡ Some error) }
        ensures as_before { OnOk result (self.new.fault ≡ self.old.fault) }
    {
        let flushed = self.inner.flush();
        if let Err(error) = flushed {
            self.failed.note(&[0]);
            self.fault = Some(error);
        }
        flushed
    }
}

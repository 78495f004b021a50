//! A reader that shows how much was read.

ghost use Rattle.std.specs.Prelude.{◌≡◌};

use crate::progress::meter::Meter;
use std::io;
use std::io::{Read, Write};

/// Reads what is below it, and counts the bytes.
#[derive(Drop)]
pub struct Reading<'a, R, E> {
    inner: R,
    meter: Option<Meter<'a, E>>,
}

impl<'a, R: Read, E: Write> Reading<'a, R, E> {
    /// One over this reader. Without a meter it shows nothing.
    pub fn new(inner: R, meter: Option<Meter<'a, E>>) -> Reading<'a, R, E>
        ensures { result.inner ≡ inner }
    {
        Reading { inner, meter }
    }
}

impl<R: Read, E: Write> Read for Reading<'_, R, E> {
    ghost use Rattle.std.specs.Io.{ReadsAtMost};
    ghost use Rattle.std.specs.Io.KnownBytes.{ReadConsumes};

    ghost remaining = { λ r. R.remaining r.inner };

    fn read(&mut self, buf: &mut [u8]) -> io::Result<usize>
        ensures bound { ReadsAtMost result buf.new }
        ensures bytes { ReadConsumes (R.remaining self.old.inner) (R.remaining self.new.inner) result buf.new }
    {
        let read = self.inner.read(buf);
        if let Some(meter) = &mut self.meter {
            match read {
                Ok(0) => meter.end(),
                Ok(count) => meter.add(count),
                Err(_) => {}
            }
        }
        read
    }
}

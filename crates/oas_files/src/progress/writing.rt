//! A writer that shows how much was written.

ghost use Rattle.std.specs.Prelude.{◌≡◌};

use crate::progress::meter::Meter;
use std::io;
use std::io::Write;

/// Writes what is below it, and counts the bytes. Before the first of them it removes the line that a reader's meter may have
/// left.
#[derive(Drop)]
pub struct Writing<'a, W, E> {
    inner: W,
    meter: Option<Meter<'a, E>>,
    begun: bool,
}

impl<'a, W: Write, E: Write> Writing<'a, W, E> {
    /// One over this writer. Without a meter it shows nothing.
    pub fn new(inner: W, meter: Option<Meter<'a, E>>) -> Writing<'a, W, E>
        ensures { result.inner ≡ inner }
    {
        Writing {
            inner,
            meter,
            begun: false,
        }
    }
}

impl<W: Write, E: Write> Write for Writing<'_, W, E> {
    ghost use Rattle.std.specs.Io.{WritesAtMost};
    ghost use Rattle.std.specs.Io.KnownBytes.{Keeps, WriteAppends};

    ghost contents = { λ w. W.contents w.inner };

    fn write(&mut self, buf: &[u8]) -> io::Result<usize>
        ensures bound { WritesAtMost result buf.now }
        ensures bytes { WriteAppends (W.contents self.old.inner) (W.contents self.new.inner) result buf.now }
    {
        if let Some(meter) = &mut self.meter {
            if !self.begun {
                meter.clear();
            }
        }
        self.begun = true;
        let written = self.inner.write(buf);
        if let Some(meter) = &mut self.meter {
            if let Ok(count) = written {
                meter.add(count);
            }
        }
        written
    }

    fn flush(&mut self) -> io::Result<()>
        ensures bytes { Keeps (W.contents self.old.inner) (W.contents self.new.inner) }
    {
        self.inner.flush()
    }
}

//! Devices: what an outlet writes to.
ghost use Rattle.std.specs.Prelude.{List, ℕ};
ghost use Rattle.oas_bytes.specs.Devices.{Calls, Wrote, Flushed};

use std::io;

/// Bytes are written to it, and its clauses say which of them it took, and how many of its calls failed. `NotedWriter` makes
/// one of any writer.
pub trait Device {
    /// What its calls did.
    ghost calls: { Self → Calls };

    /// Takes the first of these bytes, and returns how many. It has failed if it takes none of some.
    fn write(&mut self, buf: &[u8]) -> io::Result<usize>
        ensures { Wrote (calls self.old) buf.now result (calls self.new) };

    /// Passes on what it holds back.
    fn flush(&mut self) -> io::Result<()>
        ensures { Flushed (calls self.old) result (calls self.new) };
}

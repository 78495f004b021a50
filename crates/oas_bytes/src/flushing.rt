//! All calls of a device, and a record of its last flush.
ghost use Rattle.std.specs.Prelude.{◌≡◌, ◌<◌, true, false, length, take, OnOk, OnErr, IfErr};
ghost use Rattle.oas_bytes.specs.Devices.{TakesAll, FailsAfter, Flushed};

use crate::devices::Device;
use std::io;

/// A record of whether a device was flushed after the last byte that it took.
///
/// The field is private to this file, so only `flush` makes the record, and `send` takes it away. It is kept beside the
/// writer, not around it: the lender of a `&mut` in a struct in a struct would learn nothing afterwards.
#[derive(Drop)]
pub(crate) struct FlushRecord {
    flushed: bool,
}

impl FlushRecord {
    /// No flush is known.
    pub(crate) fn new() -> FlushRecord
        ensures { result.flushed ≡ false }
    {
        FlushRecord { flushed: false }
    }

    /// Sends all of the bytes to a writer, by as many calls as needed. Where it fails it returns how many bytes the writer
    /// took.
    pub(crate) fn send<W: Device>(&mut self, writer: &mut W, bytes: &[u8]) -> Result<(), usize>
        ensures ok { OnOk result (TakesAll (W.calls writer.old) bytes.now (W.calls writer.new)) }
        ensures err { IfErr result (λ count. (count < length bytes.now)
            × FailsAfter (W.calls writer.old) (take count bytes.now) (W.calls writer.new)) }
        ensures unflushed { self.new.flushed ≡ false }
    {
        self.flushed = false;
        let mut sent = 0;
        while sent < bytes.len() {
            match writer.write(&bytes[sent..]) {
                Ok(0) => return Err(sent),
                Ok(count) => sent += count,
                Err(_) => return Err(sent),
            }
        }
        Ok(())
    }

    /// Flushes a writer.
    ///
    /// Read here that the writer's own `flush` is called. No clause can require it where the call succeeds: all that
    /// `Device::flush` promises then is that the writer keeps its bytes, and that holds without the call too.
    pub(crate) fn flush<W: Device>(&mut self, writer: &mut W) -> io::Result<()>
        ensures calls { Flushed (W.calls writer.old) result (W.calls writer.new) }
        ensures flushed { OnOk result (self.new.flushed ≡ true) }
        ensures as_before { OnErr result (self.new ≡ self.old) }
    {
        writer.flush()?;
        self.flushed = true;
        Ok(())
    }
}

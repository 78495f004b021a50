//! What can be put into a sink, and is written whole to a device.

ghost use Rattle.std.specs.Prelude.{◌<◌, ◌^◌, ℕ, List, length, IfErr, IfOk, OnOk};
ghost use Rattle.oas_num.specs.Outlets.{IsGiven, IsSent, failures_of};
ghost use Rattle.oas_num.specs.Writing.{Writes};
ghost use Rattle.oas_num.specs.Written.{IsWritten, IsCutOff};

use crate::refusals::{Refusal, Why};
use oas_bytes::{Device, Outlet, Sink, SinkFault};

/// Something that has bytes: a file, a text, a line.
pub trait Content {
    /// Its bytes.
    ghost bytes: { Self → List ℕ };

    /// Puts its bytes into a sink. After a fault a prefix of them was put.
    fn put_into<K: Sink>(&self, sink: &mut K) -> Result<(), SinkFault>
        ensures writes { Writes K.given K.failures sink.old (bytes self.now) result sink.new }
        ensures short { length (bytes self.now) < 2 ^ 64 };
}

/// Puts its bytes into an outlet, and sends all of them to the writer.
fn put_and_close<C: Content, W: Device>(
    content: &C,
    outlet: &mut Outlet<'_, W>,
) -> Result<(), SinkFault>
    ensures writes { Writes (IsGiven W.calls) failures_of outlet.old (C.bytes content.now) result outlet.new }
    ensures all { OnOk result (IsSent outlet.new) }
    ensures short { length (C.bytes content.now) < 2 ^ 64 }
{
    content.put_into(outlet)?;
    outlet.close()
}

/// Writes its bytes, and returns how many they are.
///
/// A fault of the writer is `Why::Write`. Its place is the number of bytes that the writer took, which are the first ones.
/// Where it is the number of all of them, the flush failed.
pub fn write_content<C: Content, W: Device>(content: &C, writer: &mut W) -> Result<u64, Refusal>
    ensures written { IfOk result (IsWritten W.calls writer.old (C.bytes content.now) writer.new) }
    ensures refused { IfErr result (IsCutOff W.calls writer.old (C.bytes content.now) writer.new) }
{
    let mut outlet = Outlet::new(writer);
    match put_and_close(content, &mut outlet) {
        Ok(()) => Ok(outlet.taken()),
        Err(_) => Err(Refusal {
            at: outlet.taken(),
            why: Why::Write,
        }),
    }
}

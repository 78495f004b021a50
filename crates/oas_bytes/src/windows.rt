//! Bytes that are buffered for a writer.
ghost use Rattle.std.specs.Prelude.{◌≡◌, ◌≤◌, ◌<◌, ◌+◌, true, false, length, take, [], ◌∷◌, ◌++◌, IfOk, IfErr};
ghost use Rattle.oas_bytes.specs.Devices.{TakesAll, FailsAfter};

use crate::devices::Device;
use crate::flushing::FlushRecord;
use std::marker::Model;

/// How many bytes are buffered before the writer is called.
const SIZE: usize = 8192;

/// Bytes that wait for a writer, at most `SIZE` of them. Contracts see it as their list.
#[derive(Drop)]
pub(crate) struct Window {
    bytes: [u8; SIZE],
    held: usize,
}

impl Model for Window {
    ghost use Rattle.std.specs.Prelude.{List, ℕ, ◌≤◌, take};

    ghost Value = { List ℕ };

    ghost view = { λ w. take w.held w.bytes };

    ghost invariant = { λ w. w.held ≤ 8192 };
}

impl Window {
    /// An empty one.
    pub(crate) fn new() -> Window
        ensures { result ≡ [] }
    {
        Window {
            bytes: [0; SIZE],
            held: 0,
        }
    }

    /// Whether the window is full.
    #[inline]
    pub(crate) fn is_full(&self) -> bool
        ensures full { result ≡ true → length self.now ≡ 8192 }
        ensures room { result ≡ false → length self.now < 8192 }
    {
        self.held >= SIZE
    }

    /// The bytes.
    pub(crate) fn as_slice(&self) -> &[u8]
        ensures value { result.now ≡ self.now }
        ensures fits { length result.now ≤ 8192 }
    {
        &self.bytes[..self.held]
    }

    /// Adds a byte.
    #[inline]
    pub(crate) fn push(&mut self, byte: u8)
        requires { length self.old < 8192 }
        ensures { self.new ≡ self.old ++ byte ∷ [] }
    {
        self.bytes[self.held] = byte;
        self.held += 1;
    }

    /// How many more bytes there is room for.
    #[inline]
    pub(crate) fn room(&self) -> usize
        ensures { result + length self.now ≡ 8192 }
    {
        SIZE - self.held
    }

    /// Whether there is room for a few more bytes, at most as many as the window holds.
    #[inline(always)]
    pub(crate) fn has_room_for(&self, count: usize) -> bool
        requires { count ≤ 8192 }
        ensures { result ≡ true → length self.now + count ≤ 8192 }
    {
        self.held <= SIZE - count
    }

    /// Adds bytes.
    #[inline(always)]
    pub(crate) fn extend(&mut self, bytes: &[u8])
        requires { length self.old + length bytes.now ≤ 8192 }
        ensures { self.new ≡ self.old ++ bytes.now }
    {
        let end = self.held + bytes.len();
        self.bytes[self.held..end].copy_from_slice(bytes);
        self.held = end;
    }

    /// Drops the bytes.
    pub(crate) fn clear(&mut self)
        ensures { self.new ≡ [] }
    {
        self.held = 0;
    }

    /// Fills the window, with any bytes.
    pub(crate) fn fill(&mut self)
        ensures { length self.new ≡ 8192 }
    {
        self.held = SIZE;
    }

    /// Sends the bytes to a writer, and then drops them. Where the writer fails it returns how many were taken, and the bytes
    /// stay.
    pub(crate) fn send_to<W: Device>(
        &mut self,
        writer: &mut W,
        flush_record: &mut FlushRecord,
    ) -> Result<u64, u64>
        ensures ok { IfOk result (λ count. (self.new ≡ []) × (count ≡ length self.old)
            × TakesAll (W.calls writer.old) self.old (W.calls writer.new)) }
        ensures err { IfErr result (λ count. (self.new ≡ self.old) × (count < length self.old)
            × FailsAfter (W.calls writer.old) (take count self.old) (W.calls writer.new)) }
        ensures unflushed { flush_record.new.flushed ≡ false }
    {
        match flush_record.send(writer, self.as_slice()) {
            Ok(()) => {
                let count = self.held as u64;
                self.clear();
                Ok(count)
            }
            Err(count) => Err(count as u64),
        }
    }
}

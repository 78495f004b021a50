//! A sink over a device.
ghost use Rattle.std.specs.Prelude.{◌≡◌, ◌<◌, ◌≤◌, ◌-◌, ◌^◌, true, false, length, take, [], ◌∷◌, IfOk, OnOk, OnErr};

use crate::devices::Device;
use crate::flushing::FlushRecord;
use crate::sinks::{Sink, SinkFault};
use crate::windows::Window;

/// A sink over a borrowed device, its writer. It buffers bytes in a window of its own and allocates nothing, so single bytes don't each
/// cost a call of the writer.
///
/// What the writer took is always a prefix of what was put, and once `close` has returned Ok it is all of it. Each of these
/// is a fault: an error of the writer, also an interrupted write; a write that takes 0 of some bytes; a failed flush. After a
/// fault each call returns it, and the writer is not called again. If an outlet is dropped without `close`, the bytes in its
/// window are lost.
#[derive(Drop)]
pub struct Outlet<'a, W> {
    writer: &'a mut W,
    window: Window,
    taken: u64,
    ghost within: { taken ≤ 2 ^ 64 - 1 },
    flush_record: FlushRecord,
    // After a fault the window is full, so `put` and its like need one test only.
    failed: bool,
    ghost full: { failed ≡ true → length window ≡ 8192 },
}

impl<'a, W: Device> Outlet<'a, W> {
    ghost use Rattle.oas_bytes.specs.Outlets.{Opens, IsGiven, NoneWaits, IsSent, Answers, failures_of};
    ghost use Rattle.oas_bytes.specs.Writing.{Puts, PutsPrefix, Writes};

    /// An outlet that was given nothing.
    pub fn new(writer: &'a mut W) -> Outlet<'a, W>
        ensures { Opens writer.entry result }
    {
        Outlet {
            writer,
            window: Window::new(),
            taken: 0,
            flush_record: FlushRecord::new(),
            failed: false,
        }
    }

    /// How many bytes the writer took. The count stops at `u64::MAX`.
    pub fn taken(&self) -> u64
        ensures { result ≡ self.now.taken }
    {
        self.taken
    }

    /// Sends the rest to the writer, and flushes it.
    #[tactic(auto, using(crate::proofs::OutletLemmas::writes_after))]
    pub fn close(&mut self) -> Result<(), SinkFault>
        ensures writes { Writes (IsGiven W.calls) failures_of self.old [] result self.new }
        ensures all { OnOk result (IsSent self.new) }
        ensures settled { Answers self.old result self.new }
    {
        self.spill()?;
        self.flush()
    }

    /// Sends the bytes of the window to the writer.
    fn spill(&mut self) -> Result<(), SinkFault>
        ensures writes { Writes (IsGiven W.calls) failures_of self.old [] result self.new }
        ensures all { OnOk result (NoneWaits self.new) }
        ensures unflushed { OnOk result (self.new.flush_record.flushed ≡ false) }
        ensures settled { Answers self.old result self.new }
    {
        if self.failed {
            return Err(SinkFault::Device);
        }
        match self.window.send_to(self.writer, &mut self.flush_record) {
            Ok(count) => {
                self.taken = self.taken.saturating_add(count);
                Ok(())
            }
            Err(count) => {
                self.taken = self.taken.saturating_add(count);
                self.window.fill();
                self.failed = true;
                Err(SinkFault::Device)
            }
        }
    }

    /// Flushes the writer.
    fn flush(&mut self) -> Result<(), SinkFault>
        requires { NoneWaits self.old }
        ensures writes { Writes (IsGiven W.calls) failures_of self.old [] result self.new }
        ensures all { OnOk result (IsSent self.new) }
        ensures settled { Answers self.old result self.new }
    {
        match self.flush_record.flush(self.writer) {
            Ok(()) => Ok(()),
            Err(_) => {
                self.window.fill();
                self.failed = true;
                Err(SinkFault::Device)
            }
        }
    }

    /// Puts as many of some bytes as the window has room for, and returns how many they are.
    fn fill_up(&mut self, bytes: &[u8]) -> usize
        requires works { self.old.failed ≡ false }
        requires room { length self.old.window < 8192 }
        requires some { 0 < length bytes.now }
        ensures some { (0 < result) × (result ≤ length bytes.now) }
        ensures puts { Puts (IsGiven W.calls) failures_of self.old (take result bytes.now) self.new }
    {
        let count = self.window.room().min(bytes.len());
        self.window.extend(&bytes[..count]);
        count
    }

    /// The same, where the window is sent first if it is full.
    fn put_some(&mut self, bytes: &[u8]) -> Result<usize, SinkFault>
        requires { 0 < length bytes.now }
        ensures some { IfOk result (λ count. (0 < count) × (count ≤ length bytes.now)) }
        ensures puts { IfOk result (λ count. Puts (IsGiven W.calls) failures_of self.old (take count bytes.now) self.new) }
        ensures fails { OnErr result (PutsPrefix (IsGiven W.calls) failures_of self.old [] self.new) }
    {
        if self.window.is_full() {
            self.spill()?;
        }
        Ok(self.fill_up(bytes))
    }

    /// Puts bytes for which the window has no room.
    fn put_over(&mut self, bytes: &[u8]) -> Result<(), SinkFault>
        ensures { Writes (IsGiven W.calls) failures_of self.old bytes.now result self.new }
    {
        let mut put = 0;
        while put < bytes.len() {
            put += self.put_some(&bytes[put..])?;
        }
        Ok(())
    }

    /// Puts a few bytes for which the window has no room.
    #[cold]
    #[inline(never)]
    fn put_few(&mut self, bytes: &[u8]) -> Result<(), SinkFault>
        ensures { Writes (IsGiven W.calls) failures_of self.old bytes.now result self.new }
    {
        self.put_over(bytes)
    }

    /// Puts a byte where the window is full.
    #[cold]
    #[inline(never)]
    fn put_after_spill(&mut self, byte: u8) -> Result<(), SinkFault>
        ensures writes { Writes (IsGiven W.calls) failures_of self.old (byte ∷ []) result self.new }
        ensures settled { Answers self.old result self.new }
    {
        self.spill()?;
        self.window.push(byte);
        Ok(())
    }
}

impl<'a, W: Device> Sink for Outlet<'a, W> {
    ghost use Rattle.oas_bytes.specs.Laws.OutletLaws.{IsGiven-none};
    ghost use Rattle.oas_bytes.specs.Outlets.{IsGiven, Answers, failures_of};
    ghost use Rattle.oas_bytes.specs.Writing.{Writes};

    ghost given = { IsGiven W.calls };

    ghost failures = { failures_of };

    ghost none_given = { IsGiven-none W.calls };

    #[inline]
    fn put(&mut self, byte: u8) -> Result<(), SinkFault>
        ensures writes { Writes (IsGiven W.calls) failures_of self.old (byte ∷ []) result self.new }
        ensures settled { Answers self.old result self.new }
    {
        if self.window.is_full() {
            return self.put_after_spill(byte);
        }
        self.window.push(byte);
        Ok(())
    }

    #[inline(always)]
    fn put_two(&mut self, first: u8, second: u8) -> Result<(), SinkFault> {
        if self.window.has_room_for(2) {
            self.window.extend(&[first, second]);
            return Ok(());
        }
        self.put_few(&[first, second])
    }

    #[inline(always)]
    fn put_three(&mut self, first: u8, second: u8, third: u8) -> Result<(), SinkFault> {
        if self.window.has_room_for(3) {
            self.window.extend(&[first, second, third]);
            return Ok(());
        }
        self.put_few(&[first, second, third])
    }

    #[inline(always)]
    fn put_four(&mut self, first: u8, second: u8, third: u8, fourth: u8) -> Result<(), SinkFault> {
        if self.window.has_room_for(4) {
            self.window.extend(&[first, second, third, fourth]);
            return Ok(());
        }
        self.put_few(&[first, second, third, fourth])
    }

    /// Bytes for which the window has room are copied at once.
    #[inline]
    fn put_all(&mut self, bytes: &[u8]) -> Result<(), SinkFault> {
        if bytes.len() < self.window.room() {
            self.window.extend(bytes);
            return Ok(());
        }
        self.put_over(bytes)
    }
}

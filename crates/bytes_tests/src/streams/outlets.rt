//! Writers below an outlet that take a few bytes a call, or fail.
ghost use Rattle.std.specs.Prelude.{OnOk, IfErr};
ghost use Rattle.oas_bytes.specs.Devices.{TakesAll};
ghost use Rattle.oas_bytes.specs.Outlets.{ConsumesPrefix};

use oas_bytes::{Device, NotedWriter, Outlet, Sink, SinkFault};
use std::io;
use std::io::Write;

/// A writer that takes at most `most` bytes a call and `room` in all. After that it returns an error, or 0. `waiting` is how
/// many bytes it took since it was flushed.
#[derive(Drop)]
struct Narrow {
    took: Vec<u8>,
    waiting: usize,
    most: usize,
    room: usize,
    refuses: bool,
    flushes: bool,
    calls: u64,
}

impl Narrow {
    fn new(rt: &HostRuntime, most: usize, room: usize) -> Narrow {
        Narrow {
            took: Vec::new(rt.alloc()),
            waiting: 0,
            most,
            room,
            refuses: true,
            flushes: true,
            calls: 0,
        }
    }
}

impl Write for Narrow {
    fn write(&mut self, piece: &[u8]) -> io::Result<usize> {
        self.calls = self.calls.saturating_add(1);
        let count = self.most.min(self.room).min(piece.len());
        if count == 0 && self.refuses {
            return Err(io::Error::from(io::ErrorKind::Interrupted));
        }
        self.took.extend_from_slice(&piece[..count])?;
        self.room -= count;
        self.waiting = self.waiting.saturating_add(count);
        Ok(count)
    }

    fn flush(&mut self) -> io::Result<()> {
        self.calls = self.calls.saturating_add(1);
        if !self.flushes {
            return Err(io::Error::from(io::ErrorKind::Other));
        }
        self.waiting = 0;
        Ok(())
    }
}

/// The byte at a place of what is put.
fn byte_at(place: usize) -> u8 {
    (place % 251) as u8
}

/// Puts this many bytes, and returns how many were put before a fault.
fn put_bytes<K: Sink>(sink: &mut K, count: usize) -> usize {
    for place in 0..count {
        if sink.put(byte_at(place)).is_err() {
            return place;
        }
    }
    count
}

/// Whether these are the first bytes of what is put.
fn are_first(bytes: &[u8]) -> bool {
    for (place, byte) in bytes.iter().enumerate() {
        if *byte != byte_at(place) {
            return false;
        }
    }
    true
}

/// What results from 20000 bytes that are put, where the outlet is closed after them: how many were put, how many the outlet
/// says were taken, how many the writer took, how many of those it did not flush and how often it was called; whether the
/// outlet closed, and whether the bytes came in order.
fn ends_of(rt: &HostRuntime, most: usize) -> ([u64; 5], [bool; 2]) {
    let mut writer = Narrow::new(rt, most, usize::MAX);
    let mut noted = NotedWriter::new(&mut writer);
    let mut outlet = Outlet::new(&mut noted);
    let put = put_bytes(&mut outlet, 20000) as u64;
    let closes = outlet.close().is_ok();
    let taken = outlet.taken();
    let took = writer.took.len() as u64;
    let in_order = are_first(writer.took.as_slice());
    let waiting = writer.waiting as u64;
    (
        [put, taken, took, waiting, writer.calls],
        [closes, in_order],
    )
}

/// Bytes are buffered: a writer that takes all that it is given is called for three writes and a flush.
#[test]
fn a_writer_gets_all_in_order_however_it_takes_it(rt: HostRuntime) {
    for (most, calls) in [
        (1, 20001),
        (2, 10001),
        (3, 6669),
        (7, 2860),
        (8191, 6),
        (8192, 4),
        (usize::MAX, 4),
    ] {
        let ends = ([20000, 20000, 20000, 0, calls], [true, true]);
        let found = ends_of(&rt, most);
        assert!(rt; found == ends, "by {most}");
    }
}

/// Whether a byte, a piece and the end each fail.
fn refuses_each<W: Device>(outlet: &mut Outlet<W>, byte: u8) -> bool {
    let puts = outlet.put(byte).is_ok();
    let puts_all = outlet.put_all(&[byte]).is_ok();
    let closes = outlet.close().is_ok();
    [puts, puts_all, closes] == [false; 3]
}

/// How many of nine bytes fail; also a piece after each, and the end.
fn refusals_of<W: Device>(outlet: &mut Outlet<W>) -> u64 {
    let mut refusals = 0u64;
    for byte in 0..9u8 {
        if refuses_each(outlet, byte) {
            refusals = refusals.saturating_add(1);
        }
    }
    refusals
}

/// The results of an outlet over a writer with too little room: how many bytes it says were taken, how many the writer took,
/// and how many of nine later bytes fail; whether all was put and the outlet closed, and whether the bytes came in order.
fn ends_within(rt: &HostRuntime, room: usize, most: usize, refuses: bool) -> ([u64; 3], [bool; 2]) {
    let mut writer = Narrow::new(rt, most, room);
    writer.refuses = refuses;
    let mut noted = NotedWriter::new(&mut writer);
    let mut outlet = Outlet::new(&mut noted);
    let puts_all = put_bytes(&mut outlet, 20000) == 20000 && outlet.close().is_ok();
    let refusals = refusals_of(&mut outlet);
    let taken = outlet.taken();
    let took = writer.took.len() as u64;
    let in_order = are_first(writer.took.as_slice());
    ([taken, took, refusals], [puts_all, in_order])
}

#[test]
fn a_fault_ends_the_writing(rt: HostRuntime) {
    for room in [0, 1, 8191, 8192, 8193, 16383, 16384, 16385, 19999] {
        for most in [1, 7, 5000, usize::MAX] {
            for refuses in [true, false] {
                let ends = ([room as u64, room as u64, 9], [false, true]);
                let found = ends_within(&rt, room, most, refuses);
                assert!(rt; found == ends, "{room} bytes, by {most}");
            }
        }
    }
}

/// The results of an outlet over a writer that cannot flush: how many bytes are put, how many it says were taken before and
/// after it is closed, and how often the writer is called; what it returns for an end, a byte and an end.
fn ends_unflushed(rt: &HostRuntime) -> ([u64; 4], [Result<(), SinkFault>; 3]) {
    let mut writer = Narrow::new(rt, usize::MAX, usize::MAX);
    writer.flushes = false;
    let mut noted = NotedWriter::new(&mut writer);
    let mut outlet = Outlet::new(&mut noted);
    let put = put_bytes(&mut outlet, 100) as u64;
    let before = outlet.taken();
    let first = outlet.close();
    let after = outlet.taken();
    let answers = [first, outlet.put(1), outlet.close()];
    ([put, before, after, writer.calls], answers)
}

#[test]
fn a_failed_flush_is_a_fault(rt: HostRuntime) {
    let ends = ([100, 0, 100, 2], [Err(SinkFault::Device); 3]);
    let found = ends_unflushed(&rt);
    assert!(rt; found == ends, "one write and one flush");
}

/// What an outlet to which nothing is put returns for two ends, and how often its writer is called.
fn ends_empty(rt: &HostRuntime) -> ([Result<(), SinkFault>; 2], u64) {
    let mut writer = Narrow::new(rt, 1, 0);
    let mut noted = NotedWriter::new(&mut writer);
    let mut outlet = Outlet::new(&mut noted);
    let answers = [outlet.close(), outlet.close()];
    (answers, writer.calls)
}

#[test]
fn an_empty_outlet_flushes(rt: HostRuntime) {
    let found = ends_empty(&rt);
    assert!(rt; found == ([Ok(()); 2], 2), "two flushes");
}

/// A device over an outlet: what the caller's own device took, whether it succeeds or fails.
fn write_bytes<W: Device>(writer: &mut W, bytes: &[u8]) -> Result<u64, u64>
    ensures ok { OnOk result (TakesAll (W.calls writer.old) bytes.now (W.calls writer.new)) }
    ensures err { IfErr result (λ taken. ConsumesPrefix W.calls writer.old writer.new bytes.now taken) }
{
    let mut outlet = Outlet::new(writer);
    let Ok(()) = outlet.put_all(bytes) else {
        return Err(outlet.taken());
    };
    let Ok(()) = outlet.close() else {
        return Err(outlet.taken());
    };
    Ok(outlet.taken())
}

/// What a list that grows returns for two pieces, and whether it holds both.
fn appended(rt: &HostRuntime) -> ([Result<u64, u64>; 2], bool) {
    let mut bytes = Vec::new(rt.alloc());
    let answers = [
        write_bytes(&mut NotedWriter::new(&mut bytes), &[7, 8]),
        write_bytes(&mut NotedWriter::new(&mut bytes), &[9]),
    ];
    (answers, bytes.as_slice() == [7, 8, 9].as_slice())
}

/// What a writer with room for one byte returns for two, and whether it took only the first.
fn appended_within(rt: &HostRuntime) -> (Result<u64, u64>, bool) {
    let mut writer = Narrow::new(rt, 1, 1);
    let answer = write_bytes(&mut NotedWriter::new(&mut writer), &[7, 8]);
    (answer, writer.took.as_slice() == [7].as_slice())
}

#[test]
fn bytes_are_appended(rt: HostRuntime) {
    let answers = (appended(&rt), appended_within(&rt));
    assert!(rt; answers == (([Ok(2), Ok(1)], true), (Err(1), true)));
}

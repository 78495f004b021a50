//! What a meter shows, and that it changes nothing.

use oas_explain::files_progress::{Meter, Reading, STEP, Style, Writing};
use std::io;
use std::io::{ErrorKind, Read, Write};
use std::test::Fail;

/// Takes nothing: each write fails.
#[derive(Drop)]
struct Closed;

impl Write for Closed {
    fn write(&mut self, _buf: &[u8]) -> io::Result<usize> {
        Err(io::Error::from(ErrorKind::BrokenPipe))
    }

    fn flush(&mut self) -> io::Result<()> {
        Err(io::Error::from(ErrorKind::BrokenPipe))
    }
}

#[test]
fn lines_of_a_reader(rt: HostRuntime) {
    let mut shown: Vec<u8> = Vec::new(rt.alloc());
    let mut meter = Meter::of_read(&mut shown, Style::Lines, "in", Some(STEP * 2));
    meter.add(1);
    meter.add(STEP as usize);
    meter.end();
    meter.end();
    drop(meter);
    let lines =
        "in: 0 of 134217728 bytes read, 0 %\nin: 67108865 of 134217728 bytes read, 50 %\nin: 67108865 of 134217728 bytes read, 50 %, sorting\n";
    assert_eq!(rt; shown.as_slice(), lines.as_bytes());
}

#[test]
fn lines_of_a_reader_of_unknown_length(rt: HostRuntime) -> Result<(), Fail> {
    let mut shown: Vec<u8> = Vec::new(rt.alloc());
    let mut bytes = [0; 8];
    let meter = Meter::of_read(&mut shown, Style::Lines, "in", None);
    let mut reading = Reading::new(b"abc".as_slice(), Some(meter));
    assert!(rt; reading.read(&mut bytes)? == 3);
    assert!(rt; bytes.starts_with(b"abc"));
    assert!(rt; reading.read(&mut bytes)? == 0);
    assert!(rt; reading.read(&mut bytes)? == 0);
    drop(reading);
    let lines = "in: 0 bytes read\nin: 3 bytes read, sorting\n";
    assert_eq!(rt; shown.as_slice(), lines.as_bytes());
    Ok(())
}

#[test]
fn lines_of_a_writer(rt: HostRuntime) {
    let mut shown: Vec<u8> = Vec::new(rt.alloc());
    let mut meter = Meter::of_written(&mut shown, Style::Lines, "out");
    meter.add(STEP as usize - 1);
    meter.add(1);
    meter.add(1);
    drop(meter);
    assert_eq!(rt;
        shown.as_slice(),
        "out: 67108864 bytes written\n".as_bytes()
    );
}

#[test]
fn a_line_that_is_written_over(rt: HostRuntime) {
    let mut shown: Vec<u8> = Vec::new(rt.alloc());
    drop(Meter::of_read(&mut shown, Style::Over, "a-name-of-24-letters.oas", None));
    assert!(rt; shown.starts_with(b"\r..me-of-24-letters.oas: 0 bytes read "));
    assert!(rt; shown.len() == 80);
}

#[test]
fn a_writer_begins_on_a_free_line(rt: HostRuntime) -> Result<(), Fail> {
    let mut shown: Vec<u8> = Vec::new(rt.alloc());
    let mut out: Vec<u8> = Vec::new(rt.alloc());
    let mut writing = Writing::new(
        &mut out,
        Some(Meter::of_written(&mut shown, Style::Over, "out")),
    );
    writing.write_all(b"abc")?;
    writing.write_all(b"d")?;
    writing.flush()?;
    drop(writing);
    assert_eq!(rt; out.as_slice(), b"abcd".as_slice());
    assert!(rt; shown.starts_with(b"\r  "));
    assert!(rt; shown.ends_with(b"  \r"));
    assert!(rt; shown.len() == 81);
    Ok(())
}

#[test]
fn nothing_is_shown_without_a_meter(rt: HostRuntime) -> Result<(), Fail> {
    let mut out: Vec<u8> = Vec::new(rt.alloc());
    let mut writing: Writing<'_, &mut Vec<u8>, Closed> = Writing::new(&mut out, None);
    writing.write_all(b"abc")?;
    drop(writing);
    assert_eq!(rt; out.as_slice(), b"abc".as_slice());
    Ok(())
}

#[test]
fn a_closed_error_output_changes_nothing(rt: HostRuntime) -> Result<(), Fail> {
    let mut out: Vec<u8> = Vec::new(rt.alloc());
    let mut writing = Writing::new(
        &mut out,
        Some(Meter::of_written(Closed, Style::Lines, "out")),
    );
    let meter = Meter::of_read(Closed, Style::Lines, "in", Some(3));
    let mut reading = Reading::new(b"abc".as_slice(), Some(meter));
    let mut bytes = Vec::new(rt.alloc());
    assert!(rt; reading.read_to_end(&mut bytes)? == 3);
    writing.write_all(&bytes)?;
    drop(writing);
    assert_eq!(rt; out.as_slice(), b"abc".as_slice());
    Ok(())
}

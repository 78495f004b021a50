//! What a reader makes of records, with results from outside.

mod ends;
mod memory;
mod named;
mod named_table;
mod names;
mod rectangles;
mod table;

use self::table::ROWS;
use crate::parts::{discard, limits_of};
use itoa::Buffer;
use oas_elements::{Limits, Profile};
use oas_layout::{
    ByProfileOne, ByProfileTwo, CompactCell, Elements, KeptBy, Layout, Reader, finish_layout, show,
};
use oas_listing::{put_element, put_name, put_unit};
use oas_num::{
    Fraction, INPUT_MAX, NotedWriter, Outlet, Refusal, Sink, SinkFault, SliceSource, Source, Why,
};
use oas_record::{CellRef, Record};
use std::alloc::Global;
use std::process::Abort;
use test_tools::bytes_of;

/// A reader whose cells are kept by a profile.
type Keeping<P> = Reader<CompactCell<P>>;

/// A reader whose cells are kept by profile one.
type KeepingOne = Keeping<ByProfileOne>;

/// The unit of all tests.
fn unit() -> Result<Fraction, Why> {
    Fraction::reduced(1000, 1).ok_or(Why::Unit)
}

/// Whether the heap can be filled, and how often a call then fails before it succeeds; none where it never does.
type Refused = Result<(bool, Option<u32>), Why>;

/// Whether a call failed before it succeeded, if the heap could be filled.
fn is_met(refused: Refused) -> bool {
    match refused {
        Ok((is_full, Some(times))) => times > 0 || !is_full,
        _ => false,
    }
}

/// Gives the reader the records of these bytes.
fn take_all<P: KeptBy>(
    alloc: Global,
    bytes: &[u8],
    reader: &mut Keeping<P>,
) -> Result<(), Refusal> {
    let mut source = SliceSource::new(bytes, INPUT_MAX);
    for _ in 0..bytes.len() {
        let at = source.at();
        if at >= bytes.len() as u64 {
            break;
        }
        let record = Record::read(alloc, &mut source, false)?;
        reader.take(at, record)?;
    }
    Ok(())
}

/// Finishes the reader there, unless it was refused before.
fn finish<P: KeptBy>(
    alloc: Global,
    reader: Keeping<P>,
    taken: Result<(), Refusal>,
    end: u64,
) -> Result<Layout, Refusal> {
    match taken {
        Ok(()) => finish_layout(alloc, reader, end),
        Err(refusal) => {
            discard(reader);
            Err(refusal)
        }
    }
}

/// Gives the reader the records of these bytes, and finishes it where they end.
fn read<P: KeptBy>(alloc: Global, bytes: &[u8], mut reader: Keeping<P>) -> Result<Layout, Refusal> {
    let taken = take_all(alloc, bytes, &mut reader);
    finish(alloc, reader, taken, bytes.len() as u64)
}

/// Puts the lines of elements, each after its count.
fn put_counted<K: Sink>(sink: &mut K, elements: Elements<'_>) -> Result<(), SinkFault> {
    for (element, count) in elements {
        sink.put_all(Buffer::new().format(count).as_bytes())?;
        sink.put(b' ')?;
        put_element(sink, show(&element))?;
    }
    Ok(())
}

/// Puts the listing of a layout, except that each distinct element comes once.
fn put_layout<K: Sink>(sink: &mut K, layout: &Layout) -> Result<(), SinkFault> {
    put_unit(sink, layout.unit())?;
    for (name, elements) in layout.cells() {
        put_name(sink, name.as_bytes())?;
        put_counted(sink, elements)?;
    }
    Ok(())
}

/// Writes it after the bytes that are there.
fn write_layout(bytes: &mut Vec<u8>, layout: &Layout) -> Result<(), SinkFault> {
    let mut writer = NotedWriter::new(bytes);
    let mut out = Outlet::new(&mut writer);
    let put = put_layout(&mut out, layout);
    out.close()?;
    put
}

/// The listing of a layout, except that each distinct element comes once, after its count, and each line ends with `;`.
fn lines_of(alloc: Global, layout: &Layout) -> Option<String> {
    let mut bytes: Vec<u8> = Vec::new(alloc);
    write_layout(&mut bytes, layout).ok()?;
    str::from_utf8(&bytes).ok()?.replace(alloc, "\n", ";").ok()
}

/// NUMBER@OFFSET of a refusal.
fn refused_as(alloc: Global, Refusal { at, why }: Refusal) -> Option<String> {
    let number = why.number();
    format!(in alloc; "{number}@{at}").ok()
}

/// The lines of a layout, or NUMBER@OFFSET of a refusal.
fn listed(alloc: Global, answer: Result<Layout, Refusal>) -> Option<String> {
    match answer {
        Ok(layout) => {
            let lines = lines_of(alloc, &layout);
            discard(layout);
            lines
        }
        Err(refusal) => refused_as(alloc, refusal),
    }
}

/// The result for records in hex, with a reader for these limits, kept by a profile.
fn answer_by<P: KeptBy>(alloc: Global, text: &str, limits: Result<Limits, Why>) -> Option<String> {
    let (unit, limits) = (unit().ok()?, limits.ok()?);
    let bytes = bytes_of(alloc, text).ok()?;
    let reader: Keeping<P> = Reader::new(alloc, unit, limits, P::profile());
    listed(alloc, read(alloc, &bytes, reader))
}

/// The same for the profile as a value.
fn answer(
    alloc: Global,
    text: &str,
    limits: Result<Limits, Why>,
    profile: Profile,
) -> Option<String> {
    match profile {
        Profile::One => answer_by::<ByProfileOne>(alloc, text, limits),
        Profile::Two => answer_by::<ByProfileTwo>(alloc, text, limits),
    }
}

/// The three parts of a row; missing ones are empty, which is no result.
fn parts(row: &str) -> [&str; 3] {
    let (first, rest) = row.split_once(" | ").unwrap_or((row, ""));
    let (second, third) = rest.split_once(" | ").unwrap_or((rest, ""));
    [first, second, third]
}

/// Asserts that this is found.
fn expect(rt: &impl Abort, at: &str, found: Option<String>, wanted: &str) {
    match found {
        Some(lines) => assert!(rt; lines.as_str() == wanted, "at {at}: {lines}"),
        None => panic!(rt; "at {at}: no answer"),
    }
}

/// Whether the reader refuses a PAD with what it refused before.
fn refuses_on(reader: &mut KeepingOne, at: u64, refusal: Refusal) -> bool {
    reader.take(at, Record::Pad) == Err(refusal)
}

/// What the reader returns for a cell, for END in it, and for two more records.
fn take_behind_end(reader: &mut KeepingOne) -> [Result<(), Refusal>; 4] {
    [
        reader.take(3, Record::Cell(CellRef::Number(7))),
        reader.take(5, Record::End),
        reader.take(11, Record::Pad),
        reader.take(12, Record::XyRelative),
    ]
}

/// The same for a new reader, and what it refuses at its end.
fn answers_behind_end(alloc: Global) -> Result<([Result<(), Refusal>; 4], Option<Refusal>), Why> {
    let mut reader: KeepingOne = Reader::new(alloc, unit()?, Limits::standard(), Profile::One);
    let taken = take_behind_end(&mut reader);
    Ok((taken, finish_layout(alloc, reader, 13).err()))
}

#[test]
fn refused_again(rt: HostRuntime) {
    let why = Why::OutOfPlace(2);
    let refusal = Refusal { at: 5, why };
    let refused = Err(refusal);
    assert!(rt;
        (why.number(), answers_behind_end(rt.alloc()))
            == (13, Ok(([Ok(()), refused, refused, refused], Some(refusal))))
    );
}

/// Limits and a profile, records in hex, and the result: a cell with four equal rectangles, one whose number is named after
/// it, and a ring round a rectangle.
const WITHIN: &[([u64; 3], Profile, &str, &str)] = &[
    (
        [3, 100, 6720],
        Profile::One,
        "0E0141 147F01000A1400000100000000",
        "24@3",
    ),
    (
        [100, 6, 1000],
        Profile::One,
        "0E0141 147F01000A1400000100000000",
        "unit 1000/1;cell A;4 rectangle 1 0 10 20 0 0;",
    ),
    (
        [100, 5, 1000],
        Profile::One,
        "0E0141 147F01000A1400000100000000",
        "25@3",
    ),
    (
        [100, 5, 1000],
        Profile::One,
        "0D00 147F01000A1400000100000000 030141",
        "25@18",
    ),
    (
        [16777216, 268435456, 68719476736],
        Profile::Two,
        "0E0141 153B0100000214280000",
        "unit 1000/1;cell A;1 rectangle 1 0 10 20 0 0;",
    ),
];

#[test]
fn limits_and_profiles(rt: HostRuntime) {
    for &([elements, weight, input], profile, bytes, wanted) in WITHIN {
        let limits = limits_of(elements, weight, input);
        expect(
            &rt,
            bytes,
            answer(rt.alloc(), bytes, limits, profile),
            wanted,
        );
    }
}

#[test]
fn each_row(rt: HostRuntime) {
    for row in ROWS.lines() {
        let [name, bytes, wanted] = parts(row);
        let found = answer(rt.alloc(), bytes, Ok(Limits::standard()), Profile::One);
        expect(&rt, name, found, wanted);
    }
}

//! A placement or a text without a repetition, taken at hand and as a record: the result is the same.

use super::named_table::{LISTED, RECORDS, RENAMED, RENAMED_LISTED};
use super::{KeepingOne, Refused, expect, is_met, listed, unit};
use crate::parts::{discard, limits_of};
use oas_elements::{Limits, Profile};
use oas_layout::{CellStore, CountedCell, Reader, finish_layout};
use oas_num::{Fraction, Refusal, SliceSource, Why};
use oas_peek::peek_named;
use oas_record::{CellRef, Record};
use std::alloc::{AllocError, Global};
use std::process::Abort;
use test_tools::Hoard;

/// Returned where bytes are no element at hand: no reader returns this refusal.
const NOT_AT_HAND: Refusal = Refusal {
    at: u64::MAX,
    why: Why::Memory,
};

/// Gives the reader a placement or a text at hand.
fn take_at_hand<S: CellStore>(
    reader: &mut Reader<S>,
    at: u64,
    bytes: &[u8],
) -> Result<(), Refusal> {
    match peek_named(bytes) {
        Some(found) => reader.take_named(at, &found.element),
        None => Err(NOT_AT_HAND),
    }
}

/// Gives the reader a record, where possible as a placement or a text at hand.
fn take_one<S: CellStore>(
    alloc: Global,
    reader: &mut Reader<S>,
    at: u64,
    bytes: &[u8],
    by_hand: bool,
) -> Result<(), Refusal> {
    if by_hand && (bytes.starts_with(b"\x11") || bytes.starts_with(b"\x13")) {
        return take_at_hand(reader, at, bytes);
    }
    let record = Record::read(alloc, &mut SliceSource::new(bytes, 100), false)?;
    reader.take(at, record)
}

/// Gives the reader these records, up to the first that it refuses.
fn take_records<S: CellStore>(
    alloc: Global,
    reader: &mut Reader<S>,
    records: &[&[u8]; 14],
    by_hand: bool,
) {
    for number in 0..records.len() {
        let taken = take_one(alloc, reader, number as u64, records[number], by_hand);
        if taken.is_err() {
            return;
        }
    }
}

/// A reader that took all of these records within these limits, or refused one.
fn taken<S: CellStore>(
    alloc: Global,
    unit: Fraction,
    limits: Limits,
    records: &[&[u8]; 14],
    by_hand: bool,
) -> Reader<S> {
    let mut reader = Reader::new(alloc, unit, limits, Profile::One);
    take_records(alloc, &mut reader, records, by_hand);
    reader
}

/// The result for the records, at hand or by records.
fn answer(alloc: Global, records: &[&[u8]; 14], by_hand: bool) -> Option<String> {
    let unit = unit().ok()?;
    let reader: KeepingOne = taken(alloc, unit, Limits::standard(), records, by_hand);
    listed(alloc, finish_layout(alloc, reader, 14))
}

#[test]
fn named_alike(rt: HostRuntime) {
    for by_hand in [true, false] {
        expect(&rt, LISTED, answer(rt.alloc(), &RECORDS, by_hand), LISTED);
    }
}

#[test]
fn renamed_alike(rt: HostRuntime) {
    for by_hand in [true, false] {
        let found = answer(rt.alloc(), &RENAMED, by_hand);
        expect(&rt, RENAMED_LISTED, found, RENAMED_LISTED);
    }
}

/// What refuses the records within these limits, if anything does, by kept cells.
fn refused_kept(alloc: Global, unit: Fraction, limits: Limits, by_hand: bool) -> Option<Refusal> {
    let reader: KeepingOne = taken(alloc, unit, limits, &RECORDS, by_hand);
    finish_layout(alloc, reader, 14).err()
}

/// The same by counted cells.
fn refused_counted(
    alloc: Global,
    unit: Fraction,
    limits: Limits,
    by_hand: bool,
) -> Option<Refusal> {
    let reader: Reader<CountedCell> = taken(alloc, unit, limits, &RECORDS, by_hand);
    reader.finish_counting(14).err()
}

/// What is refused within these limits, by kept and by counted cells, at hand and by records.
fn refusals(alloc: Global, elements: u64, weight: u64) -> Result<[Option<Refusal>; 4], Why> {
    let unit = unit()?;
    let limits = limits_of(elements, weight, 2000)?;
    Ok([
        refused_kept(alloc, unit, limits, true),
        refused_kept(alloc, unit, limits, false),
        refused_counted(alloc, unit, limits, true),
        refused_counted(alloc, unit, limits, false),
    ])
}

/// A refusal there, for this reason.
fn refused(at: u64, why: Why) -> Option<Refusal> {
    Some(Refusal { at, why })
}

/// The ten elements weigh 22 with the name of the cell: one each, and one for each byte of a name. Three of their names and
/// one of their strings are known only at the end; all others weigh 18.
#[test]
fn named_within_limits(rt: HostRuntime) {
    for (elements, weight, wanted) in [
        (10, 22, None),
        (9, 22, refused(11, Why::TooManyElements)),
        (10, 21, refused(14, Why::TooHeavy)),
        (10, 17, refused(11, Why::TooHeavy)),
    ] {
        assert!(rt;
            refusals(rt.alloc(), elements, weight) == Ok([wanted; 4]),
            "{elements} {weight}"
        );
    }
}

/// What the reader returns for a placement or a text at hand, in a cell if it's inside, and for a record after it.
fn take_behind(reader: &mut KeepingOne, inside: bool, bytes: &[u8]) -> [Result<(), Refusal>; 2] {
    if inside && reader.take(3, Record::Cell(CellRef::Number(7))).is_err() {
        return [Ok(()); 2];
    }
    [take_at_hand(reader, 5, bytes), reader.take(9, Record::Pad)]
}

/// The same for a new reader.
fn answers_behind(
    alloc: Global,
    inside: bool,
    bytes: &[u8],
) -> Result<[Result<(), Refusal>; 2], Why> {
    let mut reader: KeepingOne = Reader::new(alloc, unit()?, Limits::standard(), Profile::One);
    let answers = take_behind(&mut reader, inside, bytes);
    discard(reader);
    Ok(answers)
}

/// Each is refused outside a cell, and where no record gave what it leaves out.
#[test]
fn named_refused_again(rt: HostRuntime) {
    let (place, text): (&[u8], &[u8]) = (b"\x11\x00", b"\x13\x62\x01\x02");
    for (inside, bytes, why) in [
        (false, place, Why::OutOfPlace(17)),
        (false, text, Why::OutOfPlace(19)),
        (true, place, Why::ModalUndefined),
        (true, text, Why::ModalUndefined),
    ] {
        let refused = Err(Refusal { at: 5, why });
        assert!(rt; answers_behind(rt.alloc(), inside, bytes) == Ok([refused; 2]));
    }
}

/// A placement of a cell by its name.
const PLACED: &[u8] = b"\x11\xB0\x03BCD\x00\x00";

/// Why the reader refuses a placement at hand, in a cell, if it does.
fn place(reader: &mut KeepingOne) -> Option<Refusal> {
    match reader.take(3, Record::Cell(CellRef::Number(7))) {
        Ok(()) => take_at_hand(reader, 5, PLACED).err(),
        Err(refusal) => Some(refusal),
    }
}

/// Why a new reader refuses it within these limits.
fn placed_within(alloc: Global, unit: Fraction, limits: Limits) -> Option<Refusal> {
    let mut reader: KeepingOne = Reader::new(alloc, unit, limits, Profile::One);
    let refused = place(&mut reader);
    discard(reader);
    refused
}

/// Gives readers a placement until one takes it, and gives back a piece of memory after each that doesn't. How many didn't;
/// none where no reader does, or where one refuses it for another reason than out of memory. Those that refuse it for its
/// weight do so for that alone.
fn insist_on_placing(
    alloc: Global,
    unit: Fraction,
    light: Limits,
    hoard: &mut Hoard,
) -> Option<u32> {
    for without in 0..2000u32 {
        if placed_within(alloc, unit, light) != refused(5, Why::TooHeavy) {
            return None;
        }
        let found = placed_within(alloc, unit, Limits::standard());
        if found.is_none() {
            return Some(without);
        }
        if found != refused(5, Why::Memory) {
            return None;
        }
        hoard.give_back();
    }
    None
}

/// Whether the heap can be filled, and how often the placement then fails.
fn placing_refused(alloc: Global) -> Refused {
    let unit = unit()?;
    let light = limits_of(10, 3, 2000)?;
    match Hoard::new(alloc) {
        Ok(mut hoard) => {
            let refused = insist_on_placing(alloc, unit, light, &mut hoard);
            Ok((hoard.is_full(), refused))
        }
        Err(AllocError) => Err(Why::Memory),
    }
}

/// A placement weighs one, and one for each byte of its name. The heap is filled up, and given back a small piece after each
/// run. Where it cannot be filled, as under an address checker, no call runs out of memory.
#[test]
fn named_without_memory(rt: HostRuntime) {
    let refused = placing_refused(rt.alloc());
    assert!(rt; is_met(refused), "{refused:?}");
}

/// Gives a reader placements of names that aren't longer than the modal one.
fn take_shorter(reader: &mut Reader<CountedCell>) -> Result<(), Refusal> {
    take_at_hand(reader, 13, b"\x11\xB0\x03BCE\x02\x00")?;
    take_at_hand(reader, 21, b"\x11\xB0\x01B\x02\x00")?;
    take_at_hand(reader, 27, b"\x11\x30\x04\x00")
}

/// Gives them to a reader where there is no memory.
fn take_shorter_in_want(alloc: Global, reader: &mut Reader<CountedCell>) -> Result<(), Refusal> {
    match Hoard::new(alloc) {
        Ok(hoard) => {
            let taken = take_shorter(reader);
            drop(hoard);
            taken
        }
        Err(AllocError) => Err(NOT_AT_HAND),
    }
}

/// What a reader returns for a cell, for a placement in it, and for those of shorter names where there is no memory.
fn answers_in_want(alloc: Global) -> Result<[Result<(), Refusal>; 3], Why> {
    let mut reader: Reader<CountedCell> = Reader::new(
        alloc,
        unit()?,
        Limits::standard(),
        Profile::One,
    );
    let answers = [
        reader.take(3, Record::Cell(CellRef::Number(7))),
        take_at_hand(&mut reader, 5, PLACED),
        take_shorter_in_want(alloc, &mut reader),
    ];
    discard(reader);
    Ok(answers)
}

/// Such a name goes into the memory of the modal one: a cell that is counted needs none for it.
#[test]
fn shorter_without_memory(rt: HostRuntime) {
    assert!(rt; answers_in_want(rt.alloc()) == Ok([Ok(()); 3]));
}

//! Records that are read where memory is there, and the values of reals that are known from outside.

use oas_num::{INPUT_MAX, Padding, SliceSource, Source, Spelled, Why};
use oas_standard::{
    BlockHead, ExtensionGeometry, LayerName, NamedTrapezoid, Property, Trapezoid, WideEnd,
    WidePlacement, WideReal, WideRecord, WideRefusal, WideStart, read_attributed, read_string,
};
use std::alloc::Global;
use std::test::Fail;
use test_tools::bytes_of;

/// The real in a text.
fn real_of(alloc: Global, text: &str) -> Result<Result<WideReal, Why>, Fail> {
    let bytes = bytes_of(alloc, text)?;
    let mut source = SliceSource::new(&bytes, INPUT_MAX);
    Ok(WideReal::read(alloc, &mut source))
}

/// A real, as `num den doubled halved` after its sign, or the number of the refusal.
fn real_line(alloc: Global, text: &str) -> Result<String, Fail> {
    match real_of(alloc, text)? {
        Ok(real) => {
            let sign = if real.negative { "-" } else { "+" };
            let (num, den) = (real.num, real.den);
            Ok(format!(in alloc; "{sign} {num} {den} {} {}", real.doubled, real.halved)?)
        }
        Err(why) => Ok(format!(in alloc; "refused {}", why.number())?),
    }
}

/// Reals of the eight types, and what they are.
const REALS: &str = "\
00 e807:+ 1000 1 0 0\n\
01 05:- 5 1 0 0\n\
02 04:+ 1 4 0 0\n\
03 04:- 1 4 0 0\n\
04 03 04:+ 3 4 0 0\n\
05 03 04:- 3 4 0 0\n\
84 80*10 00 83 80*10 00 04:+ 3 4 0 0\n\
06 0000803f:+ 8388608 1 0 23\n\
86 80*10 00 0000803f:+ 8388608 1 0 23\n\
06 000080bf:- 8388608 1 0 23\n\
06 01000000:+ 1 1 0 149\n\
06 ffff7f7f:+ 16777215 1 104 0\n\
06 00000080:- 0 1 0 149\n\
06 0000807f:refused 6\n\
06 000080ff:refused 6\n\
06 0100c07f:refused 6\n\
06 0000:refused 2\n\
07 000000000000f03f:+ 4503599627370496 1 0 52\n\
07 7b14ae47e17a843f:+ 5764607523034235 1 0 59\n\
07 0100000000000000:+ 1 1 0 1074\n\
07 ffffffffffffef7f:+ 9007199254740991 1 971 0\n\
07 000000000000f07f:refused 6\n\
07 000000000000f8ff:refused 6\n\
08:refused 7\n\
00 80808080808080808002:refused 3";

#[test]
fn reals(rt: HostRuntime) -> Result<(), Fail> {
    for row in REALS.lines() {
        let (text, wanted) = row.split_once(':').unwrap_or((row, ""));
        let line = real_line(rt.alloc(), text)?;
        assert_eq!(rt; line.as_str(), wanted, "{row}");
    }
    Ok(())
}

/// 0, or the number of the refusal.
fn number<T: Drop>(answer: Result<T, Why>) -> u8 {
    answer.err().map_or(0, |why| why.number())
}

/// 0, or the number of the refusal of a record.
fn wide_number(answer: Result<WideRecord, WideRefusal>) -> u8 {
    answer.err().map_or(0, |refusal| refusal.why.number())
}

/// How a read of that kind ends, and after how many bytes.
fn outcome(alloc: Global, kind: &str, bytes: &[u8]) -> (u8, u64) {
    let mut source = SliceSource::new(bytes, INPUT_MAX);
    let found = match kind {
        "record" => wide_number(WideRecord::read(alloc, &mut source, false)),
        "xgeometry" => number(ExtensionGeometry::read(alloc, &mut source)),
        "trapezoid" => number(Trapezoid::read(alloc, true, true, &mut source)),
        "trapezoid-24" => number(Trapezoid::read(alloc, true, false, &mut source)),
        "trapezoid-25" => number(Trapezoid::read(alloc, false, true, &mut source)),
        "placement" => number(WidePlacement::read(alloc, &mut source)),
        "ctrapezoid" => number(NamedTrapezoid::read(alloc, &mut source)),
        _ => outcome_outside(alloc, kind, &mut source),
    };
    (found, source.at())
}

/// How a read of what gives no element ends.
fn outcome_outside(alloc: Global, kind: &str, source: &mut SliceSource<'_>) -> u8 {
    match kind {
        "start" => number(WideStart::read(alloc, source)),
        "end" => number(WideEnd::read(false, source)),
        "end-with-offsets" => number(WideEnd::read(true, source)),
        "propname" => number(read_string(alloc, false, source)),
        "propname-8" => number(read_string(alloc, true, source)),
        "property" => number(Property::read(alloc, source)),
        "layername" => number(LayerName::read(alloc, source)),
        "xname" => number(read_attributed(alloc, false, source)),
        "xname-31" => number(read_attributed(alloc, true, source)),
        "cblock" => number(BlockHead::read(source)),
        _ => 255,
    }
}

/// A kind, how its read ends, after how many bytes, and the bytes; one more follows what is read whole.
const ROWS: &str = "\
start 0 21 0103312e3000e80700 00*12 ff\n\
start 0 15 0103312e30 07 000000000000f03f 01 ff\n\
start 8 14 0103312e30 07 000000000000f0bf 00\n\
start 8 14 0103312e30 07 0000000000000000 00\n\
start 6 14 0103312e30 07 000000000000f07f 00\n\
start 8 7 0103312e30 0105\n\
start 9 5 0103312e31 00e807\n\
start 10 9 0103312e30 00e807 02\n\
start 13 1 02\n\
start 0 62 81 80*10 00 83 80*10 00 312e30 80*10 00 e887 80*9 00 81 80*10 00 ff\n\
start 0 141 0103312e3000e80700 8080808080808080808000*12 ff\n\
start 9 16 01 83 80*10 00 312e31\n\
start 9 15 01 82 80*10 00 312e\n\
start 4 15 01 83 80*10 00 3109\n\
start 3 11 81 80*9 01\n\
start 13 12 82 80*10 00\n\
end 0 255 fc01 00*252 00 ff\n\
end 0 255 f801 00*248 01 78563412 ff\n\
end 0 255 80*253 00 00 ff\n\
end 0 255 8a 80*242 00 00*10 00 ff\n\
end 3 10 80*9 02 00\n\
end 3 12 80*11 01 00\n\
end 2 300 80*300\n\
end 0 255 f801 00*248 02 78563412 ff\n\
end 0 255 f201 00*242 80*10 00 ff\n\
end 29 251 f801 00*248 03 78563412\n\
end 2 253 f801 00*248 01 7856\n\
end-with-offsets 0 19 00*12 0161 01 78563412 ff\n\
end-with-offsets 0 35 80*10 00 00*11 0161 80*10 00 ff\n\
end-with-offsets 2 5 00*5\n\
propname 0 4 03 4120 00 ff\n\
propname 2 2 0341\n\
propname-8 0 3 0141 05 ff\n\
property 0 1 08 ff\n\
property 0 2 06 05 00\n\
property 0 5 14 0141 08 07\n\
property 0 9 f4 0141 02 0807 0a0141 ff\n\
property 0 49 f0 10 0001 0101 0201 0301 040101 050101 06 00*4 07 00*8 0801 0901 0a0141 0b0141 0c0141 0d01 0e01 0f01 ff\n\
property 0 16 14 0141 00 85 80*10 00 ff\n\
property 14 1 18\n\
property 7 4 14 0141 10\n\
property 0 1 00 ff\n\
layername 0 4 0141 00 00 ff\n\
layername 0 7 0141 0105 0409 0c ff\n\
layername 0 6 0141 0205 0305 ff\n\
layername 14 3 0141 05\n\
xname 0 3 07 0141 ff\n\
xname-31 0 4 07 0141 09 ff\n\
xname 0 14 87 80*10 00 0141 ff\n\
xname 3 11 87 80*9 01\n\
xgeometry 0 8 1b 07 01 02 0141 0204 ff\n\
xgeometry 0 4 00 07 0141 ff\n\
xgeometry 0 15 00 87 80*10 00 0141 ff\n\
xgeometry 14 1 20\n\
cblock 0 4 00 8002 03 ff\n\
cblock 0 23 80*10 00 82 80*9 00 03 ff\n\
cblock 2 2 00 80\n\
trapezoid 0 9 7b 01 02 64 32 0a 05 02 04 ff\n\
trapezoid 0 3 80 0a 05 ff\n\
trapezoid-24 0 2 00 0a ff\n\
trapezoid-25 0 2 00 0a ff\n\
trapezoid 2 2 00 0a\n\
placement 0 18 f6 05 06 0000803f 07 0000000000805640 02 04 ff\n\
placement 0 24 04 80*10 00 81 80*10 00 ff\n\
placement 0 1 01 ff\n\
placement 6 6 04 06 0000807f\n\
placement 7 2 02 08\n\
placement 2 4 02 06 0000\n\
ctrapezoid 0 8 fb 01 02 19 64 32 02 04 ff\n\
ctrapezoid 0 1 00 ff\n\
ctrapezoid 14 2 80 1a\n\
record 0 1 00 ff\n\
record 0 6 14 63 01 02 64 32 ff\n\
record 0 256 02 fc01 00*252 00 ff\n\
record 0 256 02 80*253 00 00 ff\n\
record 0 256 02 f801 00*248 02 78563412 ff\n\
record 28 255 02 fb01 00*251 00\n\
record 0 4 08 0141 05 ff\n\
record 0 4 8700 0141 ff\n\
record 0 16 94 80*9 00 63 01 02 64 32 ff\n\
record 3 11 94 80*9 01\n\
record 0 23 14 63 81 80*10 00 02 e4 80*5 00 32 ff\n\
record 0 15 0e 81 80*11 00 41 ff\n\
record 3 13 14 7b 80*9 80 01\n\
record 0 2 14 80*10 80 01\n\
record 2 300 14 7b 80*298\n\
record 112 4 0c 0141 05\n\
record 0 4 12 04 00 01 ff\n\
record 0 15 12 86 0141 01 00 07 0000000000805640 ff\n\
record 7 3 12 02 09\n\
record 0 10 17 7b 01 02 64 32 0a 05 02 04 ff\n\
record 110 3 1a 80 1a\n\
record 111 5 1c 14 0141 10\n\
record 14 2 1c 18\n\
record 0 1 1d ff\n\
record 0 4 20 07 0141 ff\n\
record 0 5 22 00 8002 03 ff\n\
record 13 1 01\n\
record 12 1 23\n\
record 2 0";

/// The parts of a row. A number that is none is one that no read returns.
fn parts_of(row: &str) -> (&str, u8, u64, &str) {
    let mut words = row.splitn(4, ' ');
    let kind = words.next().unwrap_or("");
    let wanted = words.next().unwrap_or("").parse::<u8>().unwrap_or(99);
    let taken = words.next().unwrap_or("").parse::<u64>().unwrap_or(9999);
    (kind, wanted, taken, words.next().unwrap_or(""))
}

#[test]
fn records(rt: HostRuntime) -> Result<(), Fail> {
    for row in ROWS.lines() {
        let (kind, wanted, taken, text) = parts_of(row);
        let bytes = bytes_of(rt.alloc(), text)?;
        let found = outcome(rt.alloc(), kind, &bytes);
        assert!(rt; found == (wanted, taken), "{row}");
    }
    Ok(())
}

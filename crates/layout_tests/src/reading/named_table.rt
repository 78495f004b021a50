//! The records of the tests of placements and texts, and their results.

/// Records: a cell, placements and texts, which are also taken at hand, one after which positions are relative, and the names
/// of two numbers.
pub const RECORDS: [&[u8]; 14] = [
    b"\x0E\x01A",
    b"\x11\xB0\x01B\x00\x00",
    b"\x13\x5B\x01S\x01\x02\x00\x00",
    b"\x11\xB3\x01B\x0A\x07",
    b"\x11\x10\x08",
    b"\x11\xE6\x07\x00",
    b"\x11\x04",
    b"\x10",
    b"\x13\x5B\x01S\x01\x02\x02\x02",
    b"\x13\x02\x05",
    b"\x13\x69\x03\x09\x04",
    b"\x11\x20\x03",
    b"\x04\x01C\x07",
    b"\x06\x01T\x03",
];

/// Their result.
pub const LISTED: &str =
    "unit 1000/1;cell A;1 placement B 0 0 0 0;1 placement B 5 -3 1 1;1 placement B 5 4 0 0;\
1 placement C -1 4 0 0;1 placement C 0 4 2 0;1 placement C 0 4 3 0;1 text 1 2 0 0 S;1 text 1 2 1 1 S;1 text 1 5 1 1 S;\
1 text 9 5 1 3 T;";

/// Records whose names aren't the modal ones: where there is none, shorter and longer ones, a number, and one after a number.
pub const RENAMED: [&[u8]; 14] = [
    b"\x0E\x01A",
    b"\x11\xB0\x03BCD\x00\x00",
    b"\x11\xB0\x01B\x02\x00",
    b"\x11\xB0\x05BCDEF\x04\x00",
    b"\x11\xF0\x07\x06\x00",
    b"\x11\xB0\x02BC\x08\x00",
    b"\x13\x5B\x02ST\x01\x02\x00\x00",
    b"\x13\x58\x00\x02\x00",
    b"\x13\x58\x05STUVW\x04\x00",
    b"\x13\x78\x03\x06\x00",
    b"\x13\x58\x01S\x08\x00",
    b"\x11\x30\x0A\x00",
    b"\x04\x01C\x07",
    b"\x06\x01T\x03",
];

/// Their result.
pub const RENAMED_LISTED: &str =
    "unit 1000/1;cell A;1 placement B 1 0 0 0;1 placement BC 4 0 0 0;1 placement BC 5 0 0 0;\
1 placement BCD 0 0 0 0;1 placement BCDEF 2 0 0 0;1 placement C 3 0 0 0;1 text 1 2 1 0 ;1 text 1 2 4 0 S;\
1 text 1 2 0 0 ST;1 text 1 2 2 0 STUVW;1 text 1 2 3 0 T;";

//! Blocks that stop a file. The streams that aren't stored bytes were made by zlib 1.2.13.

use oas_num::Why;
use oas_preparing::{Place, WideWhy};

/// A block and what follows it, after the head of a file and a cell (37 bytes), and where and why that file, which continues
/// with END, stops.
pub(crate) const REFUSED: &[(&str, Place, WideWhy)] = &[
    // kind 1
    ("220100020300", Place::File(37), WideWhy::CblockType),
    // no stream begins like this
    ("220000020700", Place::File(37), WideWhy::Deflate),
    // no bytes at all
    ("22000000", Place::File(37), WideWhy::Deflate),
    // 17 bytes of data, where 8 are stated
    (
        "2200081113a96664e012616010a96602d227181900",
        Place::File(37),
        WideWhy::CblockLength,
    ),
    // where 18 are: at the last record that begins in the data
    (
        "2200121113a96664e012616010a96602d227181900",
        Place::Block {
            block: 37,
            within: 8,
        },
        WideWhy::CblockLength,
    ),
    // three bytes are left over
    (
        "2200111413a96664e012616010a96602d227181900000000",
        Place::Block {
            block: 37,
            within: 8,
        },
        WideWhy::CblockLength,
    ),
    // only PADs, where one more byte is stated: at the first of them
    (
        "22000408010300fcff000000",
        Place::Block {
            block: 37,
            within: 0,
        },
        WideWhy::CblockLength,
    ),
    // PADs after others and a record: at the first of the last of them
    (
        "2200191d011800e7ff147b01000a1400000000000000147b01000a140000000000",
        Place::Block {
            block: 37,
            within: 21,
        },
        WideWhy::CblockLength,
    ),
    // a PAD after a record that ends in a byte 0
    (
        "22000a0e010900f6ff147b01000a14000000",
        Place::Block {
            block: 37,
            within: 8,
        },
        WideWhy::CblockLength,
    ),
    // a PAD of two bytes between two of one: at the one after it
    (
        "22000509010400fbff00800000",
        Place::Block {
            block: 37,
            within: 3,
        },
        WideWhy::CblockLength,
    ),
    // a PAD of two bytes after one of one: at that
    (
        "22000408010300fcff008000",
        Place::Block {
            block: 37,
            within: 1,
        },
        WideWhy::CblockLength,
    ),
    // a second stream after the first
    (
        "2200111413a96664e0126160000013a96664e01261600000",
        Place::Block {
            block: 37,
            within: 0,
        },
        WideWhy::CblockLength,
    ),
    // the stream is cut, in a record
    (
        "2200110e13a96664e012616010a96602d227",
        Place::Block {
            block: 37,
            within: 8,
        },
        WideWhy::Deflate,
    ),
    // and after one, where no part of it is the last
    (
        "22001116001100eeff147b01000a140000147b02000a14c80100",
        Place::Block {
            block: 37,
            within: 8,
        },
        WideWhy::Deflate,
    ),
    // a record across the end
    (
        "22000d12010d00f2ff147b01000a140000147b02000a14c80100",
        Place::Block {
            block: 37,
            within: 8,
        },
        WideWhy::CblockBorder,
    ),
    // an integer across it
    (
        "22000207010200fdff008000",
        Place::Block {
            block: 37,
            within: 1,
        },
        WideWhy::CblockBorder,
    ),
    // a block
    (
        "22000e13010e00f1ff147b01000a140000220000020300",
        Place::Block {
            block: 37,
            within: 8,
        },
        WideWhy::CblockNested,
    ),
    // START
    (
        "2200161b011600e9ff000103312e3000e80700000000000000000000000000",
        Place::Block {
            block: 37,
            within: 1,
        },
        WideWhy::Profile(Why::OutOfPlace(1)),
    ),
    // an element after a name
    (
        "22000b10010b00f4ff030142147b01000a140000",
        Place::Block {
            block: 37,
            within: 3,
        },
        WideWhy::Profile(Why::OutOfPlace(20)),
    ),
    // a property that isn't to be left out
    (
        "22000207010200fdff001d",
        Place::Block {
            block: 37,
            within: 1,
        },
        WideWhy::Properties,
    ),
    // an element after a block that ends in a name
    (
        "22000308010300fcff030142147b01000a140000",
        Place::File(49),
        WideWhy::Profile(Why::OutOfPlace(20)),
    ),
    // the input ends in the block
    (
        "220011e80713a96664e012616010a96602d227181900",
        Place::File(37),
        WideWhy::Profile(Why::Truncated),
    ),
];

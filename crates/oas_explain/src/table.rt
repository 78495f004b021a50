//! The one place for the names, meanings and remedies of the reasons from 101 on. docs/PREPARING.md has them too, and is compared
//! with it. oas_num has those up to 34.

use oas_num::Reason;

/// The reasons of the command that prepares, by ascending numbers.
pub(crate) const PREPARING: [Reason<'static>; 13] = [
    Reason {
        number: 101,
        name: "Properties",
        meaning: "a record is of 7 to 10, 28 or 29, and properties aren't to be left out",
        remedy: "Name them with `--drop properties`, if the key needn't stand for them.",
    },
    Reason {
        number: 102,
        name: "LayerNames",
        meaning: "a record is a LAYERNAME, and these aren't to be left out",
        remedy: "Name them with `--drop layer-names`, if the key needn't stand for them.",
    },
    Reason {
        number: 103,
        name: "Extensions",
        meaning: "a record is of 30 to 33, and extensions aren't to be left out",
        remedy: "Name them with `--drop extensions`, if the key needn't stand for them.",
    },
    Reason {
        number: 104,
        name: "CblockType",
        meaning: "a block's kind of compression isn't 0",
        remedy: "The writer is at fault.",
    },
    Reason {
        number: 105,
        name: "CblockNested",
        meaning: "a block stands within a block; START or END there is 13",
        remedy: "The writer is at fault.",
    },
    Reason {
        number: 106,
        name: "CblockLength",
        meaning: "a block inflates to other than the stated number of bytes, or doesn't use just the stated number",
        remedy: "The writer is at fault, or the file was changed.",
    },
    Reason {
        number: 107,
        name: "CblockBorder",
        meaning: "a record runs out of its block",
        remedy: "The writer is at fault.",
    },
    Reason {
        number: 108,
        name: "Deflate",
        meaning: "a block's bytes are no DEFLATE stream, or an unfinished one",
        remedy: "The file was changed, or its writer is at fault.",
    },
    Reason {
        number: 109,
        name: "Trapezoid",
        meaning: "the corners of a trapezoid cross, or enclose nothing",
        remedy: "Look at the shape; draw it as a polygon.",
    },
    Reason {
        number: 110,
        name: "CtrapezoidType",
        meaning: "the kind of a CTRAPEZOID is above 25",
        remedy: "The writer is at fault.",
    },
    Reason {
        number: 111,
        name: "ValueType",
        meaning: "the type of a property's value is above 15",
        remedy: "The writer is at fault.",
    },
    Reason {
        number: 112,
        name: "IntervalType",
        meaning: "the type of a LAYERNAME's interval is above 4",
        remedy: "The writer is at fault.",
    },
    Reason {
        number: 113,
        name: "Checksum",
        meaning: "the signature isn't that of the file",
        remedy: "The file was changed on its way: get it again.",
    },
];

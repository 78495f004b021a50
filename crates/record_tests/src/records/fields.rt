//! The fields of a record that was read.

use super::discard;
use oas_num::SliceSource;
use oas_record::{Extension, Extensions, Record, Turn};
use std::alloc::Global;
use std::process::Abort;

/// Whether it is the square, with these fields and no others.
fn is_square(record: &Record) -> bool {
    match record {
        Record::Rectangle(drawn) => {
            drawn.square
                && (drawn.layer, drawn.datatype) == (Some(1), Some(2))
                && (drawn.width, drawn.height) == (Some(10), None)
                && (drawn.spot.x, drawn.spot.y) == (Some(3), Some(-4))
                && drawn.spot.repetition.is_none()
        }
        _ => false,
    }
}

/// The expected record.
#[derive(Clone, Copy)]
enum Wanted {
    Square,
    Turned { turns: u8, flip: bool },
    Extended { start: Extension, end: Extension },
}

/// Whether the record is as expected.
fn is_wanted(record: &Record, wanted: Wanted) -> bool {
    match (record, wanted) {
        (Record::Placement(placed), Wanted::Turned { turns, flip }) => {
            placed.turn == Turn::Quarters(turns) && placed.flip == flip
        }
        (Record::Path(path), Wanted::Extended { start, end }) => {
            path.extensions == Some(Extensions { start, end })
        }
        (record, Wanted::Square) => is_square(record),
        _ => false,
    }
}

/// Whether such a record is there.
fn gives(alloc: Global, source: &mut SliceSource<'_>, wanted: Wanted) -> bool {
    match Record::read(alloc, source, false) {
        Ok(record) => {
            let is_wanted = is_wanted(&record, wanted);
            discard(record);
            is_wanted
        }
        Err(_refusal) => false,
    }
}

#[test]
fn values(rt: HostRuntime) {
    let bytes = [
        20, 0xDB, 1, 2, 10, 6, 9, 17, 0xF7, 1, 0x41, 3, 4, 22, 0x80, 6, 7,
    ];
    let mut source = SliceSource::new(&bytes, 100);
    assert!(rt; gives(rt.alloc(), &mut source, Wanted::Square));
}

#[test]
fn turns(rt: HostRuntime) {
    for (info, turns, flip) in [
        (0u8, 0u8, false),
        (1, 0, true),
        (2, 1, false),
        (5, 2, true),
        (6, 3, false),
    ] {
        let bytes = [17, info];
        let mut source = SliceSource::new(&bytes, 100);
        assert!(rt;
            gives(rt.alloc(), &mut source, Wanted::Turned { turns, flip }),
            "{info}"
        );
    }
}

/// Two paths, and the extensions of each.
#[test]
fn extensions(rt: HostRuntime) {
    let mut source = SliceSource::new(&[22, 0x80, 6, 22, 0x80, 13, 5], 100);
    for (start, end) in [
        (Extension::Flush, Extension::Half),
        (Extension::Explicit(-2), Extension::Flush),
    ] {
        assert!(rt; gives(rt.alloc(), &mut source, Wanted::Extended { start, end }));
    }
}

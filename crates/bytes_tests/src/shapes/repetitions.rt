//! Repetitions, by their bytes.

use super::rows::{bytes_of, point, row_parts};
use oas_num::{GDelta, SliceSource, Why};
use oas_shape::{Places, RepField, Repetition};
use std::alloc::{AllocError, Global};
use std::process::Abort;

/// Reads a repetition, if it is new.
fn read(alloc: Global, bytes: &str) -> Option<Repetition> {
    let Ok(bytes) = bytes_of(alloc, bytes) else {
        return None;
    };
    match RepField::read(alloc, &mut SliceSource::new(&bytes, 1000)) {
        Ok(RepField::New(repetition)) => Some(repetition),
        _ => None,
    }
}

/// Whether the offset of a copy is that of the word.
fn is_at(offset: (i128, i128), word: &str) -> bool {
    let (x, y) = point(word);
    offset == (i128::from(x), i128::from(y))
}

/// Whether the repetition has as many copies as there are words, at these offsets.
fn has(repetition: &Repetition, wanted: &str) -> bool {
    let count = repetition.count().unwrap_or(0);
    if count == 0 || count >= 100 {
        return false;
    }
    let mut words = wanted.split_whitespace();
    let mut all = true;
    for i in 0..count {
        all &= is_at(repetition.offset(i), words.next().unwrap_or(""));
    }
    all && words.next().is_none()
}

/// Whether a copy has.
fn copy_has(alloc: Global, repetition: &Repetition, wanted: &str) -> bool {
    match repetition.try_clone(alloc) {
        Ok(copy) => has(&copy, wanted),
        Err(AllocError) => false,
    }
}

/// The bytes of a repetition, and its offsets: three columns or rows, by each type that has them; displacements that come
/// back, each from the copy before, on a grid of 3; and two ways.
const OFFSETS: &str = "2 1 10|0,0 10,0 20,0
4 1 10 10|0,0 10,0 20,0
5 1 5 2 2|0,0 10,0 20,0
9 1 41 0|0,0 10,0 20,0
10 1 41 0 41 0|0,0 10,0 20,0
11 1 5 9 0 9 0|0,0 10,0 20,0
3 1 10|0,0 0,10 0,20
6 1 10 10|0,0 0,10 0,20
7 1 5 2 2|0,0 0,10 0,20
11 2 3 9 2 11 3 24|0,0 6,3 0,0 3,3
1 1 0 10 7|0,0 10,0 20,0 0,7 10,7 20,7
8 1 0 41 0 1 20|0,0 10,0 20,0 0,10 10,10 20,10
8 0 1 9 3 11 4|0,0 2,-1 -2,2 0,1 -4,4 -2,3";

/// Whether the repetition of a row has its offsets, and whether a copy has.
fn both_have(alloc: Global, row: &str) -> Option<[bool; 2]> {
    let [bytes, wanted, _, _] = row_parts(row);
    let repetition = read(alloc, bytes)?;
    Some([
        has(&repetition, wanted),
        copy_has(alloc, &repetition, wanted),
    ])
}

#[test]
fn offsets(rt: HostRuntime) {
    for row in OFFSETS.lines() {
        assert!(rt; both_have(rt.alloc(), row) == Some([true; 2]), "at {row}");
    }
}

/// The offset of the last copy, where there are at most 2^32.
fn last(repetition: &Repetition) -> Option<(i128, i128)> {
    let count = repetition.count()?;
    if count > 0 && count <= 1 << 32 {
        Some(repetition.offset(count - 1))
    } else {
        None
    }
}

/// The count of the copies of a repetition, and the offset of the last one.
fn counted(alloc: Global, bytes: &str) -> Option<(Option<u64>, Option<(i128, i128)>)> {
    let repetition = read(alloc, bytes)?;
    Some((repetition.count(), last(&repetition)))
}

/// Many columns and rows, and the most of all.
const MANY: &str = "1 254 31 254 31 0 0";

const MOST: &str =
    "1 255 255 255 255 255 255 255 255 255 1 255 255 255 255 255 255 255 255 255 1 0 0";

#[test]
fn counts_of_many(rt: HostRuntime) {
    assert!(rt;
        [counted(rt.alloc(), MANY), counted(rt.alloc(), MOST)]
            == [Some((Some(16777216), Some((0, 0)))), Some((None, None))]
    );
}

/// Whether the bytes denote the repetition that was used last.
fn is_again(alloc: Global, bytes: &[u8]) -> bool {
    matches!(
        RepField::read(alloc, &mut SliceSource::new(bytes, 1)),
        Ok(RepField::Again)
    )
}

#[test]
fn last_repetition_again(rt: HostRuntime) {
    assert!(rt; is_again(rt.alloc(), &[0]));
}

/// This many places, with this many copies on each.
fn places(number: u64, copies: u64, stride: u64) -> Places {
    Places {
        number,
        copies,
        stride,
    }
}

/// The places of columns at one place, and of rows at one place.
fn two_ways() -> [Places; 2] {
    let columns_together = Repetition::Matrix {
        x_dim: 1,
        y_dim: 0,
        x_space: 0,
        y_space: 7,
    };
    let rows_together = Repetition::Lattice {
        n_dim: 1,
        m_dim: 0,
        n: GDelta { dx: 0, dy: -1 },
        m: GDelta { dx: 0, dy: 0 },
    };
    [columns_together.places(), rows_together.places()]
}

/// The places of very many copies at one place, and of rows none of which are.
fn of_many() -> [Places; 2] {
    let all_together = Repetition::Matrix {
        x_dim: 4094,
        y_dim: 4094,
        x_space: 0,
        y_space: 0,
    };
    let none_together = Repetition::Rows { dim: 5, space: 1 };
    [all_together.places(), none_together.places()]
}

#[test]
fn places_two_ways(rt: HostRuntime) {
    assert!(rt; two_ways() == [places(2, 3, 3), places(3, 2, 1)]);
}

#[test]
fn places_of_many(rt: HostRuntime) {
    assert!(rt; of_many() == [places(1, 16777216, 1), places(7, 1, 1)]);
}

/// The number of the reason for which a repetition is refused; 0 where it isn't.
fn refusal(alloc: Global, bytes: &str) -> Result<u8, Why> {
    let bytes = bytes_of(alloc, bytes)?;
    match RepField::read(alloc, &mut SliceSource::new(&bytes, 1000)) {
        Ok(_field) => Ok(0),
        Err(why) => Ok(why.number()),
    }
}

/// The bytes of a repetition, and the number of the reason.
///
/// An unknown type; a space of 2^62, which is within the limit, and one more; each sum decides, also one that comes back.
/// Evenly spaced ones aren't looked at while they are read; a grid times a space above 2^127, and a grid of 0. A dimension of
/// 2^64 - 1, followed by nothing or by some displacements. 4 times 2^61 in x, where the number of y isn't there and where it
/// is; and a sum that exceeds the limit, which comes before the end.
const REFUSED: &str = "12|17
4 0 128 128 128 128 128 128 128 128 64|0
4 0 129 128 128 128 128 128 128 128 64|23
10 1 1 130 128 128 128 128 128 128 128 128 1 1 3|23
2 0 128 128 128 128 128 128 128 128 128 1|0
5 0 255 255 255 255 255 255 255 255 255 1 255 255 255 255 255 255 255 255 255 1|23
5 0 128 128 128 128 128 128 128 128 128 0 255 255 255 255 255 255 255 255 255 1|0
10 255 255 255 255 255 255 255 255 255 1|2
10 255 255 255 255 255 255 255 255 255 1 0 2 4|2
11 0 4 129 128 128 128 128 128 128 128 128 1|2
11 0 4 129 128 128 128 128 128 128 128 128 1 0|23
4 1 129 128 128 128 128 128 128 128 64 128|23";

#[test]
fn repetitions_refused(rt: HostRuntime) {
    for row in REFUSED.lines() {
        let [bytes, wanted, _, _] = row_parts(row);
        let wanted = wanted.parse().unwrap_or(255);
        assert!(rt; refusal(rt.alloc(), bytes) == Ok(wanted), "at {row}");
    }
}

//! Corners that are known from outside.

use oas_trapezoids::{Corners, Sides, Unsided, named_corners, sides_of, trapezoid_corners};
use std::alloc::Global;
use std::test::Fail;

/// The corners, or that nothing is drawn.
fn line(alloc: Global, drawn: Option<Corners>) -> Result<String, Fail> {
    let Some(corners) = drawn else {
        return Ok(String::from_str(alloc, "nothing")?);
    };
    let mut line = String::new(alloc);
    for corner in corners.as_slice() {
        let gap = if line.is_empty() { "" } else { " " };
        line.push_str(format!(in alloc; "{gap}{},{}", corner.x, corner.y)?.as_str())?;
    }
    Ok(line)
}

/// A word as a number.
fn number(word: Option<&str>) -> u64 {
    word.unwrap_or("").parse::<u64>().unwrap_or(u64::MAX)
}

/// A word as a signed number.
fn delta(word: Option<&str>) -> i64 {
    word.unwrap_or("").parse::<i64>().unwrap_or(i64::MIN)
}

/// A kind, a width and a height, and the corners that KLayout 0.28.5 shows. Where two of them are one KLayout isn't
/// consistent, and where no area is enclosed it draws: there the rows follow the rule.
const NAMED: &str = "\
0 100 30:0,0 0,30 70,30 100,0\n\
1 100 30:0,0 0,30 100,30 70,0\n\
2 100 30:0,0 30,30 100,30 100,0\n\
3 100 30:30,0 0,30 100,30 100,0\n\
4 100 30:0,0 30,30 70,30 100,0\n\
5 100 30:30,0 0,30 100,30 70,0\n\
6 100 30:0,0 30,30 100,30 70,0\n\
7 100 30:30,0 0,30 70,30 100,0\n\
8 30 100:0,0 0,100 30,70 30,0\n\
9 30 100:0,0 0,70 30,100 30,0\n\
10 30 100:0,0 0,100 30,100 30,30\n\
11 30 100:0,30 0,100 30,100 30,0\n\
12 30 100:0,0 0,100 30,70 30,30\n\
13 30 100:0,30 0,70 30,100 30,0\n\
14 30 100:0,0 0,70 30,100 30,30\n\
15 30 100:0,30 0,100 30,70 30,0\n\
16 30 30:0,0 0,30 30,0\n\
17 30 30:0,0 0,30 30,30\n\
18 30 30:0,0 30,30 30,0\n\
19 30 30:0,30 30,30 30,0\n\
20 60 30:0,0 30,30 60,0\n\
21 60 30:30,0 0,30 60,30\n\
22 30 60:0,0 0,60 30,30\n\
23 30 60:0,30 30,60 30,0\n\
24 100 30:0,0 0,30 100,30 100,0\n\
25 30 30:0,0 0,30 30,30 30,0\n\
0 50 50:0,0 0,50 50,0\n\
2 50 50:0,0 50,50 50,0\n\
3 50 50:50,0 0,50 50,50\n\
5 100 50:50,0 0,50 100,50\n\
8 50 50:0,0 0,50 50,0\n\
10 50 50:0,0 0,50 50,50\n\
11 50 50:0,50 50,50 50,0\n\
13 50 100:0,50 50,100 50,0\n\
6 50 50:nothing\n\
14 50 50:nothing\n\
15 50 50:nothing\n\
24 0 50:nothing\n\
24 50 0:nothing\n\
20 0 0:nothing\n\
22 0 0:nothing\n\
8 0 50:nothing\n\
0 49 50:nothing\n\
2 49 50:nothing\n\
3 49 50:nothing\n\
7 49 50:nothing\n\
4 99 50:nothing\n\
8 50 49:nothing\n\
9 50 49:nothing\n\
11 50 49:nothing\n\
14 50 49:nothing\n\
12 50 99:nothing\n\
13 50 99:nothing\n\
12 50 50:nothing";

/// The corners by a kind, a width and a height.
fn by_kind(text: &str) -> Option<Corners> {
    let mut words = text.split(' ');
    let kind = number(words.next());
    let width = number(words.next());
    let height = number(words.next());
    named_corners(kind, width, height)
}

#[test]
fn kinds(rt: HostRuntime) -> Result<(), Fail> {
    for row in NAMED.lines() {
        let (text, wanted) = row.split_once(':').unwrap_or((row, ""));
        let found = line(rt.alloc(), by_kind(text))?;
        assert_eq!(rt; found.as_str(), wanted, "{row}");
    }
    Ok(())
}

/// Which sides are parallel, a width, a height and the deltas, and the corners, as above.
const BY_DELTAS: &str = "\
level 100 40 0 0:0,0 0,40 100,40 100,0\n\
level 100 40 0 7:0,0 0,40 100,40 93,0\n\
level 100 40 0 -7:0,0 0,40 93,40 100,0\n\
level 100 40 10 0:0,0 10,40 100,40 100,0\n\
level 100 40 10 7:0,0 10,40 100,40 93,0\n\
level 100 40 -10 0:10,0 0,40 100,40 100,0\n\
level 100 40 -10 -7:10,0 0,40 93,40 100,0\n\
upright 100 40 0 0:0,0 0,40 100,40 100,0\n\
upright 100 40 0 7:0,0 0,40 100,33 100,0\n\
upright 100 40 0 -7:0,0 0,33 100,40 100,0\n\
upright 100 40 10 0:0,10 0,40 100,40 100,0\n\
upright 100 40 10 7:0,10 0,40 100,33 100,0\n\
upright 100 40 -10 0:0,0 0,40 100,40 100,10\n\
upright 100 40 -10 -7:0,0 0,33 100,40 100,10\n\
level 10 40 10 0:0,0 10,40 10,0\n\
level 10 40 -5 5:5,0 0,40 10,40\n\
upright 40 10 -5 5:0,0 0,10 40,5\n\
upright 40 100 -30 -30:0,0 0,70 40,100 40,30\n\
level 10 40 10 9:0,0 10,40 1,0\n\
level 10 40 11 0:nothing\n\
level 10 40 6 -5:nothing\n\
level 10 40 -6 5:nothing\n\
upright 40 10 0 11:nothing\n\
level 10 40 10 10:nothing\n\
level 10 0 3 0:nothing\n\
level 0 40 0 0:nothing\n\
level 10 40 -9223372036854775807 9223372036854775807:nothing";

/// The corners by which sides are parallel, a width, a height and the deltas.
fn by_deltas(text: &str) -> Option<Corners> {
    let mut words = text.split(' ');
    let is_upright = words.next().unwrap_or("") == "upright";
    let width = number(words.next());
    let height = number(words.next());
    let a = delta(words.next());
    let b = delta(words.next());
    trapezoid_corners(is_upright, width, height, a, b)
}

#[test]
fn deltas(rt: HostRuntime) -> Result<(), Fail> {
    for row in BY_DELTAS.lines() {
        let (text, wanted) = row.split_once(':').unwrap_or((row, ""));
        let found = line(rt.alloc(), by_deltas(text))?;
        assert_eq!(rt; found.as_str(), wanted, "{row}");
    }
    Ok(())
}

/// A kind, the width and the height as far as they are defined, and the box.
const IMPLIED: &[(u64, Option<u64>, Option<u64>, Result<Sides, Unsided>)] = &[
    (
        0,
        Some(9),
        Some(5),
        Ok(Sides {
            width: 9,
            height: 5,
        }),
    ),
    (0, Some(9), None, Err(Unsided::Undefined)),
    (
        16,
        Some(9),
        None,
        Ok(Sides {
            width: 9,
            height: 9,
        }),
    ),
    (16, None, Some(9), Err(Unsided::Undefined)),
    (
        20,
        None,
        Some(9),
        Ok(Sides {
            width: 18,
            height: 9,
        }),
    ),
    (21, Some(9), None, Err(Unsided::Undefined)),
    (
        22,
        Some(9),
        Some(5),
        Ok(Sides {
            width: 9,
            height: 18,
        }),
    ),
    (23, Some(u64::MAX), None, Err(Unsided::TooLong)),
    (
        25,
        Some(9),
        Some(5),
        Ok(Sides {
            width: 9,
            height: 9,
        }),
    ),
];

#[test]
fn implied(rt: HostRuntime) -> Result<(), Fail> {
    for &(kind, width, height, wanted) in IMPLIED {
        assert!(rt; sides_of(kind, width, height) == wanted, "{kind}");
    }
    let square = Sides {
        width: 9,
        height: 9,
    };
    assert!(rt; square.agree(None, Some(9)) && !square.agree(Some(9), Some(5)));
    Ok(())
}

//! What is returned for records, with results from outside.

mod corners;
mod memory;
mod table;

use self::corners::{KINDS, TRAPEZOIDS};
use self::table::ROWS;
use oas_num::{INPUT_MAX, SliceSource, Source};
use oas_record::{CellRef, Polygon, Record, Spot};
use oas_ring::Point;
use oas_shape::RepField;
use oas_standard::{WideRecord, WideWhy};
use oas_trapezoids::{Resolved, Resolver};
use std::alloc::{AllocError, Global};
use std::process::Abort;
use std::test::Fail;

/// Adds a field, or a dash.
fn add_field(line: &mut String, given: Option<u64>) -> Result<(), AllocError> {
    match given {
        Some(number) => write!(line, " {number}"),
        None => line.push_str(" -"),
    }
}

/// Adds a coordinate, or a dash.
fn add_coordinate(line: &mut String, given: Option<i64>) -> Result<(), AllocError> {
    match given {
        Some(number) => write!(line, " {number}"),
        None => line.push_str(" -"),
    }
}

/// Adds the position of an element, and its repetition.
fn add_spot(line: &mut String, spot: &Spot) -> Result<(), AllocError> {
    add_coordinate(line, spot.x)?;
    add_coordinate(line, spot.y)?;
    match &spot.repetition {
        None => line.push_str(" once"),
        Some(RepField::Again) => line.push_str(" again"),
        Some(RepField::New(repetition)) => {
            line.push_str(" new")?;
            add_field(line, repetition.count())
        }
    }
}

/// Adds a word, fields, and the position of an element with its repetition.
fn add_element(
    line: &mut String,
    word: &str,
    fields: &[Option<u64>],
    spot: &Spot,
) -> Result<(), AllocError> {
    line.push_str(word)?;
    for given in fields {
        add_field(line, *given)?;
    }
    add_spot(line, spot)
}

/// How far a coordinate may be from 0.
const FURTHEST: i64 = 1 << 60;

/// Adds points, each after a space.
fn add_points(line: &mut String, points: &[Point]) -> Result<(), AllocError> {
    for point in points {
        write!(line, " {},{}", point.x, point.y)?;
    }
    Ok(())
}

/// Adds the vertices of a polygon on the grid; none for one without points.
fn add_vertices(alloc: Global, line: &mut String, drawn: &Polygon) -> Result<(), AllocError> {
    let (x, y) = (drawn.spot.x.unwrap_or(0), drawn.spot.y.unwrap_or(0));
    let is_near = -FURTHEST <= x && x <= FURTHEST && -FURTHEST <= y && y <= FURTHEST;
    let (Some(points), true) = (&drawn.points, is_near) else {
        return Ok(());
    };
    match points.vertices(alloc, Point { x, y }) {
        Ok(vertices) => add_points(line, vertices.as_slice()),
        Err(_) => line.push_str(" off the grid"),
    }
}

/// Adds a polygon: its vertices are at its position.
fn add_polygon(alloc: Global, line: &mut String, drawn: &Polygon) -> Result<(), AllocError> {
    add_element(line, "polygon", &[drawn.layer, drawn.datatype], &drawn.spot)?;
    line.push_str(":")?;
    add_vertices(alloc, line, drawn)
}

/// Adds a record.
fn add_record(alloc: Global, line: &mut String, record: &Record) -> Result<(), AllocError> {
    match record {
        Record::Cell(_) => line.push_str("cell"),
        Record::XyAbsolute => line.push_str("absolute"),
        Record::XyRelative => line.push_str("relative"),
        Record::Placement(placed) => add_element(line, "placement", &[], &placed.spot),
        Record::Text(written) => add_element(line, "text", &[], &written.spot),
        Record::Rectangle(drawn) => {
            let word = if drawn.square { "square" } else { "rectangle" };
            let fields = [drawn.layer, drawn.datatype, drawn.width, drawn.height];
            add_element(line, word, &fields, &drawn.spot)
        }
        Record::Polygon(drawn) => add_polygon(alloc, line, drawn),
        Record::Path(drawn) => {
            add_element(line, "path", &[drawn.layer, drawn.datatype], &drawn.spot)
        }
        Record::Circle(drawn) => {
            let fields = [drawn.layer, drawn.datatype, drawn.radius];
            add_element(line, "circle", &fields, &drawn.spot)
        }
        _ => line.push_str("other"),
    }
}

/// Begins one more part of a line.
fn begin_part(line: &mut String) -> Result<(), AllocError> {
    if line.is_empty() {
        Ok(())
    } else {
        line.push_str("; ")
    }
}

/// Adds the records that were returned, after those before.
fn add_resolved(alloc: Global, line: &mut String, resolved: &Resolved) -> Result<(), AllocError> {
    match resolved {
        Resolved::Nothing => Ok(()),
        Resolved::One(record) => {
            begin_part(line)?;
            add_record(alloc, line, record)
        }
        Resolved::Absolute(record) => {
            begin_part(line)?;
            line.push_str("absolute; ")?;
            add_record(alloc, line, record)?;
            line.push_str("; relative")
        }
    }
}

/// Drops what was returned, in a step of its own.
fn discard(_answer: Result<Resolved, WideWhy>) {}

/// A resolver after a CELL.
fn in_a_cell(alloc: Global) -> Resolver {
    let mut resolver = Resolver::new();
    let cell = WideRecord::Profile(Record::Cell(CellRef::Number(0)));
    discard(resolver.resolve(alloc, cell));
    resolver
}

/// What is returned for the next record, or why it is refused.
fn next(
    alloc: Global,
    source: &mut SliceSource<'_>,
    resolver: &mut Resolver,
) -> Result<Resolved, WideWhy> {
    match WideRecord::read(alloc, source, false) {
        Ok(record) => resolver.resolve(alloc, record),
        Err(refusal) => Err(refusal.why),
    }
}

/// Adds what is returned, or why a record is refused, and returns whether it is.
fn add_answer(
    alloc: Global,
    line: &mut String,
    answer: &Result<Resolved, WideWhy>,
) -> Result<bool, AllocError> {
    match answer {
        Ok(resolved) => {
            add_resolved(alloc, line, resolved)?;
            Ok(false)
        }
        Err(why) => {
            begin_part(line)?;
            write!(line, "refused {}", why.number())?;
            Ok(true)
        }
    }
}

/// Adds what is returned for the next record, or why it is refused, and returns whether it is.
fn add_next(
    alloc: Global,
    line: &mut String,
    source: &mut SliceSource<'_>,
    resolver: &mut Resolver,
) -> Result<bool, AllocError> {
    let answer = next(alloc, source, resolver);
    let is_refused = add_answer(alloc, line, &answer);
    discard(answer);
    is_refused
}

/// Adds what is returned for the next records of a source, up to its end or the first that is refused.
fn add_up_to(
    alloc: Global,
    line: &mut String,
    source: &mut SliceSource<'_>,
    resolver: &mut Resolver,
    end: usize,
) -> Result<(), AllocError> {
    for _ in 0..end {
        let is_end = source.at() >= end as u64;
        if is_end || add_next(alloc, line, source, resolver)? {
            break;
        }
    }
    Ok(())
}

/// Adds what is returned for the records of these bytes after a CELL.
fn add_all(alloc: Global, line: &mut String, bytes: &[u8]) -> Result<(), AllocError> {
    let mut source = SliceSource::new(bytes, INPUT_MAX);
    let mut resolver = in_a_cell(alloc);
    add_up_to(alloc, line, &mut source, &mut resolver, bytes.len())
}

/// What is returned for these bytes, which are in hex with blanks.
fn handed_out(alloc: Global, text: &str) -> Result<String, Fail> {
    let bytes = hex::decode(alloc, &text.replace(alloc, " ", "")?)?;
    let mut line = String::new(alloc);
    add_all(alloc, &mut line, &bytes)?;
    Ok(line)
}

/// Whether what is returned for the bytes of a row is what follows them.
fn is_handed_out(alloc: Global, row: &str) -> Result<bool, Fail> {
    let (text, wanted) = row.split_once('=').unwrap_or((row, ""));
    Ok(handed_out(alloc, text)?.as_str() == wanted)
}

/// Asserts each row of a table, bytes and what is returned.
fn compare(rt: &impl Abort, alloc: Global, rows: &str) -> Result<(), Fail> {
    for row in rows.lines() {
        assert!(rt; is_handed_out(alloc, row)?, "{row}");
    }
    Ok(())
}

#[test]
fn kinds(rt: HostRuntime) -> Result<(), Fail> {
    compare(&rt, rt.alloc(), KINDS)
}

#[test]
fn trapezoids(rt: HostRuntime) -> Result<(), Fail> {
    compare(&rt, rt.alloc(), TRAPEZOIDS)
}

#[test]
fn records(rt: HostRuntime) -> Result<(), Fail> {
    compare(&rt, rt.alloc(), ROWS)
}

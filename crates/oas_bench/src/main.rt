//! The speed of parts of the library. The scripts of `bench/` run each beside another program.
//!
//! - `oas_bench numbers TIMES` puts and reads 65,536 integers this many times.
//! - `oas_bench layouts SHAPE ORDER COUNT` adds this many elements to a draft: `rectangles` or `polygons`, in the order
//!   `random` or `ascending`.
//! - `oas_bench inflate TIMES` inflates each packet of standard input this many times.
//! - `oas_bench` alone does a little of each, and so shows that all of it runs.
//!
//! The results go to standard output, the same at each run. The times go to standard error, in microseconds.
#![tactic(auto)]

mod generator;
mod inflating;
mod layouts;
mod numbers;
mod shapes;

use layouts::Row;
use std::{env, io};

fn main(rt: HostRuntime) -> io::Result<()> {
    if says(&rt, 1, "numbers")? {
        numbers::measure(&rt, number(&rt, 2)?)
    } else if says(&rt, 1, "layouts")? {
        layouts::measure(&rt, row(&rt)?)
    } else if says(&rt, 1, "inflate")? {
        inflating::measure(&rt, number(&rt, 2)?)
    } else {
        measure_all(&rt)
    }
}

/// A little of each.
fn measure_all(rt: &HostRuntime) -> io::Result<()> {
    numbers::measure(rt, 1)?;
    layouts::measure_few(rt)?;
    inflating::measure(rt, 1)
}

/// Whether the word at this place of the command line is this one.
fn says(rt: &HostRuntime, place: usize, wanted: &str) -> io::Result<bool> {
    match env::args(rt)?.nth(place) {
        Some(word) => Ok(word.as_str() == wanted),
        None => Ok(false),
    }
}

/// The number at this place of the command line: 1, where there is none.
fn number(rt: &HostRuntime, place: usize) -> io::Result<u64> {
    match env::args(rt)?.nth(place) {
        Some(word) => Ok(word.as_str().parse::<u64>().unwrap_or(1)),
        None => Ok(1),
    }
}

/// The elements that the command line requests.
fn row(rt: &HostRuntime) -> io::Result<Row> {
    Ok(Row {
        polygons: says(rt, 2, "polygons")?,
        random: says(rt, 3, "random")?,
        count: number(rt, 4)?,
    })
}

//! Command lines with options: what they request.

use super::words::{asks, plain};
use oas_request::{Asked, ChosenLayer, Detail, Format, Markers, Measure, PLAIN, Syntax, Task};
use std::alloc::{AllocError, Global};
use std::test::Fail;

/// Whether the words of a line request `diff a b` for all cells and layers, with these options and these markers, or with
/// which status they end.
fn asks_diff(
    alloc: Global,
    line: &str,
    is_large: bool,
    detail: Detail,
    limit: Option<u64>,
    markers: Option<Markers<'_>>,
) -> Result<Result<bool, i32>, AllocError> {
    let asked = Asked {
        cells: None,
        layers: None,
        detail,
        format: PLAIN,
        limit,
    };
    let task = Task::Diff {
        first: Some("a"),
        second: Some("b"),
        asked,
        markers,
    };
    asks(alloc, line, plain(task, is_large))
}

#[test]
fn words_of_diff(rt: HostRuntime) -> Result<(), Fail> {
    let (all, brief) = (Detail::Elements, Detail::Counts);
    let (file, most) = ("m", 100_000);
    for (line, is_large, detail, limit, markers) in [
        ("oascanon diff a b", false, all, None, None),
        ("oascanon diff --brief a b", false, brief, None, None),
        ("oascanon diff a b --limit 7", false, all, Some(7), None),
        (
            "oascanon diff --large --limit=0 --brief a b",
            true,
            brief,
            Some(0),
            None,
        ),
        (
            "oascanon diff --markers m a b",
            false,
            all,
            None,
            Some(Markers { name: file, most }),
        ),
        (
            "oascanon diff a --brief b --markers=./- --markers-limit 0",
            false,
            brief,
            None,
            Some(Markers {
                name: "./-",
                most: 0,
            }),
        ),
    ] {
        let found = asks_diff(rt.alloc(), line, is_large, detail, limit, markers)?;
        assert_eq!(rt; found, Ok(true), "at {line}");
    }
    Ok(())
}

/// The layers of a text: each a number, or two with a slash between them.
fn layers_of(alloc: Global, layers: &[(u64, Option<u64>)]) -> Result<Vec<ChosenLayer>, AllocError> {
    let mut list = Vec::new(alloc);
    for (layer, datatype) in layers {
        list.push(ChosenLayer {
            layer: *layer,
            datatype: *datatype,
        })?;
    }
    Ok(list)
}

/// Whether the words of a line request `diff a b` for these cells and layers, or with which status they end.
fn asks_for(
    alloc: Global,
    line: &str,
    cells: &str,
    layers: &[(u64, Option<u64>)],
) -> Result<Result<bool, i32>, AllocError> {
    let asked = Asked {
        cells: Some(cells.split_whitespace().collect(alloc)?),
        layers: Some(layers_of(alloc, layers)?),
        detail: Detail::Elements,
        format: PLAIN,
        limit: None,
    };
    let task = Task::Diff {
        first: Some("a"),
        second: Some("b"),
        asked,
        markers: None,
    };
    asks(alloc, line, plain(task, false))
}

#[test]
fn cells_and_layers_of_diff(rt: HostRuntime) -> Result<(), Fail> {
    let line = "oascanon diff --cell B a --cell=A --layer 5 b --layer=0/18446744073709551615";
    let layers = [(5, None), (0, Some(u64::MAX))];
    assert_eq!(rt; asks_for(rt.alloc(), line, "B A", &layers)?, Ok(true));
    Ok(())
}

/// Whether the words of a line request `diff a b` in this format, or with which status they end.
fn asks_in(alloc: Global, line: &str, format: Format) -> Result<Result<bool, i32>, AllocError> {
    let asked = Asked {
        cells: None,
        layers: None,
        detail: Detail::Elements,
        format,
        limit: None,
    };
    let task = Task::Diff {
        first: Some("a"),
        second: Some("b"),
        asked,
        markers: None,
    };
    asks(alloc, line, plain(task, false))
}

#[test]
fn formats_of_diff(rt: HostRuntime) -> Result<(), Fail> {
    for (line, syntax, measure) in [
        ("oascanon diff --json a b", Syntax::Json, Measure::Grid),
        (
            "oascanon diff --unit=um a b",
            Syntax::Lines,
            Measure::Microns,
        ),
        (
            "oascanon diff a b --unit grid",
            Syntax::Lines,
            Measure::Grid,
        ),
        (
            "oascanon diff a --unit um --json b",
            Syntax::Json,
            Measure::Microns,
        ),
    ] {
        let found = asks_in(rt.alloc(), line, Format { syntax, measure })?;
        assert_eq!(rt; found, Ok(true), "at {line}");
    }
    Ok(())
}

/// Whether the words of a line request `show a` with these flags, or with which status they end.
fn asks_with(
    alloc: Global,
    line: &str,
    explains: bool,
    shows_progress: bool,
) -> Result<Result<bool, i32>, AllocError> {
    let mut wanted = plain(Task::Show { input: Some("a") }, false);
    wanted.explains = explains;
    wanted.shows_progress = shows_progress;
    asks(alloc, line, wanted)
}

#[test]
fn flags_of_each_command(rt: HostRuntime) -> Result<(), Fail> {
    for (line, explains, shows_progress) in [
        ("oascanon show a", false, false),
        ("oascanon show a --explain", true, false),
        ("oascanon show --progress a", false, true),
        ("oascanon show --progress --explain a", true, true),
    ] {
        let found = asks_with(rt.alloc(), line, explains, shows_progress)?;
        assert_eq!(rt; found, Ok(true), "at {line}");
    }
    Ok(())
}

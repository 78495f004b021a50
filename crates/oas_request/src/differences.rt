//! What `diff` is asked.

ghost use Rattle.std.specs.Prelude.{◌≡◌, option_copied, option_map, vec_items};

use crate::commands::{Task, two_of};
use clap::ArgMatches;
use oas_diff_options::{Choice, ChosenLayer, Detail, Format, Measure, Options, Syntax};
use oas_files::file_of_word;
use std::alloc::{AllocError, Global};

/// What `diff` is asked to compare, and what to print of it.
#[derive(Debug, Drop, PartialEq, Eq)]
pub struct Asked<'a> {
    /// The names of the cells; without it all cells.
    pub cells: Option<Vec<&'a str>>,
    /// The layers; without it all elements.
    pub layers: Option<Vec<ChosenLayer>>,
    pub detail: Detail,
    pub format: Format,
    /// At most this many lines; without it all.
    pub limit: Option<u64>,
}

impl Asked<'_> {
    ghost use Rattle.oas_request.specs.Options.{AreOptions};

    /// The options of the run.
    pub fn options(&self) -> Options<'_>
        ensures { AreOptions self.now result }
    {
        Options {
            choice: Choice {
                cells: slice_of(&self.cells),
                layers: slice_of(&self.layers),
            },
            detail: self.detail,
            format: self.format,
            limit: self.limit,
        }
    }
}

/// The file for the markers, and how many there are at most.
#[derive(Clone, Copy, Debug, PartialEq, Eq)]
pub struct Markers<'a> {
    pub name: &'a str,
    pub most: u64,
}

/// How many markers there are at most, where no number is given.
const MOST_MARKERS: u64 = 100_000;

/// What is in a list, if there is one.
fn slice_of<T>(list: &Option<Vec<T>>) -> Option<&[T]>
    ensures { option_copied result ≡ option_map vec_items list.now }
{
    match list {
        Some(list) => Some(list.as_slice()),
        None => None,
    }
}

/// The task of `diff`, unless both files are standard input, or the markers would go to standard output.
pub fn diff_of<'a>(alloc: Global, found: &ArgMatches<'a>) -> Result<Option<Task<'a>>, AllocError> {
    let Some((first, second)) = two_of(found) else {
        return Ok(None);
    };
    let Some(markers) = markers_of(found) else {
        return Ok(None);
    };
    Ok(Some(Task::Diff {
        first,
        second,
        asked: asked_of(alloc, found)?,
        markers,
    }))
}

/// Where the markers go, if they are requested; nothing at all where that is standard output.
fn markers_of<'a>(found: &ArgMatches<'a>) -> Option<Option<Markers<'a>>> {
    let Some(word) = found.get_str("markers") else {
        return Some(None);
    };
    let name = file_of_word(word)?;
    let most = found
        .get_one::<u64>("markers-limit")
        .unwrap_or(MOST_MARKERS);
    Some(Some(Markers { name, most }))
}

/// What is compared, and what is printed.
fn asked_of<'a>(alloc: Global, found: &ArgMatches<'a>) -> Result<Asked<'a>, AllocError> {
    let detail = if found.get_flag("brief") {
        Detail::Counts
    } else {
        Detail::Elements
    };
    Ok(Asked {
        cells: cells_of(alloc, found)?,
        layers: layers_of(alloc, found)?,
        detail,
        format: format_of(found),
        limit: found.get_one::<u64>("limit"),
    })
}

/// How it is printed.
fn format_of(found: &ArgMatches<'_>) -> Format {
    let syntax = if found.get_flag("json") {
        Syntax::Json
    } else {
        Syntax::Lines
    };
    let measure = if found.get_str("unit") == Some("um") {
        Measure::Microns
    } else {
        Measure::Grid
    };
    Format { syntax, measure }
}

/// The names of the cells, where there is one.
fn cells_of<'a>(alloc: Global, found: &ArgMatches<'a>) -> Result<Option<Vec<&'a str>>, AllocError> {
    let Some(words) = found.get_strs("cell") else {
        return Ok(None);
    };
    let mut cells = Vec::with_capacity(alloc, words.len())?;
    for word in words {
        cells.push(*word)?;
    }
    Ok(Some(cells))
}

/// The layers, where there is one. A word that is no layer is left out.
fn layers_of(
    alloc: Global,
    found: &ArgMatches<'_>,
) -> Result<Option<Vec<ChosenLayer>>, AllocError> {
    let Some(words) = found.get_strs("layer") else {
        return Ok(None);
    };
    let mut layers = Vec::with_capacity(alloc, words.len())?;
    for word in words {
        if let Some(layer) = layer_of_word(word) {
            layers.push(layer)?;
        }
    }
    Ok(Some(layers))
}

/// Whether each word for a layer is one.
pub fn has_layers(found: &ArgMatches<'_>) -> bool {
    let words = found.get_strs("layer").unwrap_or(&[]);
    words.iter().all(|word| layer_of_word(word).is_some())
}

/// The layer that a word names by its number, `L`, or with a datatype, `L/D`.
fn layer_of_word(word: &str) -> Option<ChosenLayer> {
    match word.split_once('/') {
        Some((layer, datatype)) => Some(ChosenLayer {
            layer: number_of(layer)?,
            datatype: Some(number_of(datatype)?),
        }),
        None => Some(ChosenLayer {
            layer: number_of(word)?,
            datatype: None,
        }),
    }
}

/// The number that a word is.
fn number_of(word: &str) -> Option<u64> {
    match word.parse::<u64>() {
        Ok(number) => Some(number),
        Err(_) => None,
    }
}

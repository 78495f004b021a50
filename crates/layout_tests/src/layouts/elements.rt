//! Elements written as in a listing.

use oas_elements::{Element, Turns};
use oas_num::{Label, Name, Why};
use oas_ring::{Point, Points};
use std::alloc::Global;

/// The words of a line, read as numbers; a missing or a wrong one is 0.
#[derive(Clone, Copy)]
struct Words<'a> {
    rest: &'a str,
}

impl<'a> Words<'a> {
    fn text(&mut self) -> &'a str {
        let (word, rest) = self.rest.split_once(" ").unwrap_or((self.rest, ""));
        self.rest = rest;
        word
    }

    fn unsigned(&mut self) -> u64 {
        self.text().parse().unwrap_or(0)
    }

    fn signed(&mut self) -> i64 {
        self.text().parse().unwrap_or(0)
    }
}

pub(super) fn name(alloc: Global, text: &str) -> Result<Name, Why> {
    Name::new(alloc, text.as_bytes())
}

fn label(alloc: Global, text: &str) -> Result<Label, Why> {
    Label::new(alloc, text.as_bytes())
}

/// A string: a word, or a letter and how many of it, as in `a*600`.
fn string(alloc: Global, word: &str) -> Result<Label, Why> {
    match word.split_once("*") {
        Some((letter, times)) => {
            let letters = letter.repeat(alloc, times.parse().unwrap_or(0))?;
            label(alloc, &letters)
        }
        None => label(alloc, word),
    }
}

fn placement(alloc: Global, words: &mut Words<'_>) -> Result<Element, Why> {
    let cell = name(alloc, words.text())?;
    let x = words.signed();
    let y = words.signed();
    let turns = match words.unsigned() {
        0 => Turns::T0,
        1 => Turns::T1,
        2 => Turns::T2,
        _ => Turns::T3,
    };
    Ok(Element::Placement {
        cell,
        x,
        y,
        turns,
        flip: words.unsigned() == 1,
    })
}

/// A text's string comes last.
fn text(alloc: Global, words: &mut Words<'_>) -> Result<Element, Why> {
    let textlayer = words.unsigned();
    let texttype = words.unsigned();
    let x = words.signed();
    let y = words.signed();
    Ok(Element::Text {
        string: string(alloc, words.text())?,
        textlayer,
        texttype,
        x,
        y,
    })
}

fn rectangle(words: &mut Words<'_>) -> Element {
    Element::Rectangle {
        layer: words.unsigned(),
        datatype: words.unsigned(),
        width: words.unsigned(),
        height: words.unsigned(),
        x: words.signed(),
        y: words.signed(),
    }
}

fn circle(words: &mut Words<'_>) -> Element {
    Element::Circle {
        layer: words.unsigned(),
        datatype: words.unsigned(),
        radius: words.unsigned(),
        x: words.signed(),
        y: words.signed(),
    }
}

fn point(word: &str) -> Point {
    let (x, y) = word.split_once(",").unwrap_or(("", ""));
    Point {
        x: x.parse().unwrap_or(0),
        y: y.parse().unwrap_or(0),
    }
}

fn points(alloc: Global, words: &str) -> Result<Points, Why> {
    let mut list = Vec::new(alloc);
    for word in words.split_whitespace() {
        list.push(point(word))?;
    }
    Ok(Points::new(list))
}

fn polygon(alloc: Global, words: &mut Words<'_>) -> Result<Element, Why> {
    let layer = words.unsigned();
    let datatype = words.unsigned();
    Ok(Element::Polygon {
        layer,
        datatype,
        points: points(alloc, words.rest)?,
    })
}

fn path(alloc: Global, words: &mut Words<'_>) -> Result<Element, Why> {
    let layer = words.unsigned();
    let datatype = words.unsigned();
    let half_width = words.unsigned();
    let start = words.signed();
    let end = words.signed();
    Ok(Element::Path {
        layer,
        datatype,
        half_width,
        start,
        end,
        points: points(alloc, words.rest)?,
    })
}

/// The element of a line of a listing.
pub(super) fn element(alloc: Global, line: &str) -> Result<Element, Why> {
    let mut words = Words { rest: line };
    match words.text() {
        "placement" => placement(alloc, &mut words),
        "text" => text(alloc, &mut words),
        "rectangle" => Ok(rectangle(&mut words)),
        "polygon" => polygon(alloc, &mut words),
        "path" => path(alloc, &mut words),
        _ => Ok(circle(&mut words)),
    }
}

/// The element of a line, and one that equals it.
pub(super) fn twice(alloc: Global, line: &str) -> Result<(Element, Element), Why> {
    let given = element(alloc, line)?;
    Ok((given, element(alloc, line)?))
}

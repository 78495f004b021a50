//! An element without a repetition that has a name, which is still that of a modal variable.
ghost use Rattle.std.specs.Prelude.{◌≡◌, Some, IfOk};
ghost use Rattle.oas_drawing.specs.Drawn.{weight_so_far};
ghost use Rattle.oas_drawing.specs.Drawing.{placement_at, text_at};
ghost use Rattle.oas_drawing.specs.Named.{drawn_once};

use crate::drawn::Drawn;
use oas_elements::{Element, Turns};
use oas_record::{CellRef, TextRef};
use std::alloc::{AllocError, Global};

/// A placement or a text without a repetition, on the grid. Its name, or the number for one, is borrowed, so it allocates
/// nothing.
#[derive(Debug, Drop)]
pub enum DrawnOnce<'a> {
    Placement {
        cell: &'a CellRef,
        x: i64,
        y: i64,
        turns: Turns,
        flip: bool,
    },
    Text {
        string: &'a TextRef,
        textlayer: u64,
        texttype: u64,
        x: i64,
        y: i64,
    },
}

impl<'a> DrawnOnce<'a> {
    /// Its weight, as long as its number has no name.
    pub fn weight(&self) -> u64
        ensures { result ≡ weight_so_far (drawn_once self.now) }
    {
        match self {
            DrawnOnce::Placement {
                cell: CellRef::Name(name),
                ..
            } => 1 + name.as_bytes().len() as u64,
            DrawnOnce::Text {
                string: TextRef::Label(label),
                ..
            } => 1 + label.as_bytes().len() as u64,
            _ => 1,
        }
    }

    /// The same with a name of its own.
    pub fn try_drawn(&self, alloc: Global) -> Result<Drawn, AllocError>
        ensures { IfOk result (λ drawn. drawn ≡ drawn_once self.now) }
    {
        match self {
            DrawnOnce::Placement {
                cell,
                x,
                y,
                turns,
                flip,
            } => placed(alloc, cell, *x, *y, *turns, *flip),
            DrawnOnce::Text {
                string,
                textlayer,
                texttype,
                x,
                y,
            } => written(alloc, string, *textlayer, *texttype, *x, *y),
        }
    }
}

/// A placement of a cell, with a name of its own.
fn placed(
    alloc: Global,
    cell: &CellRef,
    x: i64,
    y: i64,
    turns: Turns,
    flip: bool,
) -> Result<Drawn, AllocError>
    ensures { IfOk result (λ drawn. placement_at (Some cell.now) turns flip (record { x = x; y = y }) ≡ Some drawn) }
{
    match cell {
        CellRef::Number(number) => Ok(Drawn::PlacementBy {
            number: *number,
            x,
            y,
            turns,
            flip,
        }),
        CellRef::Name(name) => Ok(Drawn::Named(Element::Placement {
            cell: name.try_clone(alloc)?,
            x,
            y,
            turns,
            flip,
        })),
    }
}

/// A text of a string of its own.
fn written(
    alloc: Global,
    string: &TextRef,
    textlayer: u64,
    texttype: u64,
    x: i64,
    y: i64,
) -> Result<Drawn, AllocError>
    ensures { IfOk result (λ drawn. text_at (Some string.now) (Some textlayer) (Some texttype) (record { x = x; y = y }) ≡ Some drawn) }
{
    match string {
        TextRef::Number(number) => Ok(Drawn::TextBy {
            number: *number,
            textlayer,
            texttype,
            x,
            y,
        }),
        TextRef::Label(label) => Ok(Drawn::Named(Element::Text {
            string: label.try_clone(alloc)?,
            textlayer,
            texttype,
            x,
            y,
        })),
    }
}

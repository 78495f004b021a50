//! The modal variables.
ghost use Rattle.std.specs.Prelude.{◌≡◌, cond};
ghost use Rattle.std.specs.Option.{option_or};
ghost use Rattle.oas_record.specs.declared.references.CellRef.{CellRef as OneCellRef};
ghost use Rattle.oas_record.specs.declared.records.Record.{Record as OneRecord};
ghost use Rattle.oas_drawing.specs.Positions.{IsNear};
ghost use Rattle.oas_drawing.specs.Values.{new_repetition};
ghost use Rattle.oas_drawing.specs.Modal.{fresh, moved_by, stepped};

use crate::positions::Position;
use oas_record::{CellRef, Spot, TextRef};
use oas_shape::{PointList, RepField, Repetition};
use std::marker::Model;

/// The modal variables (SEMI P39, Modal variables): the values of fields that aren't given. Each is None where no record
/// since the CELL gave it. Lengths are in grid steps.
#[derive(Debug, Drop)]
pub struct ModalVariables {
    /// One for all kinds of elements.
    pub(crate) repetition: Option<Repetition>,
    pub(crate) cell: Option<CellRef>,
    pub(crate) string: Option<TextRef>,
    pub(crate) textlayer: Option<u64>,
    pub(crate) texttype: Option<u64>,
    pub(crate) layer: Option<u64>,
    pub(crate) datatype: Option<u64>,
    pub(crate) width: Option<u64>,
    pub(crate) height: Option<u64>,
    pub(crate) polygon_points: Option<PointList>,
    pub(crate) path_points: Option<PointList>,
    pub(crate) half_width: Option<u64>,
    /// An extension is kept as a number. That of a half-width may be as large as one.
    pub(crate) start: Option<i128>,
    pub(crate) end: Option<i128>,
    pub(crate) radius: Option<u64>,
    /// Whether coordinates are relative.
    pub(crate) relative: bool,
    pub(crate) placement: Position,
    pub(crate) text: Position,
    pub(crate) geometry: Position,
}

impl Model for ModalVariables {
    ghost use Rattle.oas_drawing.specs.Modal.{ModalState};

    ghost Value = { ModalState };

    ghost view = { λ m. record {
      repetition = m.repetition;
      cell = m.cell;
      string = m.string;
      textlayer = m.textlayer;
      texttype = m.texttype;
      layer = m.layer;
      datatype = m.datatype;
      width = m.width;
      height = m.height;
      polygon_points = m.polygon_points;
      path_points = m.path_points;
      half_width = m.half_width;
      start = m.start;
      end = m.end;
      radius = m.radius;
      relative = m.relative;
      placement = m.placement;
      text = m.text;
      geometry = m.geometry;
    } };
}

impl ModalVariables {
    /// As a CELL leaves them: positions at the origin, absolute mode, and all others undefined.
    pub fn new() -> ModalVariables
        ensures { result ≡ fresh }
    {
        ModalVariables {
            repetition: None,
            cell: None,
            string: None,
            textlayer: None,
            texttype: None,
            layer: None,
            datatype: None,
            width: None,
            height: None,
            polygon_points: None,
            path_points: None,
            half_width: None,
            start: None,
            end: None,
            radius: None,
            relative: false,
            placement: Position::origin(),
            text: Position::origin(),
            geometry: Position::origin(),
        }
    }

    /// What a CELL sets, whichever it names.
    pub fn begin_cell(&mut self)
        ensures { (cell : OneCellRef) → self.new ≡ stepped self.old (OneRecord.Cell cell) }
    {
        *self = ModalVariables::new();
    }

    /// XYRELATIVE, or XYABSOLUTE (SEMI P39, XYRELATIVE and XYABSOLUTE records).
    pub fn set_relative(&mut self, relative: bool)
        ensures { self.new ≡ stepped self.old (cond relative OneRecord.XyRelative OneRecord.XyAbsolute) }
    {
        self.relative = relative;
    }

    /// Whether coordinates are relative.
    #[inline(always)]
    pub fn is_relative(&self) -> bool
        ensures { result ≡ self.now.relative }
    {
        self.relative
    }

    /// What all kinds of geometry set. A repetition is taken from the record.
    #[inline(always)]
    pub(crate) fn draw(&mut self, layer: Option<u64>, datatype: Option<u64>, spot: &mut Spot)
        requires { IsNear self.old.geometry }
        ensures { self.new ≡ record self.old {
          repetition = option_or (new_repetition spot.old.repetition) self.old.repetition;
          layer = option_or layer self.old.layer;
          datatype = option_or datatype self.old.datatype;
          geometry = moved_by self.old.relative self.old.geometry spot.old;
        } }
    {
        set(&mut self.layer, layer);
        set(&mut self.datatype, datatype);
        self.geometry = self.geometry.moved_by(self.relative, spot);
        take_repetition(&mut self.repetition, &mut spot.repetition);
    }
}

/// A field that is given sets its variable.
#[inline(always)]
pub(crate) fn set<T: Copy + Drop>(variable: &mut Option<T>, given: Option<T>)
    ensures { variable.new ≡ option_or given variable.old }
{
    if given.is_some() {
        *variable = given;
    }
}

/// A field that is given and owns memory is moved, and sets its variable.
pub(crate) fn take_given<T: Drop>(variable: &mut Option<T>, given: &mut Option<T>)
    ensures { variable.new ≡ option_or given.old variable.old }
{
    if given.is_some() {
        *variable = given.take();
    }
}

/// A repetition that is given is moved, and sets the variable. Type 0 doesn't.
#[inline]
pub(crate) fn take_repetition(variable: &mut Option<Repetition>, given: &mut Option<RepField>)
    ensures { variable.new ≡ option_or (new_repetition given.old) variable.old }
{
    if given.is_none() {
        return;
    }
    if let Some(RepField::New(repetition)) = given.take() {
        *variable = Some(repetition);
    }
}

mod checking;
pub(crate) mod copying;
pub(crate) mod drawing;
mod named;

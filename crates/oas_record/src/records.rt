//! Any record, by its id.
ghost use Rattle.std.specs.Prelude.{◌≡◌, ◌≢◌, ◌<◌, ◌≤◌, Bool};
ghost use Rattle.oas_num.specs.Reading.{ReadsPiece};
ghost use Rattle.oas_num.specs.Style.{Any};
ghost use Rattle.oas_record.specs.Refusals.{AfterTook, RecordTook, ReadsAt, is_known, IsKnown, RefusesId};

use crate::circles::Circle;
use crate::ends::read_end;
use crate::name_records::{read_cell_name, read_text_string};
use crate::paths::Path;
use crate::placements::{Placement, Turn};
use crate::polygons::Polygon;
use crate::rectangles::Rectangle;
use crate::references::{CellRef, read_cell};
use crate::texts::Text;
use oas_num::{Label, Name, Refusal, Source, Why, read_unsigned};
use std::alloc::Global;

/// How long END is, in bytes, its id included.
const END_LENGTH: u64 = 256;

/// A record of the file, except START (SEMI P39, records).
#[derive(Debug, Drop)]
pub enum Record {
    /// Id 0.
    Pad,
    /// Id 2.
    End,
    /// Id 3 without a number, and 4 with one.
    CellName { name: Name, number: Option<u64> },
    /// Id 5 without a number, and 6 with one.
    TextString { label: Label, number: Option<u64> },
    /// Id 13 by a number, and 14 by a name.
    Cell(CellRef),
    /// Id 15.
    XyAbsolute,
    /// Id 16.
    XyRelative,
    /// Id 17 with quarter turns, and 18 with degrees.
    Placement(Placement),
    /// Id 19.
    Text(Text),
    /// Id 20.
    Rectangle(Rectangle),
    /// Id 21.
    Polygon(Polygon),
    /// Id 22.
    Path(Path),
    /// Id 27.
    Circle(Circle),
}

/// Whether the profile has records of that id. START, which is read by itself, is none of them.
#[tactic(auto, unfolding(crate::specs::Refusals::is_known))]
pub fn is_known(id: u64) -> bool
    ensures { result ≡ is_known id }
{
    matches!(id, 0 | 2..=6 | 13..=22 | 27)
}

/// Why no record may have that id here, if so. The ids of the standard that are left out are an own rule.
fn refused_id(id: u64) -> Option<Why>
    ensures { RefusesId id result }
{
    if id == 1 {
        return Some(Why::OutOfPlace(id));
    }
    if id > 34 {
        return Some(Why::UnknownRecord(id));
    }
    if is_known(id) {
        None
    } else {
        Some(Why::RecordLeftOut(id))
    }
}

impl Record {
    ghost use Rattle.oas_record.specs.Records.{id_of, is_end, record_in, after_id};

    /// Reads a record, given the place of the table-offsets from START. The place of a refusal is that of the record's first
    /// byte.
    ///
    /// Ids that the profile leaves out are refused with `RecordLeftOut`, those that the standard doesn't have with
    /// `UnknownRecord`, and START with `OutOfPlace`. END is refused with `ValidationScheme` before `EndLength`. What can't be
    /// read whole is refused with a reason of reading.
    pub fn read<S: Source>(
        alloc: Global,
        source: &mut S,
        flag_in_end: bool,
    ) -> Result<Record, Refusal>
        ensures { ReadsAt (record_in Any flag_in_end) (RecordTook flag_in_end) (S.script source.old) result (S.script source.new) }
    {
        let at = source.at();
        match Record::read_whole(alloc, flag_in_end, source) {
            Ok(record) => Ok(record),
            Err(why) => Err(Refusal { at, why }),
        }
    }

    /// Its id (SEMI P39, records).
    pub fn id(&self) -> u64
        ensures { result ≡ id_of self.now }
    {
        match self {
            Record::Pad => 0,
            Record::End => 2,
            Record::CellName { number: None, .. } => 3,
            Record::CellName { .. } => 4,
            Record::TextString { number: None, .. } => 5,
            Record::TextString { .. } => 6,
            Record::Cell(CellRef::Number(_)) => 13,
            Record::Cell(CellRef::Name(_)) => 14,
            Record::XyAbsolute => 15,
            Record::XyRelative => 16,
            Record::Placement(placed) => match placed.turn {
                Turn::Quarters(_) => 17,
                Turn::Degrees { .. } => 18,
            },
            Record::Text(_) => 19,
            Record::Rectangle(_) => 20,
            Record::Polygon(_) => 21,
            Record::Path(_) => 22,
            Record::Circle(_) => 27,
        }
    }

    /// Whether it ends the file.
    pub fn is_end(&self) -> bool
        ensures { result ≡ is_end self.now }
    {
        matches!(self, Record::End)
    }

    /// A record: an id, and what follows it. END has to be 256 bytes, its id included.
    fn read_whole<S: Source>(alloc: Global, in_end: bool, source: &mut S) -> Result<Record, Why>
        ensures { ReadsPiece (record_in Any in_end) (RecordTook in_end) (S.script source.old) result (S.script source.new) }
    {
        let start = source.at();
        let id = read_unsigned(source)?;
        if let Some(why) = refused_id(id) {
            return Err(why);
        }
        if id == 2 {
            read_end(alloc, in_end, source)?;
            let length = source.at() - start;
            if length != END_LENGTH {
                return Err(Why::EndLength);
            }
            return Ok(Record::End);
        }
        Record::read_after(alloc, id, source)
    }

    /// What follows an id of the profile, except that of END. Where a record is its id alone, nothing is taken.
    pub fn read_after<S: Source>(alloc: Global, id: u64, source: &mut S) -> Result<Record, Why>
        requires known { IsKnown id }
        requires inner { id ≢ 2 }
        ensures { (in_end : Bool) → ReadsPiece (after_id Any in_end id) (AfterTook in_end id) (S.script source.old) result (S.script source.new) }
    {
        if id <= 16 {
            Record::read_structure(alloc, id, source)
        } else {
            Record::read_element(alloc, id, source)
        }
    }

    /// What follows the id of a record that is neither END nor an element.
    fn read_structure<S: Source>(alloc: Global, id: u64, source: &mut S) -> Result<Record, Why>
        requires known { IsKnown id }
        requires inner { id ≢ 2 }
        requires below { id ≤ 16 }
        ensures { (in_end : Bool) → ReadsPiece (after_id Any in_end id) (AfterTook in_end id) (S.script source.old) result (S.script source.new) }
    {
        if id == 0 {
            return Ok(Record::Pad);
        }
        if id <= 4 {
            let (name, number) = read_cell_name(alloc, id == 4, source)?;
            return Ok(Record::CellName { name, number });
        }
        if id <= 6 {
            let (label, number) = read_text_string(alloc, id == 6, source)?;
            return Ok(Record::TextString { label, number });
        }
        if id <= 14 {
            let cell = read_cell(alloc, id == 13, source)?;
            return Ok(Record::Cell(cell));
        }
        if id == 15 {
            return Ok(Record::XyAbsolute);
        }
        Ok(Record::XyRelative)
    }

    /// What follows the id of an element.
    fn read_element<S: Source>(alloc: Global, id: u64, source: &mut S) -> Result<Record, Why>
        requires known { IsKnown id }
        requires above { 16 < id }
        ensures { (in_end : Bool) → ReadsPiece (after_id Any in_end id) (AfterTook in_end id) (S.script source.old) result (S.script source.new) }
    {
        match id {
            17 => Ok(Record::Placement(Placement::read_quarters(alloc, source)?)),
            18 => Ok(Record::Placement(Placement::read_degrees(alloc, source)?)),
            19 => Ok(Record::Text(Text::read(alloc, source)?)),
            20 => Ok(Record::Rectangle(Rectangle::read(alloc, source)?)),
            21 => Ok(Record::Polygon(Polygon::read(alloc, source)?)),
            22 => Ok(Record::Path(Path::read(alloc, source)?)),
            _ => Ok(Record::Circle(Circle::read(alloc, source)?)),
        }
    }
}

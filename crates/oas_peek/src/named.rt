//! A placement or a text at the start of bytes: an element with a name, or with a number for one.
ghost use Rattle.std.specs.Prelude.{◌↔◌, IsTrue, IfSome};
ghost use Rattle.oas_record.specs.Placements.{IsCanonicalPlacement};
ghost use Rattle.oas_peek.specs.Named.{HasValidName, IsPeekedNamed, ConsumesGiven, ConsumesNamed};

use crate::fronts::Front;
use crate::rectangles::take_layers;
use oas_num::{Label, Name};

/// The id of a placement record with quarter turns (SEMI P39, PLACEMENT records).
pub(crate) const PLACEMENT: u8 = 17;

/// The id of a text record (SEMI P39, TEXT record).
pub(crate) const TEXT: u8 = 19;

/// The info byte of a text that gives its string itself, all other fields, and no repetition.
const ALL_FIELDS: u8 = 0x5B;

/// How a record gives the cell that it places, or the string that it writes.
#[derive(Debug, Drop)]
pub enum Given<'a> {
    /// Not at all: the modal one is used.
    Modal,
    /// The number of a name record.
    Number(u64),
    /// The name or the string of these bytes.
    Bytes(&'a [u8]),
}

/// A placement or a text without a repetition, as its record gives it.
#[derive(Debug, Drop)]
pub enum NamedOnce<'a> {
    Placement {
        cell: Given<'a>,
        /// Quarter turns counterclockwise, 0 to 3.
        quarters: u8,
        /// Flipped about the x axis, before the turns.
        flip: bool,
        x: Option<i64>,
        y: Option<i64>,
    },
    Text {
        string: Given<'a>,
        textlayer: Option<u64>,
        texttype: Option<u64>,
        x: Option<i64>,
        y: Option<i64>,
    },
}

impl<'a> NamedOnce<'a> {
    /// Whether the bytes that are given for a cell are a name, and those for a string are one.
    #[inline(always)]
    fn is_named(&self) -> bool
        ensures { IsTrue result ↔ HasValidName self.now }
    {
        match self {
            NamedOnce::Placement {
                cell: Given::Bytes(bytes),
                ..
            } => Name::is_name(bytes),
            NamedOnce::Text {
                string: Given::Bytes(bytes),
                ..
            } => Label::is_label(bytes),
            _ => true,
        }
    }
}

/// A placement or a text without a repetition, at the start of some bytes.
#[derive(Debug, Drop)]
pub struct PeekedNamed<'a> {
    pub element: NamedOnce<'a>,
    /// How many bytes spell its record, the id included.
    pub length: usize,
    /// Whether they spell it in the shortest style: the name and all fields are given, each number in as few bytes as it
    /// needs.
    pub shortest: bool,
}

/// A cell or a string, where there is one, by its number or itself.
#[inline(always)]
fn take_given<'a>(front: &mut Front<'a>, here: bool, numbered: bool) -> Option<Given<'a>>
    ensures { IfSome result (λ given. ConsumesGiven here numbered given front.old front.new) }
{
    if !here {
        return Some(Given::Modal);
    }
    let number = front.unsigned()?;
    if numbered {
        return Some(Given::Number(number));
    }
    Some(Given::Bytes(front.bytes(number)?))
}

/// Whether a placement with that info byte gives the cell by its name, x, y, and no repetition.
#[inline]
fn gives_all(info: u8) -> bool
    ensures { IsTrue result ↔ IsCanonicalPlacement info }
{
    info >= 176 && info < 184
}

/// A placement, after its id.
#[inline(always)]
fn take_placement<'a>(front: &mut Front<'a>) -> Option<NamedOnce<'a>>
    ensures { IfSome result (λ element. ConsumesNamed 17 element front.old front.new) }
{
    let info = front.byte()?;
    if info & 8 != 0 {
        return None;
    }
    let cell = take_given(front, info & 128 != 0, info & 64 != 0)?;
    let x = front.signed_if(info & 32 != 0)?;
    let y = front.signed_if(info & 16 != 0)?;
    front.note(gives_all(info));
    Some(NamedOnce::Placement {
        cell,
        quarters: info / 2 % 4,
        flip: info % 2 == 1,
        x,
        y,
    })
}

/// A text, after its id.
#[inline(always)]
fn take_text<'a>(front: &mut Front<'a>) -> Option<NamedOnce<'a>>
    ensures { IfSome result (λ element. ConsumesNamed 19 element front.old front.new) }
{
    let info = front.byte()?;
    if info >= 128 || info & 4 != 0 {
        return None;
    }
    let string = take_given(front, info & 64 != 0, info & 32 != 0)?;
    let (textlayer, texttype) = take_layers(front, info)?;
    let x = front.signed_if(info & 16 != 0)?;
    let y = front.signed_if(info & 8 != 0)?;
    front.note(info == ALL_FIELDS);
    Some(NamedOnce::Text {
        string,
        textlayer,
        texttype,
        x,
        y,
    })
}

/// The placement or the text that the bytes begin with, where it has no repetition and each of its numbers has at most nine
/// bytes. None also where the bytes end before it does, or begin with anything else.
#[inline(always)]
pub fn peek_named(bytes: &[u8]) -> Option<PeekedNamed<'_>>
    ensures { IfSome result (λ ahead. IsPeekedNamed bytes.now ahead) }
{
    let mut front = Front::of(bytes);
    let element = match front.byte()? {
        PLACEMENT => take_placement(&mut front)?,
        TEXT => take_text(&mut front)?,
        _ => return None,
    };
    if !element.is_named() {
        return None;
    }
    Some(PeekedNamed {
        element,
        length: bytes.len() - front.left().len(),
        shortest: front.is_shortest(),
    })
}

//! A rectangle at the start of bytes.
ghost use Rattle.std.specs.Prelude.{◌≡◌, ◌↔◌, IsTrue, None, IfSome};
ghost use Rattle.oas_record.specs.Fields.{layers, spot};
ghost use Rattle.oas_record.specs.Info.{has};
ghost use Rattle.oas_peek.specs.Peeked.{IsPeeked, IsOnceInfo, ConsumesFields};
ghost use Rattle.oas_peek.specs.Fronts.{ConsumesPrefix};

use crate::fronts::Front;
use oas_record::{Rectangle, Spot};

/// The id of a rectangle record (SEMI P39, RECTANGLE record).
pub(crate) const RECTANGLE: u8 = 20;

/// The info byte of a rectangle that gives all its fields, and no repetition.
const ALL_FIELDS: u8 = 0x7B;

/// A rectangle without a repetition, at the start of some bytes.
#[derive(Debug, Drop)]
pub struct PeekedRectangle {
    pub rectangle: Rectangle,
    /// How many bytes spell its record, the id included.
    pub length: usize,
    /// Whether they spell it in the shortest style: all fields are given, each number in as few bytes as it needs.
    pub shortest: bool,
}

/// Whether a rectangle has that info byte, and gives no repetition.
#[inline]
fn is_once(info: u8) -> bool
    ensures { IsTrue result ↔ IsOnceInfo info }
{
    info & 160 != 160 && info & 4 == 0
}

/// Layer and datatype, each where it is given.
#[inline(always)]
pub(crate) fn take_layers(front: &mut Front<'_>, info: u8) -> Option<(Option<u64>, Option<u64>)>
    ensures { IfSome result (λ both. ConsumesPrefix (layers info) both front.old front.new) }
{
    let layer = front.unsigned_if(info & 1 != 0)?;
    let datatype = front.unsigned_if(info & 2 != 0)?;
    Some((layer, datatype))
}

/// x and y, each where it is given.
#[inline(always)]
fn take_spot(front: &mut Front<'_>, info: u8) -> Option<Spot>
    requires { IsOnceInfo info }
    ensures { IfSome result (λ at. ConsumesPrefix (spot (has info 16) (has info 8) (has info 4)) at front.old front.new × (at.repetition ≡ None)) }
{
    let x = front.signed_if(info & 16 != 0)?;
    let y = front.signed_if(info & 8 != 0)?;
    Some(Spot {
        x,
        y,
        repetition: None,
    })
}

/// The fields of a rectangle, after its info byte.
#[inline(always)]
fn take_fields(front: &mut Front<'_>, info: u8) -> Option<Rectangle>
    requires { IsOnceInfo info }
    ensures { IfSome result (λ drawn. ConsumesFields info drawn front.old front.new) }
{
    let (layer, datatype) = take_layers(front, info)?;
    let width = front.unsigned_if(info & 64 != 0)?;
    let height = front.unsigned_if(info & 32 != 0)?;
    let spot = take_spot(front, info)?;
    Some(Rectangle {
        square: info & 128 != 0,
        layer,
        datatype,
        width,
        height,
        spot,
    })
}

/// The rectangle that the bytes begin with, where it has that info byte.
///
/// It is inlined, so that no bit of a constant info byte is tested.
#[inline(always)]
fn peek_with(bytes: &[u8], info: u8) -> Option<PeekedRectangle>
    requires { IsOnceInfo info }
    ensures { IfSome result (λ ahead. IsPeeked bytes.now ahead) }
{
    let mut front = Front::of(bytes);
    if front.byte()? != RECTANGLE || front.byte()? != info {
        return None;
    }
    let rectangle = take_fields(&mut front, info)?;
    front.note(info == ALL_FIELDS);
    Some(PeekedRectangle {
        rectangle,
        length: bytes.len() - front.left().len(),
        shortest: front.is_shortest(),
    })
}

/// The same of a rectangle that leaves out some fields.
#[inline(never)]
fn peek_partly(bytes: &[u8], info: u8) -> Option<PeekedRectangle>
    requires { IsOnceInfo info }
    ensures { IfSome result (λ ahead. IsPeeked bytes.now ahead) }
{
    peek_with(bytes, info)
}

/// The rectangle that the bytes begin with, where it gives all its fields and no repetition, each number in at most nine
/// bytes. None also where the bytes end before it does, or begin with anything else.
///
/// It is inlined, so that its caller tests for no field whether it is given.
#[inline(always)]
pub fn peek_full_rectangle(bytes: &[u8]) -> Option<PeekedRectangle>
    ensures { IfSome result (λ ahead. IsPeeked bytes.now ahead) }
{
    peek_with(bytes, ALL_FIELDS)
}

/// The rectangle that the bytes begin with, where it has no repetition and each of its numbers has at most nine bytes. None
/// also where the bytes end before it does, or begin with anything else.
pub fn peek_rectangle(bytes: &[u8]) -> Option<PeekedRectangle>
    ensures { IfSome result (λ ahead. IsPeeked bytes.now ahead) }
{
    let [RECTANGLE, info, ..] = bytes else {
        return None;
    };
    if *info == ALL_FIELDS {
        return peek_full_rectangle(bytes);
    }
    if !is_once(*info) {
        return None;
    }
    peek_partly(bytes, *info)
}

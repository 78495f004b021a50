//! Any record, by its id.
ghost use Rattle.std.specs.Prelude.{◌≡◌, ◌≢◌, ◌≤◌, Bool, true};
ghost use Rattle.oas_num.specs.Reading.{ReadsPiece};
ghost use Rattle.oas_standard.specs.WideRecords.{foreign, is_profile_id, IsForeignId, RefusesWideId, ReadsWide, ReadsWideAt};

use crate::blocks::BlockHead;
use crate::ends::WideEnd;
use crate::extensions::ExtensionGeometry;
use crate::layer_names::LayerName;
use crate::long::read_long;
use crate::placements::WidePlacement;
use crate::properties::Property;
use crate::reasons::{WideRefusal, WideWhy, named};
use crate::strings::{read_attributed, read_string};
use crate::trapezoids::{NamedTrapezoid, Trapezoid};
use oas_long_integers::read_after;
use oas_num::{Padding, Source, Why};
use oas_record::{Record, is_known};
use std::alloc::Global;

/// How long END is, in bytes, its id and its signature included.
const END_LENGTH: u64 = 256;

/// A record of a file of the standard, except START (SEMI P39, records).
#[derive(Debug, Drop)]
pub enum WideRecord {
    /// A record that is as the profile has it: neither END nor one with reals.
    Profile(Record),
    /// Id 2.
    End(WideEnd),
    /// Id 7 without a number, and 8 with one.
    PropertyName {
        name: Padding,
        number: Option<u64>,
    },
    /// Id 9 without a number, and 10 with one.
    PropertyString {
        string: Padding,
        number: Option<u64>,
    },
    /// Id 11: of layers and datatypes.
    LayerName(LayerName),
    /// Id 12: of textlayers and texttypes.
    TextLayerName(LayerName),
    /// Id 18: by reals. Id 17 is the profile's.
    Placement(WidePlacement),
    /// Ids 23, 24 and 25.
    Trapezoid(Trapezoid),
    /// Id 26.
    NamedTrapezoid(NamedTrapezoid),
    /// Id 28.
    Property(Property),
    /// Id 29: the last property again.
    LastProperty,
    /// Id 30 without a number, and 31 with one.
    ExtensionName {
        attribute: u64,
        string: Padding,
        number: Option<u64>,
    },
    /// Id 32.
    ExtensionElement {
        attribute: u64,
        string: Padding,
    },
    /// Id 33.
    ExtensionGeometry(ExtensionGeometry),
    /// Id 34. The block's bytes come after it.
    Block(BlockHead),
}

/// Why no record may have that id here, if so.
fn refused_id(id: u64) -> Option<Why>
    ensures { RefusesWideId id result }
{
    if id == 1 {
        return Some(Why::OutOfPlace(id));
    }
    if id > 34 {
        return Some(Why::UnknownRecord(id));
    }
    None
}

/// Whether what follows that id is as in the profile, where END has no signature and placements have no floats.
fn is_profile_id(id: u64) -> bool
    ensures is { result ≡ is_profile_id id }
    ensures inner { result ≡ true → (id ≢ 2) × (id ≢ 18) }
{
    id != 2 && id != 18 && is_known(id)
}

/// What follows the id of a name that isn't in the profile: 7 to 12.
fn read_name<S: Source>(alloc: Global, id: u64, source: &mut S) -> Result<WideRecord, Why>
    requires above { 7 ≤ id }
    requires below { id ≤ 12 }
    ensures { (in_end : Bool) → ReadsPiece (foreign in_end id).any (foreign in_end id).took (S.script source.old) result (S.script source.new) }
{
    if id <= 8 {
        let (name, number) = read_string(alloc, id == 8, source)?;
        return Ok(WideRecord::PropertyName { name, number });
    }
    if id <= 10 {
        let (string, number) = read_string(alloc, id == 10, source)?;
        return Ok(WideRecord::PropertyString { string, number });
    }
    let name = LayerName::read(alloc, source)?;
    if id == 11 {
        Ok(WideRecord::LayerName(name))
    } else {
        Ok(WideRecord::TextLayerName(name))
    }
}

/// What follows the id of a trapezoid: 23 to 26.
fn read_trapezoid<S: Source>(alloc: Global, id: u64, source: &mut S) -> Result<WideRecord, Why>
    requires above { 23 ≤ id }
    requires below { id ≤ 26 }
    ensures { (in_end : Bool) → ReadsPiece (foreign in_end id).any (foreign in_end id).took (S.script source.old) result (S.script source.new) }
{
    if id == 26 {
        let named = NamedTrapezoid::read(alloc, source)?;
        return Ok(WideRecord::NamedTrapezoid(named));
    }
    let trapezoid = Trapezoid::read(alloc, id != 25, id != 24, source)?;
    Ok(WideRecord::Trapezoid(trapezoid))
}

/// What follows the id of an extension: 30 to 33.
fn read_extension<S: Source>(alloc: Global, id: u64, source: &mut S) -> Result<WideRecord, Why>
    requires above { 30 ≤ id }
    requires below { id ≤ 33 }
    ensures { (in_end : Bool) → ReadsPiece (foreign in_end id).any (foreign in_end id).took (S.script source.old) result (S.script source.new) }
{
    if id == 33 {
        let geometry = ExtensionGeometry::read(alloc, source)?;
        return Ok(WideRecord::ExtensionGeometry(geometry));
    }
    let (attribute, (string, number)) = read_attributed(alloc, id == 31, source)?;
    if id == 32 {
        Ok(WideRecord::ExtensionElement { attribute, string })
    } else {
        Ok(WideRecord::ExtensionName {
            attribute,
            string,
            number,
        })
    }
}

/// What follows an id of the standard that isn't as in the profile, except that of END.
fn read_foreign<S: Source>(alloc: Global, id: u64, source: &mut S) -> Result<WideRecord, Why>
    requires { IsForeignId id }
    ensures { (in_end : Bool) → ReadsPiece (foreign in_end id).any (foreign in_end id).took (S.script source.old) result (S.script source.new) }
{
    if id <= 12 {
        return read_name(alloc, id, source);
    }
    if id == 18 {
        let placement = WidePlacement::read(alloc, source)?;
        return Ok(WideRecord::Placement(placement));
    }
    if id <= 26 {
        return read_trapezoid(alloc, id, source);
    }
    if id == 28 {
        let property = Property::read(alloc, source)?;
        return Ok(WideRecord::Property(property));
    }
    if id == 29 {
        return Ok(WideRecord::LastProperty);
    }
    if id <= 33 {
        return read_extension(alloc, id, source);
    }
    let head = BlockHead::read(source)?;
    Ok(WideRecord::Block(head))
}

/// A record: an id in any number of bytes, and what follows it. END has to be 256 bytes, its id and its signature included.
fn read_whole<S: Source>(alloc: Global, in_end: bool, source: &mut S) -> Result<WideRecord, WideWhy>
    ensures { ReadsWide in_end (S.script source.old) result (S.script source.new) }
{
    let start = source.at();
    let id = read_long(source)?;
    if let Some(why) = refused_id(id) {
        return Err(WideWhy::Profile(why));
    }
    if id == 2 {
        let end = WideEnd::read(in_end, source)?;
        let length = source.at() - start;
        if length != END_LENGTH {
            return Err(WideWhy::Profile(Why::EndLength));
        }
        return Ok(WideRecord::End(end));
    }
    if is_profile_id(id) {
        return match read_after(alloc, id, source) {
            Ok(record) => Ok(WideRecord::Profile(record)),
            Err(why) => Err(named(id, why)),
        };
    }
    match read_foreign(alloc, id, source) {
        Ok(record) => Ok(record),
        Err(why) => Err(named(id, why)),
    }
}

impl WideRecord {
    /// Reads a record, given the place of the table-offsets from START. The place of a refusal is that of the record's first
    /// byte.
    ///
    /// Ids that the standard doesn't have are refused with `UnknownRecord`, and START with `OutOfPlace`. END is refused with
    /// `ValidationScheme` before `EndLength`.
    pub fn read<S: Source>(
        alloc: Global,
        source: &mut S,
        flag_in_end: bool,
    ) -> Result<WideRecord, WideRefusal>
        ensures { ReadsWideAt flag_in_end (S.script source.old) result (S.script source.new) }
    {
        let at = source.at();
        match read_whole(alloc, flag_in_end, source) {
            Ok(record) => Ok(record),
            Err(why) => Err(WideRefusal { at, why }),
        }
    }
}

//! The role of a record of the standard in a file of the profile.
ghost use Rattle.std.specs.Prelude.{◌≡◌};
ghost use Rattle.oas_narrow.specs.Roles.{plain_role, trapezoid_id, role_of, opens, outside, unnamed, obstacle_by, extra_of, counted_if};

use crate::dropping::{Dropping, Extra, Report};
use oas_block::{Trapezoid, WideRecord, WideWhy};
use oas_num::Why;
use oas_record::Record;

/// The role of a record of the standard in a file of the profile.
#[derive(Clone, Copy, Debug, PartialEq, Eq)]
pub enum Role {
    /// A CELL, which opens a cell.
    Cell,
    /// A name of the profile (CELLNAME, TEXTSTRING), after which no cell is open.
    Name,
    /// An element with this id, which is translated to records of the profile and requires an open cell.
    Element(u64),
    /// Another record of the profile.
    Other,
    /// A record that may be left out, and is no element.
    Extra(Extra),
    /// An element of an extension, with this id, which may be left out and requires an open cell.
    Extension(u64),
    /// A record with this id, which is none of a file's records: END, or a CBLOCK.
    Missing(u64),
}

/// The id of a TRAPEZOID, by the deltas that it has.
fn trapezoid_id(next: &Trapezoid) -> u64
    ensures { result ≡ trapezoid_id next.now }
{
    if next.delta_a.is_none() {
        25
    } else if next.delta_b.is_none() {
        24
    } else {
        23
    }
}

/// Why an element stops the file where no cell is open.
fn outside(is_open: bool, id: u64) -> Option<WideWhy>
    ensures { result ≡ outside is_open id }
{
    if is_open {
        None
    } else {
        Some(WideWhy::Profile(Why::OutOfPlace(id)))
    }
}

/// Why a record stops the file, if it isn't named to be left out.
fn unnamed(is_named: bool, extra: Extra) -> Option<WideWhy>
    ensures { result ≡ unnamed is_named extra }
{
    if is_named {
        None
    } else {
        Some(extra.undropped())
    }
}

impl Role {
    /// The role of a record of the profile.
    pub fn of_plain(next: &Record) -> Role
        ensures { result ≡ plain_role next.now }
    {
        match next {
            Record::Pad | Record::End | Record::XyAbsolute | Record::XyRelative => Role::Other,
            Record::CellName { .. } | Record::TextString { .. } => Role::Name,
            Record::Cell(_) => Role::Cell,
            _ => Role::Element(next.id()),
        }
    }

    /// The role of a record.
    pub fn of(next: &WideRecord) -> Role
        ensures { result ≡ role_of next.now }
    {
        match next {
            WideRecord::Profile(kept) => Role::of_plain(kept),
            WideRecord::End(_) => Role::Missing(2),
            WideRecord::PropertyName { .. } | WideRecord::PropertyString { .. } => {
                Role::Extra(Extra::PropertyName)
            }
            WideRecord::Property(_) | WideRecord::LastProperty => Role::Extra(Extra::Property),
            WideRecord::LayerName(_) | WideRecord::TextLayerName(_) => {
                Role::Extra(Extra::LayerName)
            }
            WideRecord::ExtensionName { .. } => Role::Extra(Extra::ExtensionName),
            WideRecord::ExtensionElement { .. } => Role::Extension(32),
            WideRecord::Placement(_) => Role::Element(18),
            WideRecord::Trapezoid(trapezoid) => Role::Element(trapezoid_id(trapezoid)),
            WideRecord::NamedTrapezoid(_) => Role::Element(26),
            WideRecord::ExtensionGeometry(_) => Role::Extension(33),
            WideRecord::Block(_) => Role::Missing(34),
        }
    }

    /// Whether a cell is open after it: a CELL opens one, and name records, also those that are left out, close it.
    pub fn opens(self, was_open: bool) -> bool
        ensures { result ≡ opens was_open self }
    {
        match self {
            Role::Cell => true,
            Role::Name => false,
            Role::Extra(extra) => was_open && !extra.is_name(),
            Role::Element(_) | Role::Other | Role::Extension(_) | Role::Missing(_) => was_open,
        }
    }

    /// Why it isn't prepared, by what is named to be left out and whether a cell is open. Refusals of the records that it is
    /// translated to come after this.
    pub fn obstacle(self, dropping: Dropping, is_open: bool) -> Option<WideWhy>
        ensures { result ≡ obstacle_by dropping is_open self }
    {
        match self {
            Role::Element(id) => outside(is_open, id),
            Role::Extra(extra) => unnamed(dropping.has(extra), extra),
            Role::Extension(_) if !dropping.extensions => Some(WideWhy::Extensions),
            Role::Extension(id) => outside(is_open, id),
            Role::Missing(id) => Some(WideWhy::Profile(Why::RecordLeftOut(id))),
            Role::Cell | Role::Name | Role::Other => None,
        }
    }

    /// Counts it, if it is one that is left out.
    pub fn count(self, report: &mut Report)
        ensures { report.new ≡ counted_if report.old (extra_of self) }
    {
        match self {
            Role::Extra(extra) => report.count(extra),
            Role::Extension(_) => report.count(Extra::ExtensionElement),
            Role::Cell | Role::Name | Role::Element(_) | Role::Other | Role::Missing(_) => {}
        }
    }
}

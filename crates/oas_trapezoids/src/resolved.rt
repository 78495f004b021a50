//! The translation of a record of the standard.
ghost use Rattle.std.specs.Prelude.{◌≡◌};
ghost use Rattle.oas_trapezoids.specs.Tracked.{handed, placed};

use oas_record::Record;

/// The records of the profile that a record of the standard is translated to.
#[derive(Debug, Drop)]
pub enum Resolved {
    /// None.
    Nothing,
    /// One.
    One(Record),
    /// One with absolute coordinates, between an XYABSOLUTE and an XYRELATIVE.
    Absolute(Record),
}

impl Resolved {
    /// Geometry with absolute coordinates, whether the mode is relative or not.
    pub(crate) fn placed(is_relative: bool, geometry: Record) -> Resolved
        ensures { handed result ≡ placed is_relative geometry }
    {
        if is_relative {
            Resolved::Absolute(geometry)
        } else {
            Resolved::One(geometry)
        }
    }
}

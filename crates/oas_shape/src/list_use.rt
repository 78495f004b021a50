//! The use of a point list.
ghost use Rattle.std.specs.Prelude.{◌↔◌, IsTrue};
ghost use Rattle.oas_shape.specs.ListUses.{IsFitting};

/// The use of a point list: a polygon is closed, and a path isn't.
#[derive(Clone, Copy, Debug, PartialEq, Eq)]
pub enum ListUse {
    Polygon,
    Path,
}

impl ListUse {
    /// Whether a list of this type may have this many deltas (SEMI P39, Point lists). A polygon has at least two, and an even
    /// number in types 0 and 1; a path may have any number (own rule).
    pub fn fits(self, kind: u64, count: u64) -> bool
        ensures { IsTrue result ↔ IsFitting self kind count }
    {
        match self {
            ListUse::Polygon => count >= 2 && (kind >= 2 || count % 2 == 0),
            ListUse::Path => true,
        }
    }
}

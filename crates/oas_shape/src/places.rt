//! The places of a repetition's copies.
ghost use Rattle.std.specs.Prelude.{◌≡◌, ◌*◌, ◌<◌, ◌^◌};
ghost use Rattle.oas_shape.specs.Offsets.{count_of};
ghost use Rattle.oas_shape.specs.Places.{is_still, places_one_way, places_two_ways, places_of};

use crate::repetitions::Repetition;
use oas_num::GDelta;

/// The places of a repetition's copies, with equally many copies on each. Copy 0 is on the first.
#[derive(Clone, Copy, Debug, PartialEq, Eq)]
pub struct Places {
    /// How many places there are.
    pub number: u64,
    /// How many copies are on each.
    pub copies: u64,
    /// A copy on a place has an index this much less than one on the next place.
    pub stride: u64,
}

impl Repetition {
    /// The places of its copies. Where the step along a dimension is zero, its copies are all on one place, and are never
    /// visited one by one. Places that coincide otherwise count as several.
    pub fn places(&self) -> Places
        requires { count_of self.now < 2 ^ 64 }
        ensures { result ≡ places_of self.now }
    {
        match self {
            Repetition::Matrix {
                x_dim,
                y_dim,
                x_space,
                y_space,
            } => two_ways(*x_dim + 2, *x_space == 0, *y_dim + 2, *y_space == 0),
            Repetition::Columns { dim, space } => one_way(*dim + 2, *space == 0),
            Repetition::Rows { dim, space } => one_way(*dim + 2, *space == 0),
            Repetition::Lattice { n_dim, m_dim, n, m } => {
                two_ways(*n_dim + 2, is_still(*n), *m_dim + 2, is_still(*m))
            }
            Repetition::Line { dim, by } => one_way(*dim + 2, is_still(*by)),
            Repetition::Listed(offsets) => one_way(offsets.items.len() as u64, false),
        }
    }
}

/// Whether a step leads nowhere.
fn is_still(by: GDelta) -> bool
    ensures { result ≡ is_still by }
{
    by.dx == 0 && by.dy == 0
}

/// The places of this many copies along one dimension: one for all of them, or one for each.
fn one_way(count: u64, still: bool) -> Places
    ensures { result ≡ places_one_way count still }
{
    let (number, copies) = if still { (1, count) } else { (count, 1) };
    Places {
        number,
        copies,
        stride: 1,
    }
}

/// The places of this many copies along each of two dimensions.
fn two_ways(columns: u64, columns_still: bool, rows: u64, rows_still: bool) -> Places
    requires { columns * rows < 2 ^ 64 }
    ensures { result ≡ places_two_ways columns columns_still rows rows_still }
{
    match (columns_still, rows_still) {
        (true, false) => Places {
            number: rows,
            copies: columns,
            stride: columns,
        },
        (false, true) => Places {
            number: columns,
            copies: rows,
            stride: 1,
        },
        (still, _) => one_way(columns * rows, still),
    }
}

//! What an element counts for where it isn't kept.
ghost use Rattle.std.specs.Prelude.{◌≡◌};
ghost use Rattle.oas_drawing.specs.Drawn.{weight_so_far};
ghost use Rattle.oas_drawing.specs.Tallies.{used_by};

use crate::drawn::Drawn;

/// The number that an element uses for its name.
#[derive(Clone, Copy, Debug, PartialEq, Eq)]
pub enum UsedNumber {
    /// None: it has no name, or its own.
    Nothing,
    /// That of the cell which a placement places.
    Cell(u64),
    /// That of the string of a text.
    Text(u64),
}

/// What an element counts for.
#[derive(Clone, Copy, Debug, PartialEq, Eq)]
pub struct Tally {
    /// Its weight, as long as its number has no name.
    pub weight: u64,
    pub used: UsedNumber,
}

impl Drawn {
    /// What it counts for.
    #[inline]
    pub fn tally(&self) -> Tally
        ensures weight { result.weight ≡ weight_so_far self.now }
        ensures used { result.used ≡ used_by self.now }
    {
        match self {
            Drawn::Named(element) => Tally {
                weight: element.weight(),
                used: UsedNumber::Nothing,
            },
            Drawn::PlacementBy { number, .. } => Tally {
                weight: 1,
                used: UsedNumber::Cell(*number),
            },
            Drawn::TextBy { number, .. } => Tally {
                weight: 1,
                used: UsedNumber::Text(*number),
            },
        }
    }
}

//! Displacements, which may be longer than a delta.
ghost use Rattle.std.specs.Prelude.{◌≡◌};
ghost use Rattle.oas_num.specs.Deltas.{step};

use oas_num::GDelta;

/// How far one point is from another. A space has 64 bits and no sign, and deltas add up.
#[derive(Clone, Copy)]
pub(crate) struct Displacement {
    pub(crate) x: i128,
    pub(crate) y: i128,
}

impl Displacement {
    /// The same step.
    pub(crate) fn from_delta(delta: GDelta) -> Displacement
        ensures { step result.x result.y ≡ delta }
    {
        Displacement {
            x: i128::from(delta.dx),
            y: i128::from(delta.dy),
        }
    }
}

//! Point lists that are built, not read.
ghost use Rattle.std.specs.Prelude.{◌≡◌};
ghost use Rattle.oas_shape.specs.PointLists.{plain_line};

use crate::point_list::{Closing, PointList};
use oas_num::GDelta;

impl PointList {
    /// The list whose vertices these steps reach, one after another from the first, as type 4 lists them (SEMI P39, Point
    /// lists). No vertex is left out.
    pub fn of_steps(steps: Vec<GDelta>) -> PointList
        ensures { result ≡ plain_line steps.items }
    {
        PointList {
            deltas: steps,
            running: false,
            closing: Closing::Listed,
        }
    }
}

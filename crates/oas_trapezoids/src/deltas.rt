//! Trapezoids by their deltas.
ghost use Rattle.std.specs.Prelude.{◌≡◌, option_map};
ghost use Rattle.oas_trapezoids.specs.Corners.{listed};
ghost use Rattle.oas_trapezoids.specs.Deltas.{lean_of, trapezoid};

use crate::corners::{Corners, Lean, level, upright};

/// How far a side leans by a delta.
fn lean_of(delta: i64) -> Lean
    ensures { result ≡ lean_of delta }
{
    if delta < 0 {
        Lean {
            plus: 0,
            minus: delta.unsigned_abs(),
        }
    } else {
        Lean {
            plus: delta.unsigned_abs(),
            minus: 0,
        }
    }
}

/// What a TRAPEZOID draws in a box of that width and height (SEMI P39, TRAPEZOID records), by its deltas: between a lower and an
/// upper side or, where it is upright, between a left and a right one. All are in grid steps.
///
/// None where a side ends before it begins, so that the others cross, or where no area is enclosed (own rule).
pub fn trapezoid_corners(
    is_upright: bool,
    width: u64,
    height: u64,
    delta_a: i64,
    delta_b: i64,
) -> Option<Corners>
    ensures { option_map listed result ≡ trapezoid is_upright width height delta_a delta_b }
{
    let a = lean_of(delta_a);
    let b = lean_of(delta_b);
    if is_upright {
        upright(width, height, a, b)
    } else {
        level(width, height, a, b)
    }
}

//! Trapezoids by their kind.
ghost use Rattle.std.specs.Prelude.{◌≡◌, ◌∷◌, [], option_map, nat_lt, ◌&&◌};
ghost use Rattle.oas_trapezoids.specs.Corners.{listed, drawn, straight, plus, minus};
ghost use Rattle.oas_trapezoids.specs.Named.{named};

use crate::corners::{Corner, Corners, Lean, at, level, upright};

/// For a side that is perpendicular to its base.
fn straight() -> Lean
    ensures { result ≡ straight }
{
    Lean { plus: 0, minus: 0 }
}

/// For a side that leans by this much, as with a delta above 0.
fn plus(steps: u64) -> Lean
    ensures { result ≡ plus steps }
{
    Lean {
        plus: steps,
        minus: 0,
    }
}

/// For a side that leans by this much, as with a delta below 0.
fn minus(steps: u64) -> Lean
    ensures { result ≡ minus steps }
{
    Lean {
        plus: 0,
        minus: steps,
    }
}

/// What three corners of a box draw, if the box has sides.
fn half(width: u64, height: u64, a: Corner, b: Corner, c: Corner) -> Option<Corners>
    ensures { option_map listed result ≡ drawn (nat_lt 0 width && nat_lt 0 height) (a ∷ b ∷ c ∷ []) }
{
    (width > 0 && height > 0).then_some(Corners::Triangle([a, b, c]))
}

/// What a CTRAPEZOID of a kind draws in its box (SEMI P39, CTRAPEZOID record, ctrapezoid-type), whose width and height are
/// those that [`crate::sides_of`] returns, in grid steps.
///
/// None where a side ends before it begins, so that the others cross; where no area is enclosed (own rule); and where there
/// is no such kind: the kinds are 0 to 25.
pub fn named_corners(kind: u64, width: u64, height: u64) -> Option<Corners>
    ensures { option_map listed result ≡ named kind width height }
{
    let (w, h) = (width, height);
    match kind {
        0 => level(width, height, straight(), minus(height)),
        1 => level(width, height, straight(), plus(height)),
        2 => level(width, height, plus(height), straight()),
        3 => level(width, height, minus(height), straight()),
        4 => level(width, height, plus(height), minus(height)),
        5 => level(width, height, minus(height), plus(height)),
        6 => level(width, height, plus(height), plus(height)),
        7 => level(width, height, minus(height), minus(height)),
        8 => upright(width, height, straight(), plus(width)),
        9 => upright(width, height, straight(), minus(width)),
        10 => upright(width, height, minus(width), straight()),
        11 => upright(width, height, plus(width), straight()),
        12 => upright(width, height, minus(width), plus(width)),
        13 => upright(width, height, plus(width), minus(width)),
        14 => upright(width, height, minus(width), minus(width)),
        15 => upright(width, height, plus(width), plus(width)),
        16 => half(w, h, at(0, 0), at(0, h), at(w, 0)),
        17 => half(w, h, at(0, 0), at(0, h), at(w, h)),
        18 => half(w, h, at(0, 0), at(w, h), at(w, 0)),
        19 => half(w, h, at(0, h), at(w, h), at(w, 0)),
        20 => half(w, h, at(0, 0), at(h, h), at(w, 0)),
        21 => half(w, h, at(h, 0), at(0, h), at(w, h)),
        22 => half(w, h, at(0, 0), at(0, h), at(w, w)),
        23 => half(w, h, at(0, w), at(w, h), at(w, 0)),
        24 => level(width, height, straight(), straight()),
        25 => level(width, height, straight(), straight()),
        _ => None,
    }
}

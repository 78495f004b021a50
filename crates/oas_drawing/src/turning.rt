//! How placed cells are turned.
ghost use Rattle.std.specs.Prelude.{◌≡◌, false};
ghost use Rattle.oas_drawing.specs.Turns.{is_one, is_quarters, turns_by, turned};
ghost use Rattle.oas_drawing.specs.Reasons.{is_magnified, is_askew};

use crate::kinds::Kind;
use oas_elements::Turns;
use oas_num::Real;
use oas_record::Turn;

/// Whether a magnification is 1, as it is where it isn't given.
fn is_one(magnification: Option<Real>) -> bool
    ensures { result ≡ is_one magnification }
{
    match magnification {
        None => true,
        Some(m) => !m.negative && m.num == m.den && m.den > 0,
    }
}

/// Whether an angle in degrees is a whole multiple of 90, as it is where it isn't given.
fn is_quarters(angle: Option<Real>) -> bool
    ensures { result ≡ is_quarters angle }
{
    match angle {
        None => true,
        Some(a) => a.den > 0 && u128::from(a.num) % (90 * u128::from(a.den)) == 0,
    }
}

/// This many quarter turns, counterclockwise or clockwise.
fn turns_by(clockwise: bool, quarters: u128) -> Turns
    ensures { result ≡ turns_by clockwise quarters }
{
    match quarters % 4 {
        0 => Turns::T0,
        1 => if clockwise { Turns::T3 } else { Turns::T1 },
        2 => Turns::T2,
        _ => if clockwise { Turns::T1 } else { Turns::T3 },
    }
}

/// The quarter turns of a placement (SEMI P39, PLACEMENT records), whose angle is a whole multiple of 90 degrees.
pub(crate) fn turned(turn: Turn) -> Turns
    ensures { result ≡ turned turn }
{
    match turn {
        Turn::Quarters(quarters) => turns_by(false, u128::from(quarters)),
        Turn::Degrees { angle: None, .. } => Turns::T0,
        Turn::Degrees { angle: Some(a), .. } => {
            let quarter = 90 * u128::from(a.den);
            if quarter == 0 {
                return Turns::T0;
            }
            turns_by(a.negative, u128::from(a.num) / quarter)
        }
    }
}

/// Whether a placement's magnification isn't 1.
pub(crate) fn is_magnified(kind: &Kind) -> bool
    ensures { result ≡ is_magnified kind.now }
{
    match kind {
        Kind::Placement {
            turn: Turn::Degrees { magnification, .. },
            ..
        } => !is_one(*magnification),
        _ => false,
    }
}

/// Whether a placement's angle is no whole multiple of 90 degrees.
pub(crate) fn is_askew(kind: &Kind) -> bool
    ensures { result ≡ is_askew kind.now }
{
    match kind {
        Kind::Placement {
            turn: Turn::Degrees { angle, .. },
            ..
        } => !is_quarters(*angle),
        _ => false,
    }
}

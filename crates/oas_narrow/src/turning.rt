//! Placements by reals, as the profile has them.
ghost use Rattle.std.specs.Prelude.{◌≡◌, ◌≢◌, ◌≤◌, ◌<◌, ◌*◌, ◌%◌, ◌^◌, ℕ, IfSome, IsNone};
ghost use Rattle.oas_narrow.specs.Placements.{is_one, quarters_of, is_plain, plain_of, magnification_of, angle_of, placement_of, with_turns};

use oas_block::{WidePlacement, WideReal, WideRecord};
use oas_num::Real;
use oas_record::{Placement, Record, Turn};

/// A number halved this often. None where it can't be.
fn halved(num: u64, times: u16) -> Option<u64>
    ensures some { IfSome result (λ half. half * 2 ^ times ≡ num) }
    ensures none { IsNone result → (half : ℕ) → half * 2 ^ times ≢ num }
{
    if num == 0 {
        return Some(0);
    }
    if times >= 64 {
        return None;
    }
    let unit = 1_u64 << times;
    if num % unit == 0 {
        Some(num / unit)
    } else {
        None
    }
}

/// A number doubled this often, modulo `whole`.
fn doubled_within(num: u64, times: u16, whole: u128) -> u128
    requires some { 0 < whole }
    requires half { whole ≤ 2 ^ 127 }
    ensures { result ≡ num * 2 ^ times % whole }
{
    let mut rest = u128::from(num) % whole;
    for _ in 0..times {
        rest *= 2;
        if rest >= whole {
            rest -= whole;
        }
    }
    rest
}

/// Whether a real is 1.
fn is_one(real: WideReal) -> bool
    ensures { result ≡ is_one real }
{
    if real.negative || real.den == 0 {
        return false;
    }
    if real.halved <= real.doubled {
        halved(real.den, real.doubled - real.halved) == Some(real.num)
    } else {
        halved(real.num, real.halved - real.doubled) == Some(real.den)
    }
}

/// The quarter turns of an angle in degrees, modulo whole turns. None where it is no whole multiple of 90.
fn quarters_of(angle: WideReal) -> Option<u64>
    ensures { result ≡ quarters_of angle }
{
    let quarter = 90 * u128::from(angle.den);
    if quarter == 0 {
        return None;
    }
    let degrees = if angle.halved <= angle.doubled {
        doubled_within(angle.num, angle.doubled - angle.halved, 4 * quarter)
    } else {
        u128::from(halved(angle.num, angle.halved - angle.doubled)?)
    };
    if degrees % quarter != 0 {
        return None;
    }
    Some((degrees / quarter % 4) as u64)
}

/// Whether a real is an unscaled fraction, like those of the profile.
fn is_plain(real: WideReal) -> bool
    ensures { result ≡ is_plain real }
{
    real.doubled == 0 && real.halved == 0
}

/// That fraction.
fn plain_of(real: WideReal) -> Real
    ensures { result ≡ plain_of real }
{
    Real {
        negative: real.negative,
        num: real.num,
        den: real.den,
    }
}

/// A magnification as the profile has it: of floats 1 for 1, and 0 for others.
fn magnification_of(real: WideReal) -> Real
    ensures { result ≡ magnification_of real }
{
    if is_plain(real) {
        return plain_of(real);
    }
    let num = if is_one(real) { 1 } else { 0 };
    Real {
        negative: false,
        num,
        den: 1,
    }
}

/// An angle as the profile has it: of floats less than a whole turn for multiples of 90 degrees, and 1 for others.
fn angle_of(real: WideReal) -> Real
    ensures { result ≡ angle_of real }
{
    if is_plain(real) {
        return plain_of(real);
    }
    let num = match quarters_of(real) {
        Some(quarters) => 90 * quarters,
        None => 1,
    };
    Real {
        negative: real.negative,
        num,
        den: 1,
    }
}

/// The placement of the profile that one by reals is translated to.
fn placement_of(placed: WidePlacement) -> Placement
    ensures { result ≡ placement_of placed }
{
    let WidePlacement {
        cell,
        magnification,
        angle,
        flip,
        spot,
    } = placed;
    Placement {
        cell,
        turn: Turn::Degrees {
            magnification: magnification.map(magnification_of),
            angle: angle.map(angle_of),
        },
        flip,
        spot,
    }
}

/// A record; if it is a placement by reals, the placement of the profile that it is translated to.
pub fn with_turns(next: WideRecord) -> WideRecord
    ensures { result ≡ with_turns next }
{
    match next {
        WideRecord::Placement(placed) => {
            WideRecord::Profile(Record::Placement(placement_of(placed)))
        }
        next => next,
    }
}

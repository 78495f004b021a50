//! The unit as the profile has it.
ghost use Rattle.std.specs.Prelude.{◌<◌, ◌*◌, ◌^◌, ℕ, IfSome, IsNone};
ghost use Rattle.oas_num.specs.Ratio.{Ratio, Reduces};
ghost use Rattle.oas_narrow.specs.Preparable.{IsUnitOf};
ghost use Rattle.oas_prepare.specs.Units.{ratio, IsPast};

use oas_narrow::WideReal;
use oas_num::Fraction;

/// A fraction in lowest terms, doubled this often, in lowest terms. None exactly where its numerator isn't below 2^64.
fn doubled(num: u64, den: u64, times: u16) -> Option<(u64, u64)>
    ensures some { (a b : ℕ) → Reduces a b (ratio num den) → IfSome result (λ both. Reduces (a * 2 ^ times) b (ratio both.0 both.1)) }
    ensures none { (a b : ℕ) → Reduces a b (ratio num den) → IsNone result → IsPast (a * 2 ^ times) b }
    ensures fits { IfSome result (λ both. (both.0 < 2 ^ 64) × (both.1 < 2 ^ 64)) }
{
    let mut upper = num;
    let mut lower = den;
    for _ in 0..times {
        if lower % 2 == 0 {
            lower /= 2;
        } else {
            match upper.checked_mul(2) {
                Some(twice) => upper = twice,
                None => return None,
            }
        }
    }
    Some((upper, lower))
}

/// The fraction of a real, in lowest terms. None exactly where a part of it isn't below 2^64.
pub(crate) fn unit_of(real: WideReal) -> Option<Fraction>
    requires num { 0 < real.num }
    requires den { 0 < real.den }
    ensures some { IfSome result (IsUnitOf real) }
    ensures none { IsNone result → (unit : Ratio) → ¬ IsUnitOf real unit }
{
    let unit = Fraction::reduced(real.num, real.den)?;
    if real.halved <= real.doubled {
        let (num, den) = doubled(unit.num(), unit.den(), real.doubled - real.halved)?;
        return Fraction::reduced(num, den);
    }
    let (den, num) = doubled(unit.den(), unit.num(), real.halved - real.doubled)?;
    Fraction::reduced(num, den)
}

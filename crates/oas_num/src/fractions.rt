//! Fractions in lowest terms.
ghost use Rattle.std.specs.Prelude.{◌≡◌, ◌⊎◌, ◌↔◌, IfSome, IsNone};
ghost use Rattle.std.specs.Int.{IsGcd};

use std::marker::Model;

/// A positive fraction in lowest terms: no number above 1 divides both of its parts.
///
/// Contracts see it as a `Ratio`, the record of its parts.
#[derive(Clone, Copy, Debug, PartialEq, Eq)]
pub struct Fraction {
    num: u64,
    den: u64,
}

impl Model for Fraction {
    ghost use Rattle.oas_num.specs.Ratio.{Ratio, IsLowest};

    ghost Value = { Ratio };

    ghost view = { λ f. record { num = f.num; den = f.den } };

    ghost invariant = { λ f. IsLowest (record { num = f.num; den = f.den }) };

    ghost inverse = { λ f. record { num = f.num; den = f.den } };
}

impl Fraction {
    ghost use Rattle.oas_num.specs.Ratio.{IsLowest, Reduces};

    /// The same fraction in lowest terms. None exactly where a part is zero.
    pub fn reduced(num: u64, den: u64) -> Option<Fraction>
        ensures none { IsNone result ↔ ((num ≡ 0) ⊎ (den ≡ 0)) }
        ensures lowest { IfSome result (Reduces num den) }
    {
        if num == 0 || den == 0 {
            return None;
        }
        let divisor = gcd(num, den);
        Some(Fraction {
            num: num / divisor,
            den: den / divisor,
        })
    }

    /// The numerator, at least 1.
    pub fn num(&self) -> u64
        ensures value { result ≡ self.now.num }
        ensures lowest { IsLowest self.now }
    {
        self.num
    }

    /// The denominator, at least 1.
    pub fn den(&self) -> u64
        ensures value { result ≡ self.now.den }
        ensures lowest { IsLowest self.now }
    {
        self.den
    }
}

/// The greatest common divisor, by Euclid's algorithm.
fn gcd(a: u64, b: u64) -> u64
    ensures { IsGcd a b result }
{
    let mut x = a;
    let mut y = b;
    while y != 0 {
        let rest = x % y;
        x = y;
        y = rest;
    }
    x
}

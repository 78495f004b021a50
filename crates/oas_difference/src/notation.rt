//! How the entries of two layouts are written.

ghost use Rattle.std.specs.Prelude.{◌≡◌};
ghost use Rattle.oas_difference.specs.Format.{scale_of, notation_of};

use oas_diff_text::{Format, Measure, Syntax};
use oas_num::Fraction;

/// How the entries of two layouts are written: for the elements of each the unit by which grid steps become microns, or none
/// where they stay grid steps.
#[derive(Clone, Copy)]
pub(crate) struct Notation {
    pub(crate) syntax: Syntax,
    pub(crate) before: Option<Fraction>,
    pub(crate) after: Option<Fraction>,
}

impl Notation {
    /// That of layouts with these units.
    pub(crate) fn new(format: Format, before: Fraction, after: Fraction) -> Notation
        ensures { result ≡ notation_of format before after }
    {
        Notation {
            syntax: format.syntax,
            before: scale_of(format.measure, before),
            after: scale_of(format.measure, after),
        }
    }
}

/// The unit by which grid steps become microns, where they do.
fn scale_of(measure: Measure, unit: Fraction) -> Option<Fraction>
    ensures { result ≡ scale_of measure unit }
{
    match measure {
        Measure::Grid => None,
        Measure::Microns => Some(unit),
    }
}

//! The reasons in words.

ghost use Rattle.std.specs.Prelude.{◌≡◌, map};
ghost use Rattle.std.specs.List.{range_with_len};
ghost use Rattle.oas_num.specs.Refusals.{number_of, name_of, all_names};

use crate::refusals::Why;
use crate::table::REASONS;

/// A reason for which a file is refused, in words.
#[derive(Clone, Copy, Debug, PartialEq, Eq)]
pub struct Reason<'a> {
    /// Its number, as [`Why::number`] returns it; from 101 on it is one of the command that prepares.
    pub number: u8,
    /// Its name, that of its variant.
    pub name: &'a str,
    /// When exactly it is given.
    pub meaning: &'a str,
    /// What to do about it.
    pub remedy: &'a str,
}

/// The 34 reasons by ascending numbers.
pub fn profile_reasons() -> &'static [Reason<'static>]
    ensures numbers { map (λ reason. reason.number) result.now ≡ range_with_len 1 34 }
    ensures names { map (λ reason. reason.name.now) result.now ≡ all_names }
{
    &REASONS
}

impl Why {
    /// The reason in words.
    pub fn reason(&self) -> &'static Reason<'static>
        ensures number { result.now.number ≡ number_of self.now }
        ensures name { result.now.name.now ≡ name_of self.now }
    {
        &profile_reasons()[self.number() as usize - 1]
    }

    /// The name by which docs/REFUSALS.md calls the reason, that of the variant.
    pub fn name(&self) -> &'static str
        ensures { result.now ≡ name_of self.now }
    {
        self.reason().name
    }

    /// When exactly the reason is given, in a sentence.
    pub fn meaning(&self) -> &'static str {
        self.reason().meaning
    }

    /// What to do about it, in a sentence or more.
    pub fn remedy(&self) -> &'static str {
        self.reason().remedy
    }
}

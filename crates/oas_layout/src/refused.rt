//! What a draft refuses.

ghost use Rattle.std.specs.Prelude.{◌≡◌, Some};
ghost use Rattle.oas_layout.specs.Refused.{refused_text};

use oas_num::Why;
use std::error::Error;
use std::fmt;

/// What a draft refuses: the reason, and the value that it was given.
#[derive(Debug, Drop)]
pub struct Refused<T> {
    /// The reason.
    pub why: Why,
    /// The cell's name, or the element.
    pub value: T,
}

/// The reason's number and its name, as `refused 25: TooHeavy`.
impl<T> fmt::Display for Refused<T> {
    ghost output = { λ refused. Some (refused_text refused.why) };

    fn fmt<W: fmt::Write>(&self, f: &mut fmt::Formatter<W>) -> fmt::Result {
        let why = self.why;
        let number = why.number();
        write!(f, "refused {number}: {why}")
    }
}

impl<T: fmt::Debug + Drop> Error for Refused<T> {}

/// The reason alone; the value is gone.
impl<T: Drop> From<Refused<T>> for Why {
    ghost from_gives = { λ refused why. why ≡ refused.why };

    fn from(refused: Refused<T>) -> Why {
        refused.why
    }
}

//! The 34 reasons, and a reason with its place.
ghost use Rattle.std.specs.Prelude.{◌≡◌, Some};
ghost use Rattle.oas_num.specs.Refusals.{number_of, name_of, refusal_text};
ghost use Rattle.oas_num.specs.declared.refusals.Why.TheVariants.{Memory};

use std::alloc::{AllocError, AllocFailed};
use std::error::Error;
use std::fmt;

/// Why bytes are refused.
#[derive(Clone, Copy, Debug, PartialEq, Eq)]
pub enum Why {
    /// One of the first 13 bytes differs from the magic.
    Magic,
    /// The input ends where a byte is needed.
    Truncated,
    /// The tenth byte of an integer is above 1.
    IntegerRange,
    /// A byte of an a-string or an n-string is outside its class.
    StringByte,
    /// An n-string has length 0.
    EmptyName,
    /// A real's type is 6 or 7.
    FloatReal,
    /// A real's type is above 7.
    RealType,
    /// The unit is zero or negative, or has denominator 0.
    Unit,
    /// The version string isn't `1.0`.
    Version,
    /// The offset-flag is above 1.
    OffsetFlag,
    /// The record with this id is left out of the profile.
    RecordLeftOut(u64),
    /// The standard has no record with this id.
    UnknownRecord(u64),
    /// The record with this id is not allowed at its place.
    OutOfPlace(u64),
    /// A zero bit of an info byte is set, a square gives a height, or an extension-scheme is above 15.
    InfoByte,
    /// A point-list type is above 5.
    ListKind,
    /// A polygon's number of deltas doesn't fit its point-list type.
    PointCount,
    /// A repetition type is above 11.
    RepetitionKind,
    /// A modal variable that is needed is undefined.
    ModalUndefined,
    /// The magnification isn't 1, or has denominator 0.
    Magnification,
    /// The angle isn't a whole multiple of 90 degrees, or has denominator 0.
    Angle,
    /// The class of names already has records of the other form.
    MixedNumbering,
    /// The number already has another string.
    NumberTwice,
    /// A coordinate, half-width, radius, extension or partial sum exceeds its limit.
    CoordinateRange,
    /// The elements exceed their limit.
    TooManyElements,
    /// The weight exceeds its limit.
    TooHeavy,
    /// A number that is used has no name record in the file.
    UnknownReference,
    /// A cell name is defined twice.
    DuplicateCell,
    /// END isn't 256 bytes.
    EndLength,
    /// The validation-scheme isn't 0.
    ValidationScheme,
    /// A byte follows END.
    TrailingBytes,
    /// A byte is read after the source's limit, and there is one.
    InputTooLong,
    /// The source's device failed.
    Read,
    /// The writer failed, or took none of a non-empty piece.
    Write,
    /// Out of memory.
    Memory,
}

/// Where bytes are refused, and why.
#[derive(Clone, Copy, Debug, PartialEq, Eq)]
pub struct Refusal {
    /// The offset of the refused record, in bytes from the first.
    pub at: u64,
    /// The reason.
    pub why: Why,
}

impl Why {
    /// The number that the command prints for the reason, 1 to 34.
    pub fn number(&self) -> u8
        ensures { result ≡ number_of self.now }
    {
        match self {
            Why::Magic => 1,
            Why::Truncated => 2,
            Why::IntegerRange => 3,
            Why::StringByte => 4,
            Why::EmptyName => 5,
            Why::FloatReal => 6,
            Why::RealType => 7,
            Why::Unit => 8,
            Why::Version => 9,
            Why::OffsetFlag => 10,
            Why::RecordLeftOut(_) => 11,
            Why::UnknownRecord(_) => 12,
            Why::OutOfPlace(_) => 13,
            Why::InfoByte => 14,
            Why::ListKind => 15,
            Why::PointCount => 16,
            Why::RepetitionKind => 17,
            Why::ModalUndefined => 18,
            Why::Magnification => 19,
            Why::Angle => 20,
            Why::MixedNumbering => 21,
            Why::NumberTwice => 22,
            Why::CoordinateRange => 23,
            Why::TooManyElements => 24,
            Why::TooHeavy => 25,
            Why::UnknownReference => 26,
            Why::DuplicateCell => 27,
            Why::EndLength => 28,
            Why::ValidationScheme => 29,
            Why::TrailingBytes => 30,
            Why::InputTooLong => 31,
            Why::Read => 32,
            Why::Write => 33,
            Why::Memory => 34,
        }
    }
}

/// The reason's name.
impl fmt::Display for Why {
    ghost output = { λ why. Some (name_of why) };

    fn fmt<W: fmt::Write>(&self, f: &mut fmt::Formatter<W>) -> fmt::Result {
        f.write_str(self.name())
    }
}

impl Error for Why {}

/// The reason's number, the place, and the reason's name, as `refused 13 at 42: OutOfPlace`.
impl fmt::Display for Refusal {
    ghost output = { λ refusal. Some (refusal_text refusal) };

    fn fmt<W: fmt::Write>(&self, f: &mut fmt::Formatter<W>) -> fmt::Result {
        let Refusal { at, why } = *self;
        let number = why.number();
        write!(f, "refused {number} at {at}: {why}")
    }
}

impl Error for Refusal {}

impl<T: Drop> From<AllocFailed<T>> for Why {
    ghost from_gives = { λ _ why. why ≡ Memory };

    fn from(_failed: AllocFailed<T>) -> Why {
        Why::Memory
    }
}

impl From<AllocError> for Why {
    ghost from_gives = { λ _ why. why ≡ Memory };

    fn from(_refused: AllocError) -> Why {
        Why::Memory
    }
}

/// Memory was refused before any byte was read or written.
impl From<AllocError> for Refusal {
    ghost from_gives = { λ _ refusal. (refusal.why ≡ Memory) × (refusal.at ≡ 0) };

    fn from(_refused: AllocError) -> Refusal {
        Refusal {
            at: 0,
            why: Why::Memory,
        }
    }
}

/// The reason without its place.
impl From<Refusal> for Why {
    ghost from_gives = { λ refusal why. why ≡ refusal.why };

    fn from(refusal: Refusal) -> Why {
        refusal.why
    }
}

//! The classes of numbers, and the class of a number.

ghost use Rattle.std.specs.Prelude.{◌≡◌, ◌+◌, ◌%◌, ◌/◌, ◌*◌, ◌^◌, ◌<◌, ◌≤◌, ◌∷◌};
ghost use Rattle.oas_keys.specs.Numbers.{number_in, digits, firsts_of, AreClasses};

/// Successive numbers that take equally many bytes (own rule).
#[derive(Clone, Copy)]
pub(crate) struct Class {
    /// How many numbers.
    pub(crate) size: u64,
    /// How many first bytes they have together.
    pub(crate) firsts: u64,
    /// How many bytes each has after the first.
    pub(crate) more: u64,
}

/// The classes of unsigned numbers, ascending. After them come the numbers of nine bytes.
pub(crate) const UNSIGNED: [Class; 5] = [
    Class {
        size: 128,
        firsts: 128,
        more: 0,
    },
    Class {
        size: 64 << 8,
        firsts: 64,
        more: 1,
    },
    Class {
        size: 32 << 16,
        firsts: 32,
        more: 2,
    },
    Class {
        size: 16 << 24,
        firsts: 16,
        more: 3,
    },
    Class {
        size: 13 << 32,
        firsts: 13,
        more: 4,
    },
];

/// The classes of signed numbers: below 0, around it, and above.
pub(crate) const SIGNED: [Class; 10] = [
    Class {
        size: 1 << 62,
        firsts: 1,
        more: 8,
    },
    Class {
        size: 7 << 32,
        firsts: 7,
        more: 4,
    },
    Class {
        size: 16 << 24,
        firsts: 16,
        more: 3,
    },
    Class {
        size: 32 << 16,
        firsts: 32,
        more: 2,
    },
    Class {
        size: 40 << 8,
        firsts: 40,
        more: 1,
    },
    Class {
        size: 63,
        firsts: 63,
        more: 0,
    },
    Class {
        size: 40 << 8,
        firsts: 40,
        more: 1,
    },
    Class {
        size: 32 << 16,
        firsts: 32,
        more: 2,
    },
    Class {
        size: 16 << 24,
        firsts: 16,
        more: 3,
    },
    Class {
        size: 7 << 32,
        firsts: 7,
        more: 4,
    },
];

/// How far 0 is from the first number that has a class.
pub(crate) const START: i64 = (1 << 62) + (7 << 32) + (16 << 24) + (32 << 16) + (40 << 8) + 31;

/// How a number is written: its first byte, how many bytes come after it, and the number with those bytes as its lowest
/// digits.
#[derive(Clone, Copy)]
pub(crate) struct Written {
    pub(crate) first: u8,
    pub(crate) more: u64,
    pub(crate) digits: u64,
}

/// A number without this many of its lowest digits to base 256.
fn without_digits(number: u64, count: u64) -> u64
    requires { count ≤ 8 }
    ensures { result ≡ number / 2 ^ (8 * count) }
{
    if count == 8 {
        return 0;
    }
    number >> (8 * count)
}

/// How the number at a place is written in the classes.
pub(crate) fn written_in(classes: &[Class], place: u64) -> Written
    requires classes { AreClasses classes.now }
    requires firsts { firsts_of classes.now ≤ 254 }
    ensures written { number_in classes.now 1 place ≡ result.first ∷ digits result.more (result.digits % 2 ^ (8 * result.more)) }
    ensures few { result.more ≤ 8 }
{
    let mut first = 1;
    let mut left = place;
    for class in classes {
        if left < class.size {
            let top = without_digits(left, class.more);
            return Written {
                first: (first + top) as u8,
                more: class.more,
                digits: left,
            };
        }
        first += class.firsts;
        left -= class.size;
    }
    Written {
        first: first as u8,
        more: 8,
        digits: left,
    }
}

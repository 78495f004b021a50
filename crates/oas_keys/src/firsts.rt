//! The numbers that begin with a byte.

ghost use Rattle.std.specs.Prelude.{◌≡◌, ◌+◌, ◌*◌, ◌^◌, ◌<◌, ◌≤◌};
ghost use Rattle.oas_keys.specs.Numbers.{AreClasses, firsts_of};
ghost use Rattle.oas_keys.specs.Reading.{least_with, more_with};

use crate::classes::Class;

/// The least number that begins with a byte, and how many bytes come after it.
#[derive(Clone, Copy)]
pub(crate) struct Found {
    pub(crate) least: u64,
    pub(crate) more: u64,
}

/// A number followed by this many zeros, to base 256.
fn with_zeros(number: u64, count: u64) -> u64
    requires few { count ≤ 8 }
    requires small { number * 2 ^ (8 * count) < 2 ^ 64 }
    ensures { result ≡ number * 2 ^ (8 * count) }
{
    if count == 8 {
        return 0;
    }
    number << (8 * count)
}

/// What begins with a byte.
pub(crate) fn first_found(classes: &[Class], first: u64) -> Found
    requires classes { AreClasses classes.now }
    requires firsts { firsts_of classes.now ≤ 254 }
    requires some { 1 ≤ first }
    requires small { least_with classes.now 1 first < 2 ^ 64 }
    ensures least { result.least ≡ least_with classes.now 1 first }
    ensures more { result.more ≡ more_with classes.now 1 first }
    ensures few { result.more ≤ 8 }
{
    let mut start = 0;
    let mut base = 1;
    for class in classes {
        if first < base + class.firsts {
            return Found {
                least: start + with_zeros(first - base, class.more),
                more: class.more,
            };
        }
        start += class.size;
        base += class.firsts;
    }
    Found {
        least: start,
        more: 8,
    }
}

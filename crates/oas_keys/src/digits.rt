//! Digits to base 256, the highest first.

ghost use Rattle.std.specs.Prelude.{◌≡◌, ◌+◌, ◌%◌, ◌*◌, ◌^◌, ◌≤◌, ◌++◌, vec_len, vec_capacity};
ghost use Rattle.oas_keys.specs.Numbers.{digits};

/// Puts this many of the lowest digits of a number.
pub(crate) fn put_digits(number: u64, count: u64, out: &mut Vec<u8>)
    requires few { count ≤ 8 }
    requires room { vec_len out.old + count ≤ vec_capacity out.old }
    ensures items { out.new.items ≡ out.old.items ++ digits count (number % 2 ^ (8 * count)) }
    ensures len { vec_len out.new ≡ vec_len out.old + count }
    ensures capacity { vec_capacity out.new ≡ vec_capacity out.old }
{
    let mut left = count;
    while left > 0 {
        left -= 1;
        out.push_reserved(((number >> (8 * left)) % 256) as u8);
    }
}

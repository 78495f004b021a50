//! The reasons: the name of each, when it is given, and what to do about it.

ghost use Rattle.std.specs.Prelude.{◌≡◌, ◌++◌, map};
ghost use Rattle.std.specs.List.{range_with_len};

use crate::table::PREPARING;
use oas_num::{REASONS, Reason};

/// How many reasons there are.
const COUNT: usize = 47;

/// All reasons, by ascending numbers: 1 to 34, and those of the command that prepares, 101 to 113.
pub fn all_reasons() -> [Reason<'static>; COUNT]
    ensures { map (λ reason. reason.number) result ≡ range_with_len 1 34 ++ range_with_len 101 13 }
{
    let mut all = [REASONS[0]; COUNT];
    all[..34].copy_from_slice(&REASONS);
    all[34..].copy_from_slice(&PREPARING);
    all
}

//! The limits of a run.
ghost use Rattle.std.specs.Prelude.{◌≡◌, ◌^◌, true, false};
ghost use Rattle.oas_elements.specs.Limits.{AreLimits};

use oas_elements::Limits;

/// The limits with the flag `--large` and without it.
pub fn limits_of(is_large: bool) -> Limits
    ensures large { is_large ≡ true → AreLimits result (2 ^ 26) (2 ^ 30) (2 ^ 38) }
    ensures standard { is_large ≡ false → AreLimits result (2 ^ 24) (2 ^ 28) (2 ^ 36) }
{
    if is_large {
        Limits::large()
    } else {
        Limits::standard()
    }
}

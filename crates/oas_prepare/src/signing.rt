//! Whether a file is complete.
ghost use Rattle.std.specs.Prelude.{◌≡◌, true, false};
ghost use Rattle.oas_prepare.specs.Signing.{IsRight, IsWrong};

use oas_narrow::{Sums, Validation};

/// Whether a file with this signature in its END is complete, if the sums are those of its bytes before it.
pub(crate) fn came_whole(validation: Validation, sums: &Sums) -> bool
    ensures right { result ≡ true → IsRight validation sums.now }
    ensures wrong { result ≡ false → IsWrong validation sums.now }
{
    match validation {
        Validation::Unvalidated => true,
        Validation::Crc32(signature) => signature == sums.crc32(),
        Validation::Checksum32(signature) => signature == sums.checksum32(),
    }
}

//! The law of the division: it is the function's contract, and the body is empty.
ghost use Rattle.std.specs.Prelude.{ℕ, ◌<◌, ◌^◌, List};
ghost use Rattle.std.specs.List.{All};
ghost use Rattle.oas_checksum.specs.Crc.{register_of};
ghost use Rattle.oas_checksum.specs.Division.{Leaves};

/// The register after any bytes is their remainder, as one polynomial, by the divisor.
pub fn remainder()
    ensures { (bytes : List ℕ) → All (λ byte. byte < 2 ^ 8) bytes → Leaves bytes (register_of bytes) }
{}

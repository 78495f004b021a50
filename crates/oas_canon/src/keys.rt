//! The key of a file.
ghost use Rattle.std.specs.Prelude.{IfOk, IfErr};
ghost use Rattle.oas_judge.specs.Deciding.{IsReasoned};
ghost use Rattle.oas_judge.specs.Reading.{IsRefused, IsPlaced};
ghost use Rattle.oas_canon.specs.Run.{IsKeyed, Exactly};

use crate::given::given_key;
use crate::profile::PROFILE;
use oas_elements::Limits;
use oas_judge::read_given;
use oas_num::{Refusal, Source};
use std::alloc::Global;

/// The key of what a source gives: the SHA-256 of its canonical file, which isn't held or written anywhere.
///
/// A file is refused as by [`canonicalize`](crate::canonicalize), except that there is no writer.
pub fn key<S: Source>(alloc: Global, from: &mut S, limits: Limits) -> Result<[u8; 32], Refusal>
    ensures keyed { IfOk result (λ digest. IsKeyed limits PROFILE (S.script from.old) (S.script from.new) digest) }
    ensures refused { IfErr result (λ refusal. IsRefused limits (S.script from.old) refusal.why (S.script from.new)) }
    ensures placed { IfErr result (λ refusal. IsPlaced limits (S.script from.old) refusal (S.script from.new)) }
    ensures decided { IfErr result (λ refusal. IsReasoned limits (S.script from.old) refusal (S.script from.new)) }
    ensures exactly { Exactly limits (S.script from.old) result (S.script from.new) }
{
    let given = read_given(alloc, from, limits, PROFILE)?;
    Ok(given_key(&given))
}

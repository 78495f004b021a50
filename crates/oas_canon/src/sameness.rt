//! Whether two files mean the same layout.
ghost use Rattle.std.specs.Prelude.{◌≡◌, IfOk, IfErr, List, ℕ};
ghost use Rattle.oas_judge.specs.Reading.{Refuses};
ghost use Rattle.oas_canon.specs.declared.sameness.Which.TheVariants.{First as OfFirst, Second as OfSecond};
ghost use Rattle.oas_canon.specs.Run.{IsTaken, IsCompared, ExactlyBoth};

use crate::given::have_one_form;
use crate::profile::PROFILE;
use oas_elements::Limits;
use oas_judge::read_given;
use oas_num::{Refusal, Source};
use std::alloc::Global;

/// One of two files.
#[derive(Clone, Copy, Debug, PartialEq, Eq)]
pub enum Which {
    /// The one that is read first.
    First,
    /// The other.
    Second,
}

/// Whether two files mean the same layout. The first is read whole before the second is begun, and where it is refused
/// nothing of the second is read. A refusal is that of the file that it names.
pub fn same_files<S: Source, T: Source>(
    alloc: Global,
    a: &mut S,
    b: &mut T,
    limits: Limits,
) -> Result<bool, (Which, Refusal)>
    ensures compared { IfOk result (λ same. IsCompared limits PROFILE (S.script a.old) (S.script a.new) (T.script b.old) (T.script b.new) same) }
    ensures first { IfErr result (λ e. e.0 ≡ OfFirst → Refuses limits (S.script a.old) e.1 (S.script a.new) × (b.new ≡ b.old)) }
    ensures second { IfErr result (λ e. e.0 ≡ OfSecond → ((bytes : List ℕ) × IsTaken limits (S.script a.old) bytes (S.script a.new)) × Refuses limits (T.script b.old) e.1 (T.script b.new)) }
    ensures exactly { ExactlyBoth limits (S.script a.old) (S.script a.new) (T.script b.old) (T.script b.new) result }
{
    let one = match read_given(alloc, a, limits, PROFILE) {
        Ok(given) => given,
        Err(refusal) => return Err((Which::First, refusal)),
    };
    let other = match read_given(alloc, b, limits, PROFILE) {
        Ok(given) => given,
        Err(refusal) => return Err((Which::Second, refusal)),
    };
    Ok(have_one_form(&one, &other))
}

//! What C calls. A slice crosses as a pointer, which is never null, and a length.
ghost use Rattle.std.specs.Prelude.{◌≡◌};
ghost use Rattle.oascanon_c.specs.declared.answers.Answer.{Answer as AnAnswer};
ghost use Rattle.oascanon_c.specs.declared.wide_answers.WideAnswer.{WideAnswer as AWideAnswer};
ghost use Rattle.oascanon_c.specs.Outcomes.{outcome_of};
ghost use Rattle.oascanon_c.specs.Buffers.{Canonicalizes, Compares, Judges, Keys, Lists, ListsKeys};
ghost use Rattle.oascanon_c.specs.Reports.{Differs, Informs};
ghost use Rattle.oascanon_c.specs.Preparing.{Prepares};
ghost use Rattle.oascanon_c.specs.WideOutcomes.{preparation_of, wide_outcome_of};

use crate::answers::Outcome;
use crate::bounds::Bounds;
use crate::wide_answers::Preparation;
use crate::{buffers, preparing, reports};
use std::alloc::Global;

/// Puts the canonical file of what `bytes` mean at the start of the room.
#[unsafe(no_mangle)]
pub extern "C" fn oascanon_c_canonicalize(
    alloc: Global,
    bytes: &[u8],
    bounds: &Bounds,
    room: &mut [u8],
) -> Outcome
    ensures { (answer : AnAnswer) × (result ≡ outcome_of answer) × Canonicalizes bounds.now bytes.now room.old answer room.new }
{
    buffers::canonicalize(alloc, bytes, bounds, room).outcome()
}

/// Puts the listing of what `bytes` mean at the start of the room.
#[unsafe(no_mangle)]
pub extern "C" fn oascanon_c_list(
    alloc: Global,
    bytes: &[u8],
    bounds: &Bounds,
    room: &mut [u8],
) -> Outcome
    ensures { (answer : AnAnswer) × (result ≡ outcome_of answer) × Lists bounds.now bytes.now room.old answer room.new }
{
    reports::list(alloc, bytes, bounds, room).outcome()
}

/// Puts a line with the key of each cell of what `bytes` mean at the start of the room.
#[unsafe(no_mangle)]
pub extern "C" fn oascanon_c_keys(
    alloc: Global,
    bytes: &[u8],
    bounds: &Bounds,
    room: &mut [u8],
) -> Outcome
    ensures { (answer : AnAnswer) × (result ≡ outcome_of answer) × ListsKeys bounds.now bytes.now room.old answer room.new }
{
    reports::keys(alloc, bytes, bounds, room).outcome()
}

/// Puts the facts of what `bytes` mean at the start of the room, as a line of JSON.
#[unsafe(no_mangle)]
pub extern "C" fn oascanon_c_info(
    alloc: Global,
    bytes: &[u8],
    bounds: &Bounds,
    room: &mut [u8],
) -> Outcome
    ensures { (answer : AnAnswer) × (result ≡ outcome_of answer) × Informs bounds.now bytes.now room.old answer room.new }
{
    reports::info(alloc, bytes, bounds, room).outcome()
}

/// Whether `bytes` are the canonical file of what they mean.
#[unsafe(no_mangle)]
pub extern "C" fn oascanon_c_check(alloc: Global, bytes: &[u8], bounds: &Bounds) -> Outcome
    ensures { (answer : AnAnswer) × (result ≡ outcome_of answer) × Judges bounds.now bytes.now answer }
{
    buffers::is_canonical(alloc, bytes, bounds).outcome()
}

/// Puts the SHA-256 of the canonical file of what `bytes` mean.
#[unsafe(no_mangle)]
pub extern "C" fn oascanon_c_key(
    alloc: Global,
    bytes: &[u8],
    bounds: &Bounds,
    digest: &mut [u8; 32],
) -> Outcome
    ensures { (answer : AnAnswer) × (result ≡ outcome_of answer) × Keys bounds.now bytes.now digest.old answer digest.new }
{
    buffers::key(alloc, bytes, bounds, digest).outcome()
}

/// Whether the bytes of two files mean the same layout.
#[unsafe(no_mangle)]
pub extern "C" fn oascanon_c_same(
    alloc: Global,
    one: &[u8],
    other: &[u8],
    bounds: &Bounds,
) -> Outcome
    ensures { (answer : AnAnswer) × (result ≡ outcome_of answer) × Compares bounds.now one.now other.now answer }
{
    buffers::same(alloc, one, other, bounds).outcome()
}

/// Puts the lines of what differs between what the bytes of two files mean at the start of the room.
#[unsafe(no_mangle)]
pub extern "C" fn oascanon_c_diff(
    alloc: Global,
    one: &[u8],
    other: &[u8],
    bounds: &Bounds,
    room: &mut [u8],
) -> Outcome
    ensures { (answer : AnAnswer) × (result ≡ outcome_of answer) × Differs bounds.now one.now other.now room.old answer room.new }
{
    reports::diff(alloc, one, other, bounds, room).outcome()
}

/// Puts the canonical file of what the records of `bytes`, a file of the standard, are translated to at the start of the room,
/// without the kinds of records that `kinds` names.
#[unsafe(no_mangle)]
pub extern "C" fn oascanon_c_prepare(
    alloc: Global,
    bytes: &[u8],
    kinds: u32,
    bounds: &Bounds,
    room: &mut [u8],
    preparation: &mut Preparation,
) -> Outcome
    ensures { (answer : AWideAnswer) × (result ≡ wide_outcome_of answer) × (preparation.new ≡ preparation_of answer)
        × Prepares bounds.now kinds bytes.now room.old answer room.new }
{
    let answer = preparing::prepare(alloc, bytes, kinds, bounds, room);
    *preparation = answer.preparation();
    answer.outcome()
}

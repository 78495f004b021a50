//! What waits in chunks, spread over parts, each of which belongs before the next. Parts are sorted one after another, so that
//! little is held twice.

ghost use Rattle.std.specs.Prelude.{◌≡◌, ◌<◌, [], ◌∷◌, IfOk, OnOk, length, vec_len};
ghost use Rattle.oas_runs.specs.Blocks.{joined};
ghost use Rattle.oas_cells.specs.Compact.{SameWaiting};
ghost use Rattle.oas_cells.specs.Short.{drawn_of, drawn_once};
ghost use Rattle.oas_cells.specs.Spreading.{Gain};

use crate::chunks::Chunk;
use crate::ranking::Ranks;
use crate::short::{Place, Short};
use std::alloc::{AllocError, Global};

/// How many parts there are, at most.
const PARTS: usize = 128;

/// How much is in a part, about, where there are fewer parts.
const IN_PART: usize = 1024;

/// One in this many is looked at to choose the parts.
const SAMPLE: usize = 64;

/// The lowest and the highest front of some that wait.
#[derive(Clone, Copy)]
struct Fronts {
    least: u64,
    most: u64,
}

impl Fronts {
    /// With those of a chunk.
    fn with(self, shorts: &[Short], ranks: &Ranks) -> Fronts {
        let mut fronts = self;
        for some in shorts.chunks(SAMPLE) {
            if let Some(short) = some.first() {
                let front = short.place(ranks).front();
                fronts.least = fronts.least.min(front);
                fronts.most = fronts.most.max(front);
            }
        }
        fronts
    }

    /// Those of all chunks.
    fn of(row: &[Chunk], ranks: &Ranks) -> Fronts {
        let mut fronts = Fronts {
            least: u64::MAX,
            most: 0,
        };
        for chunk in row {
            fronts = fronts.with(&chunk.shorts, ranks);
        }
        fronts
    }
}

/// Which part something belongs in: each takes as many fronts, a power of two.
#[derive(Clone, Copy)]
struct Spread {
    least: u64,
    bits: u32,
}

impl Spread {
    /// Of these fronts over so many parts.
    fn over(fronts: Fronts, parts: usize) -> Spread
        requires { 0 < parts }
    {
        let width = fronts.most.saturating_sub(fronts.least) / parts as u64;
        Spread {
            least: fronts.least,
            bits: u64::BITS - width.leading_zeros(),
        }
    }

    /// The number of the part.
    #[inline(always)]
    fn part(self, place: Place) -> usize {
        let above = place.front().saturating_sub(self.least);
        (above >> self.bits.min(u64::BITS - 1)) as usize
    }
}

/// How much waits in chunks.
fn count_of(row: &[Chunk]) -> usize {
    let mut count = 0usize;
    for chunk in row {
        count = count.saturating_add(chunk.shorts.len());
    }
    count
}

/// So many empty parts.
fn empty_parts(alloc: Global, number: usize) -> Result<Vec<Chunk>, AllocError>
    ensures empty { IfOk result (λ parts. joined parts.items ≡ []) }
    ensures len { IfOk result (λ parts. vec_len parts ≡ number) }
{
    let mut parts = Vec::with_capacity(alloc, number)?;
    for _ in 0..number {
        parts.push(Chunk::new(alloc))?;
    }
    Ok(parts)
}

/// Puts something into the part of this number, or into the last.
#[inline(always)]
fn put(parts: &mut [Chunk], number: usize, short: Short) -> Result<(), AllocError>
    requires { 0 < length parts.old }
    ensures more { OnOk result (Gain parts.old ((drawn_of short, 1) ∷ []) parts.new) }
    ensures len { length parts.new ≡ length parts.old }
{
    let last = parts.len() - 1;
    parts[number.min(last)].push(short)
}

/// Spreads what waits in a chunk.
fn spread_chunk(
    parts: &mut [Chunk],
    spread: Spread,
    shorts: &[Short],
    ranks: &Ranks,
) -> Result<(), AllocError>
    requires { 0 < length parts.old }
    ensures more { OnOk result (Gain parts.old (drawn_once shorts.now) parts.new) }
    ensures len { length parts.new ≡ length parts.old }
{
    for short in shorts {
        put(parts, spread.part(short.place(ranks)), *short)?;
    }
    Ok(())
}

/// Spreads what waits in chunks, each of which is freed once that is done.
fn spread_row(
    parts: &mut [Chunk],
    spread: Spread,
    row: Vec<Chunk>,
    ranks: &Ranks,
) -> Result<(), AllocError>
    requires { 0 < length parts.old }
    ensures { OnOk result (Gain parts.old (joined row.items) parts.new) }
{
    for chunk in row {
        spread_chunk(parts, spread, &chunk.shorts, ranks)?;
    }
    Ok(())
}

/// The parts of what waits in chunks.
pub(crate) fn parts_of(
    alloc: Global,
    row: Vec<Chunk>,
    ranks: &Ranks,
) -> Result<Vec<Chunk>, AllocError>
    ensures { IfOk result (λ parts. SameWaiting (joined parts.items) (joined row.items)) }
{
    let number = (count_of(&row) / IN_PART + 1).min(PARTS);
    let spread = Spread::over(Fronts::of(&row, ranks), number);
    let mut parts = empty_parts(alloc, number)?;
    spread_row(&mut parts, spread, row, ranks)?;
    Ok(parts)
}

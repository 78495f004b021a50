//! What the names of the whole file add to the weight of what waits for them.

ghost use Rattle.std.specs.Prelude.{◌≡◌};
ghost use Rattle.oas_reader.specs.Weights.{joined};
ghost use Rattle.oas_cells.specs.Short.{drawn_of, drawn_once};
ghost use Rattle.oas_cells.specs.Weighing.{behind, name_bytes_times, waiting_weight, full_weight};

use crate::chunks::{Chunk, Chunks};
use crate::short::Short;
use oas_num::{Label, Name};
use oas_reader::{Drawn, NameTable};
use std::collections::BTreeMap;

/// How many bytes the name of a number has: none, where something isn't drawn by a number; None where its number has no name.
fn name_len(drawn: &Drawn, names: &NameTable<Name>, strings: &NameTable<Label>) -> Option<u64>
    ensures { result ≡ behind names.now.named strings.now.named drawn.now }
{
    match drawn {
        Drawn::Named(_) => Some(0),
        Drawn::PlacementBy { number, .. } => Some(names.get(*number)?.as_bytes().len() as u64),
        Drawn::TextBy { number, .. } => Some(strings.get(*number)?.as_bytes().len() as u64),
    }
}

/// This many times the bytes of the name of a number, capped to 64 bits; None where it has no name.
fn name_weight(
    drawn: &Drawn,
    times: u64,
    names: &NameTable<Name>,
    strings: &NameTable<Label>,
) -> Option<u64>
    ensures { result ≡ name_bytes_times (behind names.now.named strings.now.named drawn.now) times }
{
    let bytes = name_len(drawn, names, strings)?;
    Some(times.saturating_mul(bytes))
}

/// The same for something in few bytes.
fn short_weight(short: Short, names: &NameTable<Name>, strings: &NameTable<Label>) -> Option<u64>
    ensures { result ≡ name_bytes_times (behind names.now.named strings.now.named (drawn_of short)) 1 }
{
    name_weight(&short.drawn(), 1, names, strings)
}

/// The same for all that waits in few bytes.
fn shorts_weight(
    shorts: &[Short],
    names: &NameTable<Name>,
    strings: &NameTable<Label>,
) -> Option<u64>
    ensures { result ≡ waiting_weight names.now.named strings.now.named (drawn_once shorts.now) }
{
    let mut weight = 0u64;
    for short in shorts {
        weight = weight.saturating_add(short_weight(*short, names, strings)?);
    }
    Some(weight)
}

/// The same for what waits in a chunk.
fn chunk_weight(chunk: &Chunk, names: &NameTable<Name>, strings: &NameTable<Label>) -> Option<u64>
    ensures { result ≡ waiting_weight names.now.named strings.now.named chunk.now }
{
    shorts_weight(&chunk.shorts, names, strings)
}

/// The same for what waits in full chunks.
fn full_weight(chunks: &[Chunk], names: &NameTable<Name>, strings: &NameTable<Label>) -> Option<u64>
    ensures { result ≡ full_weight names.now.named strings.now.named chunks.now }
{
    let mut weight = 0u64;
    for chunk in chunks {
        weight = weight.saturating_add(chunk_weight(chunk, names, strings)?);
    }
    Some(weight)
}

/// The same for what waits in full chunks and the last one.
fn row_weight(
    full: &[Chunk],
    last: &Chunk,
    names: &NameTable<Name>,
    strings: &NameTable<Label>,
) -> Option<u64>
    ensures { result ≡ joined (full_weight names.now.named strings.now.named full.now) (waiting_weight names.now.named strings.now.named last.now) }
{
    let others = full_weight(full, names, strings)?;
    let weight = chunk_weight(last, names, strings)?;
    Some(others.saturating_add(weight))
}

/// The same for all that waits in chunks.
fn chunks_weight(
    chunks: &Chunks,
    names: &NameTable<Name>,
    strings: &NameTable<Label>,
) -> Option<u64>
    ensures { result ≡ waiting_weight names.now.named strings.now.named chunks.now }
{
    row_weight(&chunks.full, &chunks.last, names, strings)
}

/// The same for all that waits with counts.
fn counted_weight(
    waiting: &BTreeMap<Drawn, u64>,
    names: &NameTable<Name>,
    strings: &NameTable<Label>,
) -> Option<u64>
    ensures { result ≡ waiting_weight names.now.named strings.now.named waiting.now.entries }
{
    let mut weight = 0u64;
    for (drawn, times) in waiting {
        weight = weight.saturating_add(name_weight(drawn, *times, names, strings)?);
    }
    Some(weight)
}

/// The same for what waits in chunks and what waits with counts.
pub(crate) fn both_weights(
    chunks: &Chunks,
    others: &BTreeMap<Drawn, u64>,
    names: &NameTable<Name>,
    strings: &NameTable<Label>,
) -> Option<u64>
    ensures { result ≡ joined (waiting_weight names.now.named strings.now.named chunks.now) (waiting_weight names.now.named strings.now.named others.now.entries) }
{
    let short = chunks_weight(chunks, names, strings)?;
    let counted = counted_weight(others, names, strings)?;
    Some(short.saturating_add(counted))
}

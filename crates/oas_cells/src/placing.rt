//! What waits for names, placed among the elements once these are known.

ghost use Rattle.std.specs.Prelude.{◌≡◌, ◌+◌, ◌<◌, ◌^◌, OnOk};
ghost use Rattle.std.specs.List.{AllByRecursion};
ghost use Rattle.oas_elements.specs.Laws.BagLaws.{total};
ghost use Rattle.oas_runs.specs.Blocks.{joined};
ghost use Rattle.oas_reader.specs.Finish.{IsFit};
ghost use Rattle.oas_reader.specs.Meaning.{element_by};
ghost use Rattle.oas_cells.specs.Compact.{AreKeys, Waits};
ghost use Rattle.oas_cells.specs.Short.{drawn_once};
ghost use Rattle.oas_cells.specs.Placing.{with_placed, placed, IsSoundBy, AreSoundBy, Places};

use crate::chunks::Chunk;
use crate::elements::ElementStore;
use crate::ranking::Ranks;
use crate::short::Short;
use crate::sorting::{MANY, in_order};
use crate::waiting::{Queue, Waiting};
use oas_elements::Profile;
use oas_num::{Label, Name};
use oas_reader::{Drawn, NameTable};
use std::alloc::{AllocError, Global};
use std::collections::BTreeMap;

/// Places what was drawn this many times, if its number has a name, whose bytes go into the key directly.
#[inline(always)]
fn place_one(
    profile: Profile,
    kept: &mut ElementStore,
    drawn: Drawn,
    times: u64,
    names: &NameTable<Name>,
    strings: &NameTable<Label>,
) -> Result<(), AllocError>
    requires some { 0 < times }
    requires fit { IsFit drawn }
    requires room { total (λ _. 1) kept.old + times < 2 ^ 64 }
    requires keys { AreKeys profile kept.old }
    ensures placed { OnOk result (kept.new ≡ with_placed profile (element_by names.now.named strings.now.named drawn) times kept.old) }
    ensures keys { OnOk result (AreKeys profile kept.new) }
    ensures sound { OnOk result (IsSoundBy names.now.named strings.now.named drawn) }
{
    match drawn {
        Drawn::Named(element) => kept.add(profile, &element, times),
        Drawn::PlacementBy {
            number,
            x,
            y,
            turns,
            flip,
        } => match names.get(number) {
            Some(cell) => kept.add_placement(cell, x, y, turns, flip, times),
            None => Ok(()),
        },
        Drawn::TextBy {
            number,
            textlayer,
            texttype,
            x,
            y,
        } => match strings.get(number) {
            Some(string) => kept.add_text(string, textlayer, texttype, x, y, times),
            None => Ok(()),
        },
    }
}

/// Places what waits in few bytes, where its numbers have names.
fn place_shorts(
    profile: Profile,
    kept: &mut ElementStore,
    shorts: Vec<Short>,
    names: &NameTable<Name>,
    strings: &NameTable<Label>,
) -> Result<(), AllocError>
    requires waits { AllByRecursion Waits (drawn_once shorts.items) }
    requires room { total (λ _. 1) kept.old + total (λ _. 1) (drawn_once shorts.items) < 2 ^ 64 }
    requires keys { AreKeys profile kept.old }
    ensures placed { OnOk result (kept.new ≡ placed profile names.now.named strings.now.named (drawn_once shorts.items) kept.old) }
    ensures keys { OnOk result (AreKeys profile kept.new) }
    ensures sound { OnOk result (AreSoundBy names.now.named strings.now.named (drawn_once shorts.items)) }
{
    for short in shorts {
        place_one(profile, kept, short.drawn(), 1, names, strings)?;
    }
    Ok(())
}

/// Places what waits in a chunk.
fn place_chunk(
    profile: Profile,
    kept: &mut ElementStore,
    chunk: Chunk,
    names: &NameTable<Name>,
    strings: &NameTable<Label>,
) -> Result<(), AllocError>
    requires waits { AllByRecursion Waits chunk }
    requires room { total (λ _. 1) kept.old + total (λ _. 1) chunk < 2 ^ 64 }
    requires keys { AreKeys profile kept.old }
    ensures placed { OnOk result (kept.new ≡ placed profile names.now.named strings.now.named chunk kept.old) }
    ensures keys { OnOk result (AreKeys profile kept.new) }
    ensures sound { OnOk result (AreSoundBy names.now.named strings.now.named chunk) }
{
    place_shorts(profile, kept, chunk.shorts, names, strings)
}

/// Places what waits in chunks, each of which is freed once it is placed.
fn place_chunks(
    profile: Profile,
    kept: &mut ElementStore,
    chunks: Vec<Chunk>,
    names: &NameTable<Name>,
    strings: &NameTable<Label>,
) -> Result<(), AllocError>
    requires waits { AllByRecursion Waits (joined chunks.items) }
    requires room { total (λ _. 1) kept.old + total (λ _. 1) (joined chunks.items) < 2 ^ 64 }
    requires keys { AreKeys profile kept.old }
    ensures placed { OnOk result (kept.new ≡ placed profile names.now.named strings.now.named (joined chunks.items) kept.old) }
    ensures keys { OnOk result (AreKeys profile kept.new) }
    ensures sound { OnOk result (AreSoundBy names.now.named strings.now.named (joined chunks.items)) }
{
    for chunk in chunks {
        place_chunk(profile, kept, chunk, names, strings)?;
    }
    Ok(())
}

/// Places what waits with counts, where its numbers have names.
fn place_counted(
    profile: Profile,
    kept: &mut ElementStore,
    waiting: BTreeMap<Drawn, u64>,
    names: &NameTable<Name>,
    strings: &NameTable<Label>,
) -> Result<(), AllocError>
    requires waits { AllByRecursion Waits waiting.entries }
    requires room { total (λ _. 1) kept.old + total (λ _. 1) waiting.entries < 2 ^ 64 }
    requires keys { AreKeys profile kept.old }
    ensures placed { OnOk result (kept.new ≡ placed profile names.now.named strings.now.named waiting.entries kept.old) }
    ensures keys { OnOk result (AreKeys profile kept.new) }
    ensures sound { OnOk result (AreSoundBy names.now.named strings.now.named waiting.entries) }
{
    for (drawn, times) in waiting {
        place_one(profile, kept, drawn, times, names, strings)?;
    }
    Ok(())
}

/// Lets what is placed by ranks be a run of its own.
fn begin_order(kept: &mut ElementStore, ranks: Option<&Ranks>) -> Result<(), AllocError>
    ensures { kept.new ≡ kept.old }
{
    match ranks {
        Some(_) => kept.settle(),
        None => Ok(()),
    }
}

/// Places what waits in chunks and in a map, where its numbers have names: by their ranks, what is in chunks is placed in the
/// order of its keys.
fn place_queue(
    alloc: Global,
    profile: Profile,
    kept: &mut ElementStore,
    queue: Queue,
    names: &NameTable<Name>,
    strings: &NameTable<Label>,
    ranks: Option<&Ranks>,
) -> Result<(), AllocError>
    requires waits { AllByRecursion Waits queue }
    requires room { total (λ _. 1) kept.old + total (λ _. 1) queue < 2 ^ 64 }
    requires keys { AreKeys profile kept.old }
    ensures placed { OnOk result (Places profile names.now.named strings.now.named queue kept.old kept.new) }
    ensures keys { OnOk result (AreKeys profile kept.new) }
    ensures sound { OnOk result (AreSoundBy names.now.named strings.now.named queue) }
{
    let Queue { chunks, others } = queue;
    let came = chunks.into_row()?;
    let row = in_order(alloc, came, ranks)?;
    begin_order(kept, ranks)?;
    place_chunks(profile, kept, row, names, strings)?;
    place_counted(profile, kept, others, names, strings)?;
    Ok(())
}

/// The ranks, where so much waits that it is worth to be sorted.
fn worth(ranks: Option<&Ranks>, count: usize) -> Option<&Ranks> {
    if count < MANY {
        return None;
    }
    ranks
}

/// Places all that waits, where its numbers have names; much of it by their ranks in the order of its keys.
pub(crate) fn place_all(
    profile: Profile,
    kept: &mut ElementStore,
    waiting: Waiting,
    names: &NameTable<Name>,
    strings: &NameTable<Label>,
    ranks: Option<&Ranks>,
) -> Result<(), AllocError>
    requires waits { AllByRecursion Waits waiting }
    requires room { total (λ _. 1) kept.old + total (λ _. 1) waiting < 2 ^ 64 }
    requires keys { AreKeys profile kept.old }
    ensures placed { OnOk result (Places profile names.now.named strings.now.named waiting kept.old kept.new) }
    ensures keys { OnOk result (AreKeys profile kept.new) }
    ensures sound { OnOk result (AreSoundBy names.now.named strings.now.named waiting) }
{
    let ranks = worth(ranks, waiting.count());
    let Waiting { alloc, queue } = waiting;
    match queue {
        Some(queue) => {
            let queue = Box::into_inner(queue);
            place_queue(alloc, profile, kept, queue, names, strings, ranks)
        }
        None => Ok(()),
    }
}

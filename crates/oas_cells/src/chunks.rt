//! What waits in few bytes, in chunks.

ghost use Rattle.std.specs.Prelude.{◌≡◌, ◌<◌, [], ◌∷◌, ◌++◌, OnOk, OnErr, IfOk, vec_len, vec_capacity};
ghost use Rattle.oas_runs.specs.Blocks.{joined};
ghost use Rattle.oas_cells.specs.Short.{drawn_of};

use crate::short::Short;
use std::alloc::{AllocError, Global};
use std::marker::Model;
use std::mem;

/// How many wait in a chunk, at most.
const CHUNK: usize = 4096;

/// How many more a chunk reserves room for at once, at least.
const LEAST: usize = 32;

/// How much of the present size it reserves at once: a quarter, so that little of it is idle.
const PART: usize = 4;

/// Some of what waits; contracts see the list of it, each drawn once.
#[derive(Drop)]
pub(crate) struct Chunk {
    pub(crate) shorts: Vec<Short>,
}

impl Model for Chunk {
    ghost use Rattle.std.specs.Prelude.{List, ℕ};
    ghost use Rattle.oas_reader.specs.Drawn.{Drawn};
    ghost use Rattle.oas_cells.specs.Short.{drawn_once};

    ghost Value = { List (Drawn × ℕ) };

    ghost view = { λ a. drawn_once a.shorts.items };
}

impl Chunk {
    /// Nothing, and no memory.
    pub(crate) fn new(alloc: Global) -> Chunk
        ensures { result ≡ [] }
    {
        Chunk {
            shorts: Vec::new(alloc),
        }
    }

    /// Whether what comes belongs in another chunk.
    fn is_full(&self) -> bool {
        self.shorts.len() >= CHUNK
    }

    /// Gives back idle memory: what waits moves into memory of just its size, which leaves no small hole behind it. If out of
    /// memory nothing changes.
    fn fit(&mut self, alloc: Global)
        ensures { self.new ≡ self.old }
    {
        if let Ok(shorts) = Vec::from_slice(alloc, &self.shorts) {
            self.shorts = shorts;
        }
    }

    /// Puts one more at the end. If out of memory it puts nothing.
    pub(crate) fn push(&mut self, short: Short) -> Result<(), AllocError>
        ensures ok { OnOk result (self.new ≡ self.old ++ (drawn_of short, 1) ∷ []) }
        ensures err { OnErr result (self.new ≡ self.old) }
    {
        make_room(&mut self.shorts)?;
        self.shorts.push_reserved(short);
        Ok(())
    }
}

/// Ensures that there is room for one more.
fn make_room(shorts: &mut Vec<Short>) -> Result<(), AllocError>
    ensures items { shorts.new.items ≡ shorts.old.items }
    ensures ok { OnOk result (vec_len shorts.new < vec_capacity shorts.new) }
{
    if shorts.len() < shorts.capacity() {
        return Ok(());
    }
    let part = shorts.len() / PART;
    shorts.reserve_exact(part.max(LEAST))
}

/// What waits in few bytes, as it came; contracts see the list of it. It is in chunks, each of which can be freed by itself.
#[derive(Drop)]
pub(crate) struct Chunks {
    alloc: Global,
    pub(crate) full: Vec<Chunk>,
    pub(crate) last: Chunk,
}

impl Model for Chunks {
    ghost use Rattle.std.specs.Prelude.{List, ℕ, ◌++◌};
    ghost use Rattle.oas_reader.specs.Drawn.{Drawn};
    ghost use Rattle.oas_runs.specs.Blocks.{joined};

    ghost Value = { List (Drawn × ℕ) };

    ghost view = { λ a. joined a.full.items ++ a.last };
}

impl Chunks {
    /// Nothing, and no memory.
    pub(crate) fn new(alloc: Global) -> Chunks
        ensures { result ≡ [] }
    {
        Chunks {
            alloc,
            full: Vec::new(alloc),
            last: Chunk::new(alloc),
        }
    }

    /// Puts one more at the end. If out of memory it puts nothing.
    pub(crate) fn push(&mut self, short: Short) -> Result<(), AllocError>
        ensures ok { OnOk result (self.new ≡ self.old ++ (drawn_of short, 1) ∷ []) }
        ensures err { OnErr result (self.new ≡ self.old) }
    {
        set_aside(self.alloc, &mut self.full, &mut self.last)?;
        self.last.push(short)?;
        Ok(())
    }

    /// Gives back memory that is idle as long as nothing more waits.
    pub(crate) fn rest(&mut self)
        ensures { self.new ≡ self.old }
    {
        self.last.fit(self.alloc);
    }

    /// How much waits, about.
    pub(crate) fn count(&self) -> usize {
        let full = self.full.len().saturating_mul(CHUNK);
        full.saturating_add(self.last.shorts.len())
    }

    /// All chunks in a row.
    pub(crate) fn into_row(self) -> Result<Vec<Chunk>, AllocError>
        ensures { IfOk result (λ row. joined row.items ≡ self) }
    {
        let Chunks { mut full, last, .. } = self;
        full.reserve(1)?;
        full.push_reserved(last);
        Ok(full)
    }
}

/// Adds the last chunk to the full ones, where it is full; or changes nothing.
fn set_aside(alloc: Global, full: &mut Vec<Chunk>, last: &mut Chunk) -> Result<(), AllocError>
    ensures { joined full.new.items ++ last.new ≡ joined full.old.items ++ last.old }
{
    if !last.is_full() {
        return Ok(());
    }
    full.reserve(1)?;
    let chunk = mem::replace(last, Chunk::new(alloc));
    full.push_reserved(chunk);
    Ok(())
}

//! The facts of a layout with its size.

ghost use Rattle.std.specs.Prelude.{◌≡◌, length, IfOk};
ghost use Rattle.oas_elements.specs.Contents.{meaning_of};
ghost use Rattle.oas_writing.specs.Bytes.{canonical_bytes};
ghost use Rattle.oas_info.specs.Info.{IsInfo};

use crate::facts::{Facts, facts_of};
use oas_num::Counter;
use oas_writing::{Layout, put_canonical};
use std::alloc::{AllocError, Global};

/// The facts of a layout, and how many bytes its canonical form has.
#[derive(Drop)]
pub struct Info {
    pub facts: Facts,
    pub size: u64,
}

/// How many bytes the canonical form of a layout has.
fn canonical_size(layout: &Layout) -> u64
    ensures { result ≡ length (canonical_bytes (meaning_of layout.now)) }
{
    put_canonical(layout, &mut Counter::new()).unwrap_or(0)
}

/// The facts of a layout, and how many bytes its canonical form has. It goes over the elements once, over the distinct ones
/// once, and over the distinct placements again, and allocates for groups and names.
pub fn info_of(alloc: Global, layout: &Layout) -> Result<Info, AllocError>
    ensures { IfOk result (λ info. IsInfo (meaning_of layout.now) info) }
{
    let facts = facts_of(alloc, layout)?;
    Ok(Info {
        facts,
        size: canonical_size(layout),
    })
}

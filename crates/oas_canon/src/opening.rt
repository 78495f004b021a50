//! The source of a run.
ghost use Rattle.std.specs.Prelude.{◌≡◌, [], IfOk};
ghost use Rattle.oas_num.specs.Readers.{rest_from};
ghost use Rattle.oas_canon.specs.Opening.{IsOpened};

use oas_elements::Limits;
use oas_num::ReaderSource;
use std::alloc::{AllocError, Global};
use std::io::Read;

/// The bytes of a reader for a call under these limits, of which as many are given as they allow.
pub fn open_source<R: Read + Drop>(
    alloc: Global,
    reader: R,
    limits: Limits,
) -> Result<ReaderSource<R>, AllocError>
    ensures opened { IfOk result (λ source. IsOpened limits source.script) }
    ensures rest { IfOk result (λ source. source.script.rest ≡ rest_from (R.remaining reader) [] limits.input) }
{
    ReaderSource::new(alloc, reader, limits.input())
}

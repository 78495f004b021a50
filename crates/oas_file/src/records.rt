//! One record: the next of a source, or one that is at hand.
ghost use Rattle.std.specs.Prelude.{IfSome};
ghost use Rattle.oas_file.specs.Finding.{IsAtHand};
ghost use Rattle.oas_file.specs.Gathering.{ConsumesNext};

use oas_num::{Refusal, SliceSource, Source};
use oas_record::Record;
use std::alloc::Global;

/// Takes the next record, and returns None where it is END.
pub fn take_record<S: Source>(
    alloc: Global,
    source: &mut S,
    flag_in_end: bool,
) -> Result<Option<Record>, Refusal>
    ensures { ConsumesNext flag_in_end (S.script source.old) result (S.script source.new) }
{
    match Record::read(alloc, source, flag_in_end)? {
        Record::End => Ok(None),
        record => Ok(Some(record)),
    }
}

/// A record before END, with which some bytes begin.
#[derive(Drop)]
pub struct Found {
    pub record: Record,
    /// How many of the bytes spell it.
    pub length: usize,
}

/// The record before END with which these bytes begin. None if they begin with none, or out of memory.
///
/// It reads no byte after the record. So where bytes that a source has at hand end within the record, or it is refused, a try
/// costs no more than reading the record's bytes once again.
pub fn find_record(alloc: Global, bytes: &[u8], flag_in_end: bool) -> Option<Found>
    ensures { IfSome result (λ found. IsAtHand flag_in_end bytes.now found) }
{
    let mut source = SliceSource::new(bytes, bytes.len() as u64);
    match take_record(alloc, &mut source, flag_in_end) {
        Ok(Some(record)) => Some(Found {
            record,
            length: source.at() as usize,
        }),
        _ => None,
    }
}

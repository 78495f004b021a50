//! The calls about the canonical file, over bytes and room.
ghost use Rattle.std.specs.Prelude.{◌≡◌, IfOk, IfErr};
ghost use Rattle.oas_elements.specs.Contents.{IsLayout, meaning_of};
ghost use Rattle.oas_prepare.specs.Bytes.{canonical_bytes};
ghost use Rattle.oascanon_c.specs.Buffers.{answered, Canonicalizes, Compares, IsGivenOf, IsReadFrom, IsRefusedFor, Judges, Keys};
ghost use Rattle.oascanon_c.specs.Rooms.{Puts};

use crate::answers::Answer;
use crate::bounds::Bounds;
use crate::filling::Filler;
use oas_prepare::{
    Given, Layout, Limits, PROFILE, Refusal, Sink, SliceSource, Which, has_canonical_bytes,
    key as file_key, put_canonical, read_given, read_layout, same_files,
};
use std::alloc::Global;

/// The layout that bytes mean.
pub(crate) fn read(alloc: Global, bytes: &[u8], limits: Limits) -> Result<Layout, Refusal>
    ensures read { IfOk result (IsReadFrom limits bytes.now) }
    ensures refused { IfErr result (IsRefusedFor limits bytes.now) }
{
    let mut source = SliceSource::new(bytes, limits.input());
    read_layout(alloc, &mut source, limits, PROFILE)
}

/// The bytes where these are a canonical file, and otherwise the layout that they mean.
fn read_judged(alloc: Global, bytes: &[u8], limits: Limits) -> Result<Given, Refusal>
    ensures read { IfOk result (IsGivenOf limits bytes.now) }
    ensures refused { IfErr result (IsRefusedFor limits bytes.now) }
{
    let mut source = SliceSource::new(bytes, limits.input());
    read_given(alloc, &mut source, limits, PROFILE)
}

/// What is said of a question's answer.
fn yes_or_no(yes: bool) -> Answer
    ensures { result ≡ answered yes }
{
    if yes { Answer::Done(0) } else { Answer::No(0) }
}

/// Puts the canonical file of a layout into the room, as far as it fits.
pub(crate) fn put_form(layout: &Layout, room: &mut [u8]) -> Answer
    ensures puts { Puts (canonical_bytes (meaning_of layout.now)) room.old result room.new }
    ensures layout { IsLayout layout.now }
{
    let mut filler = Filler::new(room);
    let _ = put_canonical(layout, &mut filler);
    filler.answer()
}

/// Puts a file's bytes into the room, as far as they fit.
pub(crate) fn put_file(bytes: &[u8], room: &mut [u8]) -> Answer
    ensures { Puts bytes.now room.old result room.new }
{
    let mut filler = Filler::new(room);
    let _ = filler.put_all(bytes);
    filler.answer()
}

/// Puts the canonical file of what bytes mean into the room.
pub(crate) fn canonicalize(alloc: Global, bytes: &[u8], bounds: &Bounds, room: &mut [u8]) -> Answer
    ensures { Canonicalizes bounds.now bytes.now room.old result room.new }
{
    let Some(limits) = bounds.limits() else {
        return Answer::NotLimits;
    };
    match read_judged(alloc, bytes, limits) {
        Ok(Given::Canonical(kept)) => put_file(&kept, room),
        Ok(Given::Layout(layout)) => put_form(&layout, room),
        Err(refusal) => Answer::Refused(Which::First, refusal),
    }
}

/// Whether bytes are the canonical file of what they mean.
pub(crate) fn is_canonical(alloc: Global, bytes: &[u8], bounds: &Bounds) -> Answer
    ensures { Judges bounds.now bytes.now result }
{
    let Some(limits) = bounds.limits() else {
        return Answer::NotLimits;
    };
    match read_judged(alloc, bytes, limits) {
        Ok(Given::Canonical(_)) => yes_or_no(true),
        Ok(Given::Layout(layout)) => yes_or_no(has_canonical_bytes(&layout, bytes)),
        Err(refusal) => Answer::Refused(Which::First, refusal),
    }
}

/// Puts the SHA-256 of the canonical file of what bytes mean.
pub(crate) fn key(alloc: Global, bytes: &[u8], bounds: &Bounds, digest: &mut [u8; 32]) -> Answer
    ensures { Keys bounds.now bytes.now digest.old result digest.new }
{
    let Some(limits) = bounds.limits() else {
        return Answer::NotLimits;
    };
    let mut source = SliceSource::new(bytes, limits.input());
    match file_key(alloc, &mut source, limits) {
        Ok(found) => {
            *digest = found;
            Answer::Done(32)
        }
        Err(refusal) => Answer::Refused(Which::First, refusal),
    }
}

/// Whether two files' bytes mean the same layout.
pub(crate) fn same(alloc: Global, one: &[u8], other: &[u8], bounds: &Bounds) -> Answer
    ensures { Compares bounds.now one.now other.now result }
{
    let Some(limits) = bounds.limits() else {
        return Answer::NotLimits;
    };
    let mut first = SliceSource::new(one, limits.input());
    let mut second = SliceSource::new(other, limits.input());
    match same_files(alloc, &mut first, &mut second, limits) {
        Ok(same) => yes_or_no(same),
        Err((which, refusal)) => Answer::Refused(which, refusal),
    }
}

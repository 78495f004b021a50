//! Preparing a file of the standard, over bytes and room.
ghost use Rattle.std.specs.Prelude.{◌≡◌, true, IfOk, IfErr};
ghost use Rattle.oascanon_c.specs.Preparing.{IsCanonicalFile, IsPreparedFrom, IsStoppedFor, Prepares, dropping_of};

use crate::bounds::Bounds;
use crate::buffers::{put_file, put_form};
use crate::wide_answers::WideAnswer;
use oas_prepare::{
    Attempt, Dropping, Layout, Limits, PROFILE, Rejection, Report, SliceSource, read_canonical,
    read_prepared,
};
use std::alloc::Global;

/// The kinds of records that bits name: properties by 1, names of layers by 2, extensions by 4. None where another bit is set.
fn kinds_of(bits: u32) -> Option<Dropping>
    ensures { result ≡ dropping_of bits }
{
    if bits >= 8 {
        return None;
    }
    Some(Dropping {
        properties: bits % 2 == 1,
        layer_names: bits / 2 % 2 == 1,
        extensions: bits / 4 == 1,
    })
}

/// Whether these bytes are known to be a canonical file.
fn is_canonical_file(alloc: Global, bytes: &[u8], limits: Limits) -> bool
    ensures { result ≡ true → IsCanonicalFile limits bytes.now }
{
    let mut source = SliceSource::new(bytes, limits.input());
    match read_canonical(alloc, &mut source, limits, PROFILE) {
        Some(Attempt::Canonical(_)) => true,
        _ => false,
    }
}

/// The layout that the records of a file of the standard are translated to, and what was left out of it.
fn read_wide(
    alloc: Global,
    bytes: &[u8],
    limits: Limits,
    dropping: Dropping,
) -> Result<(Layout, Report), Rejection>
    ensures read { IfOk result (λ both. IsPreparedFrom limits dropping bytes.now both.0 both.1) }
    ensures stopped { IfErr result (IsStoppedFor limits dropping bytes.now) }
{
    let mut source = SliceSource::new(bytes, limits.input());
    read_prepared(alloc, &mut source, limits, PROFILE, dropping)
}

/// Puts the canonical file of what the records of a file of the standard are translated to into the room, without the kinds of
/// records that bits name. A canonical file is that itself.
pub(crate) fn prepare(
    alloc: Global,
    bytes: &[u8],
    kinds: u32,
    bounds: &Bounds,
    room: &mut [u8],
) -> WideAnswer
    ensures { Prepares bounds.now kinds bytes.now room.old result room.new }
{
    let Some(limits) = bounds.limits() else {
        return WideAnswer::NotLimits;
    };
    let Some(dropping) = kinds_of(kinds) else {
        return WideAnswer::UnknownDrop;
    };
    if is_canonical_file(alloc, bytes, limits) {
        return WideAnswer::Prepared(put_file(bytes, room), Report::new());
    }
    match read_wide(alloc, bytes, limits, dropping) {
        Ok((layout, report)) => WideAnswer::Prepared(put_form(&layout, room), report),
        Err(rejection) => WideAnswer::Stopped(rejection),
    }
}

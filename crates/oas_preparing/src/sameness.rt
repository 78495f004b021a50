//! Whether two files are prepared to the same layout.

ghost use Rattle.std.specs.Prelude.{◌≡◌, ◌++◌, Result};
ghost use Rattle.oas_num.specs.Writing.{Writes};
ghost use Rattle.oas_explain.specs.Which.{Which as WhichFile};
ghost use Rattle.oas_prepare.specs.Rejection.{Rejection as Rejected};
ghost use Rattle.oas_preparing.specs.declared.sameness.Comparison.{Comparison as Compared};
ghost use Rattle.oas_preparing.specs.Answers.{answered, Delivers};
ghost use Rattle.oas_preparing.specs.Lines.{report_line};
ghost use Rattle.oas_preparing.specs.Sameness.{ReadsBoth, ComparesPrepared, sameness_text, found_in, blamed, comparison_status, EndsBoth};

use crate::ends::reject;
use crate::lines::put_report;
use oas_elements::Limits;
use oas_explain::{Layout, PROFILE, Which, status_of_verdict, write_sameness};
use oas_num::{Device, Refusal, Sink, SinkFault, Source};
use oas_prepare::{Dropping, Rejection, Report, read_prepared};
use std::alloc::Global;

/// Whether two files mean the same layout, and what was left out of each.
#[derive(Clone, Copy, Debug, PartialEq, Eq)]
pub struct Comparison {
    pub same: bool,
    pub first: Report,
    pub second: Report,
}

/// The layouts of two sources, and what was left out of each. The first is read whole before the second is begun, and where
/// it stops nothing of the second is read.
fn read_both<S: Source, T: Source>(
    alloc: Global,
    a: &mut S,
    b: &mut T,
    limits: Limits,
    dropping: Dropping,
) -> Result<((Layout, Report), (Layout, Report)), (Which, Rejection)>
    ensures { ReadsBoth T.script limits dropping (S.script a.old) (S.script a.new) b.old b.new result }
{
    let first = match read_prepared(alloc, a, limits, PROFILE, dropping) {
        Ok(read) => read,
        Err(rejection) => return Err((Which::First, rejection)),
    };
    match read_prepared(alloc, b, limits, PROFILE, dropping) {
        Ok(second) => Ok((first, second)),
        Err(rejection) => Err((Which::Second, rejection)),
    }
}

/// Whether two files mean the same layout, once each is prepared without what is named to be left out: whether
/// [`prepare`](oas_prepare::prepare) writes the same canonical file for both, neither of which is written here. The first is
/// read whole before the second is begun, and where it stops nothing of the second is read. Each stops as for `prepare`, and
/// the rejection names the file.
pub fn prepared_same<S: Source, T: Source>(
    alloc: Global,
    a: &mut S,
    b: &mut T,
    limits: Limits,
    dropping: Dropping,
) -> Result<Comparison, (Which, Rejection)>
    ensures { ComparesPrepared T.script limits dropping (S.script a.old) (S.script a.new) b.old b.new result }
{
    match read_both(alloc, a, b, limits, dropping) {
        Ok(((one, first), (other, second))) => Ok(Comparison {
            same: one.same(&other),
            first,
            second,
        }),
        Err(rejected) => Err(rejected),
    }
}

/// Writes whether all that `a` gives and all that `b` gives mean the same layout, once each is prepared within these limits
/// and without what is named to be left out, as a line to `out`, `same` or `different`. Returns the status of the command: 0
/// or 3, or 1 after a refusal. What was left out of each, or the refusal, is put into `told` in lines that begin with the name
/// of its file. A fault of `out` is the refusal `Why::Write`, under the name of `a`; a fault of `told` changes nothing.
pub fn same_telling<S: Source, T: Source, W: Device, K: Sink>(
    alloc: Global,
    name_a: &str,
    a: &mut S,
    name_b: &str,
    b: &mut T,
    out: &mut W,
    told: &mut K,
    limits: Limits,
    dropping: Dropping,
) -> u8
    ensures { (found : Result Compared (WhichFile × Rejected)) × (answer : Result Compared Rejected) × (result ≡ comparison_status answer)
        × ComparesPrepared T.script limits dropping (S.script a.old) (S.script a.new) b.old b.new found
        × Delivers W.calls sameness_text out.old (found_in found) answer out.new
        × EndsBoth K.given K.failures name_a.now name_b.now (blamed name_a.now name_b.now found) told.old answer told.new }
{
    match prepared_same(alloc, a, b, limits, dropping) {
        Ok(comparison) => {
            let written = write_sameness(out, comparison.same);
            conclude_both(name_a, name_b, comparison, written, told)
        }
        Err((Which::First, rejection)) => reject(name_a, rejection, told),
        Err((Which::Second, rejection)) => reject(name_b, rejection, told),
    }
}

/// Ends a run whose result should be written: names what was left out of each file, or why the result was not written, and
/// returns its status.
fn conclude_both<K: Sink>(
    name_a: &str,
    name_b: &str,
    comparison: Comparison,
    written: Result<u64, Refusal>,
    told: &mut K,
) -> u8
    ensures answers { result ≡ comparison_status (answered comparison written) }
    ensures ends { EndsBoth K.given K.failures name_a.now name_b.now name_a.now told.old (answered comparison written) told.new }
{
    match written {
        Ok(_) => {
            let _ = put_reports(told, name_a, comparison.first, name_b, comparison.second);
            status_of_verdict(comparison.same)
        }
        Err(refusal) => reject(name_a, Rejection::from(refusal), told),
    }
}

/// Puts the lines that say what was left out of two files.
fn put_reports<K: Sink>(
    told: &mut K,
    name_a: &str,
    first: Report,
    name_b: &str,
    second: Report,
) -> Result<(), SinkFault>
    ensures { Writes K.given K.failures told.old (report_line name_a.now first ++ report_line name_b.now second) result told.new }
{
    put_report(told, name_a, first)?;
    put_report(told, name_b, second)
}

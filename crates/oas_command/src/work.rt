//! What is asked of one file and of two, and the run that does it.

ghost use Rattle.oas_command.specs.Work.{DoesWork, DoesPairWork};

use crate::lines::Label;
use crate::runs::{
    canon_telling, check_telling, diff_telling, info_telling, key_telling, keys_telling,
    named_check_telling, named_key_telling, rekey_telling, same_telling, show_telling,
};
use oas_canon::Limits;
use oas_info::Form;
use oas_markers::Options;
use oas_num::{Device, Sink, Source};
use std::alloc::Global;

/// What is asked of one file.
#[derive(Clone, Copy)]
pub enum Work<'a> {
    Canon,
    Check,
    /// As `Check`, with the file's name in the answer.
    NamedCheck(Label<'a>),
    Key,
    /// As `Key`, with the file's name in the answer.
    NamedKey(Label<'a>),
    Show,
    CellKeys,
    Info(Form),
    Rekey,
}

/// What is asked of two files.
#[derive(Clone, Copy)]
pub enum PairWork<'a> {
    Same,
    Diff(Options<'a>),
}

/// Does the work on all that `from` gives, and returns the status of the command. What it has to say is told under this
/// name.
pub fn work_telling<S: Source, W: Device, K: Sink>(
    alloc: Global,
    work: Work<'_>,
    name: &str,
    from: &mut S,
    out: &mut W,
    told: &mut K,
    limits: Limits,
) -> u8
    ensures { DoesWork W.calls K.given K.failures limits name.now (S.script from.old) out.old told.old work.entry result (S.script from.new) out.new told.new }
{
    match work {
        Work::Canon => canon_telling(alloc, name, from, out, told, limits),
        Work::Check => check_telling(alloc, name, from, out, told, limits),
        Work::NamedCheck(label) => {
            named_check_telling(alloc, name, label, from, out, told, limits)
        }
        Work::Key => key_telling(alloc, name, from, out, told, limits),
        Work::NamedKey(label) => named_key_telling(alloc, name, label, from, out, told, limits),
        Work::Show => show_telling(alloc, name, from, out, told, limits),
        Work::CellKeys => keys_telling(alloc, name, from, out, told, limits),
        Work::Info(form) => info_telling(alloc, name, from, form, out, told, limits),
        Work::Rekey => rekey_telling(alloc, name, from, out, told, limits),
    }
}

/// Does the work on all that the two sources give, and returns the status of the command. What it has to say is told under
/// the name of the file of which it is said.
pub fn pair_work_telling<S: Source, T: Source, W: Device, K: Sink>(
    alloc: Global,
    work: PairWork<'_>,
    name_a: &str,
    a: &mut S,
    name_b: &str,
    b: &mut T,
    out: &mut W,
    told: &mut K,
    limits: Limits,
) -> u8
    ensures { DoesPairWork W.calls K.given K.failures limits T.script name_a.now name_b.now (S.script a.old) b.old out.old told.old work.entry result (S.script a.new) b.new out.new told.new }
{
    match work {
        PairWork::Same => same_telling(alloc, name_a, a, name_b, b, out, told, limits),
        PairWork::Diff(options) => {
            diff_telling(alloc, name_a, a, name_b, b, options, out, told, limits)
        }
    }
}

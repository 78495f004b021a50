//! Writing a difference.

ghost use Rattle.std.specs.Prelude.{◌≡◌, ◌^◌, ◌<◌, length, None, IfErr, IfOk};
ghost use Rattle.oas_num.specs.Writing.{Writes};
ghost use Rattle.oas_num.specs.Written.{IsWritten, IsCutOff};
ghost use Rattle.oas_elements.specs.Contents.{meaning_of};
ghost use Rattle.oas_difference.specs.Difference.{unit_changes};
ghost use Rattle.oas_difference.specs.Limited.{more_line};
ghost use Rattle.oas_difference.specs.Options.{compared, detailed, difference_by};
ghost use Rattle.oas_diff_options.specs.declared.format.TheConstants.{PLAIN};

use crate::cells::{ChosenCells, put_cells};
use crate::limiting::Limited;
use crate::notation::Notation;
use oas_diff_options::{Choice, Detail, Options, PLAIN, Syntax};
use oas_diff_text::{Layout, put_unit_entry};
use oas_num::{Content, Device, Fraction, Refusal, Sink, SinkFault, write_content};

/// Puts the entries of two units that differ.
fn put_units<K: Sink>(
    sink: &mut K,
    syntax: Syntax,
    before: Fraction,
    after: Fraction,
) -> Result<(), SinkFault>
    ensures { Writes K.given K.failures sink.old (unit_changes syntax before after) result sink.new }
{
    if before == after {
        return Ok(());
    }
    put_unit_entry(sink, syntax, b'-', before)?;
    put_unit_entry(sink, syntax, b'+', after)
}

/// Puts the difference of what the options compare of two layouts, without a limit.
fn put_compared<'a, K: Sink>(
    sink: &mut K,
    before: &'a Layout,
    after: &'a Layout,
    options: Options<'a>,
) -> Result<(), SinkFault>
    requires { before.now.profile ≡ after.now.profile }
    ensures writes { Writes K.given K.failures sink.old (compared options.entry before.now.profile (meaning_of before.now) (meaning_of after.now)) result sink.new }
    ensures short { length (compared options.entry before.now.profile (meaning_of before.now) (meaning_of after.now)) < 2 ^ 63 }
{
    let left = ChosenCells::new(before, options.choice);
    let right = ChosenCells::new(after, options.choice);
    let notation = Notation::new(options.format, before.unit(), after.unit());
    put_units(sink, options.format.syntax, before.unit(), after.unit())?;
    put_cells(
        sink,
        left,
        right,
        options.choice.layers,
        options.detail,
        &notation,
    )
}

/// Puts the difference of two layouts of one profile into a sink, in that detail and with all its lines, in grid steps. It
/// allocates nothing.
pub fn put_difference<'a, K: Sink>(
    before: &'a Layout,
    after: &'a Layout,
    detail: Detail,
    sink: &mut K,
) -> Result<(), SinkFault>
    requires { before.now.profile ≡ after.now.profile }
    ensures writes { Writes K.given K.failures sink.old (detailed None detail PLAIN before.now.profile (meaning_of before.now) (meaning_of after.now)) result sink.new }
    ensures short { length (detailed None detail PLAIN before.now.profile (meaning_of before.now) (meaning_of after.now)) < 2 ^ 63 }
{
    let options = Options {
        choice: Choice::all(),
        detail,
        format: PLAIN,
        limit: None,
    };
    put_compared(sink, before, after, options)
}

/// Puts a line that says that there is more, where something was dropped.
fn put_more<K: Sink>(sink: &mut K, syntax: Syntax, is_cut: bool) -> Result<(), SinkFault>
    ensures { Writes K.given K.failures sink.old (more_line syntax is_cut) result sink.new }
{
    match (is_cut, syntax) {
        (false, _) => Ok(()),
        (true, Syntax::Lines) => sink.put_all(b"...\n"),
        (true, Syntax::Json) => sink.put_all(b"{\"kind\":\"more\"}\n"),
    }
}

/// The difference of two layouts of one profile, as content.
#[derive(Drop)]
struct Difference<'a> {
    before: &'a Layout,
    after: &'a Layout,
    options: Options<'a>,
    ghost profile: { before.now.profile ≡ after.now.profile },
}

impl Content for Difference<'_> {
    ghost use Rattle.oas_elements.specs.Contents.{meaning_of};
    ghost use Rattle.oas_difference.specs.Options.{difference_by};

    ghost bytes = { λ d. difference_by d.options d.before.now.profile (meaning_of d.before.now) (meaning_of d.after.now) };

    fn put_into<K: Sink>(&self, sink: &mut K) -> Result<(), SinkFault> {
        let options = self.options;
        let mut lines = Limited::new(sink, options.limit.unwrap_or(u64::MAX));
        put_compared(&mut lines, self.before, self.after, options)?;
        if lines.has_failed() {
            return Err(SinkFault::Device);
        }
        let is_cut = lines.is_cut();
        put_more(sink, options.format.syntax, is_cut)
    }
}

/// Writes the difference of two layouts of one profile as the options say, and returns how many bytes that is: none exactly
/// if what the options compare of the layouts is the same (`laws`). It allocates nothing.
///
/// A fault of the writer is `Why::Write`. Its place is the number of bytes that the writer took: the first ones of the
/// difference. Where it is the number of all of them, the flush failed.
pub fn write_difference<W: Device>(
    before: &Layout,
    after: &Layout,
    options: Options<'_>,
    writer: &mut W,
) -> Result<u64, Refusal>
    requires { before.now.profile ≡ after.now.profile }
    ensures written { IfOk result (IsWritten W.calls writer.old (difference_by options.entry before.now.profile (meaning_of before.now) (meaning_of after.now)) writer.new) }
    ensures refused { IfErr result (IsCutOff W.calls writer.old (difference_by options.entry before.now.profile (meaning_of before.now) (meaning_of after.now)) writer.new) }
{
    let difference = Difference {
        before,
        after,
        options,
    };
    write_content(&difference, writer)
}

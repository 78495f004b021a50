//! Writing the markers.

ghost use Rattle.std.specs.Prelude.{◌≡◌, ◌++◌, length, codes, IfErr, IfOk, OnOk};
ghost use Rattle.std.specs.Ordering.{nat_cmp};
ghost use Rattle.std.specs.Cmp.Lexicographic.{slice_cmp};
ghost use Rattle.std.specs.List.Sorted.{IsStrictlySortedBy};
ghost use Rattle.std.specs.Map.{keys_of};
ghost use Rattle.oas_num.specs.Outlets.{IsGiven, IsSent, failures_of};
ghost use Rattle.oas_num.specs.Ratio.{Ratio};
ghost use Rattle.oas_num.specs.Writing.{Writes};
ghost use Rattle.oas_elements.specs.Contents.{meaning_of};
ghost use Rattle.oas_difference.specs.Choice.{chosen};
ghost use Rattle.oas_difference.specs.Held.{cells_chosen};
ghost use Rattle.oas_markers.specs.Markers.{first_items, markers};
ghost use Rattle.oas_difference.specs.Microns.{counted_to};
ghost use Rattle.oas_markers.specs.Held.{held_items};
ghost use Rattle.oas_markers.specs.Written.{IsMarked, IsMarkedUpTo};

use crate::cells::{put_entries, put_items};
use crate::counting::count_items;
use crate::items::put_head;
use oas_difference::{Choice, ChosenCells, ChosenLayer, Layout};
use oas_num::{Device, Fraction, Outlet, Refusal, Sink, SinkFault, Why};

/// Puts the items of all cells, at most this many, and what surrounds them.
fn put_body<'a, K: Sink>(
    sink: &mut K,
    gone: Fraction,
    come: Fraction,
    before: ChosenCells<'a>,
    after: ChosenCells<'a>,
    layers: Option<&[ChosenLayer]>,
    most: u64,
) -> Result<(), SinkFault>
    requires before { IsStrictlySortedBy (slice_cmp nat_cmp) (keys_of before) }
    requires after { IsStrictlySortedBy (slice_cmp nat_cmp) (keys_of after) }
    ensures { Writes K.given K.failures sink.old (codes " </cells>\n <items>\n" ++ (first_items most (held_items layers.entry gone come before.entry after.entry) ++ codes " </items>\n</report-database>\n")) result sink.new }
{
    sink.put_all(b" </cells>\n <items>\n")?;
    put_items(sink, gone, come, before, after, layers, most)?;
    sink.put_all(b" </items>\n</report-database>\n")
}

/// How many markers there are of what is compared of two layouts; the count stops at `u64::MAX`.
fn count_markers<'a>(before: &'a Layout, after: &'a Layout, choice: Choice<'a>) -> u64
    ensures { (u v : Ratio) → result ≡ counted_to (length (held_items choice.entry.layers u v (cells_chosen choice.entry before.now.cells) (cells_chosen choice.entry after.now.cells))) }
{
    let cells_before = ChosenCells::new(before, choice);
    let cells_after = ChosenCells::new(after, choice);
    count_items(cells_before, cells_after, choice.layers)
}

/// Puts the markers of what is compared of two layouts, at most this many.
fn put_markers<'a, K: Sink>(
    sink: &mut K,
    before: &'a Layout,
    after: &'a Layout,
    choice: Choice<'a>,
    most: u64,
) -> Result<(), SinkFault>
    requires { before.now.profile ≡ after.now.profile }
    ensures { Writes K.given K.failures sink.old (markers most choice.entry.layers before.now.profile (chosen choice.entry (meaning_of before.now)) (chosen choice.entry (meaning_of after.now))) result sink.new }
{
    let entries_before = ChosenCells::new(before, choice);
    let entries_after = ChosenCells::new(after, choice);
    let items_before = ChosenCells::new(before, choice);
    let items_after = ChosenCells::new(after, choice);
    let gone = before.unit();
    let come = after.unit();
    let count = count_markers(before, after, choice);
    put_head(sink, gone, come, most, count)?;
    put_entries(sink, entries_before, entries_after, choice.layers)?;
    put_body(
        sink,
        gone,
        come,
        items_before,
        items_after,
        choice.layers,
        most,
    )
}

/// Puts the markers of two layouts into an outlet, and sends all of them to its writer.
fn put_and_close<W: Device>(
    before: &Layout,
    after: &Layout,
    choice: Choice<'_>,
    most: u64,
    outlet: &mut Outlet<'_, W>,
) -> Result<(), SinkFault>
    requires { before.now.profile ≡ after.now.profile }
    ensures writes { Writes (IsGiven W.calls) failures_of outlet.old (markers most choice.entry.layers before.now.profile (chosen choice.entry (meaning_of before.now)) (chosen choice.entry (meaning_of after.now))) result outlet.new }
    ensures all { OnOk result (IsSent outlet.new) }
{
    put_markers(outlet, before, after, choice, most)?;
    outlet.close()
}

/// Writes the markers of what is compared of two layouts of one profile, at most this many, and returns how many bytes that
/// is; the count stops at `u64::MAX`. Where there are more, the text says how many. It allocates nothing. Where what is
/// compared is the same there is no marker.
///
/// A fault of the writer is `Why::Write`. Its place is the number of bytes that the writer took: the first ones of the
/// markers. Where it is the number of all of them, the flush failed.
pub fn write_markers<W: Device>(
    before: &Layout,
    after: &Layout,
    choice: Choice<'_>,
    most: u64,
    writer: &mut W,
) -> Result<u64, Refusal>
    requires { before.now.profile ≡ after.now.profile }
    ensures written { IfOk result (IsMarked W.calls writer.old (markers most choice.entry.layers before.now.profile (chosen choice.entry (meaning_of before.now)) (chosen choice.entry (meaning_of after.now))) writer.new) }
    ensures refused { IfErr result (IsMarkedUpTo W.calls writer.old (markers most choice.entry.layers before.now.profile (chosen choice.entry (meaning_of before.now)) (chosen choice.entry (meaning_of after.now))) writer.new) }
{
    let mut outlet = Outlet::new(writer);
    match put_and_close(before, after, choice, most, &mut outlet) {
        Ok(()) => Ok(outlet.taken()),
        Err(_) => Err(Refusal {
            at: outlet.taken(),
            why: Why::Write,
        }),
    }
}

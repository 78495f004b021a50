//! How many elements of a cell only one of two layouts has.

ghost use Rattle.std.specs.Prelude.{◌≡◌, IfSome};
ghost use Rattle.std.specs.List.Sorted.{IsStrictlySortedBy};
ghost use Rattle.std.specs.Map.{keys_of};
ghost use Rattle.oas_num.specs.Writing.{Writes};
ghost use Rattle.oas_elements.specs.Bag.{IsTally};
ghost use Rattle.oas_elements.specs.Element.{element_cmp};
ghost use Rattle.oas_difference.specs.Brief.{only_first, only_second, brief_sign};
ghost use Rattle.oas_difference.specs.Held.{held_brief, held_changed};
ghost use Rattle.oas_diff_text.specs.Microns.{counted_to};

use crate::changes::next_change;
use crate::elements::ChosenElements;
use crate::side::Side;
use oas_diff_options::Syntax;
use oas_diff_text::{Excess, put_brief_entry};
use oas_num::{Name, Sink, SinkFault};

/// Counts the elements that only one side has.
fn count_changes<'a>(mut before: Side<'a>, mut after: Side<'a>) -> Excess
    requires before { IsStrictlySortedBy element_cmp (keys_of before) }
    requires after { IsStrictlySortedBy element_cmp (keys_of after) }
    ensures before { result.before ≡ counted_to (only_first (held_changed before.entry after.entry)) }
    ensures after { result.after ≡ counted_to (only_second (held_changed before.entry after.entry)) }
{
    let mut excess = Excess {
        before: 0,
        after: 0,
    };
    while let Some(change) = next_change(&mut before, &mut after) {
        let gone = change.before.saturating_sub(change.after);
        let come = change.after.saturating_sub(change.before);
        excess.before = excess.before.saturating_add(gone);
        excess.after = excess.after.saturating_add(come);
    }
    excess
}

/// The sign of a cell's entry, if it has one.
fn sign_of(is_before: bool, is_after: bool, excess: Excess) -> Option<u8>
    ensures { result ≡ brief_sign is_before is_after excess.before excess.after }
{
    match (is_before, is_after) {
        (true, true) => {
            if excess.before == 0 && excess.after == 0 {
                None
            } else {
                Some(b'@')
            }
        }
        (true, false) => Some(b'-'),
        (false, true) => Some(b'+'),
        (false, false) => None,
    }
}

/// Puts the entry of a cell, if it has one; its elements are given where it is there.
pub(crate) fn put_brief_cell<'a, K: Sink>(
    sink: &mut K,
    syntax: Syntax,
    name: &Name,
    before: Option<ChosenElements<'a>>,
    after: Option<ChosenElements<'a>>,
) -> Result<(), SinkFault>
    requires before { IfSome before IsTally }
    requires after { IfSome after IsTally }
    ensures { Writes K.given K.failures sink.old (held_brief syntax (name.now, (before.entry, after.entry))) result sink.new }
{
    let (is_before, is_after) = (before.is_some(), after.is_some());
    let excess = count_changes(Side::new(before), Side::new(after));
    match sign_of(is_before, is_after, excess) {
        Some(sign) => put_brief_entry(sink, syntax, sign, name, excess),
        None => Ok(()),
    }
}

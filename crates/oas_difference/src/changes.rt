//! What has changed in a cell.

ghost use Rattle.std.specs.Prelude.{◌≡◌, ◌≢◌, ◌+◌, ◌<◌, ◌++◌, [], length, MatchOption, IfSome};
ghost use Rattle.std.specs.List.Sorted.{IsStrictlySortedBy};
ghost use Rattle.std.specs.Map.{keys_of};
ghost use Rattle.oas_num.specs.Writing.{Writes};
ghost use Rattle.oas_elements.specs.Element.{element_cmp};
ghost use Rattle.oas_difference.specs.Changed.{change_at};
ghost use Rattle.oas_difference.specs.Difference.{change_entry};
ghost use Rattle.oas_difference.specs.Held.{held_changed, held_changes};

use crate::notation::Notation;
use crate::side::Side;
use oas_diff_text::{KeyedElement, put_element_entry, show};
use oas_num::{Name, Sink, SinkFault};
use std::cmp::Ordering;

/// An element that is not there as often after as before.
#[derive(Debug, Drop)]
pub struct Change<'a> {
    pub element: KeyedElement<'a>,
    pub before: u64,
    pub after: u64,
}

/// Removes the least element from both sides, if there is one, with how often it is there on both.
fn take_least<'a>(before: &mut Side<'a>, after: &mut Side<'a>) -> Option<Change<'a>>
    requires before { IsStrictlySortedBy element_cmp (keys_of before.old) }
    requires after { IsStrictlySortedBy element_cmp (keys_of after.old) }
    ensures changed { MatchOption result (held_changed before.old after.old ≡ [])
        (λ c. held_changed before.old after.old ≡ change_at c.element c.before c.after ++ held_changed before.new after.new) }
    ensures fewer { IfSome result (λ _. length before.new + length after.new < length before.old + length after.old) }
    ensures before { IsStrictlySortedBy element_cmp (keys_of before.new) }
    ensures after { IsStrictlySortedBy element_cmp (keys_of after.new) }
{
    let first = before.order(after)?;
    match first {
        Ordering::Less => {
            let (element, count) = before.take_first()?;
            Some(Change {
                element,
                before: count,
                after: 0,
            })
        }
        Ordering::Equal => {
            let (element, count) = before.take_first()?;
            let (_, count_after) = after.take_first()?;
            Some(Change {
                element,
                before: count,
                after: count_after,
            })
        }
        Ordering::Greater => {
            let (element, count) = after.take_first()?;
            Some(Change {
                element,
                before: 0,
                after: count,
            })
        }
    }
}

/// Removes elements on both sides until one is not there as often on both.
pub fn next_change<'a>(before: &mut Side<'a>, after: &mut Side<'a>) -> Option<Change<'a>>
    requires before { IsStrictlySortedBy element_cmp (keys_of before.old) }
    requires after { IsStrictlySortedBy element_cmp (keys_of after.old) }
    ensures changed { MatchOption result (held_changed before.old after.old ≡ [])
        (λ c. held_changed before.old after.old ≡ change_at c.element c.before c.after ++ held_changed before.new after.new) }
    ensures unlike { IfSome result (λ c. c.before ≢ c.after) }
    ensures fewer { IfSome result (λ _. length before.new + length after.new < length before.old + length after.old) }
    ensures before { IsStrictlySortedBy element_cmp (keys_of before.new) }
    ensures after { IsStrictlySortedBy element_cmp (keys_of after.new) }
{
    while let Some(change) = take_least(before, after) {
        if change.before != change.after {
            return Some(change);
        }
    }
    None
}

/// Puts the entry of a change of that cell.
pub(crate) fn put_change<K: Sink>(
    sink: &mut K,
    notation: &Notation,
    name: &Name,
    found: Change<'_>,
) -> Result<(), SinkFault>
    ensures { Writes K.given K.failures sink.old
        (change_entry notation.now name.now (found.entry.element, (found.entry.before, found.entry.after))) result sink.new }
{
    let (syntax, element) = (notation.syntax, show(&found.element));
    if found.after < found.before {
        let count = found.before - found.after;
        put_element_entry(sink, syntax, &notation.before, name, b'-', count, element)
    } else {
        let count = found.after - found.before;
        put_element_entry(sink, syntax, &notation.after, name, b'+', count, element)
    }
}

/// Puts the entries of what has changed in that cell.
pub(crate) fn put_changes<'a, K: Sink>(
    sink: &mut K,
    notation: &Notation,
    name: &Name,
    mut before: Side<'a>,
    mut after: Side<'a>,
) -> Result<(), SinkFault>
    requires before { IsStrictlySortedBy element_cmp (keys_of before) }
    requires after { IsStrictlySortedBy element_cmp (keys_of after) }
    ensures { Writes K.given K.failures sink.old (held_changes notation.now name.now before.entry after.entry) result sink.new }
{
    while let Some(change) = next_change(&mut before, &mut after) {
        put_change(sink, notation, name, change)?;
    }
    Ok(())
}

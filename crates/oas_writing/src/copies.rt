//! Copies of an element.

ghost use Rattle.std.specs.Prelude.{◌≤◌, ◌<◌, ◌^◌, replicate, sum_by};
ghost use Rattle.oas_elements.specs.Sound.{IsSound};
ghost use Rattle.oas_elements.specs.Weight.{weight_of};
ghost use Rattle.oas_listing.specs.Bytes.{elements_bytes};
ghost use Rattle.oas_listing.specs.Putting.{Counts};

use crate::batches::Batch;
use crate::elements::put_element;
use oas_listing::KeyedElement;
use oas_num::{Sink, SinkFault};

/// Fewer copies than these are put one by one, since clearing a batch takes as long as some of them.
const MANY: u64 = 8;

/// Puts an element this many times, one by one.
fn put_one_by_one<K: Sink>(
    sink: &mut K,
    element: &KeyedElement<'_>,
    times: u64,
) -> Result<u64, SinkFault>
    requires sound { IsSound element.now }
    requires light { sum_by weight_of (replicate times element.now) ≤ 2 ^ 30 }
    ensures { Counts K.given K.failures sink.old (elements_bytes (replicate times element.now)) result sink.new }
{
    let mut count = 0;
    for _ in 0..times {
        count += put_element(sink, element)?;
    }
    Ok(count)
}

/// Puts an element this many times. Where a batch has room for its record, that is made once.
///
/// It isn't inlined, so that only a call of it clears room for a batch.
#[inline(never)]
fn put_in_batches<K: Sink>(
    sink: &mut K,
    element: &KeyedElement<'_>,
    times: u64,
) -> Result<u64, SinkFault>
    requires some { 0 < times }
    requires sound { IsSound element.now }
    requires light { sum_by weight_of (replicate times element.now) ≤ 2 ^ 30 }
    ensures { Counts K.given K.failures sink.old (elements_bytes (replicate times element.now)) result sink.new }
{
    let mut batch = Batch::new();
    let Ok(size) = put_element(&mut batch, element) else {
        return put_one_by_one(sink, element, times);
    };
    batch.put_times(sink, times)?;
    Ok(times * size)
}

/// Puts an element this many times.
pub(crate) fn put_copies<K: Sink>(
    sink: &mut K,
    element: &KeyedElement<'_>,
    times: u64,
) -> Result<u64, SinkFault>
    requires sound { IsSound element.now }
    requires light { sum_by weight_of (replicate times element.now) ≤ 2 ^ 30 }
    ensures { Counts K.given K.failures sink.old (elements_bytes (replicate times element.now)) result sink.new }
{
    if times < MANY {
        put_one_by_one(sink, element, times)
    } else {
        put_in_batches(sink, element, times)
    }
}

//! What the tests of readers and of drafts both use.

use oas_elements::Limits;
use oas_num::Why;

/// These limits, which are valid.
pub(crate) fn limits_of(elements: u64, weight: u64, input: u64) -> Result<Limits, Why> {
    Limits::new(elements, weight, input).ok_or(Why::TooHeavy)
}

/// Drops a value in a step of its own, since that is expensive to prove beside other values.
pub(crate) fn discard<T: Drop>(_value: T) {}

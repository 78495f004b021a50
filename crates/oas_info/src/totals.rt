//! What the elements of a layout add up to.

use crate::group::Group;
use std::collections::BTreeMap;

/// What elements and cells add up to.
#[derive(Drop)]
pub(crate) struct Totals {
    /// How many elements are in each group that has some, ascending.
    pub(crate) groups: BTreeMap<Group, u64>,
    /// How many elements there are, equal ones each counted.
    pub(crate) elements: u64,
    /// What the elements weigh, and the cells with their names.
    pub(crate) weight: u64,
}

//! Whether two runs have the same entries.

ghost use Rattle.std.specs.Prelude.{◌≡◌};
ghost use Rattle.std.specs.Cmp.Lexicographic.{pointwise};
ghost use Rattle.oas_runs.specs.Comparing.{same_entry, same_entry_per};

use crate::entries::Entries;
use crate::run::Run;

/// Whether the entries that are left of both are the same, in the same order.
fn same_entries(one: Entries<'_>, other: Entries<'_>) -> bool
    ensures { result ≡ pointwise same_entry one.entry other.entry }
{
    let mut others = other;
    for (key, times) in one {
        let Some((other_key, other_times)) = others.next() else {
            return false;
        };
        if times != other_times || key != other_key {
            return false;
        }
    }
    others.next().is_none()
}

impl PartialEq for Run {
    ghost eq = { pointwise same_entry };

    ghost laws = { same_entry_per };

    fn eq(&self, other: &Run) -> bool {
        same_entries(self.entries(), other.entries())
    }
}

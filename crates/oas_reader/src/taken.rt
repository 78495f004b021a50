//! What a reader has taken, for stores that are finished in crates above.

ghost use Rattle.std.specs.Prelude.{◌≡◌, IfOk, IfErr};
ghost use Rattle.oas_num.specs.declared.refusals.Why.TheVariants.{Memory};
ghost use Rattle.oas_reader.specs.Parts.{Sound};
ghost use Rattle.oas_reader.specs.Taken.{HasParts};

use crate::names::NameTable;
use crate::parts::{Parts, all_cells};
use crate::stores::CellStore;
use oas_elements::{Limits, Profile};
use oas_num::{Fraction, Label, Name, Refusal, Why};

/// What a reader has taken: the names of numbers, and the stores of all cells in the order of the file.
#[derive(Drop)]
pub struct Taken<S> {
    pub unit: Fraction,
    pub limits: Limits,
    pub profile: Profile,
    pub names: NameTable<Name>,
    pub strings: NameTable<Label>,
    pub cells: Vec<S>,
}

/// What was taken, from what is kept; END starts at byte `at`.
pub(crate) fn taken_of<S: CellStore>(parts: Parts<S>, at: u64) -> Result<Taken<S>, Refusal>
    requires { Sound S.store parts }
    ensures ok { IfOk result (HasParts S.store parts) }
    ensures err { IfErr result (λ e. (e.at ≡ at) × (e.why ≡ Memory)) }
{
    let Parts {
        unit,
        limits,
        profile,
        names,
        strings,
        done,
        cell,
        ..
    } = parts;
    let Ok(cells) = all_cells(done, cell) else {
        return Err(Refusal {
            at,
            why: Why::Memory,
        });
    };
    Ok(Taken {
        unit,
        limits,
        profile,
        names,
        strings,
        cells,
    })
}

//! The copies of an element record, held place by place.

ghost use Rattle.std.specs.Prelude.{◌≡◌, ◌⊎◌, ◌*◌, ◌<◌, ◌≤◌, ◌^◌, ℕ, false, None, OnOk, IfOk, IfErr};
ghost use Rattle.oas_num.specs.declared.refusals.Why.TheVariants.{Memory};
ghost use Rattle.oas_shape.specs.Steps.{still};
ghost use Rattle.oas_drawing.specs.Drawing.{drawn_by, number_if, offset_if};
ghost use Rattle.oas_drawing.specs.Reasons.{weight_if, lacks_if, fault_of};
ghost use Rattle.oas_reader.specs.Stores.{Draws};
ghost use Rattle.oas_reader.specs.Copying.{first_copies, drawn_times};

use crate::stores::CellStore;
use oas_drawing::{Kind, ModalVariables};
use oas_num::Why;
use std::alloc::Global;

/// Draws the copies of an element record, those on one place at once, and returns their weight together.
pub(crate) fn hold_copies<S: CellStore>(
    alloc: Global,
    modal: &ModalVariables,
    held: &mut S,
    kind: &Kind,
    repeated: bool,
) -> Result<u64, Why>
    requires small { number_if repeated modal.now.repetition ≤ 2 ^ 26 }
    requires light { number_if repeated modal.now.repetition * weight_if (drawn_by modal.now kind.now still) ≤ 2 ^ 30 }
    requires room { S.store.count held.old ≤ 2 ^ 26 }
    requires points { lacks_if (drawn_by modal.now kind.now still) ≡ false }
    ensures weight { IfOk result (λ weight. weight ≡ number_if repeated modal.now.repetition * weight_if (drawn_by modal.now kind.now still)) }
    ensures held { OnOk result (Draws S.store held.old (first_copies modal.now kind.now repeated (number_if repeated modal.now.repetition)) held.new) }
    ensures fit { OnOk result ((i : ℕ) → i < number_if repeated modal.now.repetition → fault_of (drawn_by modal.now kind.now (offset_if repeated modal.now.repetition i)) ≡ None) }
    ensures err { IfErr result (λ why. (why ≡ Memory) ⊎ ((i : ℕ) × (i < number_if repeated modal.now.repetition) × (fault_of (drawn_by modal.now kind.now (offset_if repeated modal.now.repetition i)) ≡ Some why))) }
{
    if !repeated {
        return hold_one(alloc, modal, held, kind);
    }
    let places = modal.places(repeated);
    let mut weight = 0;
    for j in 0..places.number {
        let one = held.draw_copy(
            alloc,
            modal,
            kind,
            repeated,
            j * places.stride,
            places.copies,
        )?;
        weight += one * places.copies;
    }
    Ok(weight)
}

/// Draws the element of a record without a repetition, and returns its weight. It isn't inlined beside the loop over places, so
/// that it has nothing to save for it.
#[inline(never)]
fn hold_one<S: CellStore>(
    alloc: Global,
    modal: &ModalVariables,
    held: &mut S,
    kind: &Kind,
) -> Result<u64, Why>
    requires room { S.store.count held.old ≤ 2 ^ 26 }
    requires points { lacks_if (drawn_by modal.now kind.now still) ≡ false }
    ensures weight { IfOk result (λ weight. weight ≡ weight_if (drawn_by modal.now kind.now still)) }
    ensures held { OnOk result (Draws S.store held.old (drawn_times 1 (drawn_by modal.now kind.now still)) held.new) }
    ensures fits { OnOk result (fault_of (drawn_by modal.now kind.now still) ≡ None) }
    ensures err { IfErr result (λ why. (why ≡ Memory) ⊎ (fault_of (drawn_by modal.now kind.now still) ≡ Some why)) }
{
    held.draw_copy(alloc, modal, kind, false, 0, 1)
}

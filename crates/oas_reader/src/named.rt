//! How a placement or a text that is at hand changes what a reader keeps.

ghost use Rattle.std.specs.Prelude.{◌≡◌, ◌⊎◌, None, Some, OnOk, IfErr};
ghost use Rattle.oas_num.specs.declared.refusals.Why.TheVariants.{Memory};
ghost use Rattle.oas_peek.specs.Named.{HasValidName, named_record};
ghost use Rattle.oas_reader.specs.Standing.{MayRunOut};
ghost use Rattle.oas_reader.specs.Parts.{Took, Sound, reason_of};

use crate::parts::Parts;
use crate::stores::CellStore;
use oas_num::Why;
use oas_peek::NamedOnce;

/// Draws a placement or a text without a repetition in the open cell. Other refusals come before out of memory.
#[inline(always)]
pub(crate) fn accept_named<S: CellStore>(
    parts: &mut Parts<S>,
    next: &NamedOnce<'_>,
) -> Result<(), Why>
    requires named { HasValidName next.now }
    requires sound { Sound S.store parts.old }
    ensures reason { OnOk result (reason_of parts.old (named_record next.now) ≡ None) }
    ensures new { OnOk result (Took S.store parts.old (named_record next.now) parts.new) }
    ensures sound { OnOk result (Sound S.store parts.new) }
    ensures err { IfErr result (λ why. ((why ≡ Memory) × MayRunOut (reason_of parts.old (named_record next.now))) ⊎ (reason_of parts.old (named_record next.now) ≡ Some why)) }
{
    let Some(held) = &mut parts.cell else {
        return Err(Why::OutOfPlace(match next {
            NamedOnce::Placement { .. } => 17,
            NamedOnce::Text { .. } => 19,
        }));
    };
    parts.modal.set_fields(next);
    parts
        .modal
        .check_named(next, parts.limits, parts.count, parts.weight)?;
    if parts.modal.set_name(parts.alloc, next).is_err() {
        return Err(Why::Memory);
    }
    let Some(drawn) = parts.modal.one_named(next) else {
        return Err(Why::ModalUndefined);
    };
    let weight = drawn.weight();
    match held.draw_once(parts.alloc, &drawn) {
        Ok(()) => {}
        Err(_) => return Err(Why::Memory),
    }
    parts.count += 1;
    parts.weight += weight;
    Ok(())
}

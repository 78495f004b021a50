//! How each record changes what a reader keeps.

ghost use Rattle.std.specs.Prelude.{◌≡◌, ◌⊎◌, None, Some, OnOk, IfErr};
ghost use Rattle.oas_num.specs.declared.refusals.Why.TheVariants.{Memory};
ghost use Rattle.oas_record.specs.declared.records.Record.{Record as OneRecord};
ghost use Rattle.oas_drawing.specs.Drawing.{kind_of};
ghost use Rattle.oas_reader.specs.Standing.{MayRunOut, cell_weight};
ghost use Rattle.oas_reader.specs.Parts.{Took, Sound, cells, reason_of};

use crate::copying::hold_copies;
use crate::parts::Parts;
use crate::stores::CellStore;
use oas_drawing::{Kind, repeats};
use oas_num::{Label, Name, Why};
use oas_record::{CellRef, Record, Rectangle};
use std::mem;

/// Draws an element record in the open cell.
fn draw<S: CellStore>(parts: &mut Parts<S>, kind: &Kind, next: &mut Record) -> Result<(), Why>
    requires kind { kind_of next.old ≡ Some kind.now }
    requires sound { Sound S.store parts.old }
    ensures reason { OnOk result (reason_of parts.old next.old ≡ None) }
    ensures new { OnOk result (Took S.store parts.old next.old parts.new) }
    ensures sound { OnOk result (Sound S.store parts.new) }
    ensures err { IfErr result (λ why. ((why ≡ Memory) × MayRunOut (reason_of parts.old next.old)) ⊎ (reason_of parts.old next.old ≡ Some why)) }
{
    let Some(held) = &mut parts.cell else {
        return Err(Why::OutOfPlace(next.id()));
    };
    let repeated = repeats(next);
    parts.modal.step(next);
    let number = parts
        .modal
        .copies(kind, repeated, parts.limits, parts.count, parts.weight)?;
    let weight = hold_copies(parts.alloc, &parts.modal, held, kind, repeated)?;
    parts.count += number;
    parts.weight += weight;
    Ok(())
}

/// For at least this many cells room is reserved at once.
const LEAST: usize = 4;

/// How much of the present size is reserved at once: a quarter, so that little of it is idle.
const PART: usize = 4;

/// Ends the open cell, where there is one.
fn close<S: CellStore>(parts: &mut Parts<S>) -> Result<(), Why>
    requires { Sound S.store parts.old }
    ensures closed { OnOk result (parts.new ≡ record parts.old { done = parts.new.done; cell = None }) }
    ensures cells { OnOk result (parts.new.done.items ≡ cells parts.old) }
    ensures err { IfErr result (λ why. why ≡ Memory) }
{
    if let Some(mut held) = parts.cell.take() {
        held.rest();
        let done = &mut parts.done;
        let room = (done.len() / PART).max(LEAST);
        if done.len() == done.capacity() && done.reserve_exact(room).is_err() {
            return Err(Why::Memory);
        }
        if done.push(held).is_err() {
            return Err(Why::Memory);
        }
    }
    Ok(())
}

/// The weight of a CELL as long as its number has no name.
fn cell_weight(cell: &CellRef) -> u64
    ensures { result ≡ cell_weight cell.now }
{
    match cell {
        CellRef::Number(_) => 0,
        CellRef::Name(name) => 1 + name.as_bytes().len() as u64,
    }
}

/// Begins a cell.
fn begin<S: CellStore>(parts: &mut Parts<S>, cell: CellRef) -> Result<(), Why>
    requires { Sound S.store parts.old }
    ensures reason { OnOk result (reason_of parts.old (OneRecord.Cell cell) ≡ None) }
    ensures new { OnOk result (Took S.store parts.old (OneRecord.Cell cell) parts.new) }
    ensures sound { OnOk result (Sound S.store parts.new) }
    ensures err { IfErr result (λ why. ((why ≡ Memory) × (reason_of parts.old (OneRecord.Cell cell) ≡ None)) ⊎ (reason_of parts.old (OneRecord.Cell cell) ≡ Some why)) }
{
    let weight = cell_weight(&cell);
    if weight > parts.limits.weight() - parts.weight {
        return Err(Why::TooHeavy);
    }
    close(parts)?;
    parts.modal.begin_cell();
    parts.cell = Some(S::begin(parts.alloc, cell));
    parts.weight += weight;
    Ok(())
}

/// Takes the name of a cell, which ends the open one.
fn name_cell<S: CellStore>(parts: &mut Parts<S>, name: Name, number: Option<u64>) -> Result<(), Why>
    requires { Sound S.store parts.old }
    ensures reason { OnOk result (reason_of parts.old (OneRecord.CellName name number) ≡ None) }
    ensures new { OnOk result (Took S.store parts.old (OneRecord.CellName name number) parts.new) }
    ensures sound { OnOk result (Sound S.store parts.new) }
    ensures err { IfErr result (λ why. ((why ≡ Memory) × (reason_of parts.old (OneRecord.CellName name number) ≡ None)) ⊎ (reason_of parts.old (OneRecord.CellName name number) ≡ Some why)) }
{
    parts.names.name(name, number)?;
    close(parts)?;
    Ok(())
}

/// Takes a text string, which ends the open cell.
fn name_string<S: CellStore>(
    parts: &mut Parts<S>,
    label: Label,
    number: Option<u64>,
) -> Result<(), Why>
    requires { Sound S.store parts.old }
    ensures reason { OnOk result (reason_of parts.old (OneRecord.TextString label number) ≡ None) }
    ensures new { OnOk result (Took S.store parts.old (OneRecord.TextString label number) parts.new) }
    ensures sound { OnOk result (Sound S.store parts.new) }
    ensures err { IfErr result (λ why. ((why ≡ Memory) × (reason_of parts.old (OneRecord.TextString label number) ≡ None)) ⊎ (reason_of parts.old (OneRecord.TextString label number) ≡ Some why)) }
{
    parts.strings.name(label, number)?;
    close(parts)?;
    Ok(())
}

/// Takes a record that is no element.
fn take_other<S: CellStore>(parts: &mut Parts<S>, next: Record) -> Result<(), Why>
    requires other { kind_of next ≡ None }
    requires sound { Sound S.store parts.old }
    ensures reason { OnOk result (reason_of parts.old next ≡ None) }
    ensures new { OnOk result (Took S.store parts.old next parts.new) }
    ensures sound { OnOk result (Sound S.store parts.new) }
    ensures err { IfErr result (λ why. ((why ≡ Memory) × (reason_of parts.old next ≡ None)) ⊎ (reason_of parts.old next ≡ Some why)) }
{
    match next {
        Record::End => Err(Why::OutOfPlace(2)),
        Record::CellName { name, number } => name_cell(parts, name, number),
        Record::TextString { label, number } => name_string(parts, label, number),
        Record::Cell(cell) => begin(parts, cell),
        Record::XyAbsolute => {
            parts.modal.set_relative(false);
            Ok(())
        }
        Record::XyRelative => {
            parts.modal.set_relative(true);
            Ok(())
        }
        Record::Pad => Ok(()),
        _ => Ok(()),
    }
}

/// Draws a rectangle without a repetition in the open cell, so there is no loop over copies.
#[inline(always)]
pub(crate) fn accept_rectangle<S: CellStore>(
    parts: &mut Parts<S>,
    next: &mut Rectangle,
) -> Result<(), Why>
    requires once { next.old.spot.repetition ≡ None }
    requires sound { Sound S.store parts.old }
    ensures reason { OnOk result (reason_of parts.old (OneRecord.Rectangle next.old) ≡ None) }
    ensures new { OnOk result (Took S.store parts.old (OneRecord.Rectangle next.old) parts.new) }
    ensures sound { OnOk result (Sound S.store parts.new) }
    ensures err { IfErr result (λ why. ((why ≡ Memory) × MayRunOut (reason_of parts.old (OneRecord.Rectangle next.old))) ⊎ (reason_of parts.old (OneRecord.Rectangle next.old) ≡ Some why)) }
{
    let Some(held) = &mut parts.cell else {
        return Err(Why::OutOfPlace(20));
    };
    parts.modal.draw_rectangle(next);
    let drawn = parts
        .modal
        .one_rectangle(parts.limits, parts.count, parts.weight)?;
    match held.draw(drawn, 1) {
        Ok(()) => {}
        Err(_) => return Err(Why::Memory),
    }
    parts.count += 1;
    parts.weight += 1;
    Ok(())
}

/// Takes a record, where it isn't refused. Memory that the record owns is moved out of it.
#[inline(never)]
pub(crate) fn accept<S: CellStore>(parts: &mut Parts<S>, next: &mut Record) -> Result<(), Why>
    requires { Sound S.store parts.old }
    ensures reason { OnOk result (reason_of parts.old next.old ≡ None) }
    ensures new { OnOk result (Took S.store parts.old next.old parts.new) }
    ensures sound { OnOk result (Sound S.store parts.new) }
    ensures err { IfErr result (λ why. ((why ≡ Memory) × MayRunOut (reason_of parts.old next.old)) ⊎ (reason_of parts.old next.old ≡ Some why)) }
{
    match Kind::of(next) {
        Some(kind) => draw(parts, &kind, next),
        None => take_other(parts, mem::replace(next, Record::Pad)),
    }
}

//! Placements: what one sets, weighs and draws.
ghost use Rattle.std.specs.Prelude.{◌≡◌, ◌≤◌, ◌^◌, ◌⊎◌, Bool, true, Some, IfOk, IfErr, IfSome};
ghost use Rattle.std.specs.Option.{option_map};
ghost use Rattle.oas_num.specs.declared.refusals.Why.TheVariants.{Memory};
ghost use Rattle.oas_num.specs.Deltas.{step};
ghost use Rattle.oas_ring.specs.declared.point.Point.{Point as OnePoint};
ghost use Rattle.oas_record.specs.declared.records.Record.{Record as OneRecord};
ghost use Rattle.oas_elements.specs.declared.element.Turns.{Turns};
ghost use Rattle.oas_drawing.specs.Positions.{IsNear};
ghost use Rattle.oas_drawing.specs.Modal.{stepped};
ghost use Rattle.oas_drawing.specs.Drawn.{weight_so_far, drawn_points_fit};
ghost use Rattle.oas_drawing.specs.Drawing.{placement_at, point_from};
ghost use Rattle.oas_drawing.specs.Reasons.{fault_of, MayRunOut};
ghost use Rattle.oas_drawing.specs.Tallies.{IsTallied};

use crate::drawn::Drawn;
use crate::modal::drawing::point_by;
use crate::modal::{ModalVariables, take_given, take_repetition};
use crate::tally::{Tally, UsedNumber};
use oas_elements::{Element, Turns};
use oas_num::Why;
use oas_record::{CellRef, Placement};
use oas_ring::Point;
use std::alloc::Global;

impl ModalVariables {
    /// What a placement sets. A name that it gives, and a repetition, are moved out of it.
    pub fn place(&mut self, placed: &mut Placement)
        requires { IsNear self.old.placement }
        ensures { self.new ≡ stepped self.old (OneRecord.Placement placed.old) }
    {
        self.placement = self.placement.moved_by(self.relative, &placed.spot);
        take_given(&mut self.cell, &mut placed.cell);
        take_repetition(&mut self.repetition, &mut placed.spot.repetition);
    }

    /// The weight of a placement, as long as its number has no name.
    pub(crate) fn placement_weight(&self) -> Option<u128>
        ensures weight { (turns : Turns) (flip : Bool) (at : OnePoint) → option_map weight_so_far (placement_at self.now.cell turns flip at) ≡ result }
        ensures near { IfSome result (λ weight. weight ≤ 2 ^ 64) }
    {
        match &self.cell {
            None => None,
            Some(CellRef::Number(_)) => Some(1),
            Some(CellRef::Name(name)) => Some(1 + name.as_bytes().len() as u128),
        }
    }

    /// A placement, moved by an offset.
    pub(crate) fn placement_by(
        &self,
        alloc: Global,
        turns: Turns,
        flip: bool,
        by: (i128, i128),
    ) -> Result<Drawn, Why>
        ensures ok { IfOk result (λ d. placement_at self.now.cell turns flip (point_from self.now.placement (step by.0 by.1)) ≡ Some d) }
        ensures err { IfErr result (λ why. ((why ≡ Memory) × MayRunOut (placement_at self.now.cell turns flip (point_from self.now.placement (step by.0 by.1)))) ⊎ (fault_of (placement_at self.now.cell turns flip (point_from self.now.placement (step by.0 by.1))) ≡ Some why)) }
        ensures points { IfOk result (λ d. drawn_points_fit d ≡ true) }
    {
        let Some(cell) = &self.cell else {
            return Err(Why::ModalUndefined);
        };
        let Point { x, y } = point_by(self.placement, by)?;
        match cell {
            CellRef::Number(number) => Ok(Drawn::PlacementBy {
                number: *number,
                x,
                y,
                turns,
                flip,
            }),
            CellRef::Name(name) => match name.try_clone(alloc) {
                Ok(cell) => Ok(Drawn::Named(Element::Placement {
                    cell,
                    x,
                    y,
                    turns,
                    flip,
                })),
                Err(_) => Err(Why::Memory),
            },
        }
    }

    /// What a placement, moved by an offset, counts for. Its name isn't copied.
    pub(crate) fn placement_tally(&self, by: (i128, i128)) -> Result<Tally, Why>
        ensures ok { (turns : Turns) (flip : Bool) → IfOk result (λ t. IsTallied (placement_at self.now.cell turns flip (point_from self.now.placement (step by.0 by.1))) t) }
        ensures err { (turns : Turns) (flip : Bool) → IfErr result (λ why. fault_of (placement_at self.now.cell turns flip (point_from self.now.placement (step by.0 by.1))) ≡ Some why) }
    {
        let Some(cell) = &self.cell else {
            return Err(Why::ModalUndefined);
        };
        point_by(self.placement, by)?;
        match cell {
            CellRef::Number(number) => Ok(Tally {
                weight: 1,
                used: UsedNumber::Cell(*number),
            }),
            CellRef::Name(name) => Ok(Tally {
                weight: 1 + name.as_bytes().len() as u64,
                used: UsedNumber::Nothing,
            }),
        }
    }
}

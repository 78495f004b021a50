//! Texts: what one sets, weighs and draws.
ghost use Rattle.std.specs.Prelude.{◌≡◌, ◌≤◌, ◌^◌, ◌⊎◌, true, Some, IfOk, IfErr, IfSome};
ghost use Rattle.std.specs.Option.{option_map};
ghost use Rattle.oas_num.specs.declared.refusals.Why.TheVariants.{Memory};
ghost use Rattle.oas_num.specs.Deltas.{step};
ghost use Rattle.oas_ring.specs.declared.point.Point.{Point as OnePoint};
ghost use Rattle.oas_record.specs.declared.records.Record.{Record as OneRecord};
ghost use Rattle.oas_drawing.specs.Positions.{IsNear};
ghost use Rattle.oas_drawing.specs.Modal.{stepped};
ghost use Rattle.oas_drawing.specs.Drawn.{weight_so_far, drawn_points_fit};
ghost use Rattle.oas_drawing.specs.Drawing.{text_at, point_from};
ghost use Rattle.oas_drawing.specs.Reasons.{fault_of, MayRunOut};
ghost use Rattle.oas_drawing.specs.Tallies.{IsTallied};

use crate::drawn::Drawn;
use crate::modal::drawing::point_by;
use crate::modal::{ModalVariables, set, take_given, take_repetition};
use crate::tally::{Tally, UsedNumber};
use oas_elements::Element;
use oas_num::Why;
use oas_record::{Text, TextRef};
use oas_ring::Point;
use std::alloc::Global;

impl ModalVariables {
    /// What a text sets. A string that it gives, and a repetition, are moved out of it.
    pub fn write(&mut self, written: &mut Text)
        requires { IsNear self.old.text }
        ensures { self.new ≡ stepped self.old (OneRecord.Text written.old) }
    {
        set(&mut self.textlayer, written.textlayer);
        set(&mut self.texttype, written.texttype);
        self.text = self.text.moved_by(self.relative, &written.spot);
        take_given(&mut self.string, &mut written.string);
        take_repetition(&mut self.repetition, &mut written.spot.repetition);
    }

    /// The weight of a text, as long as its number has no name.
    pub(crate) fn text_weight(&self) -> Option<u128>
        ensures weight { (at : OnePoint) → option_map weight_so_far (text_at self.now.string self.now.textlayer self.now.texttype at) ≡ result }
        ensures near { IfSome result (λ weight. weight ≤ 2 ^ 64) }
    {
        match (&self.string, self.textlayer, self.texttype) {
            (Some(TextRef::Number(_)), Some(_), Some(_)) => Some(1),
            (Some(TextRef::Label(label)), Some(_), Some(_)) => {
                Some(1 + label.as_bytes().len() as u128)
            }
            _ => None,
        }
    }

    /// A text, moved by an offset.
    pub(crate) fn text_by(&self, alloc: Global, by: (i128, i128)) -> Result<Drawn, Why>
        ensures ok { IfOk result (λ d. text_at self.now.string self.now.textlayer self.now.texttype (point_from self.now.text (step by.0 by.1)) ≡ Some d) }
        ensures err { IfErr result (λ why. ((why ≡ Memory) × MayRunOut (text_at self.now.string self.now.textlayer self.now.texttype (point_from self.now.text (step by.0 by.1)))) ⊎ (fault_of (text_at self.now.string self.now.textlayer self.now.texttype (point_from self.now.text (step by.0 by.1))) ≡ Some why)) }
        ensures points { IfOk result (λ d. drawn_points_fit d ≡ true) }
    {
        let (Some(string), Some(textlayer), Some(texttype)) = (
            &self.string,
            self.textlayer,
            self.texttype,
        ) else {
            return Err(Why::ModalUndefined);
        };
        let Point { x, y } = point_by(self.text, by)?;
        match string {
            TextRef::Number(number) => Ok(Drawn::TextBy {
                number: *number,
                textlayer,
                texttype,
                x,
                y,
            }),
            TextRef::Label(label) => match label.try_clone(alloc) {
                Ok(string) => Ok(Drawn::Named(Element::Text {
                    string,
                    textlayer,
                    texttype,
                    x,
                    y,
                })),
                Err(_) => Err(Why::Memory),
            },
        }
    }

    /// What a text, moved by an offset, counts for. Its string isn't copied.
    pub(crate) fn text_tally(&self, by: (i128, i128)) -> Result<Tally, Why>
        ensures ok { IfOk result (λ t. IsTallied (text_at self.now.string self.now.textlayer self.now.texttype (point_from self.now.text (step by.0 by.1))) t) }
        ensures err { IfErr result (λ why. fault_of (text_at self.now.string self.now.textlayer self.now.texttype (point_from self.now.text (step by.0 by.1))) ≡ Some why) }
    {
        let (Some(string), Some(_), Some(_)) = (&self.string, self.textlayer, self.texttype) else {
            return Err(Why::ModalUndefined);
        };
        point_by(self.text, by)?;
        match string {
            TextRef::Number(number) => Ok(Tally {
                weight: 1,
                used: UsedNumber::Text(*number),
            }),
            TextRef::Label(label) => Ok(Tally {
                weight: 1 + label.as_bytes().len() as u64,
                used: UsedNumber::Nothing,
            }),
        }
    }
}

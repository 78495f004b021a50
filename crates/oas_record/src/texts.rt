//! The TEXT record.
ghost use Rattle.std.specs.Prelude.{◌↔◌, IsTrue};
ghost use Rattle.oas_num.specs.Reading.{ReadsPiece};
ghost use Rattle.oas_num.specs.Style.{Any};
ghost use Rattle.oas_record.specs.Texts.{IsTextInfo, text_record_in, TextTook};

use crate::references::{TextRef, read_text_if};
use crate::spots::{Spot, read_layers, read_spot};
use oas_num::{Source, Why, next_byte};
use std::alloc::Global;

/// A text (SEMI P39, TEXT record), id 19: the info byte `0CNXYRTL`, then the string, textlayer, texttype, x, y and
/// repetition, each where its bit is 1. The string is a number where N is 1; N is ignored where C is 0 (own rule).
#[derive(Debug, Drop)]
pub struct Text {
    pub string: Option<TextRef>,
    pub textlayer: Option<u64>,
    pub texttype: Option<u64>,
    pub spot: Spot,
}

/// Whether a text has that info byte: bit 7 is 0.
fn is_text_info(info: u8) -> bool
    ensures { IsTrue result ↔ IsTextInfo info }
{
    info < 128
}

impl Text {
    /// What follows the id.
    pub(crate) fn read<S: Source>(alloc: Global, source: &mut S) -> Result<Text, Why>
        ensures { ReadsPiece (text_record_in Any) TextTook (S.script source.old) result (S.script source.new) }
    {
        let info = next_byte(source)?;
        if !is_text_info(info) {
            return Err(Why::InfoByte);
        }
        let string = read_text_if(alloc, info & 64 != 0, info & 32 != 0, source)?;
        let layers = read_layers(info, source)?;
        let spot = read_spot(alloc, info & 16 != 0, info & 8 != 0, info & 4 != 0, source)?;
        Ok(Text {
            string,
            textlayer: layers.0,
            texttype: layers.1,
            spot,
        })
    }
}

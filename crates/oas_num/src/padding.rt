//! Bytes that are skipped.
ghost use Rattle.oas_num.specs.Grammar.{IsByte};
ghost use Rattle.oas_num.specs.Pieces.{CountTook};
ghost use Rattle.oas_num.specs.Reading.{ReadsPiece, ByteMay};
ghost use Rattle.oas_num.specs.Texts.{IsSkipped};

use crate::integers::read_unsigned;
use crate::refusals::Why;
use crate::spelling::{Spelled, next_byte};
use oas_bytes::Source;
use std::alloc::Global;

/// A b-string (SEMI P39, Strings) of which only the length is kept: its bytes are skipped.
#[derive(Clone, Copy, Debug, PartialEq, Eq)]
pub struct Padding {
    /// How many bytes it has.
    pub length: u64,
}

/// This many bytes of any kind.
fn pass_over<S: Source>(count: u64, source: &mut S) -> Result<Padding, Why>
    ensures { ReadsPiece (IsSkipped count) (CountTook IsByte count ByteMay) (S.script source.old) result (S.script source.new) }
{
    for _ in 0..count {
        next_byte(source)?;
    }
    Ok(Padding { length: count })
}

impl Spelled for Padding {
    ghost use Rattle.oas_num.specs.Texts.{SpellsPadding};
    ghost use Rattle.oas_num.specs.Laws.TextLaws.{PrefixFree-padding, HasSome-padding};
    ghost use Rattle.oas_num.specs.Reading.{IntegerMay, PaddingTook};

    ghost spells = { SpellsPadding };

    ghost took = { PaddingTook };

    ghost one_front = { PrefixFree-padding };

    ghost some = { HasSome-padding };

    fn read<S: Source>(_alloc: Global, source: &mut S) -> Result<Padding, Why>
        ensures { ReadsPiece SpellsPadding PaddingTook (S.script source.old) result (S.script source.new) }
    {
        let length = read_unsigned(source)?;
        pass_over(length, source)
    }
}

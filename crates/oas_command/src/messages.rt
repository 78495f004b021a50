//! The lines of messages.

ghost use Rattle.oas_num.specs.Refusals.{number_of};
ghost use Rattle.oas_num.specs.Writing.{Writes};
ghost use Rattle.oas_command.specs.Lines.{refusal_line};

use itoa::Buffer;
use oas_num::{Refusal, Sink, SinkFault};

/// Puts the line of a refusal: the input's name, the number of the reason, and the offset.
pub(crate) fn put_refusal<K: Sink>(
    told: &mut K,
    name: &str,
    refusal: Refusal,
) -> Result<(), SinkFault>
    ensures { Writes K.given K.failures told.old
        (refusal_line name.now (number_of refusal.why) refusal.at) result told.new }
{
    let mut number = Buffer::new();
    let mut at = Buffer::new();
    told.put_all(name.as_bytes())?;
    told.put_all(b": refused ")?;
    told.put_all(number.format(refusal.why.number()).as_bytes())?;
    told.put_all(b" at ")?;
    told.put_all(at.format(refusal.at).as_bytes())?;
    told.put_all(b"\n")
}

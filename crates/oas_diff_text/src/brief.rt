//! The entry of a cell in brief.

ghost use Rattle.std.specs.Prelude.{◌++◌, decimal};
ghost use Rattle.oas_num.specs.Writing.{Writes};
ghost use Rattle.oas_diff_text.specs.Entries.{brief_line, brief_entry};
ghost use Rattle.oas_diff_options.specs.declared.format.Syntax.TheVariants.{Json};

use crate::entries::put_object;
use crate::fields::{Value, put_number};
use oas_diff_options::Syntax;
use oas_num::{Name, Sink, SinkFault};

/// How many elements of a cell only the layout before has, and how many only the one after has.
#[derive(Clone, Copy)]
pub struct Excess {
    pub before: u64,
    pub after: u64,
}

/// Puts a sign between spaces, and a number.
fn put_signed_number<K: Sink>(sink: &mut K, sign: &[u8], number: u64) -> Result<(), SinkFault>
    ensures { Writes K.given K.failures sink.old (sign.now ++ decimal number) result sink.new }
{
    sink.put_all(sign)?;
    put_number(sink, number)
}

/// Puts the line of a cell.
fn put_brief_line<K: Sink>(
    sink: &mut K,
    sign: u8,
    name: &Name,
    excess: Excess,
) -> Result<(), SinkFault>
    ensures { Writes K.given K.failures sink.old (brief_line sign name.now excess.before excess.after) result sink.new }
{
    sink.put(sign)?;
    sink.put_all(b" cell ")?;
    sink.put_all(name.as_bytes())?;
    put_signed_number(sink, b" - ", excess.before)?;
    put_signed_number(sink, b" + ", excess.after)?;
    sink.put(b'\n')
}

/// Puts the object of a cell.
fn put_brief_object<K: Sink>(
    sink: &mut K,
    sign: u8,
    name: &Name,
    excess: Excess,
) -> Result<(), SinkFault>
    ensures { Writes K.given K.failures sink.old (brief_entry Json sign name.now excess.before excess.after) result sink.new }
{
    let members = [
        ("sign", Value::Sign(sign)),
        ("cell", Value::Bytes(name.as_bytes())),
        ("removed", Value::Number(excess.before)),
        ("added", Value::Number(excess.after)),
    ];
    put_object(sink, b"cell", &members)
}

/// Puts the entry of a cell.
pub fn put_brief_entry<K: Sink>(
    sink: &mut K,
    syntax: Syntax,
    sign: u8,
    name: &Name,
    excess: Excess,
) -> Result<(), SinkFault>
    ensures { Writes K.given K.failures sink.old (brief_entry syntax sign name.now excess.before excess.after) result sink.new }
{
    match syntax {
        Syntax::Lines => put_brief_line(sink, sign, name, excess),
        Syntax::Json => put_brief_object(sink, sign, name, excess),
    }
}

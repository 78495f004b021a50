//! The keys of placements and texts, put from their fields.

ghost use Rattle.std.specs.Prelude.{◌≡◌, ◌+◌, ◌≤◌, ◌++◌, true, length, OnOk, OnErr, vec_len, vec_capacity};
ghost use Rattle.oas_elements.specs.declared.element.Element.TheVariants.{Placement, Text};
ghost use Rattle.oas_elements.specs.Grid.{fits_grid};
ghost use Rattle.oas_keys.specs.Keys.{key_of, fields_key};

use crate::fields::{put_text, turned};
use crate::numbers::{put_signed_pair, put_unsigned_pair};
use oas_elements::Turns;
use oas_num::{Label, Name};
use std::alloc::AllocError;

/// Puts the fields of a placement.
fn put_placement(cell: &Name, x: i64, y: i64, turns: Turns, flip: bool, out: &mut Vec<u8>)
    requires inside { fits_grid (Placement cell.now x y turns flip) ≡ true }
    requires room { vec_len out.old + (length cell.now + 20) ≤ vec_capacity out.old }
    ensures { out.new.items ≡ out.old.items ++ fields_key (Placement cell.now x y turns flip) }
{
    put_text(cell.as_bytes(), out);
    put_signed_pair(x, y, out);
    out.push_reserved(turned(turns, flip));
}

/// Puts the fields of a text.
fn put_string(string: &Label, textlayer: u64, texttype: u64, x: i64, y: i64, out: &mut Vec<u8>)
    requires inside { fits_grid (Text string.now textlayer texttype x y) ≡ true }
    requires room { vec_len out.old + (length string.now + 37) ≤ vec_capacity out.old }
    ensures { out.new.items ≡ out.old.items ++ fields_key (Text string.now textlayer texttype x y) }
{
    put_text(string.as_bytes(), out);
    put_unsigned_pair(textlayer, texttype, out);
    put_signed_pair(x, y, out);
}

/// Puts the key of a placement with these fields after what `out` has, as [`put_key`](crate::put_key) puts the element's. If
/// out of memory, `out` has what it had.
pub fn put_placement_key(
    cell: &Name,
    x: i64,
    y: i64,
    turns: Turns,
    flip: bool,
    out: &mut Vec<u8>,
) -> Result<(), AllocError>
    requires { fits_grid (Placement cell.now x y turns flip) ≡ true }
    ensures ok { OnOk result (out.new.items ≡ out.old.items ++ key_of (Placement cell.now x y turns flip)) }
    ensures err { OnErr result (out.new.items ≡ out.old.items) }
{
    out.reserve(cell.as_bytes().len() + 21)?;
    out.push_reserved(1);
    put_placement(cell, x, y, turns, flip, out);
    Ok(())
}

/// Puts the key of a text with these fields after what `out` has, as [`put_key`](crate::put_key) puts the element's. If out
/// of memory, `out` has what it had.
pub fn put_text_key(
    string: &Label,
    textlayer: u64,
    texttype: u64,
    x: i64,
    y: i64,
    out: &mut Vec<u8>,
) -> Result<(), AllocError>
    requires { fits_grid (Text string.now textlayer texttype x y) ≡ true }
    ensures ok { OnOk result (out.new.items ≡ out.old.items ++ key_of (Text string.now textlayer texttype x y)) }
    ensures err { OnErr result (out.new.items ≡ out.old.items) }
{
    out.reserve(string.as_bytes().len() + 38)?;
    out.push_reserved(2);
    put_string(string, textlayer, texttype, x, y, out);
    Ok(())
}

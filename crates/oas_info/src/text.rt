//! A layout's facts as text.

ghost use Rattle.std.specs.Prelude.{◌≡◌, ◌++◌, [], flat_map, IfOk, OnOk};
ghost use Rattle.oas_info.specs.Text.{behind_space, spaced_number, number_line, name_line, group_line, group_lines, unit_line, info_text};

use crate::group::Group;
use crate::info::Info;
use itoa::Buffer;
use oas_num::{Fraction, Name};
use std::alloc::{AllocError, Global};
use std::collections::BTreeMap;

/// Puts a field after a space.
fn put_field(text: &mut Vec<u8>, field: &[u8]) -> Result<(), AllocError>
    ensures { OnOk result (text.new.items ≡ text.old.items ++ behind_space field.now) }
{
    text.push(b' ')?;
    text.extend_from_slice(field)
}

/// Puts a number after a space.
fn put_number(text: &mut Vec<u8>, number: u64) -> Result<(), AllocError>
    ensures { OnOk result (text.new.items ≡ text.old.items ++ spaced_number number) }
{
    put_field(text, Buffer::new().format(number).as_bytes())
}

/// Puts numbers, each after a space.
fn put_numbers(text: &mut Vec<u8>, numbers: &[u64]) -> Result<(), AllocError>
    ensures { OnOk result (text.new.items ≡ text.old.items ++ flat_map spaced_number numbers.now) }
{
    for number in numbers {
        put_number(text, *number)?;
    }
    Ok(())
}

/// Puts names, each after a space.
fn put_names(text: &mut Vec<u8>, names: &[Name]) -> Result<(), AllocError>
    ensures { OnOk result (text.new.items ≡ text.old.items ++ flat_map behind_space names.now) }
{
    for name in names {
        put_field(text, name.as_bytes())?;
    }
    Ok(())
}

/// Ends a line, and puts a word and numbers on the next.
fn put_line(text: &mut Vec<u8>, word: &[u8], numbers: &[u64]) -> Result<(), AllocError>
    ensures { OnOk result (text.new.items ≡ text.old.items ++ number_line word.now numbers.now) }
{
    text.push(b'\n')?;
    text.extend_from_slice(word)?;
    put_numbers(text, numbers)
}

/// Ends a line, and puts a word, how many names there are, and the names on the next.
fn put_name_line(text: &mut Vec<u8>, word: &[u8], names: &[Name]) -> Result<(), AllocError>
    ensures { OnOk result (text.new.items ≡ text.old.items ++ name_line word.now names.now) }
{
    put_line(text, word, &[names.len() as u64])?;
    put_names(text, names)
}

/// Puts the line of a group.
fn put_group(text: &mut Vec<u8>, group: &Group, number: u64) -> Result<(), AllocError>
    ensures { OnOk result (text.new.items ≡ text.old.items ++ group_line group.now number) }
{
    match group {
        Group::Placements => put_line(text, b"placements", &[number]),
        Group::Texts => put_line(text, b"texts", &[number]),
        Group::Rectangles => put_line(text, b"rectangles", &[number]),
        Group::Polygons => put_line(text, b"polygons", &[number]),
        Group::Paths => put_line(text, b"paths", &[number]),
        Group::Circles => put_line(text, b"circles", &[number]),
        Group::Layer { layer, datatype } => put_line(text, b"layer", &[*layer, *datatype, number]),
        Group::TextLayer {
            textlayer,
            texttype,
        } => put_line(text, b"textlayer", &[*textlayer, *texttype, number]),
    }
}

/// Puts the lines of groups.
fn put_groups(text: &mut Vec<u8>, groups: &BTreeMap<Group, u64>) -> Result<(), AllocError>
    ensures { OnOk result (text.new.items ≡ text.old.items ++ group_lines groups.now.entries) }
{
    for (group, number) in groups.iter() {
        put_group(text, group, *number)?;
    }
    Ok(())
}

/// Puts the line of the unit, without its end.
fn put_unit(text: &mut Vec<u8>, unit: Fraction) -> Result<(), AllocError>
    ensures { OnOk result (text.new.items ≡ text.old.items ++ unit_line unit) }
{
    text.extend_from_slice(b"unit")?;
    put_number(text, unit.num())?;
    text.push(b'/')?;
    text.extend_from_slice(Buffer::new().format(unit.den()).as_bytes())
}

/// Puts all lines, without the last one's end.
fn put_lines(text: &mut Vec<u8>, info: &Info) -> Result<(), AllocError>
    requires { text.old.items ≡ [] }
    ensures { OnOk result (text.new.items ≡ info_text info.now) }
{
    let facts = &info.facts;
    put_unit(text, facts.unit)?;
    put_line(text, b"cells", &[facts.cells])?;
    put_name_line(text, b"undefined", &facts.undefined)?;
    put_name_line(text, b"unplaced", &facts.unplaced)?;
    put_line(text, b"elements", &[facts.elements])?;
    put_groups(text, &facts.groups)?;
    put_line(text, b"weight", &[facts.weight])?;
    put_line(text, b"size", &[info.size])?;
    Ok(())
}

/// The facts as text, without the last line's end.
pub fn text_of(alloc: Global, info: &Info) -> Result<Vec<u8>, AllocError>
    ensures { IfOk result (λ text. text.items ≡ info_text info.now) }
{
    let mut text = Vec::new(alloc);
    put_lines(&mut text, info)?;
    Ok(text)
}

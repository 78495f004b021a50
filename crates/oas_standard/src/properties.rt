//! The PROPERTY record.
ghost use Rattle.std.specs.Prelude.{◌↔◌, IsTrue};
ghost use Rattle.oas_num.specs.Reading.{ReadsPiece};
ghost use Rattle.oas_record.specs.Trees.{there};
ghost use Rattle.oas_standard.specs.Properties.{IsPropertyInfo, property_name, real_value_after, value_after, value_count, value_list, values};

use crate::little::{read_eight, read_four};
use crate::reals::{WideReal, read_fraction};
use oas_num::{Padding, Signed, Source, Spelled, Why, next_byte, read_unsigned};
use std::alloc::Global;

/// A value of a property (SEMI P39, property-value), of one of 16 types. Strings are skipped, and their bytes aren't checked
/// (own rule).
#[derive(Clone, Copy, Debug, PartialEq, Eq)]
pub enum PropertyValue {
    /// Types 0 to 5: a fraction of that type.
    Real(WideReal),
    /// Type 6: a float of single precision, by its bits. It may be infinite or NaN (own rule).
    Single(u32),
    /// Type 7: a float of double precision, by its bits. It may be infinite or NaN (own rule).
    Double(u64),
    /// Type 8.
    Unsigned(u64),
    /// Type 9.
    Signed(Signed),
    /// Types 10 to 12: an a-string, a b-string, an n-string.
    Text(Padding),
    /// Types 13 to 15: such a string, by the number of its PROPSTRING.
    Reference(u64),
}

/// What follows the type of a real, which is below 8.
fn read_real_value<S: Source>(kind: u64, source: &mut S) -> Result<PropertyValue, Why>
    ensures { ReadsPiece (real_value_after kind).any (real_value_after kind).took (S.script source.old) result (S.script source.new) }
{
    if kind == 6 {
        let single = read_four(source)?;
        return Ok(PropertyValue::Single(single));
    }
    if kind == 7 {
        let double = read_eight(source)?;
        return Ok(PropertyValue::Double(double));
    }
    let real = read_fraction(kind, source)?;
    Ok(PropertyValue::Real(real))
}

/// What follows the type of a value, which is below 16.
fn read_value_after<S: Source>(
    alloc: Global,
    kind: u64,
    source: &mut S,
) -> Result<PropertyValue, Why>
    ensures { ReadsPiece (value_after kind).any (value_after kind).took (S.script source.old) result (S.script source.new) }
{
    if kind < 8 {
        return read_real_value(kind, source);
    }
    if kind == 8 {
        let number = read_unsigned(source)?;
        return Ok(PropertyValue::Unsigned(number));
    }
    if kind == 9 {
        let signed = Signed::read(alloc, source)?;
        return Ok(PropertyValue::Signed(signed));
    }
    if kind < 13 {
        let string = Padding::read(alloc, source)?;
        return Ok(PropertyValue::Text(string));
    }
    let reference = read_unsigned(source)?;
    Ok(PropertyValue::Reference(reference))
}

impl PropertyValue {
    ghost use Rattle.oas_standard.specs.Properties.{SpellsValue, ValueTook};

    /// A value. A type above 15 is refused with `RealType`, since the types of reals are the first of them.
    pub fn read<S: Source>(alloc: Global, source: &mut S) -> Result<PropertyValue, Why>
        ensures { ReadsPiece SpellsValue ValueTook (S.script source.old) result (S.script source.new) }
    {
        let kind = read_unsigned(source)?;
        if kind >= 16 {
            return Err(Why::RealType);
        }
        let value = read_value_after(alloc, kind, source)?;
        Ok(value)
    }
}

/// The name of a property.
#[derive(Clone, Copy, Debug, PartialEq, Eq)]
pub enum PropertyName {
    /// By the number of its PROPNAME.
    Number(u64),
    /// By itself, skipped (own rule).
    Text(Padding),
}

/// A name, as a number or itself.
fn read_property_name<S: Source>(
    alloc: Global,
    numbered: bool,
    source: &mut S,
) -> Result<PropertyName, Why>
    ensures { ReadsPiece (property_name numbered).any (property_name numbered).took (S.script source.old) result (S.script source.new) }
{
    if numbered {
        Ok(PropertyName::Number(read_unsigned(source)?))
    } else {
        Ok(PropertyName::Text(Padding::read(alloc, source)?))
    }
}

/// A name, where there is one.
fn read_property_name_if<S: Source>(
    alloc: Global,
    is_given: bool,
    numbered: bool,
    source: &mut S,
) -> Result<Option<PropertyName>, Why>
    ensures { ReadsPiece (there is_given (property_name numbered)).any (there is_given (property_name numbered)).took (S.script source.old) result (S.script source.new) }
{
    if is_given {
        Ok(Some(read_property_name(alloc, numbered, source)?))
    } else {
        Ok(None)
    }
}

/// How many values there are: bits 4 to 7, or a number where these are 15.
fn read_value_count<S: Source>(info: u8, source: &mut S) -> Result<u64, Why>
    ensures { ReadsPiece (value_count info).any (value_count info).took (S.script source.old) result (S.script source.new) }
{
    if info / 16 == 15 {
        read_unsigned(source)
    } else {
        Ok(u64::from(info / 16))
    }
}

/// This many values, which are not kept.
fn pass_values<S: Source>(alloc: Global, count: u64, source: &mut S) -> Result<(), Why>
    ensures { ReadsPiece (value_list count).any (value_list count).took (S.script source.old) result (S.script source.new) }
{
    for _ in 0..count {
        PropertyValue::read(alloc, source)?;
    }
    Ok(())
}

/// The values; only their number is kept.
fn read_values<S: Source>(alloc: Global, info: u8, source: &mut S) -> Result<u64, Why>
    ensures { ReadsPiece (values info).any (values info).took (S.script source.old) result (S.script source.new) }
{
    let count = read_value_count(info, source)?;
    pass_values(alloc, count, source)?;
    Ok(count)
}

/// The values, where they are given.
fn read_values_if<S: Source>(
    alloc: Global,
    is_given: bool,
    info: u8,
    source: &mut S,
) -> Result<Option<u64>, Why>
    ensures { ReadsPiece (there is_given (values info)).any (there is_given (values info)).took (S.script source.old) result (S.script source.new) }
{
    if is_given {
        Ok(Some(read_values(alloc, info, source)?))
    } else {
        Ok(None)
    }
}

/// A property (SEMI P39, PROPERTY record), id 28: the info byte `UUUUVCNS`, the name where C is 1, by its number where N is
/// 1, and the values where V is 0. Id 29 has no fields: it repeats the last name and the last values.
#[derive(Clone, Copy, Debug, PartialEq, Eq)]
pub struct Property {
    /// Whether the name is one of the standard's.
    pub standard: bool,
    /// Without one it is the last name.
    pub name: Option<PropertyName>,
    /// How many values it has. None: the last ones again.
    pub values: Option<u64>,
}

/// Whether a property has that info byte: where the last values are repeated, none are counted.
fn is_property_info(info: u8) -> bool
    ensures { IsTrue result ↔ IsPropertyInfo info }
{
    info & 8 == 0 || info < 16
}

impl Property {
    ghost use Rattle.oas_standard.specs.Properties.{SpellsProperty, PropertyTook};

    /// What follows the id. The values are read and not kept.
    pub fn read<S: Source>(alloc: Global, source: &mut S) -> Result<Property, Why>
        ensures { ReadsPiece SpellsProperty PropertyTook (S.script source.old) result (S.script source.new) }
    {
        let info = next_byte(source)?;
        if !is_property_info(info) {
            return Err(Why::InfoByte);
        }
        let name = read_property_name_if(alloc, info & 4 != 0, info & 2 != 0, source)?;
        let values = read_values_if(alloc, info & 8 == 0, info, source)?;
        Ok(Property {
            standard: info & 1 != 0,
            name,
            values,
        })
    }
}

//! A layout's facts as JSON.

ghost use Rattle.std.specs.Prelude.{◌≡◌, ◌++◌, ◌∷◌, [], map, IfOk, OnOk};
ghost use Rattle.oas_info.specs.Groups.{number_of};
ghost use Rattle.serde_json.specs.Data.{string, array, object, no_members};
ghost use Rattle.serde_json.specs.View.{view, items_of, members_view};
ghost use Rattle.oas_info.specs.Json.{strings, unit_data, kinds_data, layer_data, textlayer_data, as_layer, as_textlayer, layers, textlayers, info_data, info_json};

use crate::group::Group;
use crate::info::Info;
use oas_num::{Fraction, Name};
use serde_json::{Map, Value, json, put};
use std::alloc::{AllocError, Global};
use std::collections::BTreeMap;

/// A name as a string.
fn name_value(alloc: Global, name: &Name) -> Result<Value, AllocError>
    ensures { IfOk result (λ value. view value ≡ string name.now) }
{
    Ok(Value::from(String::from_utf8_lossy(alloc, name.as_bytes())?))
}

/// Adds a name as a string.
fn push_name(alloc: Global, list: &mut Vec<Value>, name: &Name) -> Result<(), AllocError>
    ensures { OnOk result (map view list.new.items ≡ map view list.old.items ++ string name.now ∷ []) }
{
    Ok(list.push(name_value(alloc, name)?)?)
}

/// Names as strings.
fn names_value(alloc: Global, names: &[Name]) -> Result<Value, AllocError>
    ensures { IfOk result (λ value. view value ≡ strings names.now) }
{
    let mut list = Vec::new(alloc);
    for name in names {
        push_name(alloc, &mut list, name)?;
    }
    Ok(Value::Array(list))
}

/// A unit as its two numbers.
fn unit_value(alloc: Global, unit: Fraction) -> Result<Value, AllocError>
    ensures { IfOk result (λ value. view value ≡ unit_data unit) }
{
    json!(in alloc; {"num": unit.num(), "den": unit.den()})
}

/// The number beside a group, or 0.
fn number_in(groups: &BTreeMap<Group, u64>, group: Group) -> u64
    ensures { result ≡ number_of groups.now.entries group }
{
    groups.get(&group).copied().unwrap_or(0)
}

/// How many elements of each kind there are.
fn kinds_value(alloc: Global, groups: &BTreeMap<Group, u64>) -> Result<Value, AllocError>
    ensures { IfOk result (λ value. view value ≡ kinds_data groups.now.entries) }
{
    json!(in alloc; {
        "placements": number_in(groups, Group::Placements),
        "texts": number_in(groups, Group::Texts),
        "rectangles": number_in(groups, Group::Rectangles),
        "polygons": number_in(groups, Group::Polygons),
        "paths": number_in(groups, Group::Paths),
        "circles": number_in(groups, Group::Circles)
    })
}

/// How many elements of a layer there are.
fn layer_value(alloc: Global, layer: u64, datatype: u64, number: u64) -> Result<Value, AllocError>
    ensures { IfOk result (λ value. view value ≡ layer_data layer datatype number) }
{
    json!(in alloc; {"layer": layer, "datatype": datatype, "elements": number})
}

/// How many texts of a textlayer there are.
fn textlayer_value(
    alloc: Global,
    textlayer: u64,
    texttype: u64,
    number: u64,
) -> Result<Value, AllocError>
    ensures { IfOk result (λ value. view value ≡ textlayer_data textlayer texttype number) }
{
    json!(in alloc; {"textlayer": textlayer, "texttype": texttype, "elements": number})
}

/// Adds a group that is a layer.
fn push_layer(
    alloc: Global,
    list: &mut Vec<Value>,
    group: &Group,
    number: u64,
) -> Result<(), AllocError>
    ensures { OnOk result (map view list.new.items ≡ map view list.old.items ++ as_layer group.now number) }
{
    match group {
        Group::Layer { layer, datatype } => {
            Ok(list.push(layer_value(alloc, *layer, *datatype, number)?)?)
        }
        _ => Ok(()),
    }
}

/// Adds a group that is a textlayer.
fn push_textlayer(
    alloc: Global,
    list: &mut Vec<Value>,
    group: &Group,
    number: u64,
) -> Result<(), AllocError>
    ensures { OnOk result (map view list.new.items ≡ map view list.old.items ++ as_textlayer group.now number) }
{
    match group {
        Group::TextLayer {
            textlayer,
            texttype,
        } => Ok(list.push(textlayer_value(alloc, *textlayer, *texttype, number)?)?),
        _ => Ok(()),
    }
}

/// The groups that are layers.
fn layers_value(alloc: Global, groups: &BTreeMap<Group, u64>) -> Result<Value, AllocError>
    ensures { IfOk result (λ value. view value ≡ array (items_of (layers groups.now.entries))) }
{
    let mut list = Vec::new(alloc);
    for (group, number) in groups.iter() {
        push_layer(alloc, &mut list, group, *number)?;
    }
    Ok(Value::Array(list))
}

/// The groups that are textlayers.
fn textlayers_value(alloc: Global, groups: &BTreeMap<Group, u64>) -> Result<Value, AllocError>
    ensures { IfOk result (λ value. view value ≡ array (items_of (textlayers groups.now.entries))) }
{
    let mut list = Vec::new(alloc);
    for (group, number) in groups.iter() {
        push_textlayer(alloc, &mut list, group, *number)?;
    }
    Ok(Value::Array(list))
}

/// Puts the members of the object into an empty one.
fn put_members(
    members: &mut Map<String, Value>,
    alloc: Global,
    info: &Info,
) -> Result<(), AllocError>
    requires { members_view members.old.entries ≡ no_members }
    ensures { OnOk result (object (members_view members.new.entries) ≡ info_data info.now) }
{
    let facts = &info.facts;
    put(members, alloc, "cells", Value::from(facts.cells))?;
    put(members, alloc, "elements", Value::from(facts.elements))?;
    let kinds = kinds_value(alloc, &facts.groups)?;
    put(members, alloc, "kinds", kinds)?;
    let layers = layers_value(alloc, &facts.groups)?;
    put(members, alloc, "layers", layers)?;
    put(members, alloc, "size", Value::from(info.size))?;
    let textlayers = textlayers_value(alloc, &facts.groups)?;
    put(members, alloc, "textlayers", textlayers)?;
    let undefined = names_value(alloc, &facts.undefined)?;
    put(members, alloc, "undefined", undefined)?;
    let unit = unit_value(alloc, facts.unit)?;
    put(members, alloc, "unit", unit)?;
    let unplaced = names_value(alloc, &facts.unplaced)?;
    put(members, alloc, "unplaced", unplaced)?;
    put(members, alloc, "weight", Value::from(facts.weight))
}

/// The facts, as an object.
fn info_value(alloc: Global, info: &Info) -> Result<Value, AllocError>
    ensures { IfOk result (λ value. view value ≡ info_data info.now) }
{
    let mut members = Map::new(alloc);
    put_members(&mut members, alloc, info)?;
    Ok(Value::Object(members))
}

/// The facts, as the compact text of a JSON object.
pub fn json_of(alloc: Global, info: &Info) -> Result<Vec<u8>, AllocError>
    ensures { IfOk result (λ text. text.items ≡ info_json info.now) }
{
    info_value(alloc, info)?.to_vec(alloc)
}

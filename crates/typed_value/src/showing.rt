// Values are shown as JSON trees.
ghost use Rattle.std.specs.Prelude.{◌≡◌, option_map, IfOk, OnOk, Some};
ghost use Rattle.serde_json.specs.Data.{array, object, string, put as with_member};
ghost use Rattle.serde_json.specs.View.{view, members_view};
ghost use Rattle.link_port.specs.SoundTrees.{HasUtf8};
ghost use Rattle.typed_value.specs.Shows.{Shows, ShowsFields, writer, or_null, items_shown, entries_shown, fields_shown, name_at};

use crate::bodies::{core_fields, core_names, fields_of};
use crate::prefixes::part_prefixes;
use crate::vals::Val;
use idl_tree::{Body, Checked, Core, Field, Named, Prefix, TypeRef};
use link_port::{Memory, Text, Value};
use serde_json::{Map, Number, Value as Json};
use std::alloc::Global;

/// Shows a value of a type as JSON. A value of another type is shown too, as far as it goes: what its
/// type has no name for is left out or null.
pub fn show(alloc: Global, scope: &Checked, of: &TypeRef, val: &Val) -> Result<Value, Memory>
    ensures shows { IfOk result (λ json. json ≡ Shows scope.now of.now val.now) }
    ensures utf8 { IfOk result (λ json. HasUtf8 json) }
{
    show_by(alloc, scope, of.prefixes.as_slice(), &of.core, val)
}

/// Shows a value of the type that these prefixes and this core make, as `show` does.
pub fn show_by(
    alloc: Global,
    scope: &Checked,
    prefixes: &[Prefix],
    core: &Core,
    val: &Val,
) -> Result<Value, Memory>
    ensures shows { IfOk result
        (λ json. json ≡ or_null (writer scope.now val.now prefixes.now core.now)) }
    ensures utf8 { IfOk result (λ json. HasUtf8 json) }
{
    let written = write(alloc, val, scope, prefixes, core)?;
    Ok(Value::of(or_null(written)))
}

/// Shows the value of a struct as JSON. What is no struct's value is null.
pub fn show_fields(alloc: Global, scope: &Checked, body: &Body, val: &Val) -> Result<Value, Memory>
    ensures shows { IfOk result (λ json. json ≡ ShowsFields scope.now body.now val.now) }
    ensures utf8 { IfOk result (λ json. HasUtf8 json) }
{
    match val {
        Val::Struct(values) => {
            let json = write_struct(alloc, values.as_slice(), scope, fields_of(body))?;
            Ok(Value::of(json))
        }
        _ => Ok(Value::of(Json::Null)),
    }
}

fn or_null(written: Option<Json>) -> Json
    ensures { view result ≡ or_null (option_map view written) }
{
    match written {
        Some(json) => json,
        None => Json::Null,
    }
}

// The tree of a value, or None where a struct's field is left out.
#[cycle(writes)]
fn write(
    alloc: Global,
    val: &Val,
    scope: &Checked,
    prefixes: &[Prefix],
    core: &Core,
) -> Result<Option<Json>, Memory>
    ensures { IfOk result
        (λ json. option_map view json ≡ writer scope.now val.now prefixes.now core.now) }
{
    match val {
        Val::Bool(value) => Ok(Some(Json::Bool(*value))),
        Val::Int(value) => Ok(Some(Json::Number(Number::from(*value)))),
        Val::Str(text) => write_text(alloc, text),
        Val::Items(values) => {
            let behind = part_prefixes(prefixes);
            Ok(Some(write_items(alloc, values.as_slice(), scope, behind, core)?))
        }
        Val::Map(entries) => {
            let behind = part_prefixes(prefixes);
            Ok(Some(write_map(alloc, entries.as_slice(), scope, behind, core)?))
        }
        Val::Struct(values) => {
            let fields = core_fields(scope, core);
            Ok(Some(write_struct(alloc, values.as_slice(), scope, fields)?))
        }
        Val::Pick(place) => write_pick(alloc, *place, core_names(scope, core)),
        Val::Nothing => Ok(None),
        Val::Foreign(tree) => Ok(Some(copy_tree(tree)?)),
    }
}

#[cycle(writes)]
fn write_items(
    alloc: Global,
    values: &[Val],
    scope: &Checked,
    prefixes: &[Prefix],
    core: &Core,
) -> Result<Json, Memory>
    ensures { IfOk result (λ json. view json
        ≡ array (items_shown scope.now prefixes.now core.now values.now)) }
{
    let mut items = Vec::new(alloc);
    for value in values {
        let item = or_null(write(alloc, value, scope, prefixes, core)?);
        if items.push(item).is_err() {
            return Err(Memory);
        }
    }
    Ok(Json::Array(items))
}

#[cycle(writes)]
fn write_map(
    alloc: Global,
    entries: &[(Text, Val)],
    scope: &Checked,
    prefixes: &[Prefix],
    core: &Core,
) -> Result<Json, Memory>
    ensures { IfOk result (λ json. view json
        ≡ object (entries_shown scope.now prefixes.now core.now entries.now)) }
{
    let mut members = Map::new(alloc);
    for entry in entries {
        let member = or_null(write(alloc, &entry.1, scope, prefixes, core)?);
        put(alloc, &mut members, &entry.0, member)?;
    }
    Ok(Json::Object(members))
}

#[cycle(writes)]
fn write_struct(
    alloc: Global,
    values: &[Val],
    scope: &Checked,
    fields: &[Field],
) -> Result<Json, Memory>
    ensures { IfOk result (λ json. view json ≡ object (fields_shown scope.now fields.now values.now)) }
{
    let mut members = Map::new(alloc);
    for (place, field) in fields.iter().enumerate() {
        let Some(value) = values.get(place) else {
            return Ok(Json::Object(members));
        };
        let prefixes = field.of.prefixes.as_slice();
        if let Some(member) = write(alloc, value, scope, prefixes, &field.of.core)? {
            put(alloc, &mut members, &field.name, member)?;
        }
    }
    Ok(Json::Object(members))
}

fn write_text(alloc: Global, text: &Text) -> Result<Option<Json>, Memory>
    ensures { IfOk result (λ json. option_map view json ≡ Some (string text.now)) }
{
    match String::from_str(alloc, text.as_str()) {
        Ok(copy) => Ok(Some(Json::String(copy))),
        Err(_) => Err(Memory),
    }
}

fn write_pick(alloc: Global, place: u64, names: &[Named]) -> Result<Option<Json>, Memory>
    ensures { IfOk result (λ json. option_map view json ≡ option_map string (name_at place names.now)) }
{
    match names.get(place as usize) {
        Some(named) => write_text(alloc, &named.name),
        None => Ok(None),
    }
}

/// Copies a JSON tree.
pub fn copy_tree(tree: &Value) -> Result<Json, Memory>
    ensures { IfOk result (λ json. view json ≡ tree.now) }
{
    match tree.inner().clone() {
        Ok(copy) => Ok(copy),
        Err(_) => Err(Memory),
    }
}

// Puts a member at its place in the order of keys.
fn put(
    alloc: Global,
    members: &mut Map<String, Json>,
    name: &Text,
    member: Json,
) -> Result<(), Memory>
    ensures { OnOk result (members_view members.new.entries
        ≡ with_member name.now (view member) (members_view members.old.entries)) }
{
    let Ok(key) = String::from_str(alloc, name.as_str()) else {
        return Err(Memory);
    };
    match members.insert(key, member) {
        Ok(_) => Ok(()),
        Err(_) => Err(Memory),
    }
}

// Values are read from JSON trees, by types.
ghost use Rattle.std.specs.Prelude.{◌≡◌, ◌∷◌, false, option_and_then, option_map, position, IfOk, true};
ghost use Rattle.std.specs.Str.{bytes_eq};
ghost use Rattle.serde_json.specs.Find.{as_bool, as_number, as_str};
ghost use Rattle.serde_json.specs.View.{view, items_view, members_view};
ghost use Rattle.idl_tree.specs.Form.{begins_with_maybe};
ghost use Rattle.idl_tree.specs.declared.trees.Prefix.TheVariants.{Array, Map};
ghost use Rattle.typed_value.specs.Gives.{Gives};
ghost use Rattle.typed_value.specs.Ints.{int_of};
ghost use Rattle.typed_value.specs.OfType.{is_of_type, fits};
ghost use Rattle.typed_value.specs.Parts.{items_at, members_at, field_at, fields_at, core_at};
ghost use Rattle.typed_value.specs.Reads.{Reads, ReadsBody, reader, member_by, pick_by, foreign_by};
ghost use Rattle.typed_value.specs.declared.vals.Val.TheVariants as val;

use crate::faults::ValueFault;
use crate::prefixes::{begins_with_maybe, behind_maybes};
use crate::trees::has_only_ints;
use crate::vals::Val;
use idl_tree::{Body, Checked, Core, Field, Named, Prefix, TypeRef};
use link_port::{List, Text, Value};
use serde_json::{Map, Value as Json};
use std::alloc::Global;

/// Reads a JSON value by a type. `Unfit` comes exactly where nothing reads by it: an `int` is a number
/// that the tree holds as a whole number from -2^63 to 2^63-1, an absent field reads only where its type
/// is `?T`, other members than a struct's fields are dropped, a `float` and a type without definition
/// read nothing. Recursive types are walked along the JSON tree.
pub fn read(alloc: Global, scope: &Checked, of: &TypeRef, json: &Value) -> Result<Val, ValueFault>
    ensures reads { Gives result (Reads scope.now of.now json.now) }
    ensures of_type { IfOk result (λ value. is_of_type scope.now of.now value ≡ true) }
{
    read_by(alloc, scope, of.prefixes.as_slice(), &of.core, json)
}

/// Reads a JSON value by the type that these prefixes and this core make, as `read` does.
pub fn read_by(
    alloc: Global,
    scope: &Checked,
    prefixes: &[Prefix],
    core: &Core,
    json: &Value,
) -> Result<Val, ValueFault>
    ensures reads { Gives result (reader scope.now json.now prefixes.now core.now) }
    ensures of_type { IfOk result (λ value. fits scope.now value prefixes.now core.now ≡ true) }
{
    read_type(alloc, scope, prefixes, core, json.inner())
}

#[cycle(reading)]
fn read_type(
    alloc: Global,
    scope: &Checked,
    prefixes: &[Prefix],
    core: &Core,
    json: &Json,
) -> Result<Val, ValueFault>
    ensures { Gives result (reader scope.now (view json.now) prefixes.now core.now) }
{
    if json.is_null() && begins_with_maybe(prefixes) {
        return Ok(Val::Nothing);
    }
    read_plain(alloc, scope, behind_maybes(prefixes), core, json)
}

#[cycle(reading)]
fn read_plain(
    alloc: Global,
    scope: &Checked,
    prefixes: &[Prefix],
    core: &Core,
    json: &Json,
) -> Result<Val, ValueFault>
    requires { begins_with_maybe prefixes.now ≡ false }
    ensures { Gives result (reader scope.now (view json.now) prefixes.now core.now) }
{
    match prefixes {
        [] => read_core(alloc, scope, core, json),
        [Prefix::Array, behind @ ..] => read_array(alloc, scope, behind, core, json),
        [Prefix::Map, behind @ ..] => read_map(alloc, scope, behind, core, json),
        [Prefix::Maybe, ..] => unreachable!(),
    }
}

#[cycle(reading)]
fn read_array(
    alloc: Global,
    scope: &Checked,
    prefixes: &[Prefix],
    core: &Core,
    json: &Json,
) -> Result<Val, ValueFault>
    ensures { Gives result (reader scope.now (view json.now) (Array ∷ prefixes.now) core.now) }
{
    match json.as_array() {
        Some(items) => read_items(alloc, scope, prefixes, core, items),
        None => Err(ValueFault::Unfit),
    }
}

#[cycle(reading)]
fn read_map(
    alloc: Global,
    scope: &Checked,
    prefixes: &[Prefix],
    core: &Core,
    json: &Json,
) -> Result<Val, ValueFault>
    ensures { Gives result (reader scope.now (view json.now) (Map ∷ prefixes.now) core.now) }
{
    match json.as_object() {
        Some(members) => read_members(alloc, scope, prefixes, core, members),
        None => Err(ValueFault::Unfit),
    }
}

#[cycle(reading)]
fn read_items(
    alloc: Global,
    scope: &Checked,
    prefixes: &[Prefix],
    core: &Core,
    items: &Vec<Json>,
) -> Result<Val, ValueFault>
    ensures { Gives result (items_at scope.now prefixes.now core.now (items_view items.now.items)) }
{
    let mut values = List::with_room(alloc, items.len() as u64)?;
    for item in items {
        let value = read_type(alloc, scope, prefixes, core, item)?;
        values.push(value)?;
    }
    Ok(Val::Items(values))
}

#[cycle(reading)]
fn read_members(
    alloc: Global,
    scope: &Checked,
    prefixes: &[Prefix],
    core: &Core,
    members: &Map<String, Json>,
) -> Result<Val, ValueFault>
    ensures { Gives result
        (members_at scope.now prefixes.now core.now (members_view members.now.entries)) }
{
    let mut entries = List::with_room(alloc, members.len() as u64)?;
    for (key, member) in members.iter() {
        let value = read_type(alloc, scope, prefixes, core, member)?;
        entries.push((Text::of(alloc, key.as_str())?, value))?;
    }
    Ok(Val::Map(entries))
}

#[cycle(reading)]
fn read_core(alloc: Global, scope: &Checked, core: &Core, json: &Json) -> Result<Val, ValueFault>
    ensures { Gives result (core_at scope.now core.now (view json.now)) }
{
    match core {
        Core::Bool => read_bool(json),
        Core::Int => read_int(json),
        Core::Float => Err(ValueFault::Unfit),
        Core::Str => read_string(alloc, json),
        Core::Object => read_foreign(json),
        Core::Name(name) => match scope.lookup_type(name.as_str()) {
            Some(body) => read_body(alloc, scope, body, json),
            None => Err(ValueFault::Unfit),
        },
        Core::Inline(body) => read_body(alloc, scope, body, json),
    }
}

/// Reads a JSON value by a body, as `read` does by a type that is this body in place.
#[cycle(reading)]
pub fn read_body(
    alloc: Global,
    scope: &Checked,
    body: &Body,
    json: &Json,
) -> Result<Val, ValueFault>
    ensures { Gives result (ReadsBody scope.now body.now (view json.now)) }
{
    match body {
        Body::Struct { fields, .. } => {
            if !json.is_object() {
                return Err(ValueFault::Unfit);
            }
            read_struct(alloc, scope, fields.as_slice(), json)
        }
        Body::Enum { names, .. } => read_pick(names.as_slice(), json),
    }
}

#[cycle(reading)]
fn read_struct(
    alloc: Global,
    scope: &Checked,
    fields: &[Field],
    json: &Json,
) -> Result<Val, ValueFault>
    ensures { Gives result (fields_at scope.now (view json.now) fields.now) }
{
    let mut values = List::with_room(alloc, fields.len() as u64)?;
    for field in fields {
        let value = read_field(alloc, scope, field, json)?;
        values.push(value)?;
    }
    Ok(Val::Struct(values))
}

#[cycle(reading)]
pub fn read_field(
    alloc: Global,
    scope: &Checked,
    field: &Field,
    json: &Json,
) -> Result<Val, ValueFault>
    ensures { Gives result (field_at scope.now (view json.now) field.now) }
{
    match json.get(field.name.as_str()) {
        Some(member) => {
            read_type(
                alloc,
                scope,
                field.of.prefixes.as_slice(),
                &field.of.core,
                member,
            )
        }
        None => read_absent(field),
    }
}

// The value of a field without a member.
fn read_absent(field: &Field) -> Result<Val, ValueFault>
    ensures { Gives result (member_by field.now None) }
{
    if begins_with_maybe(field.of.prefixes.as_slice()) {
        Ok(Val::Nothing)
    } else {
        Err(ValueFault::Unfit)
    }
}

fn read_bool(json: &Json) -> Result<Val, ValueFault>
    ensures { Gives result (option_map val.Bool (as_bool (view json.now))) }
{
    match json.as_bool() {
        Some(value) => Ok(Val::Bool(value)),
        None => Err(ValueFault::Unfit),
    }
}

fn read_int(json: &Json) -> Result<Val, ValueFault>
    ensures { Gives result (option_map val.Int (option_and_then int_of (as_number (view json.now)))) }
{
    match json.as_i64() {
        Some(value) => Ok(Val::Int(value)),
        None => Err(ValueFault::Unfit),
    }
}

fn read_string(alloc: Global, json: &Json) -> Result<Val, ValueFault>
    ensures { Gives result (option_map val.Str (as_str (view json.now))) }
{
    match json.as_str() {
        Some(text) => Ok(Val::Str(Text::of(alloc, text)?)),
        None => Err(ValueFault::Unfit),
    }
}

fn read_pick(names: &[Named], json: &Json) -> Result<Val, ValueFault>
    ensures { Gives result (pick_by names.now (as_str (view json.now))) }
{
    match json.as_str() {
        Some(word) => match place_of(names, word) {
            Some(place) => Ok(Val::Pick(place as u64)),
            None => Err(ValueFault::Unfit),
        },
        None => Err(ValueFault::Unfit),
    }
}

// The place of the first such name.
fn place_of(names: &[Named], word: &str) -> Option<usize>
    ensures { result ≡ position (λ named. bytes_eq named.name word.now) names.now }
{
    names.iter().position(|named| named.name.as_str() == word)
}

fn read_foreign(json: &Json) -> Result<Val, ValueFault>
    ensures { Gives result (foreign_by (view json.now)) }
{
    if !(json.is_object() && has_only_ints(json)) {
        return Err(ValueFault::Unfit);
    }
    match json.clone() {
        Ok(tree) => Ok(Val::Foreign(Value::of(tree))),
        Err(_) => Err(ValueFault::Memory),
    }
}

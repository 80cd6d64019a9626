// Copies of values.
ghost use Rattle.std.specs.Prelude.{◌≡◌, IfOk};

use crate::showing::copy_tree;
use crate::vals::Val;
use link_port::{List, Memory, Text, Value};
use std::alloc::Global;

/// Copies a value.
#[cycle(copies)]
pub fn copy(alloc: Global, val: &Val) -> Result<Val, Memory>
    ensures { IfOk result (λ copy. copy ≡ val.now) }
{
    match val {
        Val::Bool(value) => Ok(Val::Bool(*value)),
        Val::Int(value) => Ok(Val::Int(*value)),
        Val::Str(text) => Ok(Val::Str(Text::of(alloc, text.as_str())?)),
        Val::Items(values) => Ok(Val::Items(copy_all(alloc, values.as_slice())?)),
        Val::Map(entries) => Ok(Val::Map(copy_entries(alloc, entries.as_slice())?)),
        Val::Struct(values) => Ok(Val::Struct(copy_all(alloc, values.as_slice())?)),
        Val::Pick(place) => Ok(Val::Pick(*place)),
        Val::Nothing => Ok(Val::Nothing),
        Val::Foreign(tree) => Ok(Val::Foreign(Value::of(copy_tree(tree)?))),
    }
}

#[cycle(copies)]
fn copy_all(alloc: Global, values: &[Val]) -> Result<List<Val>, Memory>
    ensures { IfOk result (λ copies. copies ≡ values.now) }
{
    let mut copies = List::with_room(alloc, values.len() as u64)?;
    for value in values {
        copies.push(copy(alloc, value)?)?;
    }
    Ok(copies)
}

#[cycle(copies)]
fn copy_entries(alloc: Global, entries: &[(Text, Val)]) -> Result<List<(Text, Val)>, Memory>
    ensures { IfOk result (λ copies. copies ≡ entries.now) }
{
    let mut copies = List::with_room(alloc, entries.len() as u64)?;
    for entry in entries {
        let key = Text::of(alloc, entry.0.as_str())?;
        copies.push((key, copy(alloc, &entry.1)?))?;
    }
    Ok(copies)
}

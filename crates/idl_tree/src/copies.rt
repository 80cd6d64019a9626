// Copies of types.
ghost use Rattle.std.specs.Prelude.{◌≡◌, IfOk};
ghost use Rattle.idl_tree.specs.declared.trees.Body.TheVariants.{Struct, Enum, Inline};

use crate::trees::{Body, Core, Field, Named, Prefix, TypeRef};
use link_port::{Box, List, Memory, Text};
use std::alloc::Global;

/// Copies a type, the bodies in place that stand in it and their notes included.
#[cycle(copying)]
pub fn copy_type(alloc: Global, of: &TypeRef) -> Result<TypeRef, Memory>
    ensures { IfOk result (λ copy. copy ≡ of.now) }
{
    let prefixes = copy_prefixes(alloc, of.prefixes.as_slice())?;
    match copy_core(alloc, &of.core) {
        Ok(core) => Ok(TypeRef { prefixes, core }),
        Err(fault) => {
            drop(prefixes);
            Err(fault)
        }
    }
}

#[cycle(copying)]
fn copy_core(alloc: Global, core: &Core) -> Result<Core, Memory>
    ensures { IfOk result (λ copy. copy ≡ core.now) }
{
    match core {
        Core::Bool => Ok(Core::Bool),
        Core::Int => Ok(Core::Int),
        Core::Float => Ok(Core::Float),
        Core::Str => Ok(Core::Str),
        Core::Object => Ok(Core::Object),
        Core::Name(name) => Ok(Core::Name(Text::of(alloc, name.as_str())?)),
        Core::Inline(body) => copy_inline(alloc, body),
    }
}

#[cycle(copying)]
fn copy_inline(alloc: Global, body: &Body) -> Result<Core, Memory>
    ensures { IfOk result (λ copy. copy ≡ Inline body.now) }
{
    let copy = copy_body(alloc, body)?;
    Ok(Core::Inline(Box::new(alloc, copy)?))
}

#[cycle(copying)]
fn copy_body(alloc: Global, body: &Body) -> Result<Body, Memory>
    ensures { IfOk result (λ copy. copy ≡ body.now) }
{
    match body {
        Body::Struct { fields, ending } => {
            copy_struct(alloc, fields.as_slice(), ending.as_slice())
        }
        Body::Enum { names, ending } => copy_enum(alloc, names.as_slice(), ending.as_slice()),
    }
}

#[cycle(copying)]
fn copy_struct(alloc: Global, fields: &[Field], ending: &[Text]) -> Result<Body, Memory>
    ensures { IfOk result (λ copy. copy ≡ Struct fields.now ending.now) }
{
    let ending = copy_notes(alloc, ending)?;
    match copy_fields(alloc, fields) {
        Ok(fields) => Ok(Body::Struct { fields, ending }),
        Err(fault) => {
            drop(ending);
            Err(fault)
        }
    }
}

#[cycle(copying)]
fn copy_fields(alloc: Global, fields: &[Field]) -> Result<List<Field>, Memory>
    ensures { IfOk result (λ copies. copies ≡ fields.now) }
{
    let mut copies = List::new(alloc);
    for field in fields {
        copies.push(copy_field(alloc, field)?)?;
    }
    Ok(copies)
}

#[cycle(copying)]
fn copy_field(alloc: Global, field: &Field) -> Result<Field, Memory>
    ensures { IfOk result (λ copy. copy ≡ field.now) }
{
    let Named { notes, name } = copy_entry(alloc, field.notes.as_slice(), &field.name)?;
    match copy_type(alloc, &field.of) {
        Ok(of) => Ok(Field { notes, name, of }),
        Err(fault) => {
            drop((notes, name));
            Err(fault)
        }
    }
}

fn copy_enum(alloc: Global, names: &[Named], ending: &[Text]) -> Result<Body, Memory>
    ensures { IfOk result (λ copy. copy ≡ Enum names.now ending.now) }
{
    let ending = copy_notes(alloc, ending)?;
    match copy_names(alloc, names) {
        Ok(names) => Ok(Body::Enum { names, ending }),
        Err(fault) => {
            drop(ending);
            Err(fault)
        }
    }
}

fn copy_names(alloc: Global, names: &[Named]) -> Result<List<Named>, Memory>
    ensures { IfOk result (λ copies. copies ≡ names.now) }
{
    let mut copies = List::new(alloc);
    for named in names {
        copies.push(copy_entry(alloc, named.notes.as_slice(), &named.name)?)?;
    }
    Ok(copies)
}

// The name of an entry with the notes before it.
fn copy_entry(alloc: Global, notes: &[Text], name: &Text) -> Result<Named, Memory>
    ensures notes { IfOk result (λ copy. copy.notes ≡ notes.now) }
    ensures name { IfOk result (λ copy. copy.name ≡ name.now) }
{
    let notes = copy_notes(alloc, notes)?;
    match Text::of(alloc, name.as_str()) {
        Ok(name) => Ok(Named { notes, name }),
        Err(fault) => {
            drop(notes);
            Err(fault)
        }
    }
}

fn copy_notes(alloc: Global, notes: &[Text]) -> Result<List<Text>, Memory>
    ensures { IfOk result (λ copies. copies ≡ notes.now) }
{
    let mut copies = List::new(alloc);
    for note in notes {
        copies.push(Text::of(alloc, note.as_str())?)?;
    }
    Ok(copies)
}

fn copy_prefixes(alloc: Global, prefixes: &[Prefix]) -> Result<List<Prefix>, Memory>
    ensures { IfOk result (λ copies. copies ≡ prefixes.now) }
{
    match Vec::from_slice(alloc, prefixes) {
        Ok(copies) => Ok(List::from_vec(copies)),
        Err(_) => Err(Memory),
    }
}

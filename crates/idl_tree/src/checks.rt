// The names of a tree are checked in text order.
ghost use Rattle.std.specs.Prelude.{◌≡◌, [], ◌||◌, not, if◌then◌else◌, map, Some, None, IfOk, OnOk};
ghost use Rattle.std.specs.Str.{bytes_eq};
ghost use Rattle.std.specs.List.{list_any};
ghost use Rattle.std.specs.BTreeMap.{get_by_text};
ghost use Rattle.idl_tree.specs.Names.{Bytes};
ghost use Rattle.idl_tree.specs.Faults.{Answers, Reports, body_fault, core_fault, type_fault, part_fault, bracket_fault, members_fault, is_named, space_of, twice};
ghost use Rattle.idl_tree.specs.Places.{Tells, has_name, is_type, is_place, places_in};
ghost use Rattle.idl_tree.specs.declared.faults.NameFault.TheVariants as fault;
ghost use Rattle.idl_tree.specs.declared.spaces.Space.TheVariants.{Types};

use crate::faults::NameFault;
use crate::places::Index;
use crate::spaces::{Space, space_of};
use crate::trees::{Body, Core, Field, Member, Named, Part, TypeRef};
use link_port::{Memory, Text};
use std::alloc::Global;
use std::collections::BTreeSet;

/// Finds the first fault of the members' names in text order.
pub fn check_members(alloc: Global, members: &[Member], index: &Index) -> Result<(), NameFault>
    requires { Tells index.now members.now }
    ensures { Answers result
        (members_fault (λ name. list_any (is_named Types name) members.now) [] members.now) }
{
    for (place, member) in members.iter().enumerate() {
        if let Err(fault) = check_member(alloc, member, place, index) {
            return Err(fault);
        }
    }
    Ok(())
}

// Checks a member's name and what it has.
fn check_member(
    alloc: Global,
    member: &Member,
    place: usize,
    index: &Index,
) -> Result<(), NameFault>
    ensures { Answers result
        (if is_place (get_by_text (places_in index.now (space_of member.now.part)) member.now.name) place
        then part_fault (is_type index.now) member.now.part
        else Some (twice (space_of member.now.part) member.now.name)) }
{
    let space = space_of(&member.part);
    match index.place(space, member.name.as_str()) {
        Some(first) if first == place => check_part(alloc, &member.part, index),
        _ => Err(twice(alloc, space, &member.name)),
    }
}

// The fault of a member whose name stood before.
fn twice(alloc: Global, space: Space, name: &Text) -> NameFault
    ensures { Reports result (Some (twice space name.now)) }
{
    match Text::of(alloc, name.as_str()) {
        Ok(name) => match space {
            Space::Types => NameFault::TwiceType(name),
            Space::Methods => NameFault::TwiceMethod(name),
            Space::Errors => NameFault::TwiceError(name),
        },
        Err(_) => NameFault::Memory,
    }
}

fn check_part(alloc: Global, part: &Part, index: &Index) -> Result<(), NameFault>
    ensures { Answers result (part_fault (is_type index.now) part.now) }
{
    match part {
        Part::Shape(body) => check_body(alloc, body, index),
        Part::Method { input, output } => match check_body(alloc, input, index) {
            Ok(()) => check_body(alloc, output, index),
            Err(fault) => Err(fault),
        },
        Part::Fault(body) => check_body(alloc, body, index),
    }
}

#[cycle(check)]
fn check_body(alloc: Global, body: &Body, index: &Index) -> Result<(), NameFault>
    ensures { Answers result (body_fault (is_type index.now) body.now) }
{
    match body {
        Body::Struct { fields, .. } => check_fields(alloc, fields.as_slice(), index),
        Body::Enum { names, .. } => check_names(alloc, names.as_slice()),
    }
}

#[cycle(check)]
fn check_fields(alloc: Global, fields: &[Field], index: &Index) -> Result<(), NameFault>
    ensures { Answers result
        (bracket_fault [] (map (λ field. (field.name, type_fault (is_type index.now) field.of)) fields.now)) }
{
    let mut before = BTreeSet::new(alloc);
    for field in fields {
        if let Err(fault) = check_new(alloc, &mut before, &field.name) {
            return Err(fault);
        }
        if let Err(fault) = check_type(alloc, &field.of, index) {
            return Err(fault);
        }
    }
    Ok(())
}

/// Finds the first fault of the names in a type in text order.
#[cycle(check)]
pub fn check_type(alloc: Global, of: &TypeRef, index: &Index) -> Result<(), NameFault>
    ensures { Answers result (type_fault (is_type index.now) of.now) }
{
    match &of.core {
        Core::Name(name) => check_used(alloc, name, index),
        Core::Inline(body) => check_body(alloc, body, index),
        _ => Ok(()),
    }
}

// Checks that the name of a type has a definition.
fn check_used(alloc: Global, name: &Text, index: &Index) -> Result<(), NameFault>
    ensures { Answers result
        (if is_type index.now name.now then None else Some (fault.UnknownType name.now)) }
{
    if index.place(Space::Types, name.as_str()).is_some() {
        return Ok(());
    }
    match Text::of(alloc, name.as_str()) {
        Ok(name) => Err(NameFault::UnknownType(name)),
        Err(_) => Err(NameFault::Memory),
    }
}

fn check_names(alloc: Global, names: &[Named]) -> Result<(), NameFault>
    ensures { Answers result (bracket_fault [] (map (λ named. (named.name, None)) names.now)) }
{
    let mut before = BTreeSet::new(alloc);
    for named in names {
        if let Err(fault) = check_new(alloc, &mut before, &named.name) {
            return Err(fault);
        }
    }
    Ok(())
}

// Checks that the name is new in its bracket, and adds it to those that stood before.
fn check_new<'a>(
    alloc: Global,
    before: &mut BTreeSet<&'a str>,
    name: &'a Text,
) -> Result<(), NameFault>
    ensures answer { Answers result
        (if has_name before.old name.now then Some (fault.TwiceField name.now) else None) }
    ensures after { OnOk result ((q : Bytes) → has_name before.new q
        ≡ (bytes_eq name.now q || has_name before.old q)) }
{
    match add_name(before, name.as_str()) {
        Ok(true) => Ok(()),
        Ok(false) => match Text::of(alloc, name.as_str()) {
            Ok(name) => Err(NameFault::TwiceField(name)),
            Err(_) => Err(NameFault::Memory),
        },
        Err(_) => Err(NameFault::Memory),
    }
}

// Adds a name to those that stood before, and says whether it is new.
fn add_name<'a>(names: &mut BTreeSet<&'a str>, name: &'a str) -> Result<bool, Memory>
    ensures added { IfOk result (λ added. added ≡ not (has_name names.old name.now)) }
    ensures after { OnOk result ((q : Bytes) → has_name names.new q
        ≡ (bytes_eq name.now q || has_name names.old q)) }
{
    match names.insert(name) {
        Ok(added) => Ok(added),
        Err(_) => Err(Memory),
    }
}

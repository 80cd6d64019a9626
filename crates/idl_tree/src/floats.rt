// Which types reach `float`.
ghost use Rattle.std.specs.Prelude.{◌≡◌, [], ◌++◌, ◌<◌, ◌||◌, ◌&&◌, ◌==◌, ℕ, map, length, IfOk, OnOk};
ghost use Rattle.std.specs.List.{list_any};
ghost use Rattle.idl_tree.specs.Floats.{body_has_float, type_has_float, body_used, type_used, joined, places_of, member_used, member_has_float, TellsUsers, TellsFloats, name_marked};
ghost use Rattle.idl_tree.specs.Marks.{has, users_at};
ghost use Rattle.idl_tree.specs.Places.{Tells};

use crate::marks::mark_users;
use crate::places::Index;
use crate::spaces::Space;
use crate::trees::{Body, Core, Field, Interface, Member, Part, TypeRef};
use link_port::{List, Memory};
use std::alloc::Global;

// Whether `float` stands in a body, brackets in place included.
#[cycle(floats)]
fn body_has_float(body: &Body) -> bool
    ensures { result ≡ body_has_float body.now }
{
    match body {
        Body::Struct { fields, .. } => fields_have_float(fields.as_slice()),
        Body::Enum { .. } => false,
    }
}

#[cycle(floats)]
fn fields_have_float(fields: &[Field]) -> bool
    ensures { result ≡ list_any (λ field. type_has_float field.of) fields.now }
{
    for field in fields {
        if type_has_float(&field.of) {
            return true;
        }
    }
    false
}

// Whether `float` stands in a type, brackets in place included.
#[cycle(floats)]
fn type_has_float(of: &TypeRef) -> bool
    ensures { result ≡ type_has_float of.now }
{
    match &of.core {
        Core::Float => true,
        Core::Inline(body) => body_has_float(body),
        _ => false,
    }
}

// Adds the places of the types that a body uses.
#[cycle(uses)]
fn add_used(body: &Body, index: &Index, places: &mut List<usize>) -> Result<(), Memory>
    ensures { OnOk result (places.new ≡ places.old ++ places_of index.now (body_used body.now)) }
{
    match body {
        Body::Struct { fields, .. } => add_used_in_fields(fields.as_slice(), index, places),
        Body::Enum { .. } => Ok(()),
    }
}

#[cycle(uses)]
fn add_used_in_fields(
    fields: &[Field],
    index: &Index,
    places: &mut List<usize>,
) -> Result<(), Memory>
    ensures { OnOk result (places.new
        ≡ places.old ++ places_of index.now (joined (map (λ field. type_used field.of) fields.now))) }
{
    for field in fields {
        add_used_in_type(&field.of, index, places)?;
    }
    Ok(())
}

#[cycle(uses)]
fn add_used_in_type(of: &TypeRef, index: &Index, places: &mut List<usize>) -> Result<(), Memory>
    ensures { OnOk result (places.new ≡ places.old ++ places_of index.now (type_used of.now)) }
{
    match &of.core {
        Core::Name(name) => match index.place(Space::Types, name.as_str()) {
            Some(place) => places.push(place),
            None => Ok(()),
        },
        Core::Inline(body) => add_used(body, index, places),
        _ => Ok(()),
    }
}

/// Whether `float` stands in a body, or a type that it uses is marked.
pub fn body_is_marked(body: &Body, index: &Index, marks: &[bool]) -> bool
    ensures { result ≡ (body_has_float body.now
        || list_any (name_marked index.now marks.now) (body_used body.now)) }
{
    body_has_float(body) || body_uses_marked(body, index, marks)
}

/// Whether `float` stands in a type, or a type that it uses is marked.
pub fn type_is_marked(of: &TypeRef, index: &Index, marks: &[bool]) -> bool
    ensures { result ≡ (type_has_float of.now
        || list_any (name_marked index.now marks.now) (type_used of.now)) }
{
    type_has_float(of) || type_uses_marked(of, index, marks)
}

#[cycle(marked)]
fn body_uses_marked(body: &Body, index: &Index, marks: &[bool]) -> bool
    ensures { result ≡ list_any (name_marked index.now marks.now) (body_used body.now) }
{
    match body {
        Body::Struct { fields, .. } => fields_use_marked(fields.as_slice(), index, marks),
        Body::Enum { .. } => false,
    }
}

#[cycle(marked)]
fn fields_use_marked(fields: &[Field], index: &Index, marks: &[bool]) -> bool
    ensures { result ≡ list_any (name_marked index.now marks.now)
        (joined (map (λ field. type_used field.of) fields.now)) }
{
    for field in fields {
        if type_uses_marked(&field.of, index, marks) {
            return true;
        }
    }
    false
}

#[cycle(marked)]
fn type_uses_marked(of: &TypeRef, index: &Index, marks: &[bool]) -> bool
    ensures { result ≡ list_any (name_marked index.now marks.now) (type_used of.now) }
{
    match &of.core {
        Core::Name(name) => match index.place(Space::Types, name.as_str()) {
            Some(place) => matches!(marks.get(place), Some(true)),
            None => false,
        },
        Core::Inline(body) => body_uses_marked(body, index, marks),
        _ => false,
    }
}

// For each type the types that use it.
fn users_of(alloc: Global, members: &[Member], index: &Index) -> Result<Vec<List<usize>>, Memory>
    ensures size { IfOk result (λ users. length users.items ≡ length members.now) }
    ensures users { IfOk result (λ users. TellsUsers index.now members.now users.items) }
{
    let mut users = no_users(alloc, members)?.into_vec();
    for (place, member) in members.iter().enumerate() {
        let used = used_in(alloc, member, index)?;
        add_user(&mut users, used.as_slice(), place)?;
    }
    Ok(users)
}

fn used_in(alloc: Global, member: &Member, index: &Index) -> Result<List<usize>, Memory>
    ensures { IfOk result (λ places. places ≡ places_of index.now (member_used member.now)) }
{
    let mut places = List::new(alloc);
    if let Part::Shape(body) = &member.part {
        add_used(body, index, &mut places)?;
    }
    Ok(places)
}

fn no_users(alloc: Global, members: &[Member]) -> Result<List<List<usize>>, Memory>
    ensures size { IfOk result (λ users. length users ≡ length members.now) }
    ensures none { IfOk result (λ users. (p : ℕ) → users_at users p ≡ []) }
{
    let mut users = List::new(alloc);
    for _member in members {
        users.push(List::new(alloc))?;
    }
    Ok(users)
}

// Adds a user to each of the places.
fn add_user(users: &mut Vec<List<usize>>, places: &[usize], user: usize) -> Result<(), Memory>
    ensures size { OnOk result (length users.new.items ≡ length users.old.items) }
    ensures added { OnOk result ((p i : ℕ) → p < length users.new.items
        → has i (users_at users.new.items p)
        ≡ (has i (users_at users.old.items p) || (user == i && has p places.now))) }
{
    for place in places {
        if let Some(list) = users.get_mut(*place) {
            list.push(user)?;
        }
    }
    Ok(())
}

// Whether `float` stands in each type.
fn own_floats(alloc: Global, members: &[Member]) -> Result<List<bool>, Memory>
    ensures { IfOk result (λ marks. marks ≡ map member_has_float members.now) }
{
    let mut marks = List::new(alloc);
    for member in members {
        marks.push(member_has_float(member))?;
    }
    Ok(marks)
}

fn member_has_float(member: &Member) -> bool
    ensures { result ≡ member_has_float member.now }
{
    match &member.part {
        Part::Shape(body) => body_has_float(body),
        _ => false,
    }
}

/// Marks the types of a tree that reach `float`, by their places: those in which it stands, and those
/// that use a marked one. Each use of a type is looked at once.
pub fn mark_floats(alloc: Global, tree: &Interface, index: &Index) -> Result<Vec<bool>, Memory>
    requires { Tells index.now tree.now.members }
    ensures { IfOk result (λ marks. TellsFloats index.now tree.now marks.items) }
{
    let members = tree.members.as_slice();
    let users = users_of(alloc, members, index)?;
    let mut marks = own_floats(alloc, members)?.into_vec();
    mark_users(alloc, users.as_slice(), &mut marks)?;
    Ok(marks)
}

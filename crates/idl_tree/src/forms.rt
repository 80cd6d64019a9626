// The form of a tree.
ghost use Rattle.std.specs.Prelude.{◌≡◌, ◌≤◌, ◌↔◌, ◌==◌, ◌||◌, ◌&&◌, ◌-◌, not, length, slice_index, IsTrue};
ghost use Rattle.std.specs.List.{list_all};
ghost use Rattle.idl_tree.specs.Names.{is_field_name};
ghost use Rattle.idl_tree.specs.Form.{Form, Deep, interface_form, member_form, part_form, body_form, core_form, type_form, named_form, is_struct, is_note, are_notes, has_single_maybes};

use crate::depths::tree_within;
use crate::names::{is_field_name, is_interface_name, is_member_name};
use crate::trees::{Body, Core, Field, Interface, Member, Named, Part, Prefix, TypeRef};
use link_port::Text;

/// The greatest depth of a `(`, the brackets open with it counted.
pub const MOST_BRACKETS: u64 = 64;

/// Whether the tree is one that a definition can spell: names have their forms, notes hold no CR or
/// LF and do not end with a space or tab, enums are not empty, no two `?` stand next to each other,
/// bodies of methods and errors are structs, and brackets are at most 64 deep. It takes no memory.
pub fn in_form(tree: &Interface) -> bool
    ensures { IsTrue result ↔ (Form tree.now × (Deep tree.now ≤ 64)) }
{
    tree_within(tree, MOST_BRACKETS) && has_form(tree)
}

fn has_form(tree: &Interface) -> bool
    ensures { result ≡ interface_form tree.now }
{
    are_notes(tree.notes.as_slice())
        && is_interface_name(tree.name.as_str())
        && members_have_form(tree.members.as_slice())
        && are_notes(tree.tail.as_slice())
}

fn members_have_form(members: &[Member]) -> bool
    ensures { result ≡ list_all member_form members.now }
{
    for member in members {
        if !member_has_form(member) {
            return false;
        }
    }
    true
}

fn member_has_form(member: &Member) -> bool
    ensures { result ≡ member_form member.now }
{
    are_notes(member.notes.as_slice())
        && is_member_name(member.name.as_str())
        && part_has_form(&member.part)
}

fn part_has_form(part: &Part) -> bool
    ensures { result ≡ part_form part.now }
{
    match part {
        Part::Shape(body) => body_has_form(body),
        Part::Method { input, output } => struct_has_form(input) && struct_has_form(output),
        Part::Fault(body) => struct_has_form(body),
    }
}

fn struct_has_form(body: &Body) -> bool
    ensures { result ≡ (is_struct body.now && body_form body.now) }
{
    is_struct(body) && body_has_form(body)
}

fn is_struct(body: &Body) -> bool
    ensures { result ≡ is_struct body.now }
{
    match body {
        Body::Struct { .. } => true,
        Body::Enum { .. } => false,
    }
}

#[cycle(form)]
fn body_has_form(body: &Body) -> bool
    ensures { result ≡ body_form body.now }
{
    match body {
        Body::Struct { fields, ending } => {
            fields_have_form(fields.as_slice()) && are_notes(ending.as_slice())
        }
        Body::Enum { names, ending } => {
            names.len() > 0 && names_have_form(names.as_slice()) && are_notes(ending.as_slice())
        }
    }
}

#[cycle(form)]
fn fields_have_form(fields: &[Field]) -> bool
    ensures { result ≡ list_all
        (λ field. are_notes field.notes && is_field_name field.name && type_form field.of) fields.now }
{
    for field in fields {
        if !field_has_form(field) {
            return false;
        }
    }
    true
}

#[cycle(form)]
fn field_has_form(field: &Field) -> bool
    ensures { result
        ≡ (are_notes field.now.notes && is_field_name field.now.name && type_form field.now.of) }
{
    are_notes(field.notes.as_slice())
        && is_field_name(field.name.as_str())
        && type_has_form(&field.of)
}

#[cycle(form)]
fn type_has_form(of: &TypeRef) -> bool
    ensures { result ≡ type_form of.now }
{
    has_single_maybes(of.prefixes.as_slice()) && core_has_form(&of.core)
}

#[cycle(form)]
fn core_has_form(core: &Core) -> bool
    ensures { result ≡ core_form core.now }
{
    match core {
        Core::Name(name) => is_member_name(name.as_str()),
        Core::Inline(body) => body_has_form(body),
        _ => true,
    }
}

fn names_have_form(names: &[Named]) -> bool
    ensures { result ≡ list_all named_form names.now }
{
    for named in names {
        if !(are_notes(named.notes.as_slice()) && is_field_name(named.name.as_str())) {
            return false;
        }
    }
    true
}

fn has_single_maybes(prefixes: &[Prefix]) -> bool
    ensures { result ≡ has_single_maybes prefixes.now }
{
    let mut after_maybe = false;
    for prefix in prefixes {
        let is_maybe = *prefix == Prefix::Maybe;
        if after_maybe && is_maybe {
            return false;
        }
        after_maybe = is_maybe;
    }
    true
}

fn are_notes(notes: &[Text]) -> bool
    ensures { result ≡ are_notes notes.now }
{
    for note in notes {
        if !is_note(note.as_str()) {
            return false;
        }
    }
    true
}

fn is_note(note: &str) -> bool
    ensures { result ≡ is_note note.now }
{
    let bytes = note.as_bytes();
    holds_line(bytes) && ends_bare(bytes)
}

// Whether the last byte is no space and no tab.
fn ends_bare(bytes: &[u8]) -> bool
    ensures { result ≡ not (slice_index bytes.now (length bytes.now - 1) == 32
        || slice_index bytes.now (length bytes.now - 1) == 9) }
{
    match bytes.last() {
        Some(last) => !matches!(*last, b' ' | b'\t'),
        None => true,
    }
}

// Whether no byte ends a line.
fn holds_line(bytes: &[u8]) -> bool
    ensures { result ≡ list_all (λ b. not (b == 13 || b == 10)) bytes.now }
{
    bytes.iter().all(is_in_line)
}

fn is_in_line(byte: &u8) -> bool
    ensures { result ≡ not (byte.now == 13 || byte.now == 10) }
{
    !matches!(*byte, b'\r' | b'\n')
}

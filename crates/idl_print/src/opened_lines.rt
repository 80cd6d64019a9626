// Bodies that are opened, one entry a line, with their notes.
ghost use Rattle.std.specs.Prelude.{◌≡◌, ◌++◌, ◌+◌, ◌<◌, ◌==◌, ◌&&◌, OnOk, [], map, codes, nat_lt, if◌then◌else◌};
ghost use Rattle.std.specs.String.{string_bytes};
ghost use Rattle.idl_rules.specs.Canon.{body_layout, core_layout, type_layout, field_entry, named_entry, entry_line, entry_lines, note_lines, spaces, fits};

use crate::flat_lines::push_flat_field;
use crate::pieces::{core_word, push, push_notes, push_prefixes, push_spaces};
use crate::rooms::{field_text_room, take};
use idl_tree::{Body, Core, Field, Named, TypeRef};
use link_port::{Memory, Text};

/// The most bytes of a line that is not opened.
pub const LINE_ROOM: u64 = 80;

/// Appends the body opened, in a line that is indented by so many spaces.
#[cycle(opened)]
pub fn push_opened_body(out: &mut String, body: &Body, indent: u64) -> Result<(), Memory>
    ensures { OnOk result (string_bytes out.new
        ≡ string_bytes out.old ++ (body_layout body.now).opened indent) }
{
    // No memory holds a line that is indented further.
    let Some(inner) = indent.checked_add(2) else {
        return Err(Memory);
    };
    match body {
        Body::Struct { fields, ending } => {
            if is_bare(fields.len(), ending.len()) {
                push(out, "()")?;
                return Ok(());
            }
            push(out, "(\n")?;
            push_field_lines(out, fields.as_slice(), inner)?;
            push_ending(out, ending.as_slice(), indent, inner)?;
            Ok(())
        }
        Body::Enum { names, ending } => {
            if is_bare(names.len(), ending.len()) {
                push(out, "()")?;
                return Ok(());
            }
            push(out, "(\n")?;
            push_name_lines(out, names.as_slice(), inner)?;
            push_ending(out, ending.as_slice(), indent, inner)?;
            Ok(())
        }
    }
}

// Whether a bracket has no entry and no note before its end.
fn is_bare(entries: u64, ending: u64) -> bool
    ensures { result ≡ (entries == 0 && ending == 0) }
{
    entries == 0 && ending == 0
}

// Appends the notes before the closing bracket, and the bracket.
fn push_ending(out: &mut String, ending: &[Text], indent: u64, inner: u64) -> Result<(), Memory>
    ensures { OnOk result (string_bytes out.new
        ≡ string_bytes out.old ++ (note_lines inner ending.now ++ (spaces indent ++ codes ")"))) }
{
    push_notes(out, inner, ending)?;
    push_spaces(out, indent)?;
    push(out, ")")?;
    Ok(())
}

#[cycle(opened)]
fn push_field_lines(out: &mut String, fields: &[Field], indent: u64) -> Result<(), Memory>
    ensures { OnOk result (string_bytes out.new
        ≡ string_bytes out.old ++ entry_lines indent (map field_entry fields.now)) }
{
    for (place, field) in fields.iter().enumerate() {
        let comma = comma_behind(place, fields.len());
        push_field_line(out, field, indent, comma)?;
    }
    Ok(())
}

#[cycle(opened)]
fn push_field_line(out: &mut String, field: &Field, indent: u64, comma: &str) -> Result<(), Memory>
    ensures { OnOk result (string_bytes out.new ≡ string_bytes out.old
        ++ (note_lines indent field.now.notes ++ entry_line indent (field_entry field.now).text comma.now)) }
{
    push_notes(out, indent, field.notes.as_slice())?;
    push_spaces(out, indent)?;
    if fits_line(field, indent, comma) {
        push_flat_field(out, field)?;
    } else {
        push_opened_field(out, field, indent)?;
    }
    push(out, comma)?;
    push(out, "\n")?;
    Ok(())
}

// Whether the field's line has room for it on one line.
fn fits_line(field: &Field, indent: u64, comma: &str) -> bool
    ensures { result ≡ fits (field_entry field.now).text.noted
        (spaces indent ++ (field_entry field.now).text.flat ++ comma.now) }
{
    let room = take(take(Some(LINE_ROOM), indent), comma.len() as u64);
    field_text_room(field, room).is_some()
}

#[cycle(opened)]
fn push_opened_field(out: &mut String, field: &Field, indent: u64) -> Result<(), Memory>
    ensures { OnOk result (string_bytes out.new
        ≡ string_bytes out.old ++ (field_entry field.now).text.opened indent) }
{
    push(out, field.name.as_str())?;
    push(out, ": ")?;
    push_opened_type(out, &field.of, indent)
}

#[cycle(opened)]
fn push_opened_type(out: &mut String, of: &TypeRef, indent: u64) -> Result<(), Memory>
    ensures { OnOk result (string_bytes out.new
        ≡ string_bytes out.old ++ (type_layout of.now).opened indent) }
{
    push_prefixes(out, of.prefixes.as_slice())?;
    push_opened_core(out, &of.core, indent)
}

#[cycle(opened)]
fn push_opened_core(out: &mut String, core: &Core, indent: u64) -> Result<(), Memory>
    ensures { OnOk result (string_bytes out.new
        ≡ string_bytes out.old ++ (core_layout core.now).opened indent) }
{
    match core {
        Core::Inline(body) => push_opened_body(out, body, indent),
        core => push(out, core_word(core)),
    }
}

fn push_name_lines(out: &mut String, names: &[Named], indent: u64) -> Result<(), Memory>
    ensures { OnOk result (string_bytes out.new
        ≡ string_bytes out.old ++ entry_lines indent (map named_entry names.now)) }
{
    for (place, named) in names.iter().enumerate() {
        let comma = comma_behind(place, names.len());
        push_name_line(out, named, indent, comma)?;
    }
    Ok(())
}

fn push_name_line(out: &mut String, named: &Named, indent: u64, comma: &str) -> Result<(), Memory>
    ensures { OnOk result (string_bytes out.new ≡ string_bytes out.old
        ++ (note_lines indent named.now.notes ++ entry_line indent (named_entry named.now).text comma.now)) }
{
    push_notes(out, indent, named.notes.as_slice())?;
    push_spaces(out, indent)?;
    push(out, named.name.as_str())?;
    push(out, comma)?;
    push(out, "\n")?;
    Ok(())
}

// What follows the entry at a place among so many.
fn comma_behind(place: usize, count: usize) -> &'static str
    requires { place < count }
    ensures { result.now ≡ (if nat_lt (place + 1) count then codes "," else []) }
{
    if place + 1 < count { "," } else { "" }
}

// The room that is left on a line.
ghost use Rattle.std.specs.Prelude.{◌≡◌, ◌==◌, not, length, map, false};
ghost use Rattle.std.specs.List.{list_any, flat_map};
ghost use Rattle.idl_rules.specs.Canon.{body_layout, core_layout, type_layout, prefix_text, is_noted, flat_entries, named_entry, field_entry};
ghost use Rattle.idl_print.specs.Room.{room_left, room_behind};

use crate::pieces::{core_word, prefix_text};
use idl_tree::{Body, Core, Field, Named, Prefix, TypeRef};
use link_port::Text;

/// The room that a line has left behind the body on one line, and None where there is not so much or
/// where a note stands inside the body. It looks at no more entries than have room.
#[cycle(room)]
pub fn body_room(body: &Body, room: Option<u64>) -> Option<u64>
    ensures { result ≡ room_behind (body_layout body.now) room }
{
    let left = take(room, 1);
    match body {
        Body::Struct { fields, ending } => {
            let left = notes_room(ending.as_slice(), fields_room(fields.as_slice(), left));
            take(left, 1)
        }
        Body::Enum { names, ending } => {
            let left = notes_room(ending.as_slice(), names_room(names.as_slice(), left));
            take(left, 1)
        }
    }
}

#[cycle(room)]
fn fields_room(fields: &[Field], room: Option<u64>) -> Option<u64>
    ensures { result ≡ room_left (list_any is_noted (map field_entry fields.now))
        (length (flat_entries (map field_entry fields.now))) room }
{
    let [first, others @ ..] = fields else {
        return room;
    };
    let mut left = field_room(first, room);
    for field in others {
        if left.is_none() {
            return None;
        }
        left = field_room(field, take(left, 2));
    }
    left
}

#[cycle(room)]
fn field_room(field: &Field, room: Option<u64>) -> Option<u64>
    ensures { result ≡ room_left (is_noted (field_entry field.now))
        (length (field_entry field.now).text.flat) room }
{
    notes_room(field.notes.as_slice(), field_text_room(field, room))
}

/// The room behind the field without its notes.
#[cycle(room)]
pub fn field_text_room(field: &Field, room: Option<u64>) -> Option<u64>
    ensures { result ≡ room_behind (field_entry field.now).text room }
{
    let left = take(take(room, field.name.len()), 2);
    type_room(&field.of, left)
}

#[cycle(room)]
fn type_room(of: &TypeRef, room: Option<u64>) -> Option<u64>
    ensures { result ≡ room_behind (type_layout of.now) room }
{
    core_room(&of.core, prefixes_room(of.prefixes.as_slice(), room))
}

#[cycle(room)]
fn core_room(core: &Core, room: Option<u64>) -> Option<u64>
    ensures { result ≡ room_behind (core_layout core.now) room }
{
    match core {
        Core::Inline(body) => body_room(body, room),
        core => take(room, core_word(core).len() as u64),
    }
}

fn names_room(names: &[Named], room: Option<u64>) -> Option<u64>
    ensures { result ≡ room_left (list_any is_noted (map named_entry names.now))
        (length (flat_entries (map named_entry names.now))) room }
{
    let [first, others @ ..] = names else {
        return room;
    };
    let mut left = name_room(first, room);
    for named in others {
        if left.is_none() {
            return None;
        }
        left = name_room(named, take(left, 2));
    }
    left
}

fn name_room(named: &Named, room: Option<u64>) -> Option<u64>
    ensures { result ≡ room_left (is_noted (named_entry named.now)) (length named.now.name) room }
{
    notes_room(named.notes.as_slice(), take(room, named.name.len()))
}

fn prefixes_room(prefixes: &[Prefix], room: Option<u64>) -> Option<u64>
    ensures { result ≡ room_left false (length (flat_map prefix_text prefixes.now)) room }
{
    let mut left = room;
    for prefix in prefixes {
        if left.is_none() {
            return None;
        }
        left = take(left, prefix_text(*prefix).len() as u64);
    }
    left
}

// The room where no note stands.
fn notes_room(notes: &[Text], room: Option<u64>) -> Option<u64>
    ensures { result ≡ room_left (not (length notes.now == 0)) 0 room }
{
    if notes.is_empty() { room } else { None }
}

/// The room behind so many bytes.
pub fn take(room: Option<u64>, size: u64) -> Option<u64>
    ensures { result ≡ room_left false size room }
{
    match room {
        Some(room) => room.checked_sub(size),
        None => None,
    }
}

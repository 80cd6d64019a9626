// The canonical text of a definition, member by member.
ghost use Rattle.std.specs.Prelude.{◌≡◌, ◌++◌, OnOk, IfOk, length, if◌then◌else◌};
ghost use Rattle.idl_token.specs.Lex.{Bytes};
ghost use Rattle.std.specs.List.{flat_map};
ghost use Rattle.std.specs.String.{string_bytes};
ghost use Rattle.idl_rules.specs.Canon.{Canon, body_layout, part_layout, part_text, member_text, tail_text, fits};

use crate::flat_lines::push_flat_body;
use crate::opened_lines::{LINE_ROOM, push_opened_body};
use crate::pieces::{push, push_notes};
use crate::rooms::{body_room, take};
use idl_tree::{Body, Checked, Interface, Member, Part};
use link_port::{Memory, Text};
use std::alloc::Global;

/// Gives the canonical text of the definition.
pub fn text(alloc: Global, tree: &Checked) -> Result<Text, Memory>
    ensures { IfOk result (λ text. text ≡ Canon tree.now) }
{
    let mut out = String::new(alloc);
    push_interface(&mut out, tree.tree())?;
    Text::of(alloc, out.as_str())
}

fn push_interface(out: &mut String, tree: &Interface) -> Result<(), Memory>
    ensures { OnOk result (string_bytes out.new ≡ string_bytes out.old ++ Canon tree.now) }
{
    push_notes(out, 0, tree.notes.as_slice())?;
    push(out, "interface ")?;
    push(out, tree.name.as_str())?;
    push(out, "\n")?;
    push_members(out, tree.members.as_slice())?;
    push_tail(out, tree.tail.as_slice())?;
    Ok(())
}

fn push_members(out: &mut String, members: &[Member]) -> Result<(), Memory>
    ensures { OnOk result (string_bytes out.new
        ≡ string_bytes out.old ++ flat_map member_text members.now) }
{
    for member in members {
        push_member(out, member)?;
    }
    Ok(())
}

fn push_tail(out: &mut String, tail: &[Text]) -> Result<(), Memory>
    ensures { OnOk result (string_bytes out.new ≡ string_bytes out.old ++ tail_text tail.now) }
{
    if tail.is_empty() {
        return Ok(());
    }
    push(out, "\n")?;
    push_notes(out, 0, tail)?;
    Ok(())
}

fn push_member(out: &mut String, member: &Member) -> Result<(), Memory>
    ensures { OnOk result (string_bytes out.new ≡ string_bytes out.old ++ member_text member.now) }
{
    push(out, "\n")?;
    push_notes(out, 0, member.notes.as_slice())?;
    let is_flat = fits_line(member.name.len(), &member.part);
    push_part(out, member.name.as_str(), &member.part, is_flat)?;
    push(out, "\n")?;
    Ok(())
}

// Whether the line has room for the member, whose name has so many bytes, on one line.
fn fits_line(name: u64, part: &Part) -> bool
    ensures { (other : Bytes) → length other ≡ name
        → result ≡ fits (part_layout other part.now).noted (part_layout other part.now).flat }
{
    let room = take(Some(LINE_ROOM), name);
    match part {
        Part::Shape(body) => body_room(body, take(room, 6)).is_some(),
        Part::Method { input, output } => {
            let left = body_room(input, take(room, 7));
            body_room(output, take(left, 4)).is_some()
        }
        Part::Fault(body) => body_room(body, take(room, 7)).is_some(),
    }
}

// Appends a member without its notes, on one line or opened.
fn push_part(out: &mut String, name: &str, part: &Part, is_flat: bool) -> Result<(), Memory>
    ensures { OnOk result (string_bytes out.new ≡ string_bytes out.old
        ++ (if is_flat then (part_layout name.now part.now).flat
        else (part_layout name.now part.now).opened 0)) }
{
    match part {
        Part::Shape(body) => {
            push(out, "type ")?;
            push(out, name)?;
            push(out, " ")?;
            push_body(out, body, is_flat)?;
            Ok(())
        }
        Part::Method { input, output } => {
            push(out, "method ")?;
            push(out, name)?;
            push_body(out, input, is_flat)?;
            push(out, " -> ")?;
            push_body(out, output, is_flat)?;
            Ok(())
        }
        Part::Fault(body) => {
            push(out, "error ")?;
            push(out, name)?;
            push(out, " ")?;
            push_body(out, body, is_flat)?;
            Ok(())
        }
    }
}

// Appends an outer body, on one line or opened.
fn push_body(out: &mut String, body: &Body, is_flat: bool) -> Result<(), Memory>
    ensures { OnOk result (string_bytes out.new ≡ string_bytes out.old
        ++ (if is_flat then (body_layout body.now).flat else (body_layout body.now).opened 0)) }
{
    if is_flat {
        push_flat_body(out, body)
    } else {
        push_opened_body(out, body, 0)
    }
}

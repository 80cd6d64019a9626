// How deep the brackets of a tree are.
ghost use Rattle.std.specs.Prelude.{◌≡◌, nat_le, map};
ghost use Rattle.idl_tree.specs.Form.{body_depth, type_depth, part_depth, Deep, greatest};

use crate::trees::{Body, Core, Field, Interface, Part, TypeRef};

/// Whether the brackets of the tree are at most `room` deep.
pub fn tree_within(tree: &Interface, room: u64) -> bool
    ensures { result ≡ nat_le (Deep tree.now) room }
{
    for member in tree.members.as_slice() {
        if !part_within(&member.part, room) {
            return false;
        }
    }
    true
}

fn part_within(part: &Part, room: u64) -> bool
    ensures { result ≡ nat_le (part_depth part.now) room }
{
    match part {
        Part::Shape(body) => body_within(body, room),
        Part::Method { input, output } => body_within(input, room) && body_within(output, room),
        Part::Fault(body) => body_within(body, room),
    }
}

#[cycle(within)]
fn body_within(body: &Body, room: u64) -> bool
    ensures { result ≡ nat_le (body_depth body.now) room }
{
    if room == 0 {
        return false;
    }
    match body {
        Body::Struct { fields, .. } => fields_within(fields.as_slice(), room - 1),
        Body::Enum { .. } => true,
    }
}

#[cycle(within)]
fn fields_within(fields: &[Field], room: u64) -> bool
    ensures { result ≡ nat_le (greatest (map (λ field. type_depth field.of) fields.now)) room }
{
    for field in fields {
        if !type_within(&field.of, room) {
            return false;
        }
    }
    true
}

#[cycle(within)]
fn type_within(of: &TypeRef, room: u64) -> bool
    ensures { result ≡ nat_le (type_depth of.now) room }
{
    match &of.core {
        Core::Inline(body) => body_within(body, room),
        _ => true,
    }
}

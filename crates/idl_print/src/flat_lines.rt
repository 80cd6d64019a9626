// Bodies and types on one line.
ghost use Rattle.std.specs.Prelude.{◌≡◌, ◌++◌, OnOk, map};
ghost use Rattle.std.specs.String.{string_bytes};
ghost use Rattle.idl_rules.specs.Canon.{body_layout, core_layout, type_layout, field_entry, named_entry, flat_entries};

use crate::pieces::{core_word, push, push_prefixes};
use idl_tree::{Body, Core, Field, Named, TypeRef};
use link_port::Memory;

/// Appends the body on one line.
#[cycle(flat)]
pub fn push_flat_body(out: &mut String, body: &Body) -> Result<(), Memory>
    ensures { OnOk result (string_bytes out.new
        ≡ string_bytes out.old ++ (body_layout body.now).flat) }
{
    push(out, "(")?;
    match body {
        Body::Struct { fields, .. } => {
            push_flat_fields(out, fields.as_slice())?;
            push(out, ")")?;
            Ok(())
        }
        Body::Enum { names, .. } => {
            push_flat_names(out, names.as_slice())?;
            push(out, ")")?;
            Ok(())
        }
    }
}

#[cycle(flat)]
fn push_flat_fields(out: &mut String, fields: &[Field]) -> Result<(), Memory>
    ensures { OnOk result (string_bytes out.new
        ≡ string_bytes out.old ++ flat_entries (map field_entry fields.now)) }
{
    let [first, others @ ..] = fields else {
        return Ok(());
    };
    push_flat_field(out, first)?;
    for field in others {
        push(out, ", ")?;
        push_flat_field(out, field)?;
    }
    Ok(())
}

/// Appends the field without its notes on one line.
#[cycle(flat)]
pub fn push_flat_field(out: &mut String, field: &Field) -> Result<(), Memory>
    ensures { OnOk result (string_bytes out.new
        ≡ string_bytes out.old ++ (field_entry field.now).text.flat) }
{
    push(out, field.name.as_str())?;
    push(out, ": ")?;
    push_flat_type(out, &field.of)
}

#[cycle(flat)]
fn push_flat_type(out: &mut String, of: &TypeRef) -> Result<(), Memory>
    ensures { OnOk result (string_bytes out.new
        ≡ string_bytes out.old ++ (type_layout of.now).flat) }
{
    push_prefixes(out, of.prefixes.as_slice())?;
    push_flat_core(out, &of.core)
}

#[cycle(flat)]
fn push_flat_core(out: &mut String, core: &Core) -> Result<(), Memory>
    ensures { OnOk result (string_bytes out.new
        ≡ string_bytes out.old ++ (core_layout core.now).flat) }
{
    match core {
        Core::Inline(body) => push_flat_body(out, body),
        core => push(out, core_word(core)),
    }
}

fn push_flat_names(out: &mut String, names: &[Named]) -> Result<(), Memory>
    ensures { OnOk result (string_bytes out.new
        ≡ string_bytes out.old ++ flat_entries (map named_entry names.now)) }
{
    let [first, others @ ..] = names else {
        return Ok(());
    };
    push(out, first.name.as_str())?;
    for named in others {
        push(out, ", ")?;
        push(out, named.name.as_str())?;
    }
    Ok(())
}

// Types that differ in their notes at most.
ghost use Rattle.std.specs.Prelude.{◌≡◌, ◌&&◌};
ghost use Rattle.std.specs.Str.{bytes_eq};
ghost use Rattle.idl_tree.specs.Same.{same_type, same_core, same_body, same_fields, same_names, same_prefixes};

use crate::trees::{Body, Core, Field, Named, Prefix, TypeRef};

/// Whether two types are the same, notes not counted: their prefixes are equal and their cores are
/// the same. Types by name are the same where the names are equal; structs in place where the names
/// and the types of their fields are, in order; enums in place where their names are, in order. It
/// takes no memory.
#[cycle(same)]
pub fn same_type(one: &TypeRef, other: &TypeRef) -> bool
    ensures { result ≡ same_type one.now other.now }
{
    same_prefixes(one.prefixes.as_slice(), other.prefixes.as_slice())
        && same_core(&one.core, &other.core)
}

/// Whether two cores are the same, as `same_type` says. It takes no memory.
#[cycle(same)]
pub fn same_core(one: &Core, other: &Core) -> bool
    ensures { result ≡ same_core one.now other.now }
{
    match (one, other) {
        (Core::Bool, Core::Bool) => true,
        (Core::Int, Core::Int) => true,
        (Core::Float, Core::Float) => true,
        (Core::Str, Core::Str) => true,
        (Core::Object, Core::Object) => true,
        (Core::Name(a), Core::Name(b)) => a.as_str() == b.as_str(),
        (Core::Inline(a), Core::Inline(b)) => same_body(a, b),
        _ => false,
    }
}

/// Whether two bodies are the same, as `same_type` says. It takes no memory.
#[cycle(same)]
pub fn same_body(one: &Body, other: &Body) -> bool
    ensures { result ≡ same_body one.now other.now }
{
    match (one, other) {
        (Body::Struct { fields: a, .. }, Body::Struct { fields: b, .. }) => {
            same_fields(a.as_slice(), b.as_slice())
        }
        (Body::Enum { names: a, .. }, Body::Enum { names: b, .. }) => {
            same_names(a.as_slice(), b.as_slice())
        }
        _ => false,
    }
}

#[cycle(same)]
fn same_fields(one: &[Field], other: &[Field]) -> bool
    ensures { result ≡ same_fields one.now other.now }
{
    if one.len() != other.len() {
        return false;
    }
    for (i, field) in one.iter().enumerate() {
        if !same_field(field, &other[i]) {
            return false;
        }
    }
    true
}

#[cycle(same)]
fn same_field(one: &Field, other: &Field) -> bool
    ensures { result ≡ (bytes_eq one.now.name other.now.name && same_type one.now.of other.now.of) }
{
    one.name.as_str() == other.name.as_str() && same_type(&one.of, &other.of)
}

fn same_names(one: &[Named], other: &[Named]) -> bool
    ensures { result ≡ same_names one.now other.now }
{
    if one.len() != other.len() {
        return false;
    }
    for (i, named) in one.iter().enumerate() {
        if named.name.as_str() != other[i].name.as_str() {
            return false;
        }
    }
    true
}

/// Whether two lists of prefixes are equal.
pub fn same_prefixes(one: &[Prefix], other: &[Prefix]) -> bool
    ensures { result ≡ same_prefixes one.now other.now }
{
    if one.len() != other.len() {
        return false;
    }
    for (i, prefix) in one.iter().enumerate() {
        if *prefix != other[i] {
            return false;
        }
    }
    true
}

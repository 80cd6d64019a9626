// Whether names stand in types.
ghost use Rattle.std.specs.Prelude.{◌≡◌};
ghost use Rattle.std.specs.List.{list_any};
ghost use Rattle.idl_tree.specs.declared.trees.Field.{Field};
ghost use Rattle.sheet_rules.specs.Types.{core_has_name, body_has_name, type_has_name};
ghost use Rattle.sheet_rules.specs.Views.{core_of};

use crate::types::Kind;
use idl_tree::{Body, Core, Field};

/// Whether the name of a type stands in it, brackets in place included.
pub fn has_name(kind: &Kind<'_>) -> bool
    ensures { result ≡ core_has_name (core_of kind.now) }
{
    match kind {
        Kind::Used(_, core) => core_has_name(core),
        Kind::Body(body) => body_has_name(body),
        Kind::Int => false,
        Kind::Str => false,
    }
}

#[cycle(names)]
fn core_has_name(core: &Core) -> bool
    ensures { result ≡ core_has_name core.now }
{
    match core {
        Core::Name(_) => true,
        Core::Inline(body) => body_has_name(body),
        _ => false,
    }
}

#[cycle(names)]
fn body_has_name(body: &Body) -> bool
    ensures { result ≡ body_has_name body.now }
{
    match body {
        Body::Struct { fields, .. } => fields_have_name(fields.as_slice()),
        Body::Enum { .. } => false,
    }
}

#[cycle(names)]
fn fields_have_name(fields: &[Field]) -> bool
    ensures { result ≡ list_any (λ (field : Field). type_has_name field.of) fields.now }
{
    for field in fields {
        if core_has_name(&field.of.core) {
            return true;
        }
    }
    false
}

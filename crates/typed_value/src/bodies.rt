// The body behind a core, and its fields.
ghost use Rattle.std.specs.Prelude.{◌≡◌};
ghost use Rattle.std.specs.Option.{option_copied};
ghost use Rattle.typed_value.specs.Bodies.{body_of, fields_of, names_of, fields_or_none, names_or_none};

use idl_tree::{Body, Checked, Core, Field, Named};

/// The body of a type by name or in place.
pub fn body_of<'a>(scope: &'a Checked, core: &'a Core) -> Option<&'a Body>
    ensures { option_copied result ≡ body_of scope.now core.now }
{
    match core {
        Core::Name(name) => scope.lookup_type(name.as_str()),
        Core::Inline(body) => Some(body),
        _ => None,
    }
}

/// The fields of a struct, and none of an enum.
pub fn fields_of(body: &Body) -> &[Field]
    ensures { result.now ≡ fields_of body.now }
{
    match body {
        Body::Struct { fields, .. } => fields.as_slice(),
        Body::Enum { .. } => &[],
    }
}

/// The names of an enum, and none of a struct.
pub fn names_of(body: &Body) -> &[Named]
    ensures { result.now ≡ names_of body.now }
{
    match body {
        Body::Struct { .. } => &[],
        Body::Enum { names, .. } => names.as_slice(),
    }
}

/// The fields of a core that is a struct.
pub fn core_fields<'a>(scope: &'a Checked, core: &'a Core) -> &'a [Field]
    ensures { result.now ≡ fields_or_none (body_of scope.now core.now) }
{
    match body_of(scope, core) {
        Some(body) => fields_of(body),
        None => &[],
    }
}

/// The names of a core that is an enum.
pub fn core_names<'a>(scope: &'a Checked, core: &'a Core) -> &'a [Named]
    ensures { result.now ≡ names_or_none (body_of scope.now core.now) }
{
    match body_of(scope, core) {
        Some(body) => names_of(body),
        None => &[],
    }
}

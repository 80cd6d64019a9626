// The types of references.
ghost use Rattle.std.specs.Prelude.{◌≡◌, option_map};
ghost use Rattle.std.specs.Option.{option_copied};
ghost use Rattle.sheet_rules.specs.Types.{typ_body, struct_of, struct_fields};
ghost use Rattle.sheet_rules.specs.Settings.{field_typ, path_typ, register_typ, ref_typ};
ghost use Rattle.sheet_rules.specs.Views.{typ_of, setting_of};
ghost use Rattle.sheet_rules.specs.declared.forms.Ref.TheVariants.{Param};

use crate::forms::{Ref, Register};
use crate::standings::Standing;
use crate::types::{Typ, body_typ, prefixes_of, type_in};
use crate::values::kind_body;
use idl_tree::{Body, Checked, Field};

/// The body of a type that is one, in place or by name.
pub fn typ_body<'x>(interfaces: &'x [Checked], of: &Typ<'x>) -> Option<&'x Body>
    ensures { option_copied result ≡ typ_body interfaces.now (typ_of of.now) }
{
    if !prefixes_of(&of.kind).is_empty() {
        return None;
    }
    match interfaces.get(of.scope as usize) {
        Some(scope) => kind_body(scope, &of.kind),
        None => None,
    }
}

/// The fields of a type that is a struct, in place or by name.
pub fn struct_fields<'x>(interfaces: &'x [Checked], of: &Typ<'x>) -> Option<&'x [Field]>
    ensures { option_copied result ≡ struct_fields interfaces.now (typ_of of.now) }
{
    match typ_body(interfaces, of) {
        Some(Body::Struct { fields, .. }) => Some(fields.as_slice()),
        Some(Body::Enum { .. }) => None,
        None => None,
    }
}

/// The type of the field at a place of a struct.
pub fn field_typ<'x>(interfaces: &'x [Checked], place: u64, of: &Typ<'x>) -> Option<Typ<'x>>
    ensures { option_map typ_of result ≡ field_typ interfaces.now place (typ_of of.now) }
{
    match struct_fields(interfaces, of) {
        Some(fields) => match fields.get(place as usize) {
            Some(field) => Some(type_in(of.scope, &field.of)),
            None => None,
        },
        None => None,
    }
}

/// The type to which a path of places leads, from a struct to its field and on: it passes through no
/// optional, array or map.
pub fn path_typ<'x>(interfaces: &'x [Checked], path: &[u64], from: &Typ<'x>) -> Option<Typ<'x>>
    ensures { option_map typ_of result ≡ path_typ interfaces.now path.now (typ_of from.now) }
{
    let mut at = *from;
    for place in path {
        match field_typ(interfaces, *place, &at) {
            Some(of) => at = of,
            None => return None,
        }
    }
    Some(at)
}

/// The type of the register at a place.
pub fn register_typ<'x>(registers: &'x [Register], place: u64) -> Option<Typ<'x>>
    ensures { option_map typ_of result ≡ register_typ registers.now place }
{
    match registers.get(place as usize) {
        Some(register) => Some(type_in(register.scope, &register.of)),
        None => None,
    }
}

/// The type of what a reference refers to.
pub fn ref_typ<'x>(to: &Ref, standing: &Standing<'x>) -> Option<Typ<'x>>
    ensures { option_map typ_of result ≡ ref_typ (setting_of standing.now) to.now }
{
    match to {
        Ref::Param(path) => param_typ(path.as_slice(), standing),
        Ref::Register(place, path) => match register_typ(standing.registers, *place) {
            Some(of) => path_typ(standing.interfaces, path.as_slice(), &of),
            None => None,
        },
        Ref::Item(path) => match &standing.item {
            Some(of) => path_typ(standing.interfaces, path.as_slice(), of),
            None => None,
        },
    }
}

fn param_typ<'x>(path: &[u64], standing: &Standing<'x>) -> Option<Typ<'x>>
    ensures { option_map typ_of result ≡ ref_typ (setting_of standing.now) (Param path.now) }
{
    if path.is_empty() {
        return None;
    }
    path_typ(
        standing.interfaces,
        path,
        &body_typ(standing.scope, standing.input),
    )
}

// The fields of a struct, read and shown.
ghost use Rattle.std.specs.Prelude.{◌≡◌, true, is_some, IfOk};
ghost use Rattle.serde_json.specs.Find.{as_object};
ghost use Rattle.idl_tree.specs.Form.{is_struct};
ghost use Rattle.typed_value.specs.Gives.{GivesFields, IsOfField};
ghost use Rattle.typed_value.specs.OfType.{is_of_body};
ghost use Rattle.typed_value.specs.Reads.{ReadsBody, first_unread};

use crate::bodies::fields_of;
use crate::faults::{FieldFault, ValueFault};
use crate::reading::read_field;
use crate::vals::Val;
use idl_tree::{Body, Checked, Field};
use link_port::{List, Text, Value};
use std::alloc::Global;

/// Reads a JSON object by a struct, as `read` does. `First` names the first field, in declared order,
/// that does not read; all fields before it read.
pub fn read_fields(
    alloc: Global,
    scope: &Checked,
    body: &Body,
    json: &Value,
) -> Result<Val, FieldFault>
    requires of_struct { is_struct body.now ≡ true }
    requires of_object { is_some (as_object json.now) ≡ true }
    ensures reads { GivesFields result (ReadsBody scope.now body.now json.now)
        (first_unread scope.now body.now json.now) }
    ensures of_body { IfOk result (λ value. is_of_body scope.now body.now value ≡ true) }
{
    let fields = fields_of(body);
    let mut values = List::with_room(alloc, fields.len() as u64)?;
    for field in fields {
        match read_field(alloc, scope, field, json.inner()) {
            Ok(value) => values.push(value)?,
            Err(ValueFault::Unfit) => return Err(unread(alloc, field)),
            Err(ValueFault::Memory) => return Err(FieldFault::Memory),
        }
    }
    Ok(Val::Struct(values))
}

// The fault of a field that does not read.
fn unread(alloc: Global, field: &Field) -> FieldFault
    ensures { IsOfField result field.now.name }
{
    match Text::of(alloc, field.name.as_str()) {
        Ok(name) => FieldFault::First(name),
        Err(_) => FieldFault::Memory,
    }
}

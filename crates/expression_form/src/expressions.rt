// Expressions by names, formed by types.
ghost use Rattle.std.specs.Prelude.{◌≡◌, Option, Some, map, option_and_then, option_map};
ghost use Rattle.typed_value.specs.Gives.{Gives};
ghost use Rattle.typed_value.specs.Reads.{reader};
ghost use Rattle.sheet_rules.specs.Types.{array_part, struct_fields};
ghost use Rattle.typed_value.specs.declared.vals.Val.{Val};
ghost use Rattle.sheet_rules.specs.declared.forms.Ref.{Ref};
ghost use Rattle.sheet_rules.specs.declared.forms.Expr.{Expr};
ghost use Rattle.sheet_rules.specs.Views.{typ_of, prefixes_of, core_of, setting_of};
ghost use Rattle.expression_form.specs.Forms.{Forms};
ghost use Rattle.expression_form.specs.Expressions.{made, fitting, has_length, with_length, with_part, part_fits, constant, only_if, absent, field_made, is_field, are_fields, struct_made, items_made, sum_made, at_made, both, makers_of, names_of};

use crate::faults::Unformed;
use crate::grounds::Ground;
use crate::references::ref_formed;
use expression_draft::{ExprDraft, RefDraft, two_boxes};
use idl_tree::{Checked, Core, Field};
use link_port::{Box, List, Text, Value};
use sheet_rules::{
    Expr, Kind, Ref, Typ, array_part, fits, int_typ, is_int, map_part, string_typ, struct_fields,
    type_in, without_maybe,
};
use std::alloc::Global;
use typed_value::{Val, ValueFault, begins_with_maybe, read_body, read_by};

/// The expression that a draft is by a type. `IllTyped` comes exactly where it does not give the
/// type.
#[cycle(making)]
pub fn made<'x>(
    alloc: Global,
    draft: &ExprDraft,
    ground: &Ground<'x>,
    of: &Typ<'x>,
) -> Result<Expr, Unformed>
    ensures { Forms result (made (setting_of ground.now.standing) draft.now (typ_of of.now)) }
{
    match draft {
        ExprDraft::From(to) => Ok(Expr::From(fitting(alloc, to, ground, of)?)),
        ExprDraft::Const(json) => {
            Ok(Expr::Const(constant(alloc, json, ground.standing.interfaces, of)?))
        }
        ExprDraft::Struct(members) => {
            struct_by(alloc, members.as_slice(), ground, &without_maybe(of))
        }
        ExprDraft::Items(drafts) => {
            items_by(alloc, drafts.as_slice(), ground, &without_maybe(of))
        }
        ExprDraft::Sum(one, other) => {
            if !is_int(&without_maybe(of)) {
                return Err(Unformed::IllTyped);
            }
            let number = int_typ(ground.standing.scope);
            let one = made(alloc, one, ground, &number);
            let other = made(alloc, other, ground, &number);
            sum_made(both(alloc, one, other))
        }
        ExprDraft::Length(to) => {
            if !is_int(&without_maybe(of)) {
                return Err(Unformed::IllTyped);
            }
            Ok(Expr::Length(with_length(alloc, to, ground)?))
        }
        ExprDraft::At(to, key, other) => {
            let key = made(alloc, key, ground, &string_typ(ground.standing.scope));
            let other = made(alloc, other, ground, of);
            at_made(with_part(alloc, to, ground, of), both(alloc, key, other))
        }
    }
}

#[cycle(making)]
fn struct_by<'x>(
    alloc: Global,
    members: &[(Text, ExprDraft)],
    ground: &Ground<'x>,
    of: &Typ<'x>,
) -> Result<Expr, Unformed>
    ensures { Forms result (option_and_then
        (struct_made of.now.scope (makers_of (setting_of ground.now.standing) members.now))
        (struct_fields ground.now.standing.interfaces.now (typ_of of.now))) }
{
    match struct_fields(ground.standing.interfaces, of) {
        Some(fields) => struct_made(alloc, members, ground, of.scope, fields),
        None => Err(Unformed::IllTyped),
    }
}

#[cycle(making)]
fn struct_made<'x>(
    alloc: Global,
    members: &[(Text, ExprDraft)],
    ground: &Ground<'x>,
    scope: u64,
    fields: &'x [Field],
) -> Result<Expr, Unformed>
    ensures { Forms result
        (struct_made scope (makers_of (setting_of ground.now.standing) members.now) fields.now) }
{
    if !are_fields(members, fields) {
        return Err(Unformed::IllTyped);
    }
    let mut exprs = List::with_room(alloc, fields.len() as u64)?;
    for field in fields {
        exprs.push(field_made(alloc, members, ground, scope, field)?)?;
    }
    Ok(Expr::Struct(exprs))
}

#[cycle(making)]
fn field_made<'x>(
    alloc: Global,
    members: &[(Text, ExprDraft)],
    ground: &Ground<'x>,
    scope: u64,
    field: &'x Field,
) -> Result<Expr, Unformed>
    ensures { Forms result
        (field_made scope (makers_of (setting_of ground.now.standing) members.now) field.now) }
{
    for member in members {
        if member.0.as_str() == field.name.as_str() {
            return made(alloc, &member.1, ground, &type_in(scope, &field.of));
        }
    }
    absent(field)
}

#[cycle(making)]
fn items_by<'x>(
    alloc: Global,
    drafts: &[ExprDraft],
    ground: &Ground<'x>,
    of: &Typ<'x>,
) -> Result<Expr, Unformed>
    ensures { Forms result (option_and_then
        (items_made (map (made (setting_of ground.now.standing)) drafts.now)) (array_part (typ_of of.now))) }
{
    match array_part(of) {
        Some(part) => items_made(alloc, drafts, ground, &part),
        None => Err(Unformed::IllTyped),
    }
}

#[cycle(making)]
fn items_made<'x>(
    alloc: Global,
    drafts: &[ExprDraft],
    ground: &Ground<'x>,
    of: &Typ<'x>,
) -> Result<Expr, Unformed>
    ensures { Forms result
        (items_made (map (made (setting_of ground.now.standing)) drafts.now) (typ_of of.now)) }
{
    let mut exprs = List::with_room(alloc, drafts.len() as u64)?;
    for draft in drafts {
        exprs.push(made(alloc, draft, ground, of)?)?;
    }
    Ok(Expr::Items(exprs))
}

// The sum of two numbers.
fn sum_made(parts: Result<(Box<Expr>, Box<Expr>), Unformed>) -> Result<Expr, Unformed>
    ensures { (one : Option Expr) → (other : Option Expr) → Forms parts (both one other)
        → Forms result (sum_made one other) }
{
    match parts {
        Ok((one, other)) => Ok(Expr::Sum(one, other)),
        Err(fault) => Err(fault),
    }
}

// What a map has at a key, or else another value.
fn at_made(
    to: Result<Ref, Unformed>,
    parts: Result<(Box<Expr>, Box<Expr>), Unformed>,
) -> Result<Expr, Unformed>
    ensures { (over : Option Ref) → (key : Option Expr) → (other : Option Expr) → Forms to over
        → Forms parts (both key other) → Forms result (at_made over key other) }
{
    match to {
        Ok(to) => match parts {
            Ok((key, other)) => Ok(Expr::At(to, key, other)),
            Err(fault) => {
                drop(to);
                Err(fault)
            }
        },
        Err(fault) => {
            drop(parts);
            Err(fault)
        }
    }
}

// Two expressions, where both are formed.
fn both(
    alloc: Global,
    one: Result<Expr, Unformed>,
    other: Result<Expr, Unformed>,
) -> Result<(Box<Expr>, Box<Expr>), Unformed>
    ensures { (x : Option Expr) → (y : Option Expr) → Forms one x → Forms other y
        → Forms result (both x y) }
{
    match one {
        Ok(one) => match other {
            Ok(other) => Ok(two_boxes(alloc, one, other)?),
            Err(fault) => {
                drop(one);
                Err(fault)
            }
        },
        Err(fault) => {
            drop(other);
            Err(fault)
        }
    }
}

// A reference whose type fits.
fn fitting<'x>(
    alloc: Global,
    to: &RefDraft,
    ground: &Ground<'x>,
    of: &Typ<'x>,
) -> Result<Ref, Unformed>
    ensures { Forms result (fitting (setting_of ground.now.standing) to.now (typ_of of.now)) }
{
    match ref_formed(alloc, to, ground) {
        Ok((to, from)) => ref_if(to, fits(&from, of)),
        Err(fault) => Err(fault),
    }
}

// A reference to an array or a map.
fn with_length(alloc: Global, to: &RefDraft, ground: &Ground<'_>) -> Result<Ref, Unformed>
    ensures { Forms result (with_length (setting_of ground.now.standing) to.now) }
{
    match ref_formed(alloc, to, ground) {
        Ok((to, from)) => ref_if(to, has_length(&from)),
        Err(fault) => Err(fault),
    }
}

fn has_length(of: &Typ<'_>) -> bool
    ensures { result ≡ has_length (typ_of of.now) }
{
    array_part(of).is_some() || map_part(of).is_some()
}

// A reference to a map whose values' type fits.
fn with_part<'x>(
    alloc: Global,
    to: &RefDraft,
    ground: &Ground<'x>,
    of: &Typ<'x>,
) -> Result<Ref, Unformed>
    ensures { Forms result (with_part (setting_of ground.now.standing) to.now (typ_of of.now)) }
{
    match ref_formed(alloc, to, ground) {
        Ok((to, from)) => ref_if(to, part_fits(&map_part(&from), of)),
        Err(fault) => Err(fault),
    }
}

fn ref_if(to: Ref, holds: bool) -> Result<Ref, Unformed>
    ensures { Forms result (only_if holds (Some to)) }
{
    if holds {
        return Ok(to);
    }
    drop(to);
    Err(Unformed::IllTyped)
}

fn part_fits<'x>(part: &Option<Typ<'x>>, of: &Typ<'x>) -> bool
    ensures { result ≡ part_fits (typ_of of.now) (option_map typ_of part.now) }
{
    match part {
        Some(part) => fits(part, of),
        None => false,
    }
}

// The value that JSON is by a type.
fn constant<'x>(
    alloc: Global,
    json: &Value,
    interfaces: &'x [Checked],
    of: &Typ<'x>,
) -> Result<Val, Unformed>
    ensures { Forms result (constant interfaces.now (typ_of of.now) json.now) }
{
    match interfaces.get(of.scope as usize) {
        Some(scope) => constant_in(alloc, json, scope, &of.kind),
        None => Err(Unformed::IllTyped),
    }
}

fn constant_in<'x>(
    alloc: Global,
    json: &Value,
    scope: &'x Checked,
    kind: &Kind<'x>,
) -> Result<Val, Unformed>
    ensures { Forms result (reader scope.now json.now (prefixes_of kind.now) (core_of kind.now)) }
{
    match kind {
        Kind::Used(prefixes, core) => formed(read_by(alloc, scope, prefixes, core, json)),
        Kind::Body(body) => formed(read_body(alloc, scope, body, json.inner())),
        Kind::Int => formed(read_by(alloc, scope, &[], &Core::Int, json)),
        Kind::Str => formed(read_by(alloc, scope, &[], &Core::Str, json)),
    }
}

fn formed(read: Result<Val, ValueFault>) -> Result<Val, Unformed>
    ensures { (found : Option Val) → Gives read found → Forms result found }
{
    match read {
        Ok(value) => Ok(value),
        Err(ValueFault::Unfit) => Err(Unformed::IllTyped),
        Err(ValueFault::Memory) => Err(Unformed::Memory),
    }
}

fn are_fields(members: &[(Text, ExprDraft)], fields: &[Field]) -> bool
    ensures { result ≡ are_fields fields.now (names_of members.now) }
{
    for member in members {
        if !is_field(member.0.as_str(), fields) {
            return false;
        }
    }
    true
}

fn is_field(name: &str, fields: &[Field]) -> bool
    ensures { result ≡ is_field fields.now name.now }
{
    for field in fields {
        if field.name.as_str() == name {
            return true;
        }
    }
    false
}

// What a field without a member is.
fn absent(field: &Field) -> Result<Expr, Unformed>
    ensures { Forms result (absent field.now) }
{
    if begins_with_maybe(field.of.prefixes.as_slice()) {
        Ok(Expr::Const(Val::Nothing))
    } else {
        Err(Unformed::IllTyped)
    }
}

// Which expressions give which types.
ghost use Rattle.std.specs.Prelude.{◌≡◌, map};
ghost use Rattle.sheet_rules.specs.Types.{array_part, passes, struct_fields};
ghost use Rattle.sheet_rules.specs.Gives.{gives, all_given, each_given, refers, has_length, has_part};
ghost use Rattle.sheet_rules.specs.Views.{typ_of, setting_of};

use crate::forms::{Expr, Ref};
use crate::paths::{ref_typ, struct_fields};
use crate::sameness::fits;
use crate::standings::Standing;
use crate::types::{
    Typ, array_part, int_typ, is_int, map_part, string_typ, type_in, without_maybe,
};
use crate::values::is_of_typ;
use idl_tree::Field;

/// Whether an expression gives a type.
#[cycle(gives)]
pub fn gives<'x>(expr: &Expr, standing: &Standing<'x>, of: &Typ<'x>) -> bool
    ensures { result ≡ gives (setting_of standing.now) expr.now (typ_of of.now) }
{
    match expr {
        Expr::From(to) => refers(to, standing, of),
        Expr::Const(value) => is_of_typ(value, standing.interfaces, of),
        Expr::Struct(exprs) => gives_struct(exprs.as_slice(), standing, &without_maybe(of)),
        Expr::Items(exprs) => gives_items(exprs.as_slice(), standing, &without_maybe(of)),
        Expr::Sum(one, other) => {
            is_int(&without_maybe(of))
                && gives(one, standing, &int_typ(standing.scope))
                && gives(other, standing, &int_typ(standing.scope))
        }
        Expr::Length(to) => is_int(&without_maybe(of)) && has_length(to, standing),
        Expr::At(to, key, other) => {
            has_part(to, standing, of)
                && gives(key, standing, &string_typ(standing.scope))
                && gives(other, standing, of)
        }
    }
}

#[cycle(gives)]
fn gives_struct<'x>(exprs: &[Expr], standing: &Standing<'x>, of: &Typ<'x>) -> bool
    ensures { result ≡ passes
        (λ fields. each_given of.now.scope fields (map (gives (setting_of standing.now)) exprs.now))
        (struct_fields standing.now.interfaces.now (typ_of of.now)) }
{
    match struct_fields(standing.interfaces, of) {
        Some(fields) => fields_given(exprs, standing, of.scope, fields),
        None => false,
    }
}

// Whether there is an expression for each field, which gives the field's type.
#[cycle(gives)]
fn fields_given<'x>(
    exprs: &[Expr],
    standing: &Standing<'x>,
    scope: u64,
    fields: &'x [Field],
) -> bool
    ensures { result
        ≡ each_given scope fields.now (map (gives (setting_of standing.now)) exprs.now) }
{
    if fields.len() != exprs.len() {
        return false;
    }
    for (i, expr) in exprs.iter().enumerate() {
        if !gives(expr, standing, &type_in(scope, &fields[i].of)) {
            return false;
        }
    }
    true
}

#[cycle(gives)]
fn gives_items<'x>(exprs: &[Expr], standing: &Standing<'x>, of: &Typ<'x>) -> bool
    ensures { result ≡ passes (all_given (map (gives (setting_of standing.now)) exprs.now))
        (array_part (typ_of of.now)) }
{
    match array_part(of) {
        Some(part) => all_give(exprs, standing, &part),
        None => false,
    }
}

#[cycle(gives)]
fn all_give<'x>(exprs: &[Expr], standing: &Standing<'x>, of: &Typ<'x>) -> bool
    ensures { result
        ≡ all_given (map (gives (setting_of standing.now)) exprs.now) (typ_of of.now) }
{
    for expr in exprs {
        if !gives(expr, standing, of) {
            return false;
        }
    }
    true
}

// Whether what is referred to has a type that fits.
fn refers<'x>(to: &Ref, standing: &Standing<'x>, of: &Typ<'x>) -> bool
    ensures { result ≡ refers (setting_of standing.now) to.now (typ_of of.now) }
{
    match ref_typ(to, standing) {
        Some(from) => fits(&from, of),
        None => false,
    }
}

// Whether an array or a map is referred to.
fn has_length(to: &Ref, standing: &Standing<'_>) -> bool
    ensures { result ≡ has_length (setting_of standing.now) to.now }
{
    match ref_typ(to, standing) {
        Some(from) => array_part(&from).is_some() || map_part(&from).is_some(),
        None => false,
    }
}

// Whether a map is referred to whose values' type fits.
fn has_part<'x>(to: &Ref, standing: &Standing<'x>, of: &Typ<'x>) -> bool
    ensures { result ≡ has_part (setting_of standing.now) to.now (typ_of of.now) }
{
    match ref_typ(to, standing) {
        Some(from) => match map_part(&from) {
            Some(part) => fits(&part, of),
            None => false,
        },
        None => false,
    }
}

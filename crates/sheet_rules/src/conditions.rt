// Which conditions and guards are typed.
ghost use Rattle.std.specs.Prelude.{◌≡◌, option_and_then, slice_get};
ghost use Rattle.std.specs.Option.{option_copied};
ghost use Rattle.idl_tree.specs.Faults.{error_named};
ghost use Rattle.sheet_rules.specs.Conditions.{cond_is_typed, guard_is_typed, gives_string, gives_int, gives_error, is_given, is_maybe, is_map};
ghost use Rattle.sheet_rules.specs.Views.{setting_of};

use crate::expressions::gives;
use crate::forms::{Cond, Expr, Guard, Ref};
use crate::paths::ref_typ;
use crate::standings::Standing;
use crate::types::{body_typ, int_typ, map_part, maybe_part, string_typ};
use idl_tree::{Body, Checked};

/// Whether a condition is typed.
#[cycle(conditions)]
pub fn cond_is_typed(cond: &Cond, standing: &Standing<'_>) -> bool
    ensures { result ≡ cond_is_typed (setting_of standing.now) cond.now }
{
    match cond {
        Cond::Equal(to, expr) => is_given(to, expr, standing),
        Cond::Less(one, other) => gives_int(one, standing) && gives_int(other, standing),
        Cond::Present(to) => is_maybe(to, standing),
        Cond::Has(to, key) => is_map(to, standing) && gives_string(key, standing),
        Cond::Not(inner) => cond_is_typed(inner, standing),
    }
}

/// Whether a guard is typed: its condition is, its error is one of the method's interface, and the
/// expression gives the error's struct.
pub fn guard_is_typed(guard: &Guard, standing: &Standing<'_>) -> bool
    ensures { result ≡ guard_is_typed (setting_of standing.now) guard.now }
{
    cond_is_typed(&guard.need, standing) && gives_error(guard.error.as_str(), &guard.with, standing)
}

/// Whether an expression gives `int`.
pub fn gives_int(expr: &Expr, standing: &Standing<'_>) -> bool
    ensures { result ≡ gives_int (setting_of standing.now) expr.now }
{
    gives(expr, standing, &int_typ(standing.scope))
}

/// Whether an expression gives `string`.
pub fn gives_string(expr: &Expr, standing: &Standing<'_>) -> bool
    ensures { result ≡ gives_string (setting_of standing.now) expr.now }
{
    gives(expr, standing, &string_typ(standing.scope))
}

// Whether the expression gives the type of what is referred to.
fn is_given(to: &Ref, expr: &Expr, standing: &Standing<'_>) -> bool
    ensures { result ≡ is_given (setting_of standing.now) to.now expr.now }
{
    match ref_typ(to, standing) {
        Some(of) => gives(expr, standing, &of),
        None => false,
    }
}

fn is_maybe(to: &Ref, standing: &Standing<'_>) -> bool
    ensures { result ≡ is_maybe (setting_of standing.now) to.now }
{
    match ref_typ(to, standing) {
        Some(of) => maybe_part(&of).is_some(),
        None => false,
    }
}

fn is_map(to: &Ref, standing: &Standing<'_>) -> bool
    ensures { result ≡ is_map (setting_of standing.now) to.now }
{
    match ref_typ(to, standing) {
        Some(of) => map_part(&of).is_some(),
        None => false,
    }
}

fn gives_error(error: &str, expr: &Expr, standing: &Standing<'_>) -> bool
    ensures { result ≡ gives_error (setting_of standing.now) error.now expr.now }
{
    match error_body(error, standing.interfaces, standing.scope) {
        Some(body) => gives(expr, standing, &body_typ(standing.scope, body)),
        None => false,
    }
}

/// The parameters of an error of the interface at a place.
pub fn error_body<'x>(error: &str, interfaces: &'x [Checked], scope: u64) -> Option<&'x Body>
    ensures { option_copied result
        ≡ option_and_then (error_named error.now) (slice_get interfaces.now scope) }
{
    match interfaces.get(scope as usize) {
        Some(interface) => interface.error_of(error),
        None => None,
    }
}

// Which bodies reach `float`.
ghost use Rattle.std.specs.Prelude.{◌≡◌};
ghost use Rattle.rule_form.specs.Floats.{reaches_float, in_scope, method_floats, error_floats};
ghost use Rattle.sheet_rules.specs.Views.{setting_of};

use idl_tree::{Body, Checked};
use sheet_rules::{Standing, error_body};

/// Whether a body reaches `float`: the type of one of its fields does, in finitely many steps from a
/// name to its type. It takes no memory.
pub fn reaches_float(scope: &Checked, body: &Body) -> bool
    ensures { result ≡ reaches_float scope.now body.now }
{
    scope.body_reaches_float(body)
}

// Whether a body of the method's interface reaches `float`.
fn in_scope(body: &Body, standing: &Standing<'_>) -> bool
    ensures { result ≡ in_scope (setting_of standing.now) body.now }
{
    match standing.interfaces.get(standing.scope as usize) {
        Some(scope) => reaches_float(scope, body),
        None => false,
    }
}

/// Whether the method's parameters or its reply reach `float`.
pub fn method_floats(standing: &Standing<'_>) -> bool
    ensures { result ≡ method_floats (setting_of standing.now) }
{
    in_scope(standing.input, standing) || in_scope(standing.output, standing)
}

/// Whether the parameters of an error of the method's interface reach `float`.
pub fn error_floats(error: &str, standing: &Standing<'_>) -> bool
    ensures { result ≡ error_floats (setting_of standing.now) error.now }
{
    match error_body(error, standing.interfaces, standing.scope) {
        Some(body) => in_scope(body, standing),
        None => false,
    }
}

// Which steps are typed.
ghost use Rattle.std.specs.Prelude.{◌≡◌, option_map, option_and_then};
ghost use Rattle.sheet_rules.specs.Types.{array_part, map_part};
ghost use Rattle.sheet_rules.specs.Settings.{register_typ};
ghost use Rattle.sheet_rules.specs.Steps.{step_is_typed, is_set, is_pushed, is_put, is_keyed};
ghost use Rattle.sheet_rules.specs.Views.{typ_of, setting_of};

use crate::conditions::gives_string;
use crate::expressions::gives;
use crate::forms::{Action, Expr, Register};
use crate::paths::register_typ;
use crate::standings::Standing;
use crate::types::{Typ, array_part, map_part};

/// Whether a step is typed, by the type of its register.
pub fn action_is_typed(action: &Action, standing: &Standing<'_>) -> bool
    ensures { result ≡ step_is_typed (setting_of standing.now) action.now }
{
    match action {
        Action::Set(place, expr) => is_set(*place, expr, standing),
        Action::Push(place, expr) => is_pushed(*place, expr, standing),
        Action::Put(place, key, expr) => {
            gives_string(key, standing) && is_put(*place, expr, standing)
        }
        Action::Drop(place, key) => gives_string(key, standing) && is_keyed(*place, standing),
    }
}

fn is_set(place: u64, expr: &Expr, standing: &Standing<'_>) -> bool
    ensures { result ≡ is_set (setting_of standing.now) place expr.now }
{
    match register_typ(standing.registers, place) {
        Some(of) => gives(expr, standing, &of),
        None => false,
    }
}

fn is_pushed(place: u64, expr: &Expr, standing: &Standing<'_>) -> bool
    ensures { result ≡ is_pushed (setting_of standing.now) place expr.now }
{
    match array_register(standing.registers, place) {
        Some(part) => gives(expr, standing, &part),
        None => false,
    }
}

fn is_put(place: u64, expr: &Expr, standing: &Standing<'_>) -> bool
    ensures { result ≡ is_put (setting_of standing.now) place expr.now }
{
    match map_register(standing.registers, place) {
        Some(part) => gives(expr, standing, &part),
        None => false,
    }
}

fn is_keyed(place: u64, standing: &Standing<'_>) -> bool
    ensures { result ≡ is_keyed (setting_of standing.now) place }
{
    map_register(standing.registers, place).is_some()
}

/// The type of the items of a register that is an array.
pub fn array_register<'x>(registers: &'x [Register], place: u64) -> Option<Typ<'x>>
    ensures { option_map typ_of result
        ≡ option_and_then array_part (register_typ registers.now place) }
{
    match register_typ(registers, place) {
        Some(of) => array_part(&of),
        None => None,
    }
}

/// The type of the values of a register that is a map.
pub fn map_register<'x>(registers: &'x [Register], place: u64) -> Option<Typ<'x>>
    ensures { option_map typ_of result
        ≡ option_and_then map_part (register_typ registers.now place) }
{
    match register_typ(registers, place) {
        Some(of) => map_part(&of),
        None => None,
    }
}

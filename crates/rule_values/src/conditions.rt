// Which conditions hold.
ghost use Rattle.std.specs.Prelude.{◌≡◌, Some, IfOk, IsSome};
ghost use Rattle.rule_values.specs.Meanings.{found};
ghost use Rattle.rule_values.specs.Conditions.{truth, equal_truth, less_truth, has_truth, compared, is_there};
ghost use Rattle.rule_values.specs.Equal.{TellsEquality};
ghost use Rattle.rule_values.specs.Scenes.{env_of};

use crate::expressions::{look_up, number, value};
use crate::references::find;
use crate::scenes::Scene;
use link_port::Memory;
use sheet_rules::{Cond, Expr, Ref};
use std::alloc::Global;
use typed_value::{Val, same};

/// Whether a condition holds, which has a meaning.
pub fn holds<'x>(alloc: Global, cond: &Cond, scene: &Scene<'x>) -> Result<bool, Memory>
    requires { IsSome (truth cond.now (env_of scene.now)) }
    ensures { IfOk result (λ b. truth cond.now (env_of scene.now) ≡ Some b) }
{
    match cond {
        Cond::Equal(to, expr) => is_equal(alloc, to, expr, scene),
        Cond::Less(one, other) => is_less(alloc, one, other, scene),
        Cond::Present(to) => match find(to, scene) {
            Some(val) => Ok(is_there(val)),
            None => unreachable!(),
        },
        Cond::Has(to, key) => has(alloc, to, key, scene),
        Cond::Not(cond) => match holds(alloc, cond, scene) {
            Ok(held) => Ok(!held),
            Err(stop) => Err(stop),
        },
    }
}

// Whether what is referred to is equal to a value. What is there already is not copied.
fn is_equal<'x>(alloc: Global, to: &Ref, expr: &Expr, scene: &Scene<'x>) -> Result<bool, Memory>
    requires { IsSome (equal_truth to.now expr.now (env_of scene.now)) }
    ensures { IfOk result (λ b. equal_truth to.now expr.now (env_of scene.now) ≡ Some b) }
{
    let one = match find(to, scene) {
        Some(val) => val,
        None => unreachable!(),
    };
    match expr {
        Expr::From(other) => match find(other, scene) {
            Some(val) => Ok(are_same(one, val)),
            None => unreachable!(),
        },
        Expr::Const(val) => Ok(are_same(one, val)),
        _ => {
            let other = value(alloc, expr, scene)?;
            Ok(are_same(one, &other))
        }
    }
}

// Whether two values are equal, whose numbers are whole.
fn are_same(one: &Val, other: &Val) -> bool
    requires { IsSome (compared one.now other.now) }
    ensures { compared one.now other.now ≡ Some result }
{
    same(one, other)
}

// Whether one number is less than another.
fn is_less<'x>(alloc: Global, one: &Expr, other: &Expr, scene: &Scene<'x>) -> Result<bool, Memory>
    requires { IsSome (less_truth one.now other.now (env_of scene.now)) }
    ensures { IfOk result (λ b. less_truth one.now other.now (env_of scene.now) ≡ Some b) }
{
    let x = number(value(alloc, one, scene)?);
    let y = number(value(alloc, other, scene)?);
    Ok(x < y)
}

// Whether there is a value.
fn is_there(val: &Val) -> bool
    ensures { result ≡ is_there val.now }
{
    match val {
        Val::Nothing => false,
        _ => true,
    }
}

// Whether the map that is referred to has a key.
fn has<'x>(alloc: Global, to: &Ref, key: &Expr, scene: &Scene<'x>) -> Result<bool, Memory>
    requires { IsSome (has_truth to.now key.now (env_of scene.now)) }
    ensures { IfOk result (λ b. has_truth to.now key.now (env_of scene.now) ≡ Some b) }
{
    let key = value(alloc, key, scene)?;
    Ok(look_up(to, key, scene).is_some())
}

/// The law that conditions compare values by equality: `same_val` is true exactly where two values are
/// equal.
pub fn conditions_compare_by_equality()
    ensures { TellsEquality }
{}

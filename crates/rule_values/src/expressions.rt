// The values of expressions.
ghost use Rattle.std.specs.Prelude.{◌≡◌, Some, IfOk, IsSome, map};
ghost use Rattle.std.specs.Option.{option_copied};
ghost use Rattle.rule_values.specs.Parts.{int_of};
ghost use Rattle.rule_values.specs.Meanings.{meaning, all_of, length_meaning, looked_up};
ghost use Rattle.typed_value.specs.declared.vals.Val.TheVariants.{Int};
ghost use Rattle.rule_values.specs.Scenes.{env_of};

use crate::parts::value_at;
use crate::references::find;
use crate::scenes::Scene;
use link_port::{List, Memory};
use sheet_rules::{Expr, Ref};
use std::alloc::Global;
use typed_value::{Val, copy};

/// The value of an expression, which has one.
#[cycle(values)]
pub fn value<'x>(alloc: Global, expr: &Expr, scene: &Scene<'x>) -> Result<Val, Memory>
    requires { IsSome (meaning expr.now (env_of scene.now)) }
    ensures { IfOk result (λ v. meaning expr.now (env_of scene.now) ≡ Some v) }
{
    match expr {
        Expr::From(to) => match find(to, scene) {
            Some(val) => copy(alloc, val),
            None => unreachable!(),
        },
        Expr::Const(val) => copy(alloc, val),
        Expr::Struct(exprs) => Ok(Val::Struct(values(alloc, exprs.as_slice(), scene)?)),
        Expr::Items(exprs) => Ok(Val::Items(values(alloc, exprs.as_slice(), scene)?)),
        Expr::Sum(one, other) => {
            let x = number(value(alloc, one, scene)?);
            let y = number(value(alloc, other, scene)?);
            Ok(Val::Int(x.saturating_add(y)))
        }
        Expr::Length(to) => Ok(Val::Int(length(to, scene))),
        Expr::At(to, key, other) => {
            let key = value(alloc, key, scene)?;
            match look_up(to, key, scene) {
                Some(val) => copy(alloc, val),
                None => value(alloc, other, scene),
            }
        }
    }
}

// The values of expressions, one after another.
#[cycle(values)]
fn values<'x>(alloc: Global, exprs: &[Expr], scene: &Scene<'x>) -> Result<List<Val>, Memory>
    requires { IsSome (all_of (map meaning exprs.now) (env_of scene.now)) }
    ensures { IfOk result (λ vs. all_of (map meaning exprs.now) (env_of scene.now) ≡ Some vs) }
{
    let mut vals = List::with_room(alloc, exprs.len() as u64)?;
    for expr in exprs {
        vals.push(value(alloc, expr, scene)?)?;
    }
    Ok(vals)
}

// The number that a value is.
pub fn number(val: Val) -> i64
    requires { IsSome (int_of val) }
    ensures { int_of val ≡ Some result }
{
    match val {
        Val::Int(number) => number,
        _ => unreachable!(),
    }
}

// The number of items or keys, held within the greatest number.
fn length(to: &Ref, scene: &Scene<'_>) -> i64
    requires { IsSome (length_meaning to.now (env_of scene.now)) }
    ensures { length_meaning to.now (env_of scene.now) ≡ Some (Int result) }
{
    let count = match find(to, scene) {
        Some(Val::Items(items)) => items.len(),
        Some(Val::Map(entries)) => entries.len(),
        _ => unreachable!(),
    };
    count.min(i64::MAX as u64) as i64
}

// What the map that is referred to has at a key, if anything.
pub fn look_up<'x>(to: &Ref, key: Val, scene: &Scene<'x>) -> Option<&'x Val>
    requires { IsSome (looked_up (env_of scene.now) to.now key) }
    ensures { looked_up (env_of scene.now) to.now key ≡ Some (option_copied result) }
{
    match (find(to, scene), key) {
        (Some(Val::Map(entries)), Val::Str(text)) => value_at(entries.as_slice(), text.as_str()),
        _ => unreachable!(),
    }
}

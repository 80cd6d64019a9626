// The steps of a rule whose values are made.
ghost use Rattle.std.specs.Prelude.{◌≡◌, Some, IsSome, IfOk};
ghost use Rattle.rule_values.specs.Parts.{text_of};
ghost use Rattle.rule_values.specs.Scenes.{env_of};
ghost use Rattle.sheet_step.specs.Registers as changes;
ghost use Rattle.sheet_step.specs.Undoing.{change_of};

use link_port::{Memory, Text};
use rule_values::{Scene, value};
use sheet_rules::{Action, Expr};
use std::alloc::Global;
use typed_value::Val;

/// What is done to a register.
#[derive(Drop)]
pub enum Deed {
    /// It becomes the value.
    Set(Val),
    /// The value is added at the array's end.
    Push(Val),
    /// The map has the value at the key.
    Put(Text, Val),
    /// The map does not have the key.
    Drop(Text),
}

/// What a rule's expressions see, outside a stream.
pub fn seen<'x>(parameters: &'x Val, registers: &'x [Val]) -> Scene<'x>
    ensures { env_of result ≡ changes.seen parameters.now registers.now }
{
    Scene {
        registers,
        parameters,
        item: None,
    }
}

/// The place of the register that a step changes, and what is done to it.
pub fn deed_of(
    alloc: Global,
    step: &Action,
    parameters: &Val,
    registers: &[Val],
) -> Result<(u64, Deed), Memory>
    requires { IsSome (changes.after_step parameters.now step.now registers.now) }
    ensures { IfOk result (λ made. changes.after_step parameters.now step.now registers.now
        ≡ changes.changed made.0 (change_of made.1) registers.now) }
{
    let scene = seen(parameters, registers);
    match step {
        Action::Set(place, expr) => Ok((*place, Deed::Set(value(alloc, expr, &scene)?))),
        Action::Push(place, expr) => Ok((*place, Deed::Push(value(alloc, expr, &scene)?))),
        Action::Put(place, key, expr) => {
            let (key, val) = pair(alloc, key, expr, &scene)?;
            Ok((*place, Deed::Put(key, val)))
        }
        Action::Drop(place, key) => Ok((*place, Deed::Drop(text(value(alloc, key, &scene)?)))),
    }
}

// A key and a value.
fn pair<'x>(
    alloc: Global,
    key: &Expr,
    expr: &Expr,
    scene: &Scene<'x>,
) -> Result<(Text, Val), Memory>
    requires { IsSome (changes.pair_made key.now expr.now (env_of scene.now)) }
    ensures { IfOk result (λ pair. changes.pair_made key.now expr.now (env_of scene.now) ≡ Some pair) }
{
    let key = text(value(alloc, key, scene)?);
    match value(alloc, expr, scene) {
        Ok(val) => Ok((key, val)),
        Err(stop) => {
            drop(key);
            Err(stop)
        }
    }
}

// The text that a value is.
fn text(val: Val) -> Text
    requires { IsSome (text_of val) }
    ensures { text_of val ≡ Some result }
{
    match val {
        Val::Str(text) => text,
        _ => unreachable!(),
    }
}

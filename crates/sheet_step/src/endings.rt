// What a request is answered with.
ghost use Rattle.std.specs.Prelude.{◌≡◌, ◌++◌, [], ◌∷◌, Some, IfOk, IsSome};
ghost use Rattle.rule_values.specs.Meanings.{meaning};
ghost use Rattle.rule_values.specs.Scenes.{env_of};
ghost use Rattle.sheet_step.specs.Step as told;

use crate::dones::Done;
use link_port::{List, Memory};
use rule_values::{Scene, find, value};
use sheet_rules::{Ending, Expr, Ref};
use std::alloc::Global;
use typed_value::Val;

/// What the outcome gives on the registers as they stand.
pub fn answer<'x>(alloc: Global, ending: &Ending, scene: &Scene<'x>) -> Result<Done, Memory>
    requires { IsSome (told.answer ending.now (env_of scene.now)) }
    ensures { IfOk result (λ done. told.answer ending.now (env_of scene.now) ≡ Some done) }
{
    match ending {
        Ending::Reply(expr) => Ok(Done::Replies(one(alloc, value(alloc, expr, scene)?)?)),
        Ending::Stream { over, each, last } => {
            Ok(Done::Replies(stream(alloc, items_at(over, scene), each, last, scene)?))
        }
        Ending::Upgrade { raw, reply } => Ok(Done::Upgrade {
            raw: *raw,
            parameters: value(alloc, reply, scene)?,
        }),
    }
}

// A list of one value.
fn one(alloc: Global, val: Val) -> Result<List<Val>, Memory>
    ensures { IfOk result (λ vals. vals ≡ val ∷ []) }
{
    let mut vals = List::new(alloc);
    vals.push(val)?;
    Ok(vals)
}

// The items of the array that is referred to.
fn items_at<'x>(over: &Ref, scene: &Scene<'x>) -> &'x [Val]
    requires { IsSome (told.items_found over.now (env_of scene.now)) }
    ensures { told.items_found over.now (env_of scene.now) ≡ Some result.now }
{
    match find(over, scene) {
        Some(Val::Items(items)) => items.as_slice(),
        _ => unreachable!(),
    }
}

// A reply for each item, and then the last one.
fn stream<'x>(
    alloc: Global,
    items: &'x [Val],
    each: &Expr,
    last: &Expr,
    scene: &Scene<'x>,
) -> Result<List<Val>, Memory>
    requires { IsSome (told.stream_replies items.now each.now last.now (env_of scene.now)) }
    ensures { IfOk result (λ vals. told.stream_replies items.now each.now last.now (env_of scene.now) ≡ Some vals) }
{
    let mut replies = List::with_room(alloc, items.len() as u64)?;
    for item in items {
        let here = Scene {
            registers: scene.registers,
            parameters: scene.parameters,
            item: Some(item),
        };
        replies.push(value(alloc, each, &here)?)?;
    }
    replies.push(value(alloc, last, scene)?)?;
    Ok(replies)
}

// Guards and steps.
ghost use Rattle.std.specs.Prelude.{◌≡◌};
ghost use Rattle.expression_draft.specs.Answers.{Gives};
ghost use Rattle.sheet_draft.specs.Rules.{guard_of, guard_in, step_of, step_in, set_in, push_in, put_in, drop_in};

use crate::drafts::{ActionDraft, GuardDraft};
use expression_draft::{Members, Misfit, next_cond, next_expr, next_text, whole};
use link_port::Value;
use std::alloc::Global;

/// Reads a guard.
pub fn read_guard(alloc: Global, value: Value) -> Result<GuardDraft, Misfit>
    ensures { Gives result (guard_of value) }
{
    match Members::of(value) {
        Some(mut members) => guard_in(alloc, &mut members),
        None => Err(Misfit::Unfit),
    }
}

#[tactic(auto, unfolding(crate::specs::Rules::guard_in))]
fn guard_in(alloc: Global, members: &mut Members) -> Result<GuardDraft, Misfit>
    ensures { Gives result (guard_in members.old) }
{
    let error = next_text(alloc, members, "else")?;
    let need = next_cond(alloc, members, "need")?;
    match next_expr(alloc, members, "with") {
        Ok(with) => whole(members, GuardDraft { need, error, with }),
        Err(misfit) => {
            drop((error, need));
            Err(misfit)
        }
    }
}

/// Reads a step.
pub fn read_step(alloc: Global, value: Value) -> Result<ActionDraft, Misfit>
    ensures { Gives result (step_of value) }
{
    match Members::of(value) {
        Some(mut members) => step_in(alloc, &mut members),
        None => Err(Misfit::Unfit),
    }
}

fn step_in(alloc: Global, members: &mut Members) -> Result<ActionDraft, Misfit>
    ensures { Gives result (step_in members.old) }
{
    if members.begins_with("set") {
        set_in(alloc, members)
    } else if members.begins_with("push") {
        push_in(alloc, members)
    } else if members.begins_with("key") {
        put_in(alloc, members)
    } else {
        drop_in(alloc, members)
    }
}

#[tactic(auto, unfolding(crate::specs::Rules::set_in))]
fn set_in(alloc: Global, members: &mut Members) -> Result<ActionDraft, Misfit>
    ensures { Gives result (set_in members.old) }
{
    let register = next_text(alloc, members, "set")?;
    let value = next_expr(alloc, members, "to")?;
    whole(members, ActionDraft::Set(register, value))
}

#[tactic(auto, unfolding(crate::specs::Rules::push_in))]
fn push_in(alloc: Global, members: &mut Members) -> Result<ActionDraft, Misfit>
    ensures { Gives result (push_in members.old) }
{
    let register = next_text(alloc, members, "push")?;
    let value = next_expr(alloc, members, "value")?;
    whole(members, ActionDraft::Push(register, value))
}

#[tactic(auto, unfolding(crate::specs::Rules::put_in))]
fn put_in(alloc: Global, members: &mut Members) -> Result<ActionDraft, Misfit>
    ensures { Gives result (put_in members.old) }
{
    let key = next_expr(alloc, members, "key")?;
    match next_text(alloc, members, "put") {
        Ok(register) => match next_expr(alloc, members, "value") {
            Ok(value) => whole(members, ActionDraft::Put(register, key, value)),
            Err(misfit) => {
                drop((register, key));
                Err(misfit)
            }
        },
        Err(misfit) => {
            drop(key);
            Err(misfit)
        }
    }
}

#[tactic(auto, unfolding(crate::specs::Rules::drop_in))]
fn drop_in(alloc: Global, members: &mut Members) -> Result<ActionDraft, Misfit>
    ensures { Gives result (drop_in members.old) }
{
    let register = next_text(alloc, members, "drop")?;
    let key = next_expr(alloc, members, "key")?;
    whole(members, ActionDraft::Drop(register, key))
}

// Steps by names, formed by the types of their registers.
ghost use Rattle.std.specs.Prelude.{◌≡◌, option_map};
ghost use Rattle.sheet_rules.specs.Types.{string_typ};
ghost use Rattle.sheet_rules.specs.Views.{typ_of, setting_of};
ghost use Rattle.sheet_draft.specs.declared.drafts.ActionDraft.TheVariants as draft;
ghost use Rattle.expression_form.specs.Forms.{Forms};
ghost use Rattle.sheet_rules.specs.declared.forms.Action.TheVariants as action;
ghost use Rattle.expression_form.specs.Expressions.{made};
ghost use Rattle.rule_form.specs.Conditions.{joined};
ghost use Rattle.rule_form.specs.Steps.{register_named, array_named, map_named, step_made};

use expression_draft::ExprDraft;
use expression_form::{Ground, Unformed, made};
use sheet_draft::ActionDraft;
use sheet_rules::{Action, Typ, array_part, map_part, register_typ, string_typ};
use std::alloc::Global;

/// The step that a draft is. `IllTyped` comes exactly where it is not typed.
pub fn step_made(
    alloc: Global,
    draft: &ActionDraft,
    ground: &Ground<'_>,
) -> Result<Action, Unformed>
    ensures { Forms result (step_made (setting_of ground.now.standing) draft.now) }
{
    match draft {
        ActionDraft::Set(name, expr) => set_made(alloc, name.as_str(), expr, ground),
        ActionDraft::Push(name, expr) => push_made(alloc, name.as_str(), expr, ground),
        ActionDraft::Put(name, key, expr) => put_made(alloc, name.as_str(), key, expr, ground),
        ActionDraft::Drop(name, key) => drop_made(alloc, name.as_str(), key, ground),
    }
}

fn set_made(
    alloc: Global,
    name: &str,
    expr: &ExprDraft,
    ground: &Ground<'_>,
) -> Result<Action, Unformed>
    ensures { Forms result (step_made (setting_of ground.now.standing) (draft.Set name.now expr.now)) }
{
    match register_named(name, ground) {
        Some((place, of)) => Ok(Action::Set(place, made(alloc, expr, ground, &of)?)),
        None => Err(Unformed::IllTyped),
    }
}

fn push_made(
    alloc: Global,
    name: &str,
    expr: &ExprDraft,
    ground: &Ground<'_>,
) -> Result<Action, Unformed>
    ensures { Forms result (step_made (setting_of ground.now.standing) (draft.Push name.now expr.now)) }
{
    match array_named(name, ground) {
        Some((place, of)) => Ok(Action::Push(place, made(alloc, expr, ground, &of)?)),
        None => Err(Unformed::IllTyped),
    }
}

fn put_made(
    alloc: Global,
    name: &str,
    key: &ExprDraft,
    expr: &ExprDraft,
    ground: &Ground<'_>,
) -> Result<Action, Unformed>
    ensures { Forms result (step_made (setting_of ground.now.standing) (draft.Put name.now key.now expr.now)) }
{
    match map_named(name, ground) {
        Some((place, of)) => put_at(alloc, place, &of, key, expr, ground),
        None => Err(Unformed::IllTyped),
    }
}

// The key and the value of an entry that a map gets.
fn put_at<'x>(
    alloc: Global,
    place: u64,
    of: &Typ<'x>,
    key: &ExprDraft,
    expr: &ExprDraft,
    ground: &Ground<'x>,
) -> Result<Action, Unformed>
    ensures { Forms result (joined (action.Put place)
        (made (setting_of ground.now.standing) key.now (string_typ ground.now.standing.scope))
        (made (setting_of ground.now.standing) expr.now (typ_of of.now))) }
{
    let key = made(alloc, key, ground, &string_typ(ground.standing.scope))?;
    match made(alloc, expr, ground, of) {
        Ok(value) => Ok(Action::Put(place, key, value)),
        Err(fault) => {
            drop(key);
            Err(fault)
        }
    }
}

fn drop_made(
    alloc: Global,
    name: &str,
    key: &ExprDraft,
    ground: &Ground<'_>,
) -> Result<Action, Unformed>
    ensures { Forms result (step_made (setting_of ground.now.standing) (draft.Drop name.now key.now)) }
{
    match map_named(name, ground) {
        Some((place, _)) => {
            let text = string_typ(ground.standing.scope);
            Ok(Action::Drop(place, made(alloc, key, ground, &text)?))
        }
        None => Err(Unformed::IllTyped),
    }
}

// The place and the type of the register of that name.
fn register_named<'x>(name: &str, ground: &Ground<'x>) -> Option<(u64, Typ<'x>)>
    ensures { option_map (λ found. (found.0, typ_of found.1)) result
        ≡ register_named ground.now.standing.registers.now name.now }
{
    match ground.register(name) {
        Some(place) => match register_typ(ground.standing.registers, place as u64) {
            Some(of) => Some((place as u64, of)),
            None => None,
        },
        None => None,
    }
}

// The place of the array of that name, and the type of its items.
fn array_named<'x>(name: &str, ground: &Ground<'x>) -> Option<(u64, Typ<'x>)>
    ensures { option_map (λ found. (found.0, typ_of found.1)) result
        ≡ array_named ground.now.standing.registers.now name.now }
{
    match register_named(name, ground) {
        Some((place, of)) => match array_part(&of) {
            Some(part) => Some((place, part)),
            None => None,
        },
        None => None,
    }
}

// The place of the map of that name, and the type of its values.
fn map_named<'x>(name: &str, ground: &Ground<'x>) -> Option<(u64, Typ<'x>)>
    ensures { option_map (λ found. (found.0, typ_of found.1)) result
        ≡ map_named ground.now.standing.registers.now name.now }
{
    match register_named(name, ground) {
        Some((place, of)) => match map_part(&of) {
            Some(part) => Some((place, part)),
            None => None,
        },
        None => None,
    }
}

// Conditions and guards by names, formed by types.
ghost use Rattle.std.specs.Prelude.{◌≡◌, Option, Some, option_map, IfOk};
ghost use Rattle.sheet_rules.specs.Types.{string_typ, map_part, maybe_part};
ghost use Rattle.sheet_rules.specs.Views.{typ_of, setting_of};
ghost use Rattle.sheet_rules.specs.declared.forms.Expr.{Expr};
ghost use Rattle.sheet_rules.specs.declared.forms.Cond.{Cond};
ghost use Rattle.sheet_rules.specs.declared.forms.Cond.TheVariants as cond;
ghost use Rattle.expression_form.specs.Expressions.{only_if, made};
ghost use Rattle.expression_form.specs.Forms.{Forms};
ghost use Rattle.rule_form.specs.Conditions.{joined, equal_made, less_made, present_made, has_made, cond_made, error_made, guard_made, guard_of};

use expression_draft::{CondDraft, ExprDraft, RefDraft};
use expression_form::{Ground, Unformed, made, ref_formed};
use link_port::{Box, Text};
use sheet_draft::GuardDraft;
use sheet_rules::{
    Cond, Expr, Guard, Ref, body_typ, error_body, int_typ, map_part, maybe_part, string_typ,
};
use std::alloc::Global;

/// The condition that a draft is. `IllTyped` comes exactly where it is not typed.
#[cycle(conditions)]
pub fn cond_made(alloc: Global, draft: &CondDraft, ground: &Ground<'_>) -> Result<Cond, Unformed>
    ensures { Forms result (cond_made (setting_of ground.now.standing) draft.now) }
{
    match draft {
        CondDraft::Equal(to, expr) => equal_made(alloc, to, expr, ground),
        CondDraft::Less(one, other) => less_made(alloc, one, other, ground),
        CondDraft::Present(to) => present_made(alloc, to, ground),
        CondDraft::Has(to, key) => has_made(alloc, to, key, ground),
        CondDraft::Not(inner) => not_made(alloc, cond_made(alloc, inner, ground)),
    }
}

fn equal_made(
    alloc: Global,
    to: &RefDraft,
    expr: &ExprDraft,
    ground: &Ground<'_>,
) -> Result<Cond, Unformed>
    ensures { Forms result (equal_made (setting_of ground.now.standing) to.now expr.now) }
{
    match ref_formed(alloc, to, ground) {
        Ok((to, of)) => match made(alloc, expr, ground, &of) {
            Ok(expr) => Ok(Cond::Equal(to, expr)),
            Err(fault) => {
                drop(to);
                Err(fault)
            }
        },
        Err(fault) => Err(fault),
    }
}

fn less_made(
    alloc: Global,
    one: &ExprDraft,
    other: &ExprDraft,
    ground: &Ground<'_>,
) -> Result<Cond, Unformed>
    ensures { Forms result (less_made (setting_of ground.now.standing) one.now other.now) }
{
    let number = int_typ(ground.standing.scope);
    let one = made(alloc, one, ground, &number)?;
    match made(alloc, other, ground, &number) {
        Ok(other) => Ok(Cond::Less(one, other)),
        Err(fault) => {
            drop(one);
            Err(fault)
        }
    }
}

fn present_made(alloc: Global, to: &RefDraft, ground: &Ground<'_>) -> Result<Cond, Unformed>
    ensures { Forms result (present_made (setting_of ground.now.standing) to.now) }
{
    match ref_formed(alloc, to, ground) {
        Ok((to, of)) => present_if(to, maybe_part(&of).is_some()),
        Err(fault) => Err(fault),
    }
}

fn present_if(to: Ref, holds: bool) -> Result<Cond, Unformed>
    ensures { Forms result (only_if holds (Some (cond.Present to))) }
{
    if holds {
        return Ok(Cond::Present(to));
    }
    drop(to);
    Err(Unformed::IllTyped)
}

fn has_made(
    alloc: Global,
    to: &RefDraft,
    key: &ExprDraft,
    ground: &Ground<'_>,
) -> Result<Cond, Unformed>
    ensures { Forms result (has_made (setting_of ground.now.standing) to.now key.now) }
{
    match ref_formed(alloc, to, ground) {
        Ok((to, of)) => has_if(alloc, to, map_part(&of).is_some(), key, ground),
        Err(fault) => Err(fault),
    }
}

fn has_if(
    alloc: Global,
    to: Ref,
    holds: bool,
    key: &ExprDraft,
    ground: &Ground<'_>,
) -> Result<Cond, Unformed>
    ensures { Forms result (only_if holds (option_map (cond.Has to)
        (made (setting_of ground.now.standing) key.now (string_typ ground.now.standing.scope)))) }
{
    if !holds {
        drop(to);
        return Err(Unformed::IllTyped);
    }
    match made(alloc, key, ground, &string_typ(ground.standing.scope)) {
        Ok(key) => Ok(Cond::Has(to, key)),
        Err(fault) => {
            drop(to);
            Err(fault)
        }
    }
}

fn not_made(alloc: Global, made: Result<Cond, Unformed>) -> Result<Cond, Unformed>
    ensures { (inner : Option Cond) → Forms made inner → Forms result (option_map cond.Not inner) }
{
    match made {
        Ok(inner) => Ok(Cond::Not(Box::new(alloc, inner)?)),
        Err(fault) => Err(fault),
    }
}

/// The guard that a draft is. `IllTyped` comes exactly where it is not typed.
pub fn guard_made(alloc: Global, draft: &GuardDraft, ground: &Ground<'_>) -> Result<Guard, Unformed>
    ensures { Forms result (guard_made (setting_of ground.now.standing) draft.now) }
{
    let need = cond_made(alloc, &draft.need, ground)?;
    match error_made(alloc, draft.error.as_str(), &draft.with, ground) {
        Ok(with) => guard_with(alloc, draft.error.as_str(), need, with),
        Err(fault) => {
            drop(need);
            Err(fault)
        }
    }
}

fn guard_with(alloc: Global, error: &str, need: Cond, with: Expr) -> Result<Guard, Unformed>
    ensures { Forms result (Some (guard_of error.now need with)) }
{
    match Text::of(alloc, error) {
        Ok(error) => Ok(Guard { need, error, with }),
        Err(_) => {
            drop((need, with));
            Err(Unformed::Memory)
        }
    }
}

// The parameters of an error of the method's interface.
fn error_made(
    alloc: Global,
    error: &str,
    expr: &ExprDraft,
    ground: &Ground<'_>,
) -> Result<Expr, Unformed>
    ensures { Forms result (error_made (setting_of ground.now.standing) error.now expr.now) }
{
    match error_body(error, ground.standing.interfaces, ground.standing.scope) {
        Some(body) => made(alloc, expr, ground, &body_typ(ground.standing.scope, body)),
        None => Err(Unformed::IllTyped),
    }
}

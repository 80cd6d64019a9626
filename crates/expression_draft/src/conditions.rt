// Conditions. They nest as deep as JSON does, 127 at most.
ghost use Rattle.std.specs.Prelude.{◌≡◌, Some, IfOk};
ghost use Rattle.expression_draft.specs.Answers.{Gives, GivesNext};
ghost use Rattle.expression_draft.specs.Expressions.{cond_of, cond_by, ref_and_expr, ref_and_expr_in};
ghost use Rattle.expression_draft.specs.Members.{named};
ghost use Rattle.expression_draft.specs.declared.forms.CondForm.TheVariants as form;

use crate::drafts::{CondDraft, ExprDraft, RefDraft};
use crate::expressions::{last_expr, two_exprs};
use crate::faults::Misfit;
use crate::forms::{CondForm, cond_named};
use crate::members::{Items, Members, sole_member};
use crate::references::{first_ref, read_ref, unfit};
use link_port::{Box, Value};
use std::alloc::Global;

/// Reads a condition.
#[cycle(conditions)]
pub fn read_cond(alloc: Global, value: Value) -> Result<CondDraft, Misfit>
    ensures { Gives result (cond_of value) }
{
    match sole_member(value) {
        Some((name, of)) => match cond_named(name.as_str()) {
            Some(form) => cond_by(alloc, form, of),
            None => Err(unfit(of)),
        },
        None => Err(Misfit::Unfit),
    }
}

// Reads a condition of this form.
#[cycle(conditions)]
fn cond_by(alloc: Global, form: CondForm, value: Value) -> Result<CondDraft, Misfit>
    ensures { Gives result (cond_by (Some form) value) }
{
    match form {
        CondForm::Equal => match ref_and_expr(alloc, value) {
            Ok((over, expr)) => Ok(CondDraft::Equal(over, expr)),
            Err(misfit) => Err(misfit),
        },
        CondForm::Less => match two_exprs(alloc, value) {
            Ok((one, other)) => Ok(CondDraft::Less(one, other)),
            Err(misfit) => Err(misfit),
        },
        CondForm::Present => Ok(CondDraft::Present(read_ref(alloc, value)?)),
        CondForm::Has => match ref_and_expr(alloc, value) {
            Ok((over, key)) => Ok(CondDraft::Has(over, key)),
            Err(misfit) => Err(misfit),
        },
        CondForm::Not => read_not(alloc, value),
    }
}

#[cycle(conditions)]
fn read_not(alloc: Global, value: Value) -> Result<CondDraft, Misfit>
    ensures { Gives result (cond_by (Some form.Not) value) }
{
    let inner = read_cond(alloc, value)?;
    Ok(CondDraft::Not(Box::new(alloc, inner)?))
}

/// Reads an array of a reference and an expression.
fn ref_and_expr(alloc: Global, value: Value) -> Result<(RefDraft, ExprDraft), Misfit>
    ensures { Gives result (ref_and_expr value) }
{
    match Items::of(value) {
        Some(items) => ref_and_expr_in(alloc, items),
        None => Err(Misfit::Unfit),
    }
}

// Reads two items as a reference and an expression.
fn ref_and_expr_in(alloc: Global, mut items: Items) -> Result<(RefDraft, ExprDraft), Misfit>
    ensures { Gives result (ref_and_expr_in items) }
{
    let over = first_ref(alloc, &mut items)?;
    match last_expr(alloc, items) {
        Ok(expr) => Ok((over, expr)),
        Err(misfit) => {
            drop(over);
            Err(misfit)
        }
    }
}

/// Reads the first member, which has this name, as a condition.
pub fn next_cond(alloc: Global, members: &mut Members, name: &str) -> Result<CondDraft, Misfit>
    ensures { GivesNext result members.new (named name.now cond_of members.old) }
{
    match members.next(name) {
        Some(value) => read_cond(alloc, value),
        None => Err(Misfit::Unfit),
    }
}

// Expressions: what gives a value. They nest as deep as JSON does, 127 at most.
ghost use Rattle.std.specs.Prelude.{◌≡◌, Some, IfOk};
ghost use Rattle.expression_draft.specs.Answers.{Gives, GivesNext};
ghost use Rattle.expression_draft.specs.Expressions.{expr_of, expr_by, exprs_of, members_of, two_exprs, two_in, last_expr, at_in};
ghost use Rattle.expression_draft.specs.Members.{named, first_item};
ghost use Rattle.expression_draft.specs.declared.drafts.ExprDraft.TheVariants as expr;
ghost use Rattle.expression_draft.specs.declared.forms.ExprForm.TheVariants as form;

use crate::drafts::{ExprDraft, RefDraft};
use crate::faults::Misfit;
use crate::forms::{ExprForm, expr_named};
use crate::members::{Items, Members, sole_item, sole_member};
use crate::references::{first_ref, read_ref, ref_by, unfit};
use link_port::{Box, List, Memory, Text, Value};
use std::alloc::Global;

/// Reads an expression.
#[cycle(expressions)]
pub fn read_expr(alloc: Global, value: Value) -> Result<ExprDraft, Misfit>
    ensures { Gives result (expr_of value) }
{
    match sole_member(value) {
        Some((name, of)) => match expr_named(name.as_str()) {
            Some(form) => expr_by(alloc, form, of),
            None => Err(unfit(of)),
        },
        None => Err(Misfit::Unfit),
    }
}

// Reads an expression of this form.
#[cycle(expressions)]
fn expr_by(alloc: Global, form: ExprForm, value: Value) -> Result<ExprDraft, Misfit>
    ensures { Gives result (expr_by (Some form) value) }
{
    match form {
        ExprForm::From(form) => Ok(ExprDraft::From(ref_by(alloc, form, value)?)),
        ExprForm::Const => Ok(ExprDraft::Const(value)),
        ExprForm::Struct => read_struct(alloc, value),
        ExprForm::Items => read_list(alloc, value),
        ExprForm::Sum => read_sum(alloc, value),
        ExprForm::Length => Ok(ExprDraft::Length(read_ref(alloc, value)?)),
        ExprForm::At => read_at(alloc, value),
    }
}

#[cycle(expressions)]
fn read_struct(alloc: Global, value: Value) -> Result<ExprDraft, Misfit>
    ensures { Gives result (expr_by (Some form.Struct) value) }
{
    match Members::of(value) {
        Some(members) => Ok(ExprDraft::Struct(read_members(alloc, members)?)),
        None => Err(Misfit::Unfit),
    }
}

// Reads members as expressions.
#[cycle(expressions)]
fn read_members(alloc: Global, mut members: Members) -> Result<List<(Text, ExprDraft)>, Misfit>
    ensures { Gives result (members_of members) }
{
    let mut read = List::new(alloc);
    while let Some((name, value)) = members.first() {
        let expr = read_expr(alloc, value)?;
        let name = Text::of(alloc, name.as_str())?;
        read.push((name, expr))?;
    }
    Ok(read)
}

#[cycle(expressions)]
fn read_list(alloc: Global, value: Value) -> Result<ExprDraft, Misfit>
    ensures { Gives result (expr_by (Some form.Items) value) }
{
    match Items::of(value) {
        Some(items) => Ok(ExprDraft::Items(read_items(alloc, items)?)),
        None => Err(Misfit::Unfit),
    }
}

// Reads items as expressions.
#[cycle(expressions)]
fn read_items(alloc: Global, mut items: Items) -> Result<List<ExprDraft>, Misfit>
    ensures { Gives result (exprs_of items) }
{
    let mut read = List::new(alloc);
    while let Some(value) = items.next() {
        let expr = read_expr(alloc, value)?;
        read.push(expr)?;
    }
    Ok(read)
}

#[cycle(expressions)]
fn read_sum(alloc: Global, value: Value) -> Result<ExprDraft, Misfit>
    ensures { Gives result (expr_by (Some form.Sum) value) }
{
    let (one, other) = two_exprs(alloc, value)?;
    Ok(sum(alloc, one, other)?)
}

/// Reads an array of two expressions.
#[cycle(expressions)]
pub fn two_exprs(alloc: Global, value: Value) -> Result<(ExprDraft, ExprDraft), Misfit>
    ensures { Gives result (two_exprs value) }
{
    match Items::of(value) {
        Some(items) => two_in(alloc, items),
        None => Err(Misfit::Unfit),
    }
}

// Reads two items as expressions.
#[cycle(expressions)]
fn two_in(alloc: Global, mut items: Items) -> Result<(ExprDraft, ExprDraft), Misfit>
    ensures { Gives result (two_in items) }
{
    let one = first_expr(alloc, &mut items)?;
    match last_expr(alloc, items) {
        Ok(other) => Ok((one, other)),
        Err(misfit) => {
            drop(one);
            Err(misfit)
        }
    }
}

// Reads the first item as an expression.
#[cycle(expressions)]
fn first_expr(alloc: Global, items: &mut Items) -> Result<ExprDraft, Misfit>
    ensures { GivesNext result items.new (first_item expr_of items.old) }
{
    match items.next() {
        Some(value) => read_expr(alloc, value),
        None => Err(Misfit::Unfit),
    }
}

/// Reads the only item as an expression.
#[cycle(expressions)]
pub fn last_expr(alloc: Global, items: Items) -> Result<ExprDraft, Misfit>
    ensures { Gives result (last_expr items) }
{
    match sole_item(items) {
        Some(value) => read_expr(alloc, value),
        None => Err(Misfit::Unfit),
    }
}

#[cycle(expressions)]
fn read_at(alloc: Global, value: Value) -> Result<ExprDraft, Misfit>
    ensures { Gives result (expr_by (Some form.At) value) }
{
    match Items::of(value) {
        Some(items) => at_in(alloc, items),
        None => Err(Misfit::Unfit),
    }
}

// Reads a reference and two expressions as a look-up.
#[cycle(expressions)]
fn at_in(alloc: Global, mut items: Items) -> Result<ExprDraft, Misfit>
    ensures { Gives result (at_in items) }
{
    let map = first_ref(alloc, &mut items)?;
    match two_in(alloc, items) {
        Ok((key, other)) => Ok(at(alloc, map, key, other)?),
        Err(misfit) => {
            drop(map);
            Err(misfit)
        }
    }
}

// A look-up.
fn at(alloc: Global, map: RefDraft, key: ExprDraft, other: ExprDraft) -> Result<ExprDraft, Memory>
    ensures { IfOk result (λ made. made ≡ expr.At map key other) }
{
    match two_boxes(alloc, key, other) {
        Ok((key, other)) => Ok(ExprDraft::At(map, key, other)),
        Err(stop) => {
            drop(map);
            Err(stop)
        }
    }
}

// A sum.
fn sum(alloc: Global, one: ExprDraft, other: ExprDraft) -> Result<ExprDraft, Memory>
    ensures { IfOk result (λ made. made ≡ expr.Sum one other) }
{
    match two_boxes(alloc, one, other) {
        Ok((one, other)) => Ok(ExprDraft::Sum(one, other)),
        Err(stop) => Err(stop),
    }
}

/// Two parts of an expression on the heap.
pub fn two_boxes<T: Drop>(alloc: Global, one: T, other: T) -> Result<(Box<T>, Box<T>), Memory>
    ensures { IfOk result (λ boxes. boxes ≡ (one, other)) }
{
    match Box::new(alloc, one) {
        Ok(one) => match Box::new(alloc, other) {
            Ok(other) => Ok((one, other)),
            Err(stop) => {
                drop(one);
                Err(stop)
            }
        },
        Err(stop) => {
            drop(other);
            Err(stop)
        }
    }
}

/// Reads the first member, which has this name, as an expression.
pub fn next_expr(alloc: Global, members: &mut Members, name: &str) -> Result<ExprDraft, Misfit>
    ensures { GivesNext result members.new (named name.now expr_of members.old) }
{
    match members.next(name) {
        Some(value) => read_expr(alloc, value),
        None => Err(Misfit::Unfit),
    }
}

// Which parts of a rule name a register that is not there.
ghost use Rattle.std.specs.Prelude.{◌≡◌};
ghost use Rattle.std.specs.List.{list_any};
ghost use Rattle.expression_draft.specs.declared.drafts.RefDraft.TheVariants as by_names;
ghost use Rattle.rule_form.specs.Misses.{is_missing, ref_misses, expr_misses, member_misses, cond_misses, guard_misses, step_misses, ending_misses};

use expression_draft::{CondDraft, ExprDraft, RefDraft};
use expression_form::Ground;
use link_port::Text;
use sheet_draft::{ActionDraft, EndingDraft, GuardDraft};

/// Whether an expression names a register that is not there.
#[cycle(missing)]
pub fn expr_misses(draft: &ExprDraft, ground: &Ground<'_>) -> bool
    ensures { result ≡ expr_misses ground.now.standing.registers.now draft.now }
{
    match draft {
        ExprDraft::From(to) => ref_misses(to, ground),
        ExprDraft::Const(_) => false,
        ExprDraft::Struct(members) => any_member_misses(members.as_slice(), ground),
        ExprDraft::Items(drafts) => any_misses(drafts.as_slice(), ground),
        ExprDraft::Sum(one, other) => expr_misses(one, ground) || expr_misses(other, ground),
        ExprDraft::Length(to) => ref_misses(to, ground),
        ExprDraft::At(to, key, other) => {
            ref_misses(to, ground) || expr_misses(key, ground) || expr_misses(other, ground)
        }
    }
}

#[cycle(missing)]
fn any_member_misses(members: &[(Text, ExprDraft)], ground: &Ground<'_>) -> bool
    ensures { result ≡ list_any (member_misses ground.now.standing.registers.now) members.now }
{
    for member in members {
        if expr_misses(&member.1, ground) {
            return true;
        }
    }
    false
}

#[cycle(missing)]
fn any_misses(drafts: &[ExprDraft], ground: &Ground<'_>) -> bool
    ensures { result ≡ list_any (expr_misses ground.now.standing.registers.now) drafts.now }
{
    for draft in drafts {
        if expr_misses(draft, ground) {
            return true;
        }
    }
    false
}

fn ref_misses(draft: &RefDraft, ground: &Ground<'_>) -> bool
    ensures { result ≡ ref_misses ground.now.standing.registers.now draft.now }
{
    match draft {
        RefDraft::Param(_) => false,
        RefDraft::Register(names) => first_misses(names.as_slice(), ground),
        RefDraft::Item(_) => false,
    }
}

fn first_misses(names: &[Text], ground: &Ground<'_>) -> bool
    ensures { result ≡ ref_misses ground.now.standing.registers.now (by_names.Register names.now) }
{
    match names {
        [name, ..] => is_missing(name, ground),
        [] => false,
    }
}

fn is_missing(name: &Text, ground: &Ground<'_>) -> bool
    ensures { result ≡ is_missing ground.now.standing.registers.now name.now }
{
    ground.register(name.as_str()).is_none()
}

/// Whether a condition names a register that is not there.
#[cycle(missing_in_conditions)]
pub fn cond_misses(draft: &CondDraft, ground: &Ground<'_>) -> bool
    ensures { result ≡ cond_misses ground.now.standing.registers.now draft.now }
{
    match draft {
        CondDraft::Equal(to, expr) => ref_misses(to, ground) || expr_misses(expr, ground),
        CondDraft::Less(one, other) => expr_misses(one, ground) || expr_misses(other, ground),
        CondDraft::Present(to) => ref_misses(to, ground),
        CondDraft::Has(to, key) => ref_misses(to, ground) || expr_misses(key, ground),
        CondDraft::Not(inner) => cond_misses(inner, ground),
    }
}

/// Whether a guard names a register that is not there.
pub fn guard_misses(draft: &GuardDraft, ground: &Ground<'_>) -> bool
    ensures { result ≡ guard_misses ground.now.standing.registers.now draft.now }
{
    cond_misses(&draft.need, ground) || expr_misses(&draft.with, ground)
}

/// Whether a step is of a register that is not there, or names one.
pub fn step_misses(draft: &ActionDraft, ground: &Ground<'_>) -> bool
    ensures { result ≡ step_misses ground.now.standing.registers.now draft.now }
{
    match draft {
        ActionDraft::Set(name, expr) => is_missing(name, ground) || expr_misses(expr, ground),
        ActionDraft::Push(name, expr) => is_missing(name, ground) || expr_misses(expr, ground),
        ActionDraft::Put(name, key, expr) => {
            is_missing(name, ground) || expr_misses(key, ground) || expr_misses(expr, ground)
        }
        ActionDraft::Drop(name, key) => is_missing(name, ground) || expr_misses(key, ground),
    }
}

/// Whether an outcome names a register that is not there.
pub fn ending_misses(draft: &EndingDraft, ground: &Ground<'_>) -> bool
    ensures { result ≡ ending_misses ground.now.standing.registers.now draft.now }
{
    match draft {
        EndingDraft::Reply(expr) => expr_misses(expr, ground),
        EndingDraft::Stream { over, each, last } => {
            ref_misses(over, ground) || expr_misses(each, ground) || expr_misses(last, ground)
        }
        EndingDraft::Upgrade { reply, .. } => expr_misses(reply, ground),
    }
}

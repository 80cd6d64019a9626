// Branches of a rule, formed in order up to the first refusal.
ghost use Rattle.std.specs.Prelude.{◌≡◌, Option};
ghost use Rattle.sheet_rules.specs.Views.{setting_of};
ghost use Rattle.expression_form.specs.Forms.{Forms};
ghost use Rattle.rule_form.specs.Answers.{Answers, or_fault};
ghost use Rattle.rule_form.specs.Rules.{when_formed, guard_formed, step_formed, outcome_formed, each_formed, branch_formed, branches_formed};
ghost use Rattle.rule_form.specs.declared.faults.RuleFault.TheVariants as fault;

use crate::conditions::{cond_made, guard_made};
use crate::faults::RuleFault;
use crate::floats::error_floats;
use crate::misses::{cond_misses, ending_misses, guard_misses, step_misses};
use crate::outcomes::outcome_made;
use crate::steps::step_made;
use expression_draft::CondDraft;
use expression_form::{Ground, Unformed};
use link_port::List;
use sheet_draft::{ActionDraft, BranchDraft, EndingDraft, GuardDraft, Spot};
use sheet_rules::{Action, Branch, Cond, Ending, Guard};
use std::alloc::Global;

/// The branches of a rule, in order. Their outcomes are of the kind of the first one.
pub fn branches_formed(
    alloc: Global,
    drafts: &[BranchDraft],
    ground: &Ground<'_>,
) -> Result<List<Branch>, RuleFault>
    ensures { Answers result (branches_formed (setting_of ground.now.standing) drafts.now) }
{
    match drafts {
        [] => Ok(List::new(alloc)),
        [first, ..] => branches_after(alloc, drafts, &first.outcome, ground),
    }
}

fn branches_after(
    alloc: Global,
    drafts: &[BranchDraft],
    first: &EndingDraft,
    ground: &Ground<'_>,
) -> Result<List<Branch>, RuleFault>
    ensures { Answers result
        (each_formed (branch_formed (setting_of ground.now.standing) first.now) 0 drafts.now) }
{
    let mut branches = List::with_room(alloc, drafts.len() as u64)?;
    for (b, draft) in drafts.iter().enumerate() {
        match branch_formed(alloc, draft, first, b as u64, ground) {
            Ok(branch) => branches.push(branch)?,
            Err(fault) => {
                drop(branches);
                return Err(fault);
            }
        }
    }
    Ok(branches)
}

// The branch of this number.
#[tactic(auto, unfolding(crate::specs::Rules::branch_formed))]
fn branch_formed(
    alloc: Global,
    draft: &BranchDraft,
    first: &EndingDraft,
    b: u64,
    ground: &Ground<'_>,
) -> Result<Branch, RuleFault>
    ensures { Answers result (branch_formed (setting_of ground.now.standing) first.now b draft.now) }
{
    let when = when_formed(alloc, &draft.when, b, ground)?;
    match guards_formed(alloc, draft.guards.as_slice(), b, ground) {
        Ok(guards) => match steps_formed(alloc, draft.steps.as_slice(), b, ground) {
            Ok(steps) => match outcome_formed(alloc, &draft.outcome, first, b, ground) {
                Ok(outcome) => Ok(Branch {
                    when,
                    guards,
                    steps,
                    outcome,
                }),
                Err(fault) => {
                    drop((when, guards, steps));
                    Err(fault)
                }
            },
            Err(fault) => {
                drop((when, guards));
                Err(fault)
            }
        },
        Err(fault) => {
            drop(when);
            Err(fault)
        }
    }
}

fn when_formed(
    alloc: Global,
    draft: &Option<CondDraft>,
    b: u64,
    ground: &Ground<'_>,
) -> Result<Option<Cond>, RuleFault>
    ensures { Answers result (when_formed (setting_of ground.now.standing) b draft.now) }
{
    match draft {
        Some(draft) => {
            let spot = Spot::When(b);
            if cond_misses(draft, ground) {
                return Err(RuleFault::NoSuchRegister(spot));
            }
            match cond_made(alloc, draft, ground) {
                Ok(cond) => Ok(Some(cond)),
                Err(Unformed::IllTyped) => Err(RuleFault::IllTyped(spot)),
                Err(Unformed::Memory) => Err(RuleFault::Memory),
            }
        }
        None => Ok(None),
    }
}

fn guards_formed(
    alloc: Global,
    drafts: &[GuardDraft],
    b: u64,
    ground: &Ground<'_>,
) -> Result<List<Guard>, RuleFault>
    ensures { Answers result (each_formed (guard_formed (setting_of ground.now.standing) b) 0 drafts.now) }
{
    let mut guards = List::with_room(alloc, drafts.len() as u64)?;
    for (k, draft) in drafts.iter().enumerate() {
        match guard_formed(alloc, draft, b, k as u64, ground) {
            Ok(guard) => guards.push(guard)?,
            Err(fault) => {
                drop(guards);
                return Err(fault);
            }
        }
    }
    Ok(guards)
}

fn guard_formed(
    alloc: Global,
    draft: &GuardDraft,
    b: u64,
    k: u64,
    ground: &Ground<'_>,
) -> Result<Guard, RuleFault>
    ensures { Answers result (guard_formed (setting_of ground.now.standing) b k draft.now) }
{
    let spot = Spot::Guard(b, k);
    if guard_misses(draft, ground) {
        return Err(RuleFault::NoSuchRegister(spot));
    }
    if error_floats(draft.error.as_str(), &ground.standing) {
        return Err(RuleFault::Float(spot));
    }
    typed_at(spot, guard_made(alloc, draft, ground))
}

fn steps_formed(
    alloc: Global,
    drafts: &[ActionDraft],
    b: u64,
    ground: &Ground<'_>,
) -> Result<List<Action>, RuleFault>
    ensures { Answers result (each_formed (step_formed (setting_of ground.now.standing) b) 0 drafts.now) }
{
    let mut steps = List::with_room(alloc, drafts.len() as u64)?;
    for (k, draft) in drafts.iter().enumerate() {
        match step_formed(alloc, draft, b, k as u64, ground) {
            Ok(step) => steps.push(step)?,
            Err(fault) => {
                drop(steps);
                return Err(fault);
            }
        }
    }
    Ok(steps)
}

fn step_formed(
    alloc: Global,
    draft: &ActionDraft,
    b: u64,
    k: u64,
    ground: &Ground<'_>,
) -> Result<Action, RuleFault>
    ensures { Answers result (step_formed (setting_of ground.now.standing) b k draft.now) }
{
    let spot = Spot::Step(b, k);
    if step_misses(draft, ground) {
        return Err(RuleFault::NoSuchRegister(spot));
    }
    typed_at(spot, step_made(alloc, draft, ground))
}

fn outcome_formed(
    alloc: Global,
    draft: &EndingDraft,
    first: &EndingDraft,
    b: u64,
    ground: &Ground<'_>,
) -> Result<Ending, RuleFault>
    ensures { Answers result (outcome_formed (setting_of ground.now.standing) first.now b draft.now) }
{
    let spot = Spot::Outcome(b);
    if ending_misses(draft, ground) {
        return Err(RuleFault::NoSuchRegister(spot));
    }
    typed_at(spot, outcome_made(alloc, first, draft, ground))
}

// What is formed, or that this spot is not typed.
fn typed_at<T: Drop>(spot: Spot, made: Result<T, Unformed>) -> Result<T, RuleFault>
    ensures { (found : Option T) → Forms made found
        → Answers result (or_fault (fault.IllTyped spot) found) }
{
    match made {
        Ok(made) => Ok(made),
        Err(Unformed::IllTyped) => Err(RuleFault::IllTyped(spot)),
        Err(Unformed::Memory) => Err(RuleFault::Memory),
    }
}

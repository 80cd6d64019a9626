// Rules.
ghost use Rattle.std.specs.Prelude.{◌≡◌, string_bytes};
ghost use Rattle.sheet_draft.specs.Answers.{Reads, Tells, at};
ghost use Rattle.sheet_draft.specs.Rules.{guard_of, step_of};
ghost use Rattle.sheet_draft.specs.Sheets.{draft_of_branch, branches_from, behind_when, branches_read, each, rule_of, rules_in, when_of};
ghost use Rattle.sheet_draft.specs.declared.places.Place.TheVariants as place;
ghost use Rattle.sheet_draft.specs.declared.places.Spot.TheVariants as spot;

use crate::branches::{BranchParts, branches_by};
use crate::drafts::{ActionDraft, BranchDraft, GuardDraft, RuleDraft};
use crate::faults::DraftFault;
use crate::names::at_last_dot;
use crate::outcomes::read_outcome;
use crate::outlines::Version;
use crate::places::{Place, Spot};
use crate::steps::{read_guard, read_step};
use expression_draft::{CondDraft, Items, Members, Misfit, read_cond};
use link_port::{List, Text, Value};
use std::alloc::Global;

/// Reads rules in order.
pub fn read_rules(
    alloc: Global,
    version: Version,
    mut members: Members,
) -> Result<List<RuleDraft>, DraftFault>
    ensures { Reads result (rules_in version members) }
{
    let mut rules = List::new(alloc);
    while let Some((name, value)) = members.first() {
        let rule = read_named(alloc, version, name, value)?;
        rules.push(rule)?;
    }
    Ok(rules)
}

// Reads a rule of this name.
fn read_named(
    alloc: Global,
    version: Version,
    name: String,
    value: Value,
) -> Result<RuleDraft, DraftFault>
    ensures { Reads result (rule_of version (string_bytes name) value) }
{
    match Text::of(alloc, name.as_str()) {
        Ok(name) => read_rule(alloc, version, name, value),
        Err(_) => {
            drop(value);
            Err(DraftFault::Memory)
        }
    }
}

// Reads a rule of this name.
#[tactic(auto, unfolding(crate::specs::Sheets::rule_of))]
fn read_rule(
    alloc: Global,
    version: Version,
    name: Text,
    value: Value,
) -> Result<RuleDraft, DraftFault>
    ensures { Reads result (rule_of version name value) }
{
    match at_last_dot(alloc, name.as_str()) {
        Ok((interface, method)) => match read_branches(alloc, version, &name, value) {
            Ok(branches) => Ok(RuleDraft {
                name,
                interface,
                method,
                branches,
            }),
            Err(fault) => Err(fault),
        },
        Err(misfit) => {
            drop(value);
            Err(in_rule(alloc, misfit, &name, Spot::Whole))
        }
    }
}

// Reads the branches of the rule of this name.
fn read_branches(
    alloc: Global,
    version: Version,
    name: &Text,
    value: Value,
) -> Result<List<BranchDraft>, DraftFault>
    ensures { Reads result (branches_read version name.now value) }
{
    match branches_by(alloc, version, value) {
        Ok(parts) => branches_from(alloc, name, parts),
        Err(misfit) => Err(in_rule(alloc, misfit, name, Spot::Whole)),
    }
}

// Tells that the form is left at this spot of the rule of this name.
fn in_rule(alloc: Global, misfit: Misfit, name: &Text, spot: Spot) -> DraftFault
    ensures { Tells misfit (place.Rule name.now spot) result }
{
    match misfit {
        Misfit::Unfit => match Text::of(alloc, name.as_str()) {
            Ok(name) => DraftFault::Shape {
                place: Place::Rule(name, spot),
            },
            Err(_) => DraftFault::Memory,
        },
        Misfit::Memory => DraftFault::Memory,
    }
}

fn branches_from(
    alloc: Global,
    name: &Text,
    parts: List<BranchParts>,
) -> Result<List<BranchDraft>, DraftFault>
    ensures { Reads result (branches_from name.now 0 parts) }
{
    let mut branches = List::new(alloc);
    for part in parts.into_vec() {
        let place = branches.len();
        let branch = read_branch(alloc, name, place, part)?;
        branches.push(branch)?;
    }
    Ok(branches)
}

// Reads the branch of this number.
#[tactic(auto, unfolding(crate::specs::Sheets::draft_of_branch))]
fn read_branch(
    alloc: Global,
    name: &Text,
    b: u64,
    parts: BranchParts,
) -> Result<BranchDraft, DraftFault>
    ensures { Reads result (draft_of_branch name.now b parts) }
{
    let BranchParts {
        when,
        guards,
        steps,
        outcome,
    } = parts;
    match read_when(alloc, name, b, when) {
        Ok(when) => read_behind(alloc, name, b, when, guards, steps, outcome),
        Err(fault) => {
            drop((guards, steps, outcome));
            Err(fault)
        }
    }
}

// Reads the guards, the steps and the outcome of a branch with this condition.
fn read_behind(
    alloc: Global,
    name: &Text,
    b: u64,
    when: Option<CondDraft>,
    guards: Items,
    steps: Items,
    outcome: Value,
) -> Result<BranchDraft, DraftFault>
    ensures { Reads result (behind_when name.now b when guards steps outcome) }
{
    match read_guards(alloc, name, b, guards) {
        Ok(guards) => match read_steps(alloc, name, b, steps) {
            Ok(steps) => match read_outcome(alloc, outcome) {
                Ok(outcome) => Ok(BranchDraft {
                    when,
                    guards,
                    steps,
                    outcome,
                }),
                Err(misfit) => {
                    drop((when, guards, steps));
                    Err(in_rule(alloc, misfit, name, Spot::Outcome(b)))
                }
            },
            Err(fault) => {
                drop((when, guards, outcome));
                Err(fault)
            }
        },
        Err(fault) => {
            drop((when, steps, outcome));
            Err(fault)
        }
    }
}

// Reads the condition of the branch of this number, where it has one.
fn read_when(
    alloc: Global,
    name: &Text,
    b: u64,
    when: Option<Value>,
) -> Result<Option<CondDraft>, DraftFault>
    ensures { Reads result (at (place.Rule name.now (spot.When b)) (when_of when)) }
{
    match when {
        Some(value) => match read_cond(alloc, value) {
            Ok(cond) => Ok(Some(cond)),
            Err(misfit) => Err(in_rule(alloc, misfit, name, Spot::When(b))),
        },
        None => Ok(None),
    }
}

fn read_guards(
    alloc: Global,
    name: &Text,
    b: u64,
    mut items: Items,
) -> Result<List<GuardDraft>, DraftFault>
    ensures { Reads result (each (λ k. place.Rule name.now (spot.Guard b k)) guard_of 0 items) }
{
    let mut guards = List::new(alloc);
    while let Some(value) = items.next() {
        match read_guard(alloc, value) {
            Ok(guard) => guards.push(guard)?,
            Err(misfit) => {
                let spot = Spot::Guard(b, guards.len());
                return Err(in_rule(alloc, misfit, name, spot));
            }
        }
    }
    Ok(guards)
}

fn read_steps(
    alloc: Global,
    name: &Text,
    b: u64,
    mut items: Items,
) -> Result<List<ActionDraft>, DraftFault>
    ensures { Reads result (each (λ k. place.Rule name.now (spot.Step b k)) step_of 0 items) }
{
    let mut steps = List::new(alloc);
    while let Some(value) = items.next() {
        match read_step(alloc, value) {
            Ok(step) => steps.push(step)?,
            Err(misfit) => {
                let spot = Spot::Step(b, steps.len());
                return Err(in_rule(alloc, misfit, name, spot));
            }
        }
    }
    Ok(steps)
}

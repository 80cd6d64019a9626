// Branches of rules, by their members.
ghost use Rattle.std.specs.Prelude.{◌≡◌};
ghost use Rattle.expression_draft.specs.Answers.{Gives, GivesNext};
ghost use Rattle.sheet_draft.specs.Outlines.{branches_by};
ghost use Rattle.sheet_draft.specs.Rules.{branch_of, branches_in, items_named, parts_in, parts_of};
ghost use Rattle.serde_json.specs.Data.{array};
ghost use Rattle.sheet_draft.specs.declared.outlines.Version.TheVariants as version;

use crate::outlines::Version;
use expression_draft::{Items, Members, Misfit, whole};
use link_port::{List, Value};
use std::alloc::Global;

/// The members of a branch. Guards and steps that are absent are empty.
#[derive(Drop)]
pub struct BranchParts {
    /// `when`
    pub when: Option<Value>,
    /// `guards`
    pub guards: Items,
    /// `steps`
    pub steps: Items,
    /// `outcome`
    pub outcome: Value,
}

/// The branches of a rule: in version 1 it is a branch itself, in version 2 an array of them.
pub fn branches_by(
    alloc: Global,
    version: Version,
    value: Value,
) -> Result<List<BranchParts>, Misfit>
    ensures { Gives result (branches_by version value) }
{
    match version {
        Version::One => one_branch(alloc, value),
        Version::Two => match Items::of(value) {
            Some(items) => some_branches(alloc, items),
            None => Err(Misfit::Unfit),
        },
    }
}

fn one_branch(alloc: Global, value: Value) -> Result<List<BranchParts>, Misfit>
    ensures { Gives result (branches_by version.One value) }
{
    let branch = branch_of(alloc, true, value)?;
    let mut branches = List::new(alloc);
    branches.push(branch)?;
    Ok(branches)
}

// At least one branch.
fn some_branches(alloc: Global, items: Items) -> Result<List<BranchParts>, Misfit>
    ensures { Gives result (branches_by version.Two (array items)) }
{
    if items.is_empty() {
        Err(Misfit::Unfit)
    } else {
        branches_in(alloc, items)
    }
}

fn branches_in(alloc: Global, mut items: Items) -> Result<List<BranchParts>, Misfit>
    ensures { Gives result (branches_in items) }
{
    let mut branches = List::new(alloc);
    while let Some(value) = items.next() {
        let branch = branch_of(alloc, items.is_empty(), value)?;
        branches.push(branch)?;
    }
    Ok(branches)
}

// A branch. The last has no condition, and each other has one.
fn branch_of(alloc: Global, is_last: bool, value: Value) -> Result<BranchParts, Misfit>
    ensures { Gives result (branch_of is_last value) }
{
    let parts = parts_of(alloc, value)?;
    if parts.when.is_none() == is_last {
        Ok(parts)
    } else {
        drop(parts);
        Err(Misfit::Unfit)
    }
}

fn parts_of(alloc: Global, value: Value) -> Result<BranchParts, Misfit>
    ensures { Gives result (parts_of value) }
{
    match Members::of(value) {
        Some(mut members) => parts_in(alloc, &mut members),
        None => Err(Misfit::Unfit),
    }
}

#[tactic(auto, unfolding(crate::specs::Rules::parts_in))]
fn parts_in(alloc: Global, members: &mut Members) -> Result<BranchParts, Misfit>
    ensures { Gives result (parts_in members.old) }
{
    let guards = next_items(alloc, members, "guards")?;
    match members.next("outcome") {
        Some(outcome) => match next_items(alloc, members, "steps") {
            Ok(steps) => {
                let when = members.optional("when");
                let parts = BranchParts {
                    when,
                    guards,
                    steps,
                    outcome,
                };
                whole(members, parts)
            }
            Err(misfit) => {
                drop((guards, outcome));
                Err(misfit)
            }
        },
        None => {
            drop(guards);
            Err(Misfit::Unfit)
        }
    }
}

// The items of the first member, which is an array of this name; none where it has another name.
fn next_items(alloc: Global, members: &mut Members, name: &str) -> Result<Items, Misfit>
    ensures { GivesNext result members.new (items_named name.now members.old) }
{
    match members.optional(name) {
        Some(value) => match Items::of(value) {
            Some(items) => Ok(items),
            None => Err(Misfit::Unfit),
        },
        None => Ok(Items::none(alloc)),
    }
}

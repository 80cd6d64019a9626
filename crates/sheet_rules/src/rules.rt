// Which branches and rules are typed.
ghost use Rattle.std.specs.Prelude.{◌≡◌, option_map, option_and_then, slice_get};
ghost use Rattle.std.specs.List.{list_all};
ghost use Rattle.idl_tree.specs.Faults.{method_named};
ghost use Rattle.sheet_rules.specs.Conditions.{guard_is_typed};
ghost use Rattle.sheet_rules.specs.Steps.{step_is_typed};
ghost use Rattle.sheet_rules.specs.Rules.{when_is_typed, branch_is_typed, has_one_way, one_kind, is_of_kind, method_setting, rule_is_typed};
ghost use Rattle.sheet_rules.specs.Views.{setting_of};

use crate::actions::action_is_typed;
use crate::conditions::{cond_is_typed, guard_is_typed};
use crate::forms::{Action, Branch, Cond, Guard, Register, Rule};
use crate::outcomes::{ending_is_typed, same_kind};
use crate::standings::Standing;
use idl_tree::{Body, Checked};

/// Whether a rule is typed: its method is there, each of its branches is typed, and their outcomes are of
/// one kind.
pub fn rule_is_typed(rule: &Rule, interfaces: &[Checked], registers: &[Register]) -> bool
    ensures { result ≡ rule_is_typed interfaces.now registers.now rule.now }
{
    match method_of(rule.method.as_str(), interfaces, rule.interface) {
        Some((input, output)) => {
            let standing = standing(interfaces, registers, rule.interface, input, output);
            branches_are_typed(rule.branches.as_slice(), &standing)
                && are_of_one_kind(rule.branches.as_slice())
        }
        None => false,
    }
}

/// Whether a branch is typed: its condition, guards, steps and outcome are.
pub fn branch_is_typed(branch: &Branch, standing: &Standing<'_>) -> bool
    ensures { result ≡ branch_is_typed (setting_of standing.now) branch.now }
{
    when_is_typed(&branch.when, standing)
        && guards_are_typed(branch.guards.as_slice(), standing)
        && steps_are_typed(branch.steps.as_slice(), standing)
        && ending_is_typed(&branch.outcome, standing)
}

/// Whether there is a branch, the last has no condition, and every other has one.
pub fn has_one_way(branches: &[Branch]) -> bool
    ensures { result ≡ has_one_way branches.now }
{
    let mut rest = branches;
    loop {
        match rest {
            [] => return false,
            [last] => return last.when.is_none(),
            [first, behind @ ..] => {
                if first.when.is_none() {
                    return false;
                }
                rest = behind;
            }
        }
    }
}

/// What a method's rule is typed by.
pub fn standing<'x>(
    interfaces: &'x [Checked],
    registers: &'x [Register],
    scope: u64,
    input: &'x Body,
    output: &'x Body,
) -> Standing<'x>
    ensures { setting_of result
        ≡ method_setting interfaces.now registers.now scope (input.now, output.now) }
{
    Standing {
        interfaces,
        registers,
        scope,
        input,
        output,
        item: None,
    }
}

/// The parameters and the reply of a method of the interface at a place.
pub fn method_of<'x>(
    method: &str,
    interfaces: &'x [Checked],
    scope: u64,
) -> Option<(&'x Body, &'x Body)>
    ensures { option_map (λ bodies. (bodies.0.now, bodies.1.now)) result
        ≡ option_and_then (method_named method.now) (slice_get interfaces.now scope) }
{
    match interfaces.get(scope as usize) {
        Some(interface) => interface.method(method),
        None => None,
    }
}

fn branches_are_typed(branches: &[Branch], standing: &Standing<'_>) -> bool
    ensures { result ≡ list_all (branch_is_typed (setting_of standing.now)) branches.now }
{
    for branch in branches {
        if !branch_is_typed(branch, standing) {
            return false;
        }
    }
    true
}

fn are_of_one_kind(branches: &[Branch]) -> bool
    ensures { result ≡ one_kind branches.now }
{
    match branches {
        [] => true,
        [first, rest @ ..] => are_of_kind(rest, first),
    }
}

fn are_of_kind(branches: &[Branch], first: &Branch) -> bool
    ensures { result ≡ list_all (is_of_kind first.now) branches.now }
{
    for branch in branches {
        if !same_kind(&first.outcome, &branch.outcome) {
            return false;
        }
    }
    true
}

fn when_is_typed(when: &Option<Cond>, standing: &Standing<'_>) -> bool
    ensures { result ≡ when_is_typed (setting_of standing.now) when.now }
{
    match when {
        Some(cond) => cond_is_typed(cond, standing),
        None => true,
    }
}

fn guards_are_typed(guards: &[Guard], standing: &Standing<'_>) -> bool
    ensures { result ≡ list_all (guard_is_typed (setting_of standing.now)) guards.now }
{
    for guard in guards {
        if !guard_is_typed(guard, standing) {
            return false;
        }
    }
    true
}

fn steps_are_typed(steps: &[Action], standing: &Standing<'_>) -> bool
    ensures { result ≡ list_all (step_is_typed (setting_of standing.now)) steps.now }
{
    for step in steps {
        if !action_is_typed(step, standing) {
            return false;
        }
    }
    true
}

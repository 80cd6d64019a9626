// One rule on one request.
ghost use Rattle.std.specs.Prelude.{◌≡◌, ◌≤◌, [], true, length, List, option_map, Some, IsSome, IfOk, OnOk, OnErr};
ghost use Rattle.std.specs.Prelude.{vec_capacity};
ghost use Rattle.sheet_step.specs.Levels as limits;
ghost use Rattle.sheet_step.specs.Registers as changes;
ghost use Rattle.sheet_step.specs.Step as told;
ghost use Rattle.sheet_step.specs.Undoing.{all_undone};

use crate::acts::act;
use crate::backs::{Undo, undo_all};
use crate::choices::{choose, refusal};
use crate::deeds::seen;
use crate::dones::Done;
use crate::endings::answer;
use crate::levels::{Depth, are_level, are_within, is_within, next_depth};
use crate::registers::Registers;
use link_port::{Memory, Text};
use rule_values::value;
use sheet_rules::{Action, Branch, Guard, Rule};
use std::alloc::Global;
use std::string::String;
use typed_value::Val;

/// Runs a rule of an interface on a sheet's registers, with the parameters of a call. After a refusal, too
/// many levels and want of memory the registers are as before.
pub fn step(
    alloc: Global,
    interface: &str,
    rule: &Rule,
    parameters: &Val,
    registers: &mut Registers,
) -> Result<Done, Memory>
    requires { IsSome (told.step interface.now rule.now.branches parameters.now registers.old) }
    ensures ok { IfOk result (λ done. told.step interface.now rule.now.branches parameters.now registers.old
        ≡ Some (done, registers.new)) }
    ensures memory { OnErr result (registers.new ≡ registers.old) }
{
    registers.run(alloc, interface, rule.branches.as_slice(), parameters)
}

/// Runs a rule's branches on registers. After want of memory the registers are as before.
pub fn run(
    alloc: Global,
    interface: &str,
    branches: &[Branch],
    parameters: &Val,
    registers: &mut Vec<Val>,
) -> Result<Done, Memory>
    requires within { limits.are_within registers.old.items ≡ true }
    requires meant { IsSome (told.step interface.now branches.now parameters.now registers.old.items) }
    ensures ok { IfOk result (λ done. told.step interface.now branches.now parameters.now registers.old.items
        ≡ Some (done, registers.new.items)) }
    ensures memory { OnErr result (registers.new.items ≡ registers.old.items) }
    ensures within { limits.are_within registers.new.items ≡ true }
{
    let branch = choose(alloc, branches, &seen(parameters, registers.as_slice()))?;
    let guards = branch.guards.as_slice();
    match refusal(alloc, guards, &seen(parameters, registers.as_slice()))? {
        Some(guard) => refuse(alloc, interface, guard, parameters, registers.as_slice()),
        None => pass(alloc, branch, parameters, registers),
    }
}

// The refusal of a guard that does not hold.
fn refuse(
    alloc: Global,
    interface: &str,
    guard: &Guard,
    parameters: &Val,
    registers: &[Val],
) -> Result<Done, Memory>
    requires within { limits.are_within registers.now ≡ true }
    requires meant { IsSome (told.refused interface.now guard.now (changes.seen parameters.now registers.now)) }
    ensures { IfOk result (λ done. option_map (λ refusal. told.leveled registers.now (refusal, registers.now))
        (told.refused interface.now guard.now (changes.seen parameters.now registers.now))
        ≡ Some (done, registers.now)) }
{
    let parameters = value(alloc, &guard.with, &seen(parameters, registers))?;
    if !is_within(&parameters) {
        drop(parameters);
        return Ok(Done::TooDeep);
    }
    match qualified(alloc, interface, guard.error.as_str()) {
        Ok(error) => Ok(Done::Refused { error, parameters }),
        Err(stop) => {
            drop(parameters);
            Err(stop)
        }
    }
}

// The qualified name of an error.
fn qualified(alloc: Global, interface: &str, error: &str) -> Result<Text, Memory>
    ensures { IfOk result (λ name. name ≡ told.qualified interface.now error.now) }
{
    let mut name = String::from_str(alloc, interface)?;
    name.push_str(".")?;
    name.push_str(error)?;
    Text::of(alloc, name.as_str())
}

// The steps and the outcome of a branch whose guards hold.
fn pass(
    alloc: Global,
    branch: &Branch,
    parameters: &Val,
    registers: &mut Vec<Val>,
) -> Result<Done, Memory>
    requires within { limits.are_within registers.old.items ≡ true }
    requires meant { IsSome (told.ran branch.now parameters.now registers.old.items) }
    ensures ok { IfOk result (λ done. option_map (told.leveled registers.old.items)
        (told.ran branch.now parameters.now registers.old.items) ≡ Some (done, registers.new.items)) }
    ensures memory { OnErr result (registers.new.items ≡ registers.old.items) }
    ensures within { limits.are_within registers.new.items ≡ true }
{
    let mut undos = Vec::with_capacity(alloc, branch.steps.len() as usize)?;
    match attempt(alloc, branch, parameters, registers, &mut undos) {
        Ok((done, depth)) => Ok(level(alloc, done, depth, undos, registers)),
        Err(stop) => {
            undo_all(alloc, undos, registers);
            Err(stop)
        }
    }
}

// What was done, where all levels are within the limit; else nothing.
fn level(
    alloc: Global,
    done: Done,
    depth: Depth,
    undos: Vec<Undo>,
    registers: &mut Vec<Val>,
) -> Done
    requires told { limits.Told depth registers.old.items }
    requires back { IsSome (all_undone undos.items registers.old.items) }
    ensures { (before : List Val) → all_undone undos.items registers.old.items ≡ Some before
        → told.leveled before (done, registers.old.items) ≡ (result, registers.new.items) }
{
    if are_level(depth, registers.as_slice()) && done_is_within(&done) {
        drop(undos);
        return done;
    }
    drop(done);
    undo_all(alloc, undos, registers);
    Done::TooDeep
}

// Whether what a request comes to has no more levels than it may.
fn done_is_within(done: &Done) -> bool
    ensures { result ≡ told.done_is_within done.now }
{
    match done {
        Done::Replies(vals) => are_within(vals.as_slice()),
        Done::Refused { parameters, .. } => is_within(parameters),
        Done::Upgrade { parameters, .. } => is_within(parameters),
        Done::TooDeep => true,
    }
}

// Does the steps and makes the outcome. What was done before want of memory can be undone too.
fn attempt(
    alloc: Global,
    branch: &Branch,
    parameters: &Val,
    registers: &mut Vec<Val>,
    undos: &mut Vec<Undo>,
) -> Result<(Done, Depth), Memory>
    requires within { limits.are_within registers.old.items ≡ true }
    requires none { undos.old.items ≡ [] }
    requires room { length branch.now.steps ≤ vec_capacity undos.old }
    requires meant { IsSome (told.ran branch.now parameters.now registers.old.items) }
    ensures ok { IfOk result (λ made. told.ran branch.now parameters.now registers.old.items
        ≡ Some (made.0, registers.new.items)) }
    ensures told { IfOk result (λ made. limits.Told made.1 registers.new.items) }
    ensures back { all_undone undos.new.items registers.new.items ≡ Some registers.old.items }
{
    let depth = act_all(alloc, branch.steps.as_slice(), parameters, registers, undos)?;
    let scene = seen(parameters, registers.as_slice());
    match answer(alloc, &branch.outcome, &scene) {
        Ok(done) => Ok((done, depth)),
        Err(stop) => Err(stop),
    }
}

// Does the steps, one after another.
fn act_all(
    alloc: Global,
    steps: &[Action],
    parameters: &Val,
    registers: &mut Vec<Val>,
    undos: &mut Vec<Undo>,
) -> Result<Depth, Memory>
    requires within { limits.are_within registers.old.items ≡ true }
    requires none { undos.old.items ≡ [] }
    requires room { length steps.now ≤ vec_capacity undos.old }
    requires meant { IsSome (changes.after_steps parameters.now steps.now registers.old.items) }
    ensures ok { OnOk result (changes.after_steps parameters.now steps.now registers.old.items
        ≡ Some registers.new.items) }
    ensures told { IfOk result (λ depth. limits.Told depth registers.new.items) }
    ensures back { all_undone undos.new.items registers.new.items ≡ Some registers.old.items }
{
    let mut depth = Depth::Within;
    for step in steps {
        let done = act(alloc, step, parameters, registers)?;
        depth = next_depth(depth, done.undo.place, done.small);
        undos.push_reserved(done.undo);
    }
    Ok(depth)
}

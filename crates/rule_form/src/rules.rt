// A whole rule, formed.
ghost use Rattle.std.specs.Prelude.{◌≡◌, IfOk};
ghost use Rattle.sheet_rules.specs.Views.{setting_of};
ghost use Rattle.sheet_rules.specs.Rules.{method_setting};
ghost use Rattle.expression_form.specs.Places.{Finds};
ghost use Rattle.rule_form.specs.Answers.{Answers};
ghost use Rattle.rule_form.specs.Rules.{interface_place, rule_formed, formed_in, rule_of};

use crate::branches::branches_formed;
use crate::faults::RuleFault;
use crate::floats::method_floats;
use expression_form::{Ground, Places};
use idl_tree::{Body, Checked};
use link_port::{List, Memory, Text};
use sheet_draft::{RuleDraft, Spot};
use sheet_rules::{Branch, Register, Rule, method_of, standing};
use std::alloc::Global;

/// The rule that a draft is, where `place` is that of its interface among the sheet's, or why it is
/// none. The first refusal is told: `NoSuchMethod`, then `Float` of the method; then for each branch
/// in order, and in it for the condition, each guard, each step and the outcome, `NoSuchRegister`,
/// `Float` of a guard's error, and `IllTyped`. An outcome of another kind than the first branch's is
/// not typed.
pub fn rule_formed(
    alloc: Global,
    draft: &RuleDraft,
    place: Option<u64>,
    interfaces: &[Checked],
    registers: &[Register],
    places: &Places,
) -> Result<Rule, RuleFault>
    requires place { place ≡ interface_place interfaces.now draft.now.interface }
    requires finds { Finds places.now.by_name registers.now }
    ensures { Answers result (rule_formed interfaces.now registers.now draft.now) }
{
    match place {
        Some(scope) => match method_of(draft.method.as_str(), interfaces, scope) {
            Some((input, output)) => {
                let ground = ground(interfaces, registers, scope, (input, output), places);
                formed_in(alloc, draft, &ground)
            }
            None => Err(RuleFault::NoSuchMethod),
        },
        None => Err(RuleFault::NoSuchMethod),
    }
}

// What a method's rule is formed by.
fn ground<'x>(
    interfaces: &'x [Checked],
    registers: &'x [Register],
    scope: u64,
    bodies: (&'x Body, &'x Body),
    places: &'x Places,
) -> Ground<'x>
    requires { Finds places.now.by_name registers.now }
    ensures { setting_of result.standing ≡ method_setting interfaces.now registers.now scope
        (bodies.entry.0.now, bodies.entry.1.now) }
{
    Ground {
        standing: standing(interfaces, registers, scope, bodies.0, bodies.1),
        places,
    }
}

/// The place of the interface of that name.
pub fn interface_place(name: &str, interfaces: &[Checked]) -> Option<u64>
    ensures { result ≡ interface_place interfaces.now name.now }
{
    match position_of(name, interfaces) {
        Some(place) => Some(place as u64),
        None => None,
    }
}

fn position_of(name: &str, interfaces: &[Checked]) -> Option<usize>
    ensures { result ≡ interface_place interfaces.now name.now }
{
    interfaces
        .iter()
        .position(|interface| interface.tree().name.as_str() == name)
}

fn formed_in(alloc: Global, draft: &RuleDraft, ground: &Ground<'_>) -> Result<Rule, RuleFault>
    ensures { Answers result (formed_in draft.now (setting_of ground.now.standing)) }
{
    if method_floats(&ground.standing) {
        return Err(RuleFault::Float(Spot::Whole));
    }
    let branches = branches_formed(alloc, draft.branches.as_slice(), ground)?;
    Ok(rule_of(alloc, draft, ground.standing.scope, branches)?)
}

fn rule_of(
    alloc: Global,
    draft: &RuleDraft,
    interface: u64,
    branches: List<Branch>,
) -> Result<Rule, Memory>
    ensures { IfOk result (λ rule. rule ≡ rule_of draft.now interface branches) }
{
    match names_of(alloc, draft) {
        Ok((name, method)) => Ok(Rule {
            name,
            interface,
            method,
            branches,
        }),
        Err(memory) => {
            drop(branches);
            Err(memory)
        }
    }
}

// The rule's name and its method's.
fn names_of(alloc: Global, draft: &RuleDraft) -> Result<(Text, Text), Memory>
    ensures { IfOk result (λ names. names ≡ (draft.now.name, draft.now.method)) }
{
    let name = Text::of(alloc, draft.name.as_str())?;
    let method = Text::of(alloc, draft.method.as_str())?;
    Ok((name, method))
}

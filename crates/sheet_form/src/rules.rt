// The rules of a sheet.
ghost use Rattle.std.specs.Prelude.{◌≡◌, ◌≢◌};
ghost use Rattle.expression_form.specs.Places.{Finds};
ghost use Rattle.sheet_form.specs.Answers.{Reads};
ghost use Rattle.sheet_form.specs.Rules.{rule_at, rule_fault, rules_of};
ghost use Rattle.sheet_form.specs.declared.faults.SheetFault.TheVariants as sheet;

use crate::faults::SheetFault;
use crate::interfaces::Interfaces;
use expression_form::Places;
use link_port::{List, Text};
use rule_form::{RuleFault, rule_formed};
use sheet_draft::{Place, RuleDraft};
use sheet_rules::{Register, Rule};
use std::alloc::Global;

/// Forms the rules of a sheet in order. The fault tells the first that is refused.
pub fn read_rules(
    alloc: Global,
    interfaces: &Interfaces,
    registers: &[Register],
    drafts: List<RuleDraft>,
) -> Result<List<Rule>, SheetFault>
    ensures { Reads result (rules_of interfaces.now registers.now drafts) }
{
    let places = match Places::of(alloc, registers) {
        Ok(places) => places,
        Err(_) => {
            drop(drafts);
            return Err(SheetFault::Memory);
        }
    };
    read_all(alloc, interfaces, registers, &places, drafts)
}

fn read_all(
    alloc: Global,
    interfaces: &Interfaces,
    registers: &[Register],
    places: &Places,
    drafts: List<RuleDraft>,
) -> Result<List<Rule>, SheetFault>
    requires { Finds places.now.by_name registers.now }
    ensures { Reads result (rules_of interfaces.now registers.now drafts) }
{
    let mut rules = List::new(alloc);
    for draft in drafts.into_vec() {
        match read_rule(alloc, interfaces, registers, places, draft) {
            Ok(rule) => rules.push(rule)?,
            Err(fault) => return Err(fault),
        }
    }
    Ok(rules)
}

fn read_rule(
    alloc: Global,
    interfaces: &Interfaces,
    registers: &[Register],
    places: &Places,
    draft: RuleDraft,
) -> Result<Rule, SheetFault>
    requires { Finds places.now.by_name registers.now }
    ensures { Reads result (rule_at interfaces.now registers.now draft) }
{
    let rule = form_rule(alloc, interfaces, registers, places, &draft);
    drop(draft);
    rule
}

fn form_rule(
    alloc: Global,
    interfaces: &Interfaces,
    registers: &[Register],
    places: &Places,
    draft: &RuleDraft,
) -> Result<Rule, SheetFault>
    requires { Finds places.now.by_name registers.now }
    ensures { Reads result (rule_at interfaces.now registers.now draft.now) }
{
    let place = interfaces.place(draft.interface.as_str());
    match rule_formed(
        alloc,
        draft,
        place,
        interfaces.as_slice(),
        registers,
        places,
    ) {
        Ok(rule) => Ok(rule),
        Err(fault) => Err(told(alloc, fault, &draft.name)),
    }
}

// The fault of the rule of this name, for which memory may be wanting.
fn told(alloc: Global, fault: RuleFault, rule: &Text) -> SheetFault
    ensures { (result ≢ sheet.Memory) → result ≡ rule_fault rule.now fault }
{
    match Text::of(alloc, rule.as_str()) {
        Ok(name) => named(fault, name),
        Err(_) => SheetFault::Memory,
    }
}

fn named(fault: RuleFault, name: Text) -> SheetFault
    ensures { result ≡ rule_fault name fault }
{
    match fault {
        RuleFault::NoSuchMethod => SheetFault::NoSuchMethod { rule: name },
        RuleFault::NoSuchRegister(spot) => SheetFault::NoSuchRegister {
            place: Place::Rule(name, spot),
        },
        RuleFault::Float(spot) => SheetFault::Float {
            place: Place::Rule(name, spot),
        },
        RuleFault::IllTyped(spot) => SheetFault::IllTyped {
            place: Place::Rule(name, spot),
        },
        RuleFault::Memory => {
            drop(name);
            SheetFault::Memory
        }
    }
}

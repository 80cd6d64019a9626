// Whole sheets.
ghost use Rattle.std.specs.Prelude.{◌≡◌, true, length, List, [], IfOk, Result};
ghost use Rattle.std.specs.List.{list_all, AllByRecursion};
ghost use Rattle.rule_form.specs.Floats.{rule_has_no_float};
ghost use Rattle.rule_form.specs.Rules.{interface_place};
ghost use Rattle.sheet_form.specs.Answers.{Reads, Same, done};
ghost use Rattle.sheet_form.specs.Kept.{AreRegisters, AreRules, IsFloatless, begins_typed, draft_goes_one_way, goes_one_way, initials_of, is_shallow};
ghost use Rattle.sheet_form.specs.RulePlaces.{is_within, rule_place};
ghost use Rattle.sheet_form.specs.Rules.{AreTyped};
ghost use Rattle.sheet_form.specs.Sheets.{draft_fault, sheet_behind, sheet_of, tables_of};
ghost use Rattle.sheet_form.specs.declared.faults.SheetFault.{SheetFault};
ghost use Rattle.sheet_form.specs.declared.sheets.Contents.{Contents};

use crate::faults::SheetFault;
use crate::interfaces::{Interfaces, read_interfaces};
use crate::registers::read_registers;
use crate::rule_places::RulePlaces;
use crate::rules::read_rules;
use idl_tree::Checked;
use link_port::{List, Memory, Text};
use sheet_draft::{DraftFault, Info, RegisterDraft, SheetDraft};
use sheet_rules::{Register, Rule};
use std::alloc::Global;
use std::marker::Model;

/// What a sheet says.
#[derive(Drop)]
pub struct Contents {
    /// Who made the service.
    pub info: Info,
    /// The interfaces in order.
    pub interfaces: Interfaces,
    /// The registers in order.
    pub registers: List<Register>,
    /// The rules in the byte order of their names.
    pub rules: List<Rule>,
}

/// A sheet whose rules are typed by its interfaces and registers, and whose registers begin with values of
/// their types. Contracts see what it says.
#[derive(Drop)]
pub struct Sheet {
    contents: Contents,
    // Where the rule of each method stands.
    places: RulePlaces,
}

impl Model for Sheet {
    ghost use Rattle.sheet_form.specs.Kept.{AreRegisters, AreRules};
    ghost use Rattle.sheet_form.specs.RulePlaces.{Tells};
    ghost use Rattle.sheet_form.specs.declared.sheets.Contents.{Contents};
    ghost use Rattle.sheet_form.specs.contracts.sheets.Contents as stored;

    ghost Value = { Contents };

    ghost coded = { stored.the_row.coded };

    ghost view = { λ sheet. sheet.contents };

    ghost invariant = { λ sheet.
        AreRegisters sheet.contents.interfaces sheet.contents.registers
        × AreRules sheet.contents.interfaces sheet.contents.registers sheet.contents.rules
        × Tells sheet.places.by_interface.items sheet.contents.rules };
}

impl Sheet {
    /// The sheet that says who made the service, and nothing else.
    pub fn bare(alloc: Global, info: Info) -> Result<Sheet, Memory>
        ensures { IfOk result (λ sheet. sheet ≡ record { info = info; interfaces = []; registers = []; rules = [] }) }
    {
        match assembled(
            alloc,
            info,
            Interfaces::none(alloc),
            List::new(alloc),
            List::new(alloc),
        ) {
            Ok(sheet) => Ok(sheet),
            Err(_) => Err(Memory),
        }
    }

    /// Who made the service.
    pub fn info(&self) -> &Info
        ensures { result.now ≡ self.now.info }
    {
        &self.contents.info
    }

    /// The interfaces in order.
    pub fn interfaces(&self) -> &[Checked]
        ensures { result.now ≡ self.now.interfaces }
    {
        self.contents.interfaces.as_slice()
    }

    /// The registers in order. Each begins with a value of its type, which is of an interface of the sheet
    /// and does not reach `float`; the value has at most 120 levels.
    pub fn registers(&self) -> &[Register]
        ensures registers { result.now ≡ self.now.registers }
        ensures typed { list_all (begins_typed self.now.interfaces) self.now.registers ≡ true }
        ensures within { list_all is_shallow (initials_of self.now.registers) ≡ true }
        ensures floatless { AllByRecursion (IsFloatless self.now.interfaces) self.now.registers }
    {
        self.contents.registers.as_slice()
    }

    /// The rules in the byte order of their names. Each is of an interface of the sheet and typed without
    /// `float`, and its last branch alone has no condition.
    pub fn rules(&self) -> &[Rule]
        ensures rules { result.now ≡ self.now.rules }
        ensures typed { AreTyped self.now.interfaces self.now.registers self.now.rules }
        ensures placed { list_all (is_within (length self.now.interfaces)) self.now.rules ≡ true }
        ensures one_way { list_all goes_one_way self.now.rules ≡ true }
        ensures floatless { list_all (rule_has_no_float self.now.interfaces self.now.registers)
            self.now.rules ≡ true }
    {
        self.contents.rules.as_slice()
    }

    /// The place of the interface of this name, and None exactly where the sheet has none.
    pub fn interface_of(&self, name: &str) -> Option<u64>
        ensures { result ≡ interface_place self.now.interfaces name.now }
    {
        self.contents.interfaces.place(name)
    }

    /// The place of the rule of this method of the interface of this place, and None exactly where the
    /// sheet has no such rule. It takes no memory and a time that grows with the logarithm of the methods.
    pub fn rule_of(&self, interface: u64, method: &str) -> Option<u64>
        ensures { result ≡ rule_place self.now.rules interface method.now }
    {
        self.places.place(interface, method)
    }
}

/// Reads a sheet.
///
/// The fault is the first that applies: the text is no JSON; it has not the form of a sheet; then of each
/// definition in order, of each register and of each rule.
pub fn read(alloc: Global, text: &[u8]) -> Result<Sheet, SheetFault>
    ensures answer { Reads result (sheet_of text.now) }
    ensures exact { (other : Result Contents SheetFault) → sheet_of text.now other → Same result other }
{
    read_text(alloc, text)
}

fn read_text(alloc: Global, text: &[u8]) -> Result<Sheet, SheetFault>
    ensures { Reads result (sheet_of text.now) }
{
    match sheet_draft::read(alloc, text) {
        Ok(draft) => read_draft(alloc, draft),
        Err(fault) => Err(of_draft(fault)),
    }
}

fn of_draft(fault: DraftFault) -> SheetFault
    ensures { result ≡ draft_fault fault }
{
    match fault {
        DraftFault::NotJson => SheetFault::NotJson,
        DraftFault::Shape { place } => SheetFault::Shape { place },
        DraftFault::Memory => SheetFault::Memory,
    }
}

// The sheet that a draft is, of whose rules the last branch alone has no condition.
fn read_draft(alloc: Global, draft: SheetDraft) -> Result<Sheet, SheetFault>
    requires { list_all draft_goes_one_way draft.rules ≡ true }
    ensures { Reads result (sheet_behind draft) }
{
    let SheetDraft {
        info,
        interfaces,
        registers,
        rules,
    } = draft;
    match read_tables(alloc, interfaces, registers) {
        Ok((interfaces, registers)) => {
            match read_rules(alloc, &interfaces, registers.as_slice(), rules) {
                Ok(rules) => assembled(alloc, info, interfaces, registers, rules),
                Err(fault) => {
                    drop((info, interfaces, registers));
                    Err(fault)
                }
            }
        }
        Err(fault) => {
            drop((info, rules));
            Err(fault)
        }
    }
}

// The sheet that says this.
fn assembled(
    alloc: Global,
    info: Info,
    interfaces: Interfaces,
    registers: List<Register>,
    rules: List<Rule>,
) -> Result<Sheet, SheetFault>
    requires registers { AreRegisters interfaces registers }
    requires rules { AreRules interfaces registers rules }
    ensures { Reads result (done (record { info = info; interfaces = interfaces; registers = registers; rules = rules })) }
{
    match RulePlaces::of(alloc, interfaces.as_slice().len(), rules.as_slice()) {
        Ok(places) => Ok(Sheet {
            contents: Contents {
                info,
                interfaces,
                registers,
                rules,
            },
            places,
        }),
        Err(_) => {
            drop((info, interfaces, registers, rules));
            Err(SheetFault::Memory)
        }
    }
}

// The interfaces and the registers.
fn read_tables(
    alloc: Global,
    texts: List<Text>,
    drafts: List<RegisterDraft>,
) -> Result<(Interfaces, List<Register>), SheetFault>
    ensures { Reads result (tables_of texts drafts) }
{
    match read_interfaces(alloc, texts) {
        Ok(interfaces) => match read_registers(alloc, &interfaces, drafts) {
            Ok(registers) => Ok((interfaces, registers)),
            Err(fault) => {
                drop(interfaces);
                Err(fault)
            }
        },
        Err(fault) => {
            drop(drafts);
            Err(fault)
        }
    }
}

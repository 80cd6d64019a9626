// The registers of a sheet.
ghost use Rattle.std.specs.Prelude.{◌≡◌, List, Result};
ghost use Rattle.sheet_rules.specs.declared.forms.Register.{Register};
ghost use Rattle.sheet_form.specs.Answers.{Reads, Same};
ghost use Rattle.sheet_form.specs.Registers.{first_value, register_at, register_in, registers_of, type_and_value, type_of, with_parts, within_levels, without_float};
ghost use Rattle.sheet_form.specs.declared.faults.SheetFault.{SheetFault};

use crate::MOST_LEVELS;
use crate::faults::SheetFault;
use crate::interfaces::Interfaces;
use idl_grammar::{IdlFault, read_type};
use idl_tree::{Checked, TypeRef};
use link_port::{List, Value};
use sheet_draft::{Place, RegisterDraft};
use sheet_rules::Register;
use std::alloc::Global;
use typed_value::{Val, ValueFault, levels, read};

/// Forms the registers of a sheet in order. The fault tells the first whose scope is no interface of the
/// sheet, whose type's text is refused or reaches `float`, or whose first value doesn't read by its type
/// or has more than 120 levels.
pub fn read_registers(
    alloc: Global,
    interfaces: &Interfaces,
    drafts: List<RegisterDraft>,
) -> Result<List<Register>, SheetFault>
    ensures answer { Reads result (registers_of interfaces.now drafts) }
    ensures exact { (other : Result (List Register) SheetFault)
        → registers_of interfaces.now drafts other → Same result other }
{
    read_all(alloc, interfaces, drafts)
}

fn read_all(
    alloc: Global,
    interfaces: &Interfaces,
    drafts: List<RegisterDraft>,
) -> Result<List<Register>, SheetFault>
    ensures { Reads result (registers_of interfaces.now drafts) }
{
    let mut registers = List::new(alloc);
    for draft in drafts.into_vec() {
        match read_register(alloc, interfaces, registers.len(), draft) {
            Ok(register) => registers.push(register)?,
            Err(fault) => return Err(fault),
        }
    }
    Ok(registers)
}

// The register of that place.
fn read_register(
    alloc: Global,
    interfaces: &Interfaces,
    register: u64,
    draft: RegisterDraft,
) -> Result<Register, SheetFault>
    ensures { Reads result (register_at interfaces.now register draft) }
{
    match interfaces.placed(draft.scope.as_str()) {
        Some((scope, interface)) => register_in(alloc, scope, interface, register, draft),
        None => {
            drop(draft);
            Err(SheetFault::Scope { register })
        }
    }
}

// The register, whose scope is this interface.
fn register_in(
    alloc: Global,
    scope: u64,
    interface: &Checked,
    register: u64,
    draft: RegisterDraft,
) -> Result<Register, SheetFault>
    ensures { Reads result (register_in scope interface.now register draft) }
{
    match type_and_value(alloc, interface, register, &draft) {
        Ok((of, initial)) => Ok(with_parts(draft, scope, of, initial)),
        Err(fault) => {
            drop(draft);
            Err(fault)
        }
    }
}

fn with_parts(draft: RegisterDraft, scope: u64, of: TypeRef, initial: Val) -> Register
    ensures { result ≡ with_parts draft.name scope (of, initial) }
{
    let RegisterDraft {
        name,
        scope: scope_name,
        of: text,
        initial: json,
    } = draft;
    drop((scope_name, text, json));
    Register {
        name,
        scope,
        of,
        initial,
    }
}

fn type_and_value(
    alloc: Global,
    interface: &Checked,
    register: u64,
    draft: &RegisterDraft,
) -> Result<(TypeRef, Val), SheetFault>
    ensures { Reads result (type_and_value interface.now register draft.now) }
{
    match type_of(alloc, interface, register, draft.of.as_str()) {
        Ok(of) => match first_value(alloc, interface, register, &of, &draft.initial) {
            Ok(value) => Ok((of, value)),
            Err(fault) => {
                drop(of);
                Err(fault)
            }
        },
        Err(fault) => Err(fault),
    }
}

// The type that the text spells, which doesn't reach `float`.
fn type_of(
    alloc: Global,
    interface: &Checked,
    register: u64,
    text: &str,
) -> Result<TypeRef, SheetFault>
    ensures { Reads result (type_of interface.now register text.now) }
{
    match read_type(alloc, text.as_bytes(), interface) {
        Ok(of) => without_float(interface, register, of),
        Err(IdlFault::Memory) => Err(SheetFault::Memory),
        Err(fault) => Err(SheetFault::RegisterText { register, fault }),
    }
}

fn without_float(interface: &Checked, register: u64, of: TypeRef) -> Result<TypeRef, SheetFault>
    ensures { Reads result (without_float interface.now register of) }
{
    if interface.reaches_float(&of) {
        drop(of);
        let place = Place::Register(register);
        Err(SheetFault::Float { place })
    } else {
        Ok(of)
    }
}

// The value that the JSON reads as.
fn first_value(
    alloc: Global,
    interface: &Checked,
    register: u64,
    of: &TypeRef,
    json: &Value,
) -> Result<Val, SheetFault>
    ensures { Reads result (first_value interface.now register of.now json.now) }
{
    match read(alloc, interface, of, json) {
        Ok(value) => within_levels(register, value),
        Err(ValueFault::Unfit) => Err(SheetFault::Initial { register }),
        Err(ValueFault::Memory) => Err(SheetFault::Memory),
    }
}

fn within_levels(register: u64, value: Val) -> Result<Val, SheetFault>
    ensures { Reads result (within_levels register value) }
{
    if levels(&value) > MOST_LEVELS {
        drop(value);
        Err(SheetFault::Initial { register })
    } else {
        Ok(value)
    }
}

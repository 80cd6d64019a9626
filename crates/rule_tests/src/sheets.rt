// A sheet's interface and registers, formed from their texts.
use idl_grammar::{read, read_type};
use idl_tree::{Checked, TypeRef};
use link_port::{List, Memory, Text};
use sheet_draft::{RegisterDraft, SheetDraft};
use sheet_rules::Register;
use std::alloc::Global;
use typed_value::Val;

pub fn interfaces(alloc: Global, draft: &SheetDraft) -> Result<List<Checked>, Memory> {
    let mut interfaces = List::new(alloc);
    for text in draft.interfaces.as_slice() {
        if let Err(memory) = add_interface(alloc, &mut interfaces, text) {
            drop(interfaces);
            return Err(memory);
        }
    }
    Ok(interfaces)
}

fn add_interface(alloc: Global, interfaces: &mut List<Checked>, text: &Text) -> Result<(), Memory> {
    match read(alloc, text.as_str().as_bytes()) {
        Ok(checked) => interfaces.push(checked),
        Err(fault) => {
            drop(fault);
            Err(Memory)
        }
    }
}

// The registers, whose types are of the first interface.
pub fn registers(
    alloc: Global,
    draft: &SheetDraft,
    interfaces: &[Checked],
) -> Result<List<Register>, Memory> {
    let mut registers = List::new(alloc);
    for register in draft.registers.as_slice() {
        if let Err(memory) = add_register(alloc, &mut registers, interfaces, register) {
            drop(registers);
            return Err(memory);
        }
    }
    Ok(registers)
}

fn add_register(
    alloc: Global,
    registers: &mut List<Register>,
    interfaces: &[Checked],
    register: &RegisterDraft,
) -> Result<(), Memory> {
    let of = type_in(alloc, interfaces.first(), register.of.as_str())?;
    match Text::of(alloc, register.name.as_str()) {
        Ok(name) => registers.push(Register {
            name,
            scope: 0,
            of,
            initial: Val::Nothing,
        }),
        Err(memory) => {
            drop(of);
            Err(memory)
        }
    }
}

fn type_in(alloc: Global, scope: Option<&Checked>, text: &str) -> Result<TypeRef, Memory> {
    let Some(scope) = scope else {
        return Err(Memory);
    };
    match read_type(alloc, text.as_bytes(), scope) {
        Ok(of) => Ok(of),
        Err(fault) => {
            drop(fault);
            Err(Memory)
        }
    }
}

// Two interfaces, and registers of their types, read from texts.
use idl_grammar::{read, read_type};
use idl_tree::{Checked, TypeRef};
use link_port::{List, Memory, Text};
use sheet_rules::Register;
use std::alloc::Global;
use typed_value::Val;

const INTERFACES: [&str; 2] = [
    "interface a.b\n\
     type Entry (amount: int, note: ?string)\n\
     method M(n: int, maybe: ?int, list: []int, counts: [string]int, texts: [string]string,\n\
     entry: Entry, opt: ?Entry) -> (total: int)\n\
     error Bad (n: int)\n",
    "interface c.d\n\
     type Entry (amount: int, note: ?string)\n\
     error Worse (n: int)\n",
];

// The name, the place of the interface, and the type.
const REGISTERS: [(&str, u64, &str); 5] = [
    ("total", 0, "int"),
    ("items", 0, "[]int"),
    ("counts", 0, "[string]int"),
    ("entry", 0, "Entry"),
    ("other", 1, "Entry"),
];

pub fn interfaces(alloc: Global) -> Result<List<Checked>, Memory> {
    let mut interfaces = List::new(alloc);
    for text in INTERFACES {
        if let Err(memory) = add_interface(alloc, &mut interfaces, text) {
            drop(interfaces);
            return Err(memory);
        }
    }
    Ok(interfaces)
}

fn add_interface(alloc: Global, interfaces: &mut List<Checked>, text: &str) -> Result<(), Memory> {
    match read(alloc, text.as_bytes()) {
        Ok(checked) => interfaces.push(checked),
        Err(fault) => {
            drop(fault);
            Err(Memory)
        }
    }
}

pub fn registers(alloc: Global, interfaces: &[Checked]) -> Result<List<Register>, Memory> {
    let mut registers = List::new(alloc);
    for (name, place, text) in REGISTERS {
        if let Err(memory) = add_register(alloc, &mut registers, interfaces, name, place, text) {
            drop(registers);
            return Err(memory);
        }
    }
    Ok(registers)
}

fn add_register(
    alloc: Global,
    registers: &mut List<Register>,
    interfaces: &[Checked],
    name: &str,
    scope: u64,
    text: &str,
) -> Result<(), Memory> {
    let of = type_in(alloc, interfaces.get(scope as usize), text)?;
    match Text::of(alloc, name) {
        Ok(name) => registers.push(Register {
            name,
            scope,
            of,
            initial: Val::Nothing,
        }),
        Err(memory) => {
            drop(of);
            Err(memory)
        }
    }
}

fn type_in(alloc: Global, scope: Option<&Checked>, text: &str) -> Result<TypeRef, Memory> {
    let Some(scope) = scope else {
        return Err(Memory);
    };
    match read_type(alloc, text.as_bytes(), scope) {
        Ok(of) => Ok(of),
        Err(fault) => {
            drop(fault);
            Err(Memory)
        }
    }
}

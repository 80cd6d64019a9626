// The interfaces of a sheet.
ghost use Rattle.std.specs.Prelude.{◌≡◌, List, [], ◌∷◌, ◌++◌, false, map, option_map, slice_get, IfOk, Result};
ghost use Rattle.std.specs.List.{list_any};
ghost use Rattle.std.specs.Option.{option_copied};
ghost use Rattle.std.specs.Str.{bytes_eq};
ghost use Rattle.std.specs.String.{string_bytes};
ghost use Rattle.idl_tree.specs.declared.trees.Interface.{Interface};
ghost use Rattle.sheet_form.specs.Answers.{Reads, Same};
ghost use Rattle.rule_form.specs.Rules.{interface_place};
ghost use Rattle.sheet_form.specs.Interfaces.{has_interface, interfaces_of, interface_behind, interface_placed, more_by, name_fault, named_apart};
ghost use Rattle.sheet_form.specs.declared.faults.SheetFault.{SheetFault};

use crate::faults::SheetFault;
use idl_grammar::{IdlFault, read};
use idl_tree::Checked;
use indexmap::IndexSet;
use link_port::{List, Memory, Text};
use std::alloc::Global;
use std::marker::Model;

/// The interfaces of a sheet in order, each of another name. Contracts see the list of them.
#[derive(Drop)]
pub struct Interfaces {
    list: List<Checked>,
    // Their names, in the same order.
    names: IndexSet<String>,
}

impl Model for Interfaces {
    ghost use Rattle.std.specs.Prelude.{◌≡◌, List, map};
    ghost use Rattle.std.specs.Coded.{coded_list};
    ghost use Rattle.std.specs.String.{string_bytes};
    ghost use Rattle.idl_tree.specs.declared.trees.Interface.{Interface};
    ghost use Rattle.idl_tree.specs.contracts.trees.Interface as stored;
    ghost use Rattle.sheet_form.specs.Interfaces.{names_of};

    ghost Value = { List Interface };

    ghost coded = { coded_list stored.the_row.coded };

    ghost view = { λ interfaces. interfaces.list };

    ghost invariant = { λ interfaces. map string_bytes interfaces.names.keys ≡ names_of interfaces.list };
}

impl Interfaces {
    /// No interfaces. It takes no memory.
    pub(crate) fn none(alloc: Global) -> Interfaces
        ensures { result ≡ [] }
    {
        Interfaces {
            list: List::new(alloc),
            names: IndexSet::new(alloc),
        }
    }

    /// Lends the interfaces.
    pub fn as_slice(&self) -> &[Checked]
        ensures { result.now ≡ self.now }
    {
        self.list.as_slice()
    }

    /// The place of the interface of this name, and None exactly where there is none.
    pub fn place(&self, name: &str) -> Option<u64>
        ensures { result ≡ interface_place self.now name.now }
    {
        match self.names.get_index_of(name) {
            Some(place) => Some(place as u64),
            None => None,
        }
    }

    // Whether one of them has this name.
    fn has(&self, name: &str) -> bool
        ensures { result ≡ has_interface self.now name.now }
    {
        self.names.contains(name)
    }

    /// The interface of this name with its place, and None exactly where there is none.
    pub fn placed(&self, name: &str) -> Option<(u64, &Checked)>
        ensures { option_map (λ found. (found.0, found.1.now)) result
            ≡ interface_placed self.now name.now }
    {
        match self.place(name) {
            Some(place) => match interface_at(self.list.as_slice(), place) {
                Some(interface) => Some((place, interface)),
                None => None,
            },
            None => None,
        }
    }

    // The interfaces with one more behind them, which has a name of its own.
    fn with(self, alloc: Global, interface: Checked) -> Result<Interfaces, Memory>
        requires { has_interface self interface.name ≡ false }
        ensures { IfOk result (λ more. more ≡ self ++ interface ∷ []) }
    {
        let Interfaces { list, names } = self;
        match with_name(alloc, names, interface.tree().name.as_str()) {
            Ok(names) => match with_interface(list, interface) {
                Ok(list) => Ok(Interfaces { list, names }),
                Err(stop) => {
                    drop(names);
                    Err(stop)
                }
            },
            Err(stop) => {
                drop((list, interface));
                Err(stop)
            }
        }
    }
}

// The names with one more behind them.
fn with_name(
    alloc: Global,
    mut names: IndexSet<String>,
    name: &str,
) -> Result<IndexSet<String>, Memory>
    requires { list_any (bytes_eq name.now) (map string_bytes names.keys) ≡ false }
    ensures { IfOk result (λ more. map string_bytes more.keys
        ≡ map string_bytes names.keys ++ name.now ∷ []) }
{
    let name = String::from_str(alloc, name)?;
    match names.insert(name) {
        Ok(_) => Ok(names),
        Err(_) => {
            drop(names);
            Err(Memory)
        }
    }
}

fn with_interface(mut list: List<Checked>, interface: Checked) -> Result<List<Checked>, Memory>
    ensures { IfOk result (λ more. more ≡ list ++ interface ∷ []) }
{
    match list.push(interface) {
        Ok(()) => Ok(list),
        Err(stop) => {
            drop(list);
            Err(stop)
        }
    }
}

fn interface_at(interfaces: &[Checked], place: u64) -> Option<&Checked>
    ensures { option_copied result ≡ slice_get interfaces.now place }
{
    interfaces.get(place as usize)
}

/// Reads the definitions of a sheet in order. The fault tells the first that is refused, whose name is
/// reserved, or whose name an earlier one has.
pub fn read_interfaces(alloc: Global, texts: List<Text>) -> Result<Interfaces, SheetFault>
    ensures answer { Reads result (interfaces_of texts) }
    ensures exact { (other : Result (List Interface) SheetFault)
        → interfaces_of texts other → Same result other }
{
    read_all(alloc, texts)
}

fn read_all(alloc: Global, texts: List<Text>) -> Result<Interfaces, SheetFault>
    ensures { Reads result (interfaces_of texts) }
{
    let mut read = Interfaces::none(alloc);
    for text in texts.into_vec() {
        read = match with_text(alloc, read, text) {
            Ok(more) => more,
            Err(fault) => return Err(fault),
        };
    }
    Ok(read)
}

// The interfaces with the one behind them that the text defines.
fn with_text(alloc: Global, read: Interfaces, text: Text) -> Result<Interfaces, SheetFault>
    ensures { Reads result (more_by read text) }
{
    match read_interface(alloc, &read, text.as_str()) {
        Ok(interface) => Ok(read.with(alloc, interface)?),
        Err(fault) => {
            drop(read);
            Err(fault)
        }
    }
}

// The interface that the text defines, behind those that are read.
fn read_interface(alloc: Global, before: &Interfaces, text: &str) -> Result<Checked, SheetFault>
    ensures { Reads result (interface_behind before.now text.now) }
{
    let which = before.as_slice().len() as u64;
    match read(alloc, text.as_bytes()) {
        Ok(interface) => named_apart(before, which, interface),
        Err(IdlFault::Memory) => Err(SheetFault::Memory),
        Err(fault) => Err(SheetFault::Idl { which, fault }),
    }
}

// The interface, where its name is neither reserved nor that of an earlier one.
fn named_apart(before: &Interfaces, which: u64, interface: Checked) -> Result<Checked, SheetFault>
    ensures { Reads result (named_apart before.now which interface) }
{
    match name_fault(before, which, interface.tree().name.as_str()) {
        None => Ok(interface),
        Some(fault) => {
            drop(interface);
            Err(fault)
        }
    }
}

// Why an interface may not have this name.
fn name_fault(before: &Interfaces, which: u64, name: &str) -> Option<SheetFault>
    ensures { result ≡ name_fault before.now which name.now }
{
    if name.starts_with("org.varlink.") {
        Some(SheetFault::Reserved { which })
    } else if before.has(name) {
        Some(SheetFault::TwiceInterface { which })
    } else {
        None
    }
}

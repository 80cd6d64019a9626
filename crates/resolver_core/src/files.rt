// Registries from JSON texts.
ghost use Rattle.std.specs.Prelude.{◌≡◌, ◌++◌, ◌∷◌, [], IfOk, OnOk, option_and_then};
ghost use Rattle.serde_json.specs.View.{view, members_view};
ghost use Rattle.serde_json.specs.Find.{as_str};
ghost use Rattle.serde_json.specs.Read.{read};
ghost use Rattle.link_doors.specs.Addresses.{GivesAddress, address_of};
ghost use Rattle.resolver_core.specs.Registries.{AreInOrder, registry_of, entries_in, entries_of};
ghost use Rattle.resolver_core.specs.Registries.{entry_of, names, tree_of, found};
ghost use Rattle.resolver_core.specs.Held.{ReadsEntries, ReadsTree, ReadsAt, Adds, IsLast, seen};

use crate::faults::RegistryFault;
use crate::methods::is_fixed;
use idl_tree::is_interface_name;
use link_doors::{Address, AddressFault};
use link_port::{Memory, Text};
use serde_json::{Category, Map, Value as Json};
use simdutf8::compat;
use std::alloc::Global;
use std::collections::BTreeMap;

/// Addresses by the names of interfaces.
pub type Addresses = BTreeMap<String, Address>;

/// Reads the entries of a registry.
pub fn read_entries(alloc: Global, text: &[u8]) -> Result<Addresses, RegistryFault>
    ensures entries { ReadsEntries (registry_of text.now) result }
    ensures order { IfOk result (λ entries. AreInOrder (names (seen entries.entries))) }
{
    match read_json(alloc, text) {
        Ok(tree) => {
            let entries = entries_of(alloc, &tree);
            drop(tree);
            entries
        }
        Err(fault) => Err(fault),
    }
}

// The entries that a JSON value is.
fn entries_of(alloc: Global, tree: &Json) -> Result<Addresses, RegistryFault>
    ensures entries { ReadsEntries (entries_in (view tree.now)) result }
    ensures order { IfOk result (λ entries. AreInOrder (names (seen entries.entries))) }
{
    match tree.as_object() {
        Some(members) => entries_in(alloc, members),
        None => Err(RegistryFault::NotObject),
    }
}

// The JSON value that a text is.
fn read_json(alloc: Global, text: &[u8]) -> Result<Json, RegistryFault>
    ensures { ReadsTree (tree_of text.now) result }
{
    match compat::from_utf8(text) {
        Ok(text) => parse(alloc, text),
        Err(_) => Err(RegistryFault::NotJson),
    }
}

fn parse(alloc: Global, text: &str) -> Result<Json, RegistryFault>
    ensures { ReadsTree (found (read text.now)) result }
{
    match Json::from_str(alloc, text) {
        Ok(tree) => Ok(tree),
        Err(error) => match error.classify() {
            Category::Memory => Err(RegistryFault::Memory),
            _ => Err(RegistryFault::NotJson),
        },
    }
}

// The entries that the members of an object are. The members come in byte order.
fn entries_in(alloc: Global, members: &Map<String, Json>) -> Result<Addresses, RegistryFault>
    ensures entries { ReadsEntries (entries_of (members_view members.now.entries)) result }
    ensures order { IfOk result (λ entries. AreInOrder (names (seen entries.entries))) }
{
    let mut entries = BTreeMap::new(alloc);
    for (name, value) in members.iter() {
        if let Err(fault) = add(alloc, &mut entries, name.as_str(), value) {
            drop(entries);
            return Err(fault);
        }
    }
    Ok(entries)
}

// Puts one member behind the entries.
fn add(
    alloc: Global,
    entries: &mut Addresses,
    name: &str,
    value: &Json,
) -> Result<(), RegistryFault>
    requires { IsLast name.now (seen entries.old.entries) }
    ensures entry { Adds name.now (entry_of name.now (view value.now))
        (seen entries.old.entries) (seen entries.new.entries) result }
    ensures order { OnOk result (AreInOrder (names (seen entries.new.entries))) }
{
    let address = address_at(alloc, name, value)?;
    insert_last(alloc, entries, name, address)?;
    Ok(())
}

// Puts an address behind the entries.
fn insert_last(
    alloc: Global,
    entries: &mut Addresses,
    name: &str,
    address: Address,
) -> Result<(), Memory>
    requires { IsLast name.now (seen entries.old.entries) }
    ensures entry { OnOk result
        (seen entries.new.entries ≡ seen entries.old.entries ++ (name.now, address) ∷ []) }
    ensures order { OnOk result (AreInOrder (names (seen entries.new.entries))) }
{
    let key = String::from_str(alloc, name)?;
    match entries.insert(key, address) {
        Ok(_) => Ok(()),
        Err(_) => Err(Memory),
    }
}

// The address that a member registers for its name.
fn address_at(alloc: Global, name: &str, value: &Json) -> Result<Address, RegistryFault>
    ensures { ReadsAt name.now (entry_of name.now (view value.now)) result }
{
    if !is_interface_name(name) || is_fixed(name) {
        return Err(RegistryFault::BadName(Text::of(alloc, name)?));
    }
    match read_address(alloc, value) {
        Ok(address) => Ok(address),
        Err(AddressFault::BadAddress) => { Err(RegistryFault::BadAddress(Text::of(alloc, name)?)) }
        Err(AddressFault::Memory) => Err(RegistryFault::Memory),
    }
}

// The address whose text a JSON value is.
fn read_address(alloc: Global, value: &Json) -> Result<Address, AddressFault>
    ensures { GivesAddress (option_and_then address_of (as_str (view value.now))) result }
{
    match value.as_str() {
        Some(text) => Address::read(alloc, text),
        None => Err(AddressFault::BadAddress),
    }
}

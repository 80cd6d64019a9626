// Registers, and definitions.
ghost use Rattle.std.specs.Prelude.{◌≡◌, ◌||◌, ◌&&◌, not, [], IfOk, OnOk};
ghost use Rattle.std.specs.Str.{bytes_eq};
ghost use Rattle.serde_json.specs.Find.{as_str};
ghost use Rattle.idl_tree.specs.Names.{Bytes, is_field_name};
ghost use Rattle.std.specs.BTreeSet.{contains_text};
ghost use Rattle.expression_draft.specs.Answers.{Gives, GivesNext};
ghost use Rattle.sheet_draft.specs.Answers.{Reads};
ghost use Rattle.sheet_draft.specs.Outlines.{register_of, register_in, register_texts, register_behind};
ghost use Rattle.sheet_draft.specs.Sheets.{each, registers_from};
ghost use Rattle.sheet_draft.specs.declared.places.Place.TheVariants as place;

use crate::drafts::RegisterDraft;
use crate::faults::DraftFault;
use crate::places::Place;
use expression_draft::{Items, Members, Misfit, next_text, read_text, whole};
use idl_tree::is_field_name;
use link_port::{List, Memory, Text, Value};
use std::alloc::Global;
use std::collections::BTreeSet;

/// Reads the texts of definitions.
pub fn read_interfaces(alloc: Global, mut items: Items) -> Result<List<Text>, DraftFault>
    ensures { Reads result (each place.Interface as_str 0 items) }
{
    let mut texts = List::new(alloc);
    while let Some(value) = items.next() {
        match read_text(alloc, value) {
            Ok(text) => texts.push(text)?,
            Err(Misfit::Unfit) => {
                return Err(DraftFault::Shape {
                    place: Place::Interface(texts.len()),
                });
            }
            Err(Misfit::Memory) => return Err(DraftFault::Memory),
        }
    }
    Ok(texts)
}

/// Reads registers, each of which has a field name that stood before in none.
pub fn read_registers(alloc: Global, mut items: Items) -> Result<List<RegisterDraft>, DraftFault>
    ensures { Reads result (registers_from [] 0 items) }
{
    let mut names = BTreeSet::new(alloc);
    let mut registers = List::new(alloc);
    while let Some(value) = items.next() {
        match read_new(alloc, &mut names, value) {
            Ok(register) => registers.push(register)?,
            Err(Misfit::Unfit) => {
                return Err(DraftFault::Shape {
                    place: Place::Register(registers.len()),
                });
            }
            Err(Misfit::Memory) => return Err(DraftFault::Memory),
        }
    }
    Ok(registers)
}

// Reads a register whose name is a field name and none of these, and adds it to them.
fn read_new(
    alloc: Global,
    names: &mut BTreeSet<String>,
    value: Value,
) -> Result<RegisterDraft, Misfit>
    ensures answer { Gives result (register_behind (contains_text names.old) value) }
    ensures after { IfOk result (λ register. (q : Bytes) → contains_text names.new q
        ≡ (bytes_eq register.name q || contains_text names.old q)) }
{
    let register = read_register(alloc, value)?;
    if !is_new(names, register.name.as_str()) {
        drop(register);
        return Err(Misfit::Unfit);
    }
    match add_name(alloc, names, register.name.as_str()) {
        Ok(()) => Ok(register),
        Err(_) => {
            drop(register);
            Err(Misfit::Memory)
        }
    }
}

// Whether it is a field name, and none of these.
fn is_new(names: &BTreeSet<String>, name: &str) -> bool
    ensures { result ≡ (is_field_name name.now && not (contains_text names.now name.now)) }
{
    is_field_name(name) && !names.contains(name)
}

// Adds a name.
fn add_name(alloc: Global, names: &mut BTreeSet<String>, name: &str) -> Result<(), Memory>
    ensures { OnOk result ((q : Bytes) → contains_text names.new q
        ≡ (bytes_eq name.now q || contains_text names.old q)) }
{
    let name = String::from_str(alloc, name)?;
    match names.insert(name) {
        Ok(_) => Ok(()),
        Err(_) => Err(Memory),
    }
}

fn read_register(alloc: Global, value: Value) -> Result<RegisterDraft, Misfit>
    ensures { Gives result (register_of value) }
{
    match Members::of(value) {
        Some(mut members) => register_in(alloc, &mut members),
        None => Err(Misfit::Unfit),
    }
}

#[tactic(auto, unfolding(crate::specs::Outlines::register_in))]
fn register_in(alloc: Global, members: &mut Members) -> Result<RegisterDraft, Misfit>
    ensures { Gives result (register_in members.old) }
{
    match members.next("initial") {
        Some(initial) => match texts_in(alloc, members) {
            Ok((name, scope, of)) => {
                let register = RegisterDraft {
                    name,
                    scope,
                    of,
                    initial,
                };
                whole(members, register)
            }
            Err(misfit) => {
                drop(initial);
                Err(misfit)
            }
        },
        None => Err(Misfit::Unfit),
    }
}

// The name, the scope and the type.
fn texts_in(alloc: Global, members: &mut Members) -> Result<(Text, Text, Text), Misfit>
    ensures { GivesNext result members.new (register_texts members.old) }
{
    let name = next_text(alloc, members, "name")?;
    let scope = next_text(alloc, members, "scope")?;
    let of = next_text(alloc, members, "type")?;
    Ok((name, scope, of))
}

// Sheets.
ghost use Rattle.std.specs.Prelude.{◌≡◌};
ghost use Rattle.serde_json.specs.Find.{as_array, as_object};
ghost use Rattle.expression_draft.specs.Answers.{Gives, GivesNext};
ghost use Rattle.sheet_draft.specs.Answers.{Reads};
ghost use Rattle.expression_draft.specs.Members.{named};
ghost use Rattle.sheet_draft.specs.Outlines.{outline_of, outline_in, contents_in, tables_in, info_in, version_of};
ghost use Rattle.sheet_draft.specs.Sheets.{draft_of, json_of, sheet_of, sheet_behind};

use crate::drafts::{Info, SheetDraft};
use crate::faults::DraftFault;
use crate::outlines::{Contents, Outline, Version};
use crate::places::Place;
use crate::registers::{read_interfaces, read_registers};
use crate::rules::read_rules;
use expression_draft::{Items, Members, Misfit, next_text, whole};
use link_port::{Text, Value};
use serde_json::Value as Json;
use simdutf8::compat;
use std::alloc::Global;

/// Reads the text of a sheet by names.
///
/// It is `NotJson` exactly where the text is no JSON that nests at most 127 deep, so expressions and
/// conditions nest no deeper, and nothing here recurses deeper. It is `Shape` exactly where the JSON has
/// not the form of a sheet, with the first place that has not: `Top`, then each interface, register and
/// rule in order; in a rule `Whole`, and then each branch in order. The values of constants and registers
/// are moved out of the JSON and not copied.
#[tactic(auto, unfolding(crate::specs::Sheets::draft_of))]
pub fn read(alloc: Global, text: &[u8]) -> Result<SheetDraft, DraftFault>
    ensures { Reads result (draft_of text.now) }
{
    let tree = json_of(alloc, text)?;
    read_sheet(alloc, tree)
}

// The tree of a text that is UTF-8 and JSON.
fn json_of(alloc: Global, text: &[u8]) -> Result<Value, DraftFault>
    ensures { Reads result (json_of text.now) }
{
    match compat::from_utf8(text) {
        Ok(text) => match Json::from_str(alloc, text) {
            Ok(tree) => Ok(Value::of(tree)),
            Err(error) => match error.classify() {
                serde_json::Category::Memory => Err(DraftFault::Memory),
                _ => Err(DraftFault::NotJson),
            },
        },
        Err(_) => Err(DraftFault::NotJson),
    }
}

// Reads the sheet that a tree is.
#[tactic(auto, unfolding(crate::specs::Sheets::sheet_of))]
fn read_sheet(alloc: Global, tree: Value) -> Result<SheetDraft, DraftFault>
    ensures { Reads result (sheet_of tree) }
{
    match outline_of(alloc, tree) {
        Ok(outline) => read_outline(alloc, outline),
        Err(Misfit::Unfit) => Err(DraftFault::Shape { place: Place::Top }),
        Err(Misfit::Memory) => Err(DraftFault::Memory),
    }
}

// Reads interfaces, registers and rules.
fn read_outline(alloc: Global, outline: Outline) -> Result<SheetDraft, DraftFault>
    ensures { Reads result (sheet_behind outline) }
{
    let Outline {
        info,
        sheet,
        contents,
    } = outline;
    let Contents {
        interfaces,
        registers,
        rules,
    } = contents;
    match read_interfaces(alloc, interfaces) {
        Ok(interfaces) => match read_registers(alloc, registers) {
            Ok(registers) => match read_rules(alloc, sheet, rules) {
                Ok(rules) => Ok(SheetDraft {
                    info,
                    interfaces,
                    registers,
                    rules,
                }),
                Err(fault) => {
                    drop((info, interfaces, registers));
                    Err(fault)
                }
            },
            Err(fault) => {
                drop((info, interfaces, rules));
                Err(fault)
            }
        },
        Err(fault) => {
            drop((info, registers, rules));
            Err(fault)
        }
    }
}

// The members of a sheet, each of its kind.
fn outline_of(alloc: Global, tree: Value) -> Result<Outline, Misfit>
    ensures { Gives result (outline_of tree) }
{
    match Members::of(tree) {
        Some(mut members) => outline_in(alloc, &mut members),
        None => Err(Misfit::Unfit),
    }
}

#[tactic(auto, unfolding(crate::specs::Outlines::outline_in))]
fn outline_in(alloc: Global, members: &mut Members) -> Result<Outline, Misfit>
    ensures { Gives result (outline_in members.old) }
{
    let (contents, product) = contents_in(alloc, members)?;
    match next_version(members, "sheet") {
        Ok(sheet) => match info_in(alloc, product, members) {
            Ok(info) => {
                let outline = Outline {
                    info,
                    sheet,
                    contents,
                };
                whole(members, outline)
            }
            Err(misfit) => {
                drop(contents);
                Err(misfit)
            }
        },
        Err(misfit) => {
            drop((contents, product));
            Err(misfit)
        }
    }
}

// The definitions, the product, the registers and the rules.
fn contents_in(alloc: Global, members: &mut Members) -> Result<(Contents, Text), Misfit>
    ensures { GivesNext result members.new (contents_in members.old) }
{
    let interfaces = next_array(members, "interfaces")?;
    match next_text(alloc, members, "product") {
        Ok(product) => match tables_in(members) {
            Ok((registers, rules)) => {
                let contents = Contents {
                    interfaces,
                    registers,
                    rules,
                };
                Ok((contents, product))
            }
            Err(misfit) => {
                drop((interfaces, product));
                Err(misfit)
            }
        },
        Err(misfit) => {
            drop(interfaces);
            Err(misfit)
        }
    }
}

// The registers and the rules.
fn tables_in(members: &mut Members) -> Result<(Items, Members), Misfit>
    ensures { GivesNext result members.new (tables_in members.old) }
{
    let registers = next_array(members, "registers")?;
    match next_object(members, "rules") {
        Ok(rules) => Ok((registers, rules)),
        Err(misfit) => {
            drop(registers);
            Err(misfit)
        }
    }
}

// Who made the service, where its product is read already.
fn info_in(alloc: Global, product: Text, members: &mut Members) -> Result<Info, Misfit>
    ensures { GivesNext result members.new (info_in product members.old) }
{
    let url = next_text(alloc, members, "url")?;
    let vendor = next_text(alloc, members, "vendor")?;
    let version = next_text(alloc, members, "version")?;
    Ok(Info {
        vendor,
        product,
        version,
        url,
    })
}

// The items of the first member, which is an array of this name.
fn next_array(members: &mut Members, name: &str) -> Result<Items, Misfit>
    ensures { GivesNext result members.new (named name.now as_array members.old) }
{
    match members.next(name) {
        Some(value) => match Items::of(value) {
            Some(items) => Ok(items),
            None => Err(Misfit::Unfit),
        },
        None => Err(Misfit::Unfit),
    }
}

// The members of the first member, which is an object of this name.
fn next_object(members: &mut Members, name: &str) -> Result<Members, Misfit>
    ensures { GivesNext result members.new (named name.now as_object members.old) }
{
    match members.next(name) {
        Some(value) => match Members::of(value) {
            Some(inner) => Ok(inner),
            None => Err(Misfit::Unfit),
        },
        None => Err(Misfit::Unfit),
    }
}

// The version that the first member tells, which has this name.
fn next_version(members: &mut Members, name: &str) -> Result<Version, Misfit>
    ensures { GivesNext result members.new (named name.now version_of members.old) }
{
    match members.next(name) {
        Some(value) => {
            let version = version_of(&value);
            drop(value);
            version
        }
        None => Err(Misfit::Unfit),
    }
}

fn version_of(value: &Value) -> Result<Version, Misfit>
    ensures { Gives result (version_of value.now) }
{
    match value.inner().as_u64() {
        Some(1) => Ok(Version::One),
        Some(2) => Ok(Version::Two),
        _ => Err(Misfit::Unfit),
    }
}

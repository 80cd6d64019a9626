// References by names, formed by types.
ghost use Rattle.std.specs.Prelude.{◌≡◌, option_map, position};
ghost use Rattle.std.specs.Str.{bytes_eq};
ghost use Rattle.idl_tree.specs.declared.trees.Field.{Field};
ghost use Rattle.sheet_rules.specs.Views.{typ_of, setting_of};
ghost use Rattle.expression_draft.specs.declared.drafts.RefDraft.TheVariants as by_names;
ghost use Rattle.expression_form.specs.Forms.{FormsTyped};
ghost use Rattle.expression_form.specs.References.{field_place, field_named, path_formed, ref_formed, refers_in};

use crate::faults::Unformed;
use crate::grounds::Ground;
use expression_draft::RefDraft;
use idl_tree::{Checked, Field};
use link_port::{List, Text};
use sheet_rules::{Ref, Typ, body_typ, field_typ, register_typ, struct_fields};
use std::alloc::Global;

/// A reference by names as a reference by places, and the type of what it refers to.
pub fn ref_formed<'x>(
    alloc: Global,
    draft: &RefDraft,
    ground: &Ground<'x>,
) -> Result<(Ref, Typ<'x>), Unformed>
    ensures { FormsTyped result (ref_formed (setting_of ground.now.standing) draft.now) }
{
    match draft {
        RefDraft::Param(names) => param_formed(alloc, names.as_slice(), ground),
        RefDraft::Register(names) => register_formed(alloc, names.as_slice(), ground),
        RefDraft::Item(names) => item_formed(alloc, names.as_slice(), ground),
    }
}

fn param_formed<'x>(
    alloc: Global,
    names: &[Text],
    ground: &Ground<'x>,
) -> Result<(Ref, Typ<'x>), Unformed>
    ensures { FormsTyped result (ref_formed (setting_of ground.now.standing) (by_names.Param names.now)) }
{
    if names.is_empty() {
        return Err(Unformed::IllTyped);
    }
    let from = body_typ(ground.standing.scope, ground.standing.input);
    match path_formed(alloc, names, ground.standing.interfaces, &from) {
        Ok((path, of)) => Ok((Ref::Param(path), of)),
        Err(fault) => Err(fault),
    }
}

fn register_formed<'x>(
    alloc: Global,
    names: &[Text],
    ground: &Ground<'x>,
) -> Result<(Ref, Typ<'x>), Unformed>
    ensures { FormsTyped result (ref_formed (setting_of ground.now.standing) (by_names.Register names.now)) }
{
    match names {
        [] => Err(Unformed::IllTyped),
        [name, rest @ ..] => match ground.register(name.as_str()) {
            Some(place) => path_of_register(alloc, place as u64, rest, ground),
            None => Err(Unformed::IllTyped),
        },
    }
}

fn path_of_register<'x>(
    alloc: Global,
    place: u64,
    names: &[Text],
    ground: &Ground<'x>,
) -> Result<(Ref, Typ<'x>), Unformed>
    ensures { FormsTyped result (refers_in (setting_of ground.now.standing) place names.now) }
{
    match register_typ(ground.standing.registers, place) {
        Some(from) => match path_formed(alloc, names, ground.standing.interfaces, &from) {
            Ok((path, of)) => Ok((Ref::Register(place, path), of)),
            Err(fault) => Err(fault),
        },
        None => Err(Unformed::IllTyped),
    }
}

fn item_formed<'x>(
    alloc: Global,
    names: &[Text],
    ground: &Ground<'x>,
) -> Result<(Ref, Typ<'x>), Unformed>
    ensures { FormsTyped result (ref_formed (setting_of ground.now.standing) (by_names.Item names.now)) }
{
    match &ground.standing.item {
        Some(from) => match path_formed(alloc, names, ground.standing.interfaces, from) {
            Ok((path, of)) => Ok((Ref::Item(path), of)),
            Err(fault) => Err(fault),
        },
        None => Err(Unformed::IllTyped),
    }
}

// The places to which names lead from a type, and the type to which they lead.
fn path_formed<'x>(
    alloc: Global,
    names: &[Text],
    interfaces: &'x [Checked],
    from: &Typ<'x>,
) -> Result<(List<u64>, Typ<'x>), Unformed>
    ensures { FormsTyped result (path_formed interfaces.now names.now (typ_of from.now)) }
{
    let mut path = List::with_room(alloc, names.len() as u64)?;
    let mut at = *from;
    for name in names {
        match field_named(name.as_str(), interfaces, &at) {
            Some((place, of)) => {
                path.push(place)?;
                at = of;
            }
            None => return Err(Unformed::IllTyped),
        }
    }
    Ok((path, at))
}

// The place of the field of that name, and its type.
fn field_named<'x>(name: &str, interfaces: &'x [Checked], of: &Typ<'x>) -> Option<(u64, Typ<'x>)>
    ensures { option_map (λ found. (found.0, typ_of found.1)) result
        ≡ field_named interfaces.now name.now (typ_of of.now) }
{
    match field_place(name, interfaces, of) {
        Some(place) => match field_typ(interfaces, place, of) {
            Some(to) => Some((place, to)),
            None => None,
        },
        None => None,
    }
}

fn field_place<'x>(name: &str, interfaces: &'x [Checked], of: &Typ<'x>) -> Option<u64>
    ensures { result ≡ field_place interfaces.now name.now (typ_of of.now) }
{
    match struct_fields(interfaces, of) {
        Some(fields) => match place_of(name, fields) {
            Some(place) => Some(place as u64),
            None => None,
        },
        None => None,
    }
}

fn place_of(name: &str, fields: &[Field]) -> Option<usize>
    ensures { result ≡ position (λ (field : Field). bytes_eq field.name name.now) fields.now }
{
    fields.iter().position(|field| field.name.as_str() == name)
}

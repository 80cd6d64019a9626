// References: where a value is found.
ghost use Rattle.std.specs.Prelude.{◌≡◌};
ghost use Rattle.expression_draft.specs.Answers.{Gives, GivesNext};
ghost use Rattle.expression_draft.specs.Expressions.{ref_of, ref_by, path_by};
ghost use Rattle.expression_draft.specs.Members.{named, first_item};
ghost use Rattle.expression_draft.specs.declared.faults.Misfit.TheVariants as misfit;

use crate::drafts::RefDraft;
use crate::faults::Misfit;
use crate::forms::{RefForm, ref_named};
use crate::members::{Items, Members, sole_member};
use crate::texts::read_texts;
use link_port::{List, Text, Value};
use std::alloc::Global;

/// Reads a reference.
pub fn read_ref(alloc: Global, value: Value) -> Result<RefDraft, Misfit>
    ensures { Gives result (ref_of value) }
{
    match sole_member(value) {
        Some((name, path)) => match ref_named(name.as_str()) {
            Some(form) => ref_by(alloc, form, path),
            None => Err(unfit(path)),
        },
        None => Err(Misfit::Unfit),
    }
}

/// Lets a value go that has not the form.
pub fn unfit(value: Value) -> Misfit
    ensures { result ≡ misfit.Unfit }
{
    drop(value);
    Misfit::Unfit
}

/// Reads a reference of this form.
pub fn ref_by(alloc: Global, form: RefForm, path: Value) -> Result<RefDraft, Misfit>
    ensures { Gives result (ref_by form path) }
{
    let names = read_texts(alloc, path)?;
    path_by(form, names)
}

fn path_by(form: RefForm, names: List<Text>) -> Result<RefDraft, Misfit>
    ensures { Gives result (path_by form names) }
{
    match form {
        RefForm::Item => Ok(RefDraft::Item(names)),
        _ if names.len() == 0 => Err(Misfit::Unfit),
        RefForm::Param => Ok(RefDraft::Param(names)),
        RefForm::Register => Ok(RefDraft::Register(names)),
    }
}

/// Reads the first member, which has this name, as a reference.
pub fn next_ref(alloc: Global, members: &mut Members, name: &str) -> Result<RefDraft, Misfit>
    ensures { GivesNext result members.new (named name.now ref_of members.old) }
{
    match members.next(name) {
        Some(value) => read_ref(alloc, value),
        None => Err(Misfit::Unfit),
    }
}

/// Reads the first item as a reference.
pub fn first_ref(alloc: Global, items: &mut Items) -> Result<RefDraft, Misfit>
    ensures { GivesNext result items.new (first_item ref_of items.old) }
{
    match items.next() {
        Some(value) => read_ref(alloc, value),
        None => Err(Misfit::Unfit),
    }
}

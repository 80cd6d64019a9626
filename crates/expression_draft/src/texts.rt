// Strings, and arrays of strings.
ghost use Rattle.std.specs.Prelude.{◌≡◌};
ghost use Rattle.serde_json.specs.Find.{as_str};
ghost use Rattle.expression_draft.specs.Answers.{Gives, GivesNext};
ghost use Rattle.expression_draft.specs.Members.{named, texts_in, texts_of};

use crate::faults::Misfit;
use crate::members::{Items, Members};
use link_port::{List, Text, Value};
use std::alloc::Global;

/// The text that a JSON string has.
pub fn read_text(alloc: Global, value: Value) -> Result<Text, Misfit>
    ensures { Gives result (as_str value) }
{
    let text = text_of(alloc, &value);
    drop(value);
    text
}

fn text_of(alloc: Global, value: &Value) -> Result<Text, Misfit>
    ensures { Gives result (as_str value.now) }
{
    match value.inner().as_str() {
        Some(text) => Ok(Text::of(alloc, text)?),
        None => Err(Misfit::Unfit),
    }
}

/// The text of the first member, which has this name.
pub fn next_text(alloc: Global, members: &mut Members, name: &str) -> Result<Text, Misfit>
    ensures { GivesNext result members.new (named name.now as_str members.old) }
{
    match members.next(name) {
        Some(value) => read_text(alloc, value),
        None => Err(Misfit::Unfit),
    }
}

/// The strings of an array.
pub fn read_texts(alloc: Global, value: Value) -> Result<List<Text>, Misfit>
    ensures { Gives result (texts_of value) }
{
    match Items::of(value) {
        Some(items) => texts_in(alloc, items),
        None => Err(Misfit::Unfit),
    }
}

fn texts_in(alloc: Global, mut items: Items) -> Result<List<Text>, Misfit>
    ensures { Gives result (texts_in items) }
{
    let mut texts = List::new(alloc);
    while let Some(value) = items.next() {
        let text = read_text(alloc, value)?;
        texts.push(text)?;
    }
    Ok(texts)
}

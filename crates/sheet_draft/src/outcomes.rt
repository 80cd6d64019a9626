// Outcomes.
ghost use Rattle.std.specs.Prelude.{◌≡◌};
ghost use Rattle.expression_draft.specs.Answers.{Gives, GivesNext};
ghost use Rattle.expression_draft.specs.Members.{named};
ghost use Rattle.sheet_draft.specs.Rules.{outcome_of, outcome_in, stream_in, reply_in, raw_of, raw_named};

use crate::drafts::EndingDraft;
use call_form::Raw;
use expression_draft::{Members, Misfit, next_expr, next_ref, whole};
use link_port::Value;
use std::alloc::Global;

/// Reads an outcome.
pub fn read_outcome(alloc: Global, value: Value) -> Result<EndingDraft, Misfit>
    ensures { Gives result (outcome_of value) }
{
    match Members::of(value) {
        Some(mut members) => outcome_in(alloc, &mut members),
        None => Err(Misfit::Unfit),
    }
}

fn outcome_in(alloc: Global, members: &mut Members) -> Result<EndingDraft, Misfit>
    ensures { Gives result (outcome_in members.old) }
{
    if members.begins_with("each") {
        stream_in(alloc, members)
    } else {
        reply_in(alloc, members)
    }
}

#[tactic(auto, unfolding(crate::specs::Rules::stream_in))]
fn stream_in(alloc: Global, members: &mut Members) -> Result<EndingDraft, Misfit>
    ensures { Gives result (stream_in members.old) }
{
    let each = next_expr(alloc, members, "each")?;
    match next_expr(alloc, members, "last") {
        Ok(last) => match next_ref(alloc, members, "stream") {
            Ok(over) => whole(members, EndingDraft::Stream { over, each, last }),
            Err(misfit) => {
                drop((each, last));
                Err(misfit)
            }
        },
        Err(misfit) => {
            drop(each);
            Err(misfit)
        }
    }
}

#[tactic(auto, unfolding(crate::specs::Rules::reply_in))]
fn reply_in(alloc: Global, members: &mut Members) -> Result<EndingDraft, Misfit>
    ensures { Gives result (reply_in members.old) }
{
    let reply = next_expr(alloc, members, "reply")?;
    if members.is_empty() {
        return Ok(EndingDraft::Reply(reply));
    }
    match next_raw(members, "upgrade") {
        Ok(raw) => whole(members, EndingDraft::Upgrade { raw, reply }),
        Err(misfit) => {
            drop(reply);
            Err(misfit)
        }
    }
}

// What is done with the bytes after an upgrade, by the first member, which has this name.
fn next_raw(members: &mut Members, name: &str) -> Result<Raw, Misfit>
    ensures { GivesNext result members.new (named name.now raw_of members.old) }
{
    match members.next(name) {
        Some(value) => {
            let raw = raw_of(&value);
            drop(value);
            raw
        }
        None => Err(Misfit::Unfit),
    }
}

fn raw_of(value: &Value) -> Result<Raw, Misfit>
    ensures { Gives result (raw_of value.now) }
{
    match value.inner().as_str() {
        Some(word) => raw_named(word),
        None => Err(Misfit::Unfit),
    }
}

fn raw_named(word: &str) -> Result<Raw, Misfit>
    ensures { Gives result (raw_named word.now) }
{
    match word {
        "echo" => Ok(Raw::Echo),
        "discard" => Ok(Raw::Discard),
        _ => Err(Misfit::Unfit),
    }
}

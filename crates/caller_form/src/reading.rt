// Replies from payloads.
ghost use Rattle.std.specs.Prelude.{◌≡◌, codes, IfOk, MatchResult};
ghost use Rattle.serde_json.specs.Find.{get};
ghost use Rattle.serde_json.specs.View.{view};
ghost use Rattle.call_form.specs.CallOf.{IsObject};
ghost use Rattle.caller_form.specs.ReplyOf.{ReadsReply, Reads, ReadsJson, utf8_of, json_of};
ghost use Rattle.caller_form.specs.ReplyOf.{continues_of, error_of, parameters_of, reply_in};

use crate::faults::ReplyFault;
use call_form::Reply;
use link_port::{Text, Value};
use serde_json::{Map, Value as Json};
use simdutf8::compat;
use std::alloc::Global;

/// Reads the payload of a message as a reply (varlink.org, "Method Call"). Its parameters are moved
/// out of the JSON value and not copied. A fault other than `Memory` is the payload's first one.
#[tactic(auto, unfolding(crate::specs::ReplyOf::reply_of))]
pub fn read_reply(alloc: Global, payload: &[u8]) -> Result<Reply, ReplyFault>
    ensures reply { ReadsReply payload.now result }
    ensures parameters { IfOk result (λ reply. IsObject reply.parameters) }
{
    let text = utf8_text(payload)?;
    let message = json_value(alloc, text)?;
    if message.is_object() {
        reply_from(alloc, message)
    } else {
        drop(message);
        Err(ReplyFault::NotObject)
    }
}

pub fn utf8_text(payload: &[u8]) -> Result<&str, ReplyFault>
    ensures { MatchResult result
        (λ text. (text.now ≡ payload.now) × (utf8_of payload.now ≡ Ok payload.now))
        (λ fault. utf8_of payload.now ≡ Err fault) }
{
    match compat::from_utf8(payload) {
        Ok(text) => Ok(text),
        Err(error) => Err(ReplyFault::NotUtf8 {
            at: error.valid_up_to() as u64,
        }),
    }
}

fn json_value(alloc: Global, text: &str) -> Result<Json, ReplyFault>
    ensures { ReadsJson result (json_of text.now) }
{
    match Json::from_str(alloc, text) {
        Ok(message) => Ok(message),
        Err(error) => match error.classify() {
            serde_json::Category::Memory => Err(ReplyFault::Memory),
            _ => Err(ReplyFault::NotJson),
        },
    }
}

// The members of a reply, in the order in which they are refused.
#[tactic(auto, unfolding(crate::specs::ReplyOf::reply_in))]
fn reply_from(alloc: Global, message: Json) -> Result<Reply, ReplyFault>
    ensures reply { Reads result (reply_in (view message)) }
    ensures parameters { IfOk result (λ reply. IsObject reply.parameters) }
{
    let continues = continues(&message)?;
    let error = error(alloc, &message)?;
    let parameters = take_parameters(alloc, message)?;
    Ok(Reply {
        parameters,
        continues,
        error,
    })
}

fn continues(message: &Json) -> Result<bool, ReplyFault>
    ensures { result ≡ continues_of (get (codes "continues") (view message.now)) }
{
    match message.get("continues") {
        None | Some(Json::Null) => Ok(false),
        Some(Json::Bool(flag)) => Ok(*flag),
        Some(_) => Err(ReplyFault::BadContinues),
    }
}

fn error(alloc: Global, message: &Json) -> Result<Option<Text>, ReplyFault>
    ensures { Reads result (error_of (get (codes "error") (view message.now))) }
{
    match message.get("error") {
        None | Some(Json::Null) => Ok(None),
        Some(Json::String(name)) => Ok(Some(Text::of(alloc, name.as_str())?)),
        Some(_) => Err(ReplyFault::BadError),
    }
}

fn take_parameters(alloc: Global, mut message: Json) -> Result<Value, ReplyFault>
    ensures value { result ≡ parameters_of (get (codes "parameters") (view message)) }
    ensures object { IfOk result (λ parameters. IsObject parameters) }
{
    match message.get_mut("parameters") {
        None | Some(Json::Null) => Ok(Value::of(Json::Object(Map::new(alloc)))),
        Some(parameters) => {
            if parameters.is_object() {
                Ok(Value::of(parameters.take()))
            } else {
                Err(ReplyFault::BadParameters)
            }
        }
    }
}

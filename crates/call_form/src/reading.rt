//! Calls from payloads.
ghost use Rattle.std.specs.Prelude.{◌≡◌, codes, IfOk, MatchResult};
ghost use Rattle.serde_json.specs.Find.{get};
ghost use Rattle.serde_json.specs.View.{view};
ghost use Rattle.call_form.specs.CallOf.{IsObject, ReadsCall, Reads, ReadsJson, utf8_of, json_of};
ghost use Rattle.call_form.specs.CallOf.{method_of};
ghost use Rattle.call_form.specs.CallOf.{flag_of, parameters_of, call_in};

use crate::{Call, CallFault};
use link_port::{Text, Value};
use serde_json::{Map, Value as Json};
use simdutf8::compat;
use std::alloc::Global;

/// Reads the payload of a message as a call. Its parameters are moved out of the JSON value and not
/// copied.
#[tactic(auto, unfolding(crate::specs::CallOf::call_of))]
pub fn read_call(alloc: Global, payload: &[u8]) -> Result<Call, CallFault>
    ensures call { ReadsCall payload.now result }
    ensures parameters { IfOk result (λ call. IsObject call.parameters) }
{
    let text = utf8_text(payload)?;
    let message = json_value(alloc, text)?;
    if message.is_object() {
        call_from(alloc, message)
    } else {
        Err(CallFault::NotObject)
    }
}

fn utf8_text(payload: &[u8]) -> Result<&str, CallFault>
    ensures { MatchResult result
        (λ text. (text.now ≡ payload.now) × (utf8_of payload.now ≡ Ok payload.now))
        (λ fault. utf8_of payload.now ≡ Err fault) }
{
    match compat::from_utf8(payload) {
        Ok(text) => Ok(text),
        Err(error) => Err(CallFault::NotUtf8 {
            at: error.valid_up_to() as u64,
        }),
    }
}

fn json_value(alloc: Global, text: &str) -> Result<Json, CallFault>
    ensures { ReadsJson result (json_of text.now) }
{
    match Json::from_str(alloc, text) {
        Ok(message) => Ok(message),
        Err(error) => match error.classify() {
            serde_json::Category::Memory => Err(CallFault::Memory),
            _ => Err(CallFault::NotJson),
        },
    }
}

/// The members of a call, in the order in which they are refused.
#[tactic(auto, unfolding(crate::specs::CallOf::call_in))]
fn call_from(alloc: Global, message: Json) -> Result<Call, CallFault>
    ensures call { Reads result (call_in (view message)) }
    ensures parameters { IfOk result (λ call. IsObject call.parameters) }
{
    let method = method(alloc, &message)?;
    let oneway = flag(&message, "oneway")?;
    let more = flag(&message, "more")?;
    let upgrade = flag(&message, "upgrade")?;
    let parameters = take_parameters(alloc, message)?;
    Ok(Call {
        method,
        parameters,
        oneway,
        more,
        upgrade,
    })
}

fn method(alloc: Global, message: &Json) -> Result<Text, CallFault>
    ensures { Reads result (method_of (get (codes "method") (view message.now))) }
{
    match message.get("method") {
        Some(Json::String(word)) => Ok(Text::of(alloc, word.as_str())?),
        _ => Err(CallFault::NoMethod),
    }
}

fn flag(message: &Json, name: &str) -> Result<bool, CallFault>
    ensures { result ≡ flag_of (get name.now (view message.now)) }
{
    match message.get(name) {
        None | Some(Json::Null) => Ok(false),
        Some(Json::Bool(flag)) => Ok(*flag),
        Some(_) => Err(CallFault::BadFlag),
    }
}

fn take_parameters(alloc: Global, mut message: Json) -> Result<Value, CallFault>
    ensures value { result ≡ parameters_of (get (codes "parameters") (view message)) }
    ensures object { IfOk result (λ parameters. IsObject parameters) }
{
    match message.get_mut("parameters") {
        None | Some(Json::Null) => Ok(Value::of(Json::Object(Map::new(alloc)))),
        Some(parameters) => {
            if parameters.is_object() {
                Ok(Value::of(parameters.take()))
            } else {
                Err(CallFault::BadParameters)
            }
        }
    }
}

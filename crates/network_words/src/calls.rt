// The call that words ask for.
ghost use Rattle.std.specs.Prelude.{◌≡◌, option_map, IfOk, IfSome};
ghost use Rattle.call_form.specs.CallOf.{IsObject};
ghost use Rattle.call_form.specs.CallText.{IsSendable};
ghost use Rattle.link_port.specs.SoundTrees.{IsSound, HasUtf8};
ghost use Rattle.network_words.specs.Meanings.{Means, HasRunnable, by_kind, call_with, child, parameters_of, way_of};
ghost use Rattle.network_words.specs.declared.settings.Kind.TheVariants as command;

use crate::given::Given;
use crate::meanings::{Network, Way, address_of};
use call_form::Call;
use link_port::{Memory, Text, Value};
use serde_json::{Map, Value as Json};
use std::alloc::Global;
use typed_value::has_only_ints;

/// The call of a method by a way.
pub(crate) fn call(alloc: Global, given: &Given<'_>) -> Result<Option<Network>, Memory>
    ensures meaning { Means result (by_kind command.Call given.now) }
    ensures runnable { IfOk result HasRunnable }
{
    let Some(method) = given.first else {
        return Ok(None);
    };
    let Some(way) = way(alloc, given)? else {
        return Ok(None);
    };
    match made(alloc, given, method) {
        Ok(Some(call)) => Ok(Some(Network::Call {
            way,
            call,
            typed: given.typed,
        })),
        Ok(None) => {
            drop(way);
            Ok(None)
        }
        Err(stop) => {
            drop(way);
            Err(stop)
        }
    }
}

// The call itself.
fn made(alloc: Global, given: &Given<'_>, method: &str) -> Result<Option<Call>, Memory>
    ensures call { Means result (call_with given.now method.now) }
    ensures runnable { IfOk result (λ found. IfSome found (λ call. IsSendable call)) }
{
    let method = Text::of(alloc, method)?;
    match parameters(alloc, given.second) {
        Ok(Some(parameters)) => Ok(Some(Call {
            method,
            parameters,
            oneway: given.oneway,
            more: given.more,
            upgrade: false,
        })),
        Ok(None) => {
            drop(method);
            Ok(None)
        }
        Err(stop) => {
            drop(method);
            Err(stop)
        }
    }
}

// The parameters of a call: an object whose numbers are whole, and an empty one where there is no word.
fn parameters(alloc: Global, word: Option<&str>) -> Result<Option<Value>, Memory>
    ensures parameters { Means result (parameters_of (option_map (λ text. text.now) word.entry)) }
    ensures object { IfOk result (λ found. IfSome found (λ value. IsObject value)) }
    ensures sound { IfOk result (λ found. IfSome found (λ value. IsSound value)) }
    ensures utf8 { IfOk result (λ found. IfSome found (λ value. HasUtf8 value)) }
{
    let Some(text) = word else {
        return Ok(Some(Value::of(Json::Object(Map::new(alloc)))));
    };
    match Json::from_str(alloc, text) {
        Ok(json) if json.is_object() && has_only_ints(&json) => Ok(Some(Value::of(json))),
        Ok(json) => {
            drop(json);
            Ok(None)
        }
        Err(error) => match error.classify() {
            serde_json::Category::Memory => Err(Memory),
            _ => Ok(None),
        },
    }
}

// By which way the service is called.
fn way(alloc: Global, given: &Given<'_>) -> Result<Option<Way>, Memory>
    ensures { Means result (way_of given.now) }
{
    match (given.at, given.resolver, given.child) {
        (Some(at), None, None) => match address_of(alloc, at)? {
            Some(at) => Ok(Some(Way::At(at))),
            None => Ok(None),
        },
        (None, Some(resolver), None) => match address_of(alloc, resolver)? {
            Some(resolver) => Ok(Some(Way::Resolver(resolver))),
            None => Ok(None),
        },
        (None, Some(resolver), Some(program)) => child(alloc, resolver, program),
        _ => Ok(None),
    }
}

// Over a bridge that is started.
fn child(alloc: Global, resolver: &str, program: &str) -> Result<Option<Way>, Memory>
    ensures { Means result (child program.now resolver.now) }
{
    let program = Text::of(alloc, program)?;
    match address_of(alloc, resolver) {
        Ok(Some(resolver)) => Ok(Some(Way::Child { program, resolver })),
        Ok(None) => {
            drop(program);
            Ok(None)
        }
        Err(stop) => {
            drop(program);
            Err(stop)
        }
    }
}

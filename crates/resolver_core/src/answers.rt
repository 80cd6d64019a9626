// The replies of a resolver.
ghost use Rattle.std.specs.Prelude.{◌≡◌, IfOk, option_map, option_copied};
ghost use Rattle.serde_json.specs.Data.{string, object, no_members, member};
ghost use Rattle.serde_json.specs.View.{view};
ghost use Rattle.link_port.specs.SoundTrees.{IsSound, HasUtf8};
ghost use Rattle.call_form.specs.CallOf.{IsObject};
ghost use Rattle.call_form.specs.ReplyText.{IsWritable};
ghost use Rattle.call_form.specs.StdErrors.{standard_of};
ghost use Rattle.resolver_core.specs.Places.{reply_of, describes, resolves, resolution, plain};
ghost use Rattle.resolver_core.specs.Places.{is_known};
ghost use Rattle.call_form.specs.declared.StdError.TheVariants as error;

use crate::infos::{resolver_info, service_info};
use crate::methods::{Asked, asked_by, interface_of};
use crate::registries::Registry;
use call_form::{Call, RESOLVER_TEXT, Reply, SERVICE_TEXT, StdError, standard};
use link_doors::Address;
use link_port::{Memory, Text, Value};
use serde_json::{Value as Json, json};
use std::alloc::Global;

/// The reply to a call.
#[tactic(auto, unfolding(crate::specs::Places::reply_of))]
pub fn reply_to(alloc: Global, registry: &Registry, call: &Call) -> Result<Reply, Memory>
    ensures reply { IfOk result (λ reply. reply ≡ reply_of registry.now call.now) }
    ensures writable { IfOk result IsWritable }
{
    let word = call.method.as_str();
    let asked = asked_by(word);
    if call.upgrade && is_known(asked) {
        return refuse_parameter(alloc, "upgrade");
    }
    match asked {
        Asked::NoInterface => refuse_interface(alloc, interface_of(word)),
        Asked::NoMethod => standard(alloc, StdError::MethodNotFound(Text::of(alloc, word)?)),
        Asked::ServiceInfo => service_info(alloc),
        Asked::Description => describe(alloc, call.parameters.inner().get("interface")),
        Asked::ResolverInfo => resolver_info(alloc, registry.addresses()),
        Asked::Resolve => resolve(alloc, registry, call.parameters.inner().get("interface")),
    }
}

// Whether it is a method of the resolver.
fn is_known(asked: Asked) -> bool
    ensures { result ≡ is_known asked }
{
    match asked {
        Asked::NoInterface | Asked::NoMethod => false,
        _ => true,
    }
}

// Tells the definition of an interface.
fn describe(alloc: Global, interface: Option<&Json>) -> Result<Reply, Memory>
    ensures reply { IfOk result
        (λ reply. reply ≡ describes (option_map (λ found. view found.now) interface.entry)) }
    ensures writable { IfOk result IsWritable }
{
    match interface {
        Some(Json::String(name)) => describe_by(alloc, name.as_str()),
        _ => refuse_parameter(alloc, "interface"),
    }
}

// Tells the definition of the interface of this name.
fn describe_by(alloc: Global, name: &str) -> Result<Reply, Memory>
    ensures reply { IfOk result (λ reply. reply ≡ describes (Some (string name.now))) }
    ensures writable { IfOk result IsWritable }
{
    if name == "org.varlink.service" {
        reply_with(alloc, "description", SERVICE_TEXT)
    } else if name == "org.varlink.resolver" {
        reply_with(alloc, "description", RESOLVER_TEXT)
    } else {
        refuse_interface(alloc, name)
    }
}

// Tells the address of an interface.
fn resolve(alloc: Global, registry: &Registry, interface: Option<&Json>) -> Result<Reply, Memory>
    ensures reply { IfOk result
        (λ reply. reply ≡ resolves registry.now
        (option_map (λ found. view found.now) interface.entry)) }
    ensures writable { IfOk result IsWritable }
{
    match interface {
        Some(Json::String(name)) => {
            let name = name.as_str();
            resolve_to(alloc, name, registry.address(name))
        }
        _ => refuse_parameter(alloc, "interface"),
    }
}

// Tells the address that was found for a name.
fn resolve_to(alloc: Global, name: &str, address: Option<&Address>) -> Result<Reply, Memory>
    ensures reply { IfOk result
        (λ reply. reply ≡ resolution name.now (option_copied address.entry)) }
    ensures writable { IfOk result IsWritable }
{
    match address {
        Some(address) => {
            let text = address.text(alloc)?;
            reply_with(alloc, "address", text.as_str())
        }
        None => not_registered(alloc, name),
    }
}

// Tells that no address is registered for a name.
fn not_registered(alloc: Global, name: &str) -> Result<Reply, Memory>
    ensures reply { IfOk result (λ reply. reply ≡ resolution name.now None) }
    ensures writable { IfOk result IsWritable }
{
    let error = Text::of(alloc, "org.varlink.resolver.InterfaceNotFound")?;
    match reply_with(alloc, "interface", name) {
        Ok(reply) => Ok(Reply {
            error: Some(error),
            ..reply
        }),
        Err(Memory) => {
            drop(error);
            Err(Memory)
        }
    }
}

// A reply with one field.
fn reply_with(alloc: Global, field: &str, text: &str) -> Result<Reply, Memory>
    ensures reply { IfOk result
        (λ reply. reply ≡ plain (object (member field.now (string text.now) no_members))) }
    ensures writable { IfOk result IsWritable }
{
    let parameters = json!(in alloc; {(field): text})?;
    Ok(Reply {
        parameters: Value::of(parameters),
        continues: false,
        error: None,
    })
}

// Tells that the resolver has no such interface.
fn refuse_interface(alloc: Global, interface: &str) -> Result<Reply, Memory>
    ensures reply { IfOk result
        (λ reply. reply ≡ standard_of (error.InterfaceNotFound interface.now)) }
    ensures writable { IfOk result IsWritable }
{
    standard(
        alloc,
        StdError::InterfaceNotFound(Text::of(alloc, interface)?),
    )
}

// Tells that a parameter or a flag is refused.
fn refuse_parameter(alloc: Global, parameter: &str) -> Result<Reply, Memory>
    ensures reply { IfOk result
        (λ reply. reply ≡ standard_of (error.InvalidParameter parameter.now)) }
    ensures writable { IfOk result IsWritable }
{
    standard(
        alloc,
        StdError::InvalidParameter(Text::of(alloc, parameter)?),
    )
}

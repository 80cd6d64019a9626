// Calls that a client makes by itself.
ghost use Rattle.std.specs.Prelude.{◌≡◌, IfOk};
ghost use Rattle.call_form.specs.CallText.{IsSendable};
ghost use Rattle.standard_calls.specs.Asking.{asking, resolve_call, description_call};

use call_form::Call;
use link_port::{Memory, Text, Value};
use serde_json::json;
use std::alloc::Global;

/// The call that asks a resolver for the address of an interface (varlink.org, "Resolver": `Resolve`).
pub fn resolve_call(alloc: Global, interface: &str) -> Result<Call, Memory>
    ensures call { IfOk result (λ call. call ≡ resolve_call interface.now) }
    ensures sendable { IfOk result (λ call. IsSendable call) }
{
    asking(alloc, "org.varlink.resolver.Resolve", interface)
}

/// The call that asks a service for the definition of an interface (varlink.org, "Service":
/// `GetInterfaceDescription`).
pub fn description_call(alloc: Global, interface: &str) -> Result<Call, Memory>
    ensures call { IfOk result (λ call. call ≡ description_call interface.now) }
    ensures sendable { IfOk result (λ call. IsSendable call) }
{
    asking(
        alloc,
        "org.varlink.service.GetInterfaceDescription",
        interface,
    )
}

// A call that names an interface.
fn asking(alloc: Global, method: &str, interface: &str) -> Result<Call, Memory>
    ensures call { IfOk result (λ call. call ≡ asking method.now interface.now) }
    ensures sendable { IfOk result (λ call. IsSendable call) }
{
    let method = Text::of(alloc, method)?;
    let parameters = json!(in alloc; {"interface": interface})?;
    Ok(Call {
        method,
        parameters: Value::of(parameters),
        oneway: false,
        more: false,
        upgrade: false,
    })
}

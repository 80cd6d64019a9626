//! The standard's own error replies.
ghost use Rattle.std.specs.Prelude.{◌≡◌, false, Some, IfOk};
ghost use Rattle.link_port.specs.SoundTrees.{IsSound, HasUtf8};
ghost use Rattle.call_form.specs.CallOf.{IsObject};
ghost use Rattle.call_form.specs.ReplyText.{IsWritable};
ghost use Rattle.call_form.specs.StdErrors.{bare_error, error_reply, standard_of};

use crate::{Reply, StdError};
use link_port::{Memory, Text, Value};
use serde_json::{Map, Value as Json, json};
use std::alloc::Global;

/// The error reply of an error of `org.varlink.service`.
pub fn standard(alloc: Global, error: StdError) -> Result<Reply, Memory>
    ensures reply { IfOk result (λ reply. reply ≡ standard_of error) }
    ensures writable { IfOk result (λ reply. IsWritable reply) }
{
    match error {
        StdError::InterfaceNotFound(interface) => {
            error_reply(
                alloc,
                "org.varlink.service.InterfaceNotFound",
                "interface",
                &interface,
            )
        }
        StdError::MethodNotFound(method) => {
            error_reply(
                alloc,
                "org.varlink.service.MethodNotFound",
                "method",
                &method,
            )
        }
        StdError::MethodNotImplemented(method) => {
            error_reply(
                alloc,
                "org.varlink.service.MethodNotImplemented",
                "method",
                &method,
            )
        }
        StdError::InvalidParameter(parameter) => {
            error_reply(
                alloc,
                "org.varlink.service.InvalidParameter",
                "parameter",
                &parameter,
            )
        }
        StdError::ExpectedMore => bare_error(alloc, "org.varlink.service.ExpectedMore"),
        StdError::PermissionDenied => bare_error(alloc, "org.varlink.service.PermissionDenied"),
    }
}

/// An error reply with one field.
fn error_reply(alloc: Global, name: &str, field: &str, value: &Text) -> Result<Reply, Memory>
    ensures reply { IfOk result (λ reply. reply ≡ error_reply name.now field.now value.now) }
    ensures writable { IfOk result (λ reply. IsWritable reply) }
{
    let parameters = json!(in alloc; {(field): value.as_str()})?;
    error_with(alloc, name, Value::of(parameters))
}

/// An error reply without a field.
fn bare_error(alloc: Global, name: &str) -> Result<Reply, Memory>
    ensures reply { IfOk result (λ reply. reply ≡ bare_error name.now) }
    ensures writable { IfOk result (λ reply. IsWritable reply) }
{
    error_with(alloc, name, Value::of(Json::Object(Map::new(alloc))))
}

/// An error reply with these parameters.
fn error_with(alloc: Global, name: &str, parameters: Value) -> Result<Reply, Memory>
    requires object { IsObject parameters }
    requires sound { IsSound parameters }
    requires utf8 { HasUtf8 parameters }
    ensures reply { IfOk result
        (λ reply. reply ≡ record { parameters = parameters; continues = false; error = Some name.now }) }
    ensures writable { IfOk result (λ reply. IsWritable reply) }
{
    match Text::of(alloc, name) {
        Ok(name) => Ok(Reply {
            parameters,
            continues: false,
            error: Some(name),
        }),
        Err(Memory) => {
            drop(parameters);
            Err(Memory)
        }
    }
}

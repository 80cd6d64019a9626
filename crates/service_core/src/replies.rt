// Single replies.
ghost use Rattle.std.specs.Prelude.{◌≡◌, false, IfOk};
ghost use Rattle.serde_json.specs.View.{view};
ghost use Rattle.link_port.specs.SoundTrees.{IsSound};
ghost use Rattle.call_form.specs.CallOf.{IsObject};
ghost use Rattle.call_form.specs.ReplyText.{IsWritable};
ghost use Rattle.call_form.specs.StdErrors.{standard_of};
ghost use Rattle.call_form.specs.declared.StdError.TheVariants as error;
ghost use Rattle.service_core.specs.Places.{plain, one, with_text};

use call_form::{Outcome, Reply, StdError, standard};
use link_port::{List, Memory, Text, Value};
use serde_json::json;
use std::alloc::Global;

/// The reply with these parameters, which is no error and the only one.
pub fn plain(parameters: Value) -> Reply
    ensures { result ≡ plain parameters }
{
    Reply {
        parameters,
        continues: false,
        error: None,
    }
}

/// The outcome of this reply alone.
pub fn one(alloc: Global, reply: Reply) -> Result<Outcome, Memory>
    ensures { IfOk result (λ outcome. outcome ≡ one reply) }
{
    let mut replies = List::new(alloc);
    replies.push(reply)?;
    Ok(Outcome { replies, raw: None })
}

/// The reply with one text.
pub fn with_text(alloc: Global, field: &str, text: &str) -> Result<Reply, Memory>
    ensures reply { IfOk result (λ reply. reply ≡ with_text field.now text.now) }
    ensures writable { IfOk result IsWritable }
{
    let parameters = json!(in alloc; {(field): text})?;
    Ok(plain(Value::of(parameters)))
}

/// Tells that the service has no such interface.
pub fn no_interface(alloc: Global, interface: &str) -> Result<Reply, Memory>
    ensures reply { IfOk result (λ reply. reply ≡ standard_of (error.InterfaceNotFound interface.now)) }
    ensures writable { IfOk result IsWritable }
{
    standard(
        alloc,
        StdError::InterfaceNotFound(Text::of(alloc, interface)?),
    )
}

/// Tells that the interface has no such method.
pub fn no_method(alloc: Global, method: &str) -> Result<Reply, Memory>
    ensures reply { IfOk result (λ reply. reply ≡ standard_of (error.MethodNotFound method.now)) }
    ensures writable { IfOk result IsWritable }
{
    standard(alloc, StdError::MethodNotFound(Text::of(alloc, method)?))
}

/// Tells that the service has nothing for the method.
pub fn no_rule(alloc: Global, method: &str) -> Result<Reply, Memory>
    ensures reply { IfOk result (λ reply. reply ≡ standard_of (error.MethodNotImplemented method.now)) }
    ensures writable { IfOk result IsWritable }
{
    standard(
        alloc,
        StdError::MethodNotImplemented(Text::of(alloc, method)?),
    )
}

/// Tells that a parameter or a flag is refused.
pub fn bad_parameter(alloc: Global, parameter: &str) -> Result<Reply, Memory>
    ensures reply { IfOk result (λ reply. reply ≡ standard_of (error.InvalidParameter parameter.now)) }
    ensures writable { IfOk result IsWritable }
{
    standard(
        alloc,
        StdError::InvalidParameter(Text::of(alloc, parameter)?),
    )
}

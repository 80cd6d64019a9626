// What a request comes to.
use call_form::Raw;
use link_port::{List, Text};
use typed_value::Val;

/// What a request comes to.
#[derive(Drop)]
pub enum Done {
    /// The parameters of its replies, one at least.
    Replies(List<Val>),
    /// A guard refused it, and the registers are as before.
    Refused {
        /// The qualified name of the error.
        error: Text,
        /// The error's parameters.
        parameters: Val,
    },
    /// One reply, and then raw bytes.
    Upgrade {
        /// What is done with them.
        raw: Raw,
        /// The parameters of the reply.
        parameters: Val,
    },
    /// A register, a reply or the parameters of a refusal would have too many levels, and the registers
    /// are as before.
    TooDeep,
}

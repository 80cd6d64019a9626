//! The messages of Varlink: calls read from payloads, replies written as text.
#![tactic(auto)]

ghost use Rattle.std.specs.Prelude.{◌≡◌, ◌↔◌, IsTrue};

use link_port::{List, Memory, Text, Value};

mod errors;
mod interfaces;
mod laws;
mod reading;
mod writing;

pub use errors::standard;
pub use interfaces::{RESOLVER_TEXT, SERVICE_TEXT};
pub use laws::{
    call_limit, calls_are, calls_read_back, one_call, one_message, replies_read_back,
    texts_are_utf8, trees_read_back,
};
pub use reading::read_call;
pub use writing::reply_text;

/// The greatest length of a call's payload, in bytes.
pub const CALL_LIMIT: u64 = 4_194_304;

/// A method call (varlink.org, "Method Call").
#[derive(Drop)]
pub struct Call {
    /// The interface's name, a dot and the method's name.
    pub method: Text,
    /// An object.
    pub parameters: Value,
    /// The caller wants no reply.
    pub oneway: bool,
    /// The caller takes several replies.
    pub more: bool,
    /// The caller asks for another protocol on the connection after the reply.
    pub upgrade: bool,
}

/// A reply, or an error reply.
#[derive(Drop)]
pub struct Reply {
    /// An object. Of an error reply it holds the error's fields.
    pub parameters: Value,
    /// More replies to the same call follow.
    pub continues: bool,
    /// The qualified name of the error.
    pub error: Option<Text>,
}

/// What is done with the bytes after an accepted upgrade.
#[derive(Debug, Clone, Copy, PartialEq, Eq)]
pub enum Raw {
    /// They are sent back.
    Echo,
    /// They are dropped.
    Discard,
}

/// All that a call is answered with.
#[derive(Drop)]
pub struct Outcome {
    /// The replies, in order.
    pub replies: List<Reply>,
    /// What follows on the connection, if an upgrade is accepted.
    pub raw: Option<Raw>,
}

/// An error of the interface `org.varlink.service`, with its field if it has one.
#[derive(Debug, Drop)]
pub enum StdError {
    /// The service has no such interface.
    InterfaceNotFound(Text),
    /// The interface has no such method.
    MethodNotFound(Text),
    /// The method is defined and the service has nothing for it.
    MethodNotImplemented(Text),
    /// The parameter or flag of this name is refused.
    InvalidParameter(Text),
    /// The method gives several replies and was called without `more`.
    ExpectedMore,
    /// The caller may not make this call.
    PermissionDenied,
}

/// Why a payload is no call: the first that applies, in this order. `Memory` alone tells nothing
/// of the payload.
#[derive(Debug, Clone, Copy, PartialEq, Eq)]
pub enum CallFault {
    /// It is not UTF-8.
    NotUtf8 {
        /// The length of its longest front that is UTF-8.
        at: u64,
    },
    /// It is no JSON text that nests at most 127 deep.
    NotJson,
    /// It is no JSON object.
    NotObject,
    /// `method` is absent or no string.
    NoMethod,
    /// `oneway`, `more` or `upgrade` is neither a boolean nor null.
    BadFlag,
    /// `parameters` is neither an object nor null.
    BadParameters,
    /// Memory was asked for and not granted.
    Memory,
}

impl CallFault {
    /// Whether it is want of memory.
    pub fn is_memory(&self) -> bool
        ensures { IsTrue result ↔ (self.now ≡ CallFault.Memory) }
    {
        matches!(self, CallFault::Memory)
    }
}

impl From<Memory> for CallFault {
    ghost use Rattle.std.specs.Prelude.{◌≡◌};
    ghost use Rattle.call_form.specs.declared.CallFault.TheVariants as fault;

    ghost from_gives = { λ _ made. made ≡ fault.Memory };

    fn from(_memory: Memory) -> CallFault {
        CallFault::Memory
    }
}

// Why a payload is no reply.
use json::Invalid;
use link_port::Memory;
use std::error::Error;
use std::fmt;

/// Why a payload is no reply: the first that applies, in this order. `Memory` alone tells nothing
/// of the payload.
#[derive(Debug, Clone, Copy, PartialEq, Eq)]
pub enum ReplyFault {
    /// It is not UTF-8.
    NotUtf8 {
        /// The length of its longest front that is UTF-8.
        at: u64,
    },
    /// It is no JSON text that nests at most 127 deep.
    NotJson,
    /// It is no JSON object.
    NotObject,
    /// `continues` is neither a boolean nor null.
    BadContinues,
    /// `error` is neither a string nor null.
    BadError,
    /// `parameters` is neither an object nor null.
    BadParameters,
    /// Memory was asked for and not granted.
    Memory,
}

impl From<Memory> for ReplyFault {
    ghost use Rattle.std.specs.Prelude.{◌≡◌};
    ghost use Rattle.caller_form.specs.declared.faults.ReplyFault.TheVariants as fault;

    ghost from_gives = { λ _ made. made ≡ fault.Memory };

    fn from(_memory: Memory) -> ReplyFault {
        ReplyFault::Memory
    }
}

impl From<Invalid> for ReplyFault {
    ghost use Rattle.std.specs.Prelude.{◌≡◌};
    ghost use Rattle.caller_form.specs.declared.faults.ReplyFault.TheVariants as fault;

    ghost from_gives = { λ _ made. made ≡ fault.NotJson };

    fn from(_invalid: Invalid) -> ReplyFault {
        ReplyFault::NotJson
    }
}

impl fmt::Display for ReplyFault {
    ghost use Rattle.std.specs.Prelude.{Some};
    ghost use Rattle.caller_form.specs.FaultTexts.{fault_text};

    ghost output = { λ fault. Some (fault_text fault) };

    fn fmt<W: fmt::Write>(&self, f: &mut fmt::Formatter<W>) -> fmt::Result {
        match self {
            ReplyFault::NotUtf8 { at } => write!(f, "not UTF-8 at {at}"),
            ReplyFault::NotJson => f.write_str("not JSON"),
            ReplyFault::NotObject => f.write_str("not an object"),
            ReplyFault::BadContinues => f.write_str("bad `continues`"),
            ReplyFault::BadError => f.write_str("bad `error`"),
            ReplyFault::BadParameters => f.write_str("bad `parameters`"),
            ReplyFault::Memory => f.write_str("out of memory"),
        }
    }
}

impl Error for ReplyFault {}

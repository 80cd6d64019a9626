// Why a reply tells no address, or nothing of a method.
use idl_grammar::IdlFault;
use link_port::{Memory, Text};
use std::error::Error;
use std::fmt;

/// Why a resolver's reply tells no address: the first that applies, in this order. `Memory` alone tells nothing
/// of the reply.
#[derive(Debug, Drop)]
pub enum NoAddress {
    /// It is the resolver's `InterfaceNotFound`.
    Missing,
    /// It is another error, of this name.
    OtherError(Text),
    /// Its `address` is absent or no string.
    NoText,
    /// Its `address` is the text of no address.
    BadAddress,
    /// Memory was not granted.
    Memory,
}

impl From<Memory> for NoAddress {
    ghost use Rattle.std.specs.Prelude.{◌≡◌};
    ghost use Rattle.standard_calls.specs.declared.faults.NoAddress.TheVariants as fault;

    ghost from_gives = { λ _ made. made ≡ fault.Memory };

    fn from(_memory: Memory) -> NoAddress {
        NoAddress::Memory
    }
}

impl fmt::Display for NoAddress {
    ghost use Rattle.std.specs.Prelude.{Some};
    ghost use Rattle.standard_calls.specs.FaultTexts.{no_address_text};

    ghost output = { λ fault. Some (no_address_text fault) };

    fn fmt<W: fmt::Write>(&self, f: &mut fmt::Formatter<W>) -> fmt::Result {
        match self {
            NoAddress::Missing => f.write_str("interface not found"),
            NoAddress::OtherError(name) => write!(f, "error {}", name.as_str()),
            NoAddress::NoText => f.write_str("no address"),
            NoAddress::BadAddress => f.write_str("bad address"),
            NoAddress::Memory => f.write_str("out of memory"),
        }
    }
}

impl Error for NoAddress {}

/// Why the reply to a call for a definition says nothing of a method's replies: the first that applies, in this
/// order. `Memory` alone tells nothing of the reply.
#[derive(Debug, Drop)]
pub enum NoDescription {
    /// It is an error, of this name.
    ErrorReply(Text),
    /// Its `description` is absent or no string.
    NoText,
    /// Its `description` is no definition.
    Idl(IdlFault),
    /// The definition has no such method.
    NoMethod,
    /// The replies of the method reach `float`, of which nothing is read.
    Float,
    /// Memory was not granted.
    Memory,
}

impl From<Memory> for NoDescription {
    ghost use Rattle.std.specs.Prelude.{◌≡◌};
    ghost use Rattle.standard_calls.specs.declared.faults.NoDescription.TheVariants as fault;

    ghost from_gives = { λ _ made. made ≡ fault.Memory };

    fn from(_memory: Memory) -> NoDescription {
        NoDescription::Memory
    }
}

impl fmt::Display for NoDescription {
    ghost use Rattle.standard_calls.specs.FaultTexts.{no_description_text};

    ghost output = { no_description_text ⟦<IdlFault as fmt::Display>⟧.output };

    fn fmt<W: fmt::Write>(&self, f: &mut fmt::Formatter<W>) -> fmt::Result {
        match self {
            NoDescription::ErrorReply(name) => write!(f, "error {}", name.as_str()),
            NoDescription::NoText => f.write_str("no description"),
            NoDescription::Idl(fault) => write!(f, "{fault}"),
            NoDescription::NoMethod => f.write_str("no such method"),
            NoDescription::Float => f.write_str("its replies have `float`"),
            NoDescription::Memory => f.write_str("out of memory"),
        }
    }
}

impl Error for NoDescription {}

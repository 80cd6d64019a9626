// Why a text is not read as a registry.
use link_port::{Memory, Text};
use std::error::Error;
use std::fmt;

/// Why a text is not read as a registry: the first that applies, in this order, where the names
/// are gone through in byte order. `Memory` alone tells nothing of the text.
#[derive(Debug, Drop)]
pub enum RegistryFault {
    /// It is no JSON text that nests at most 127 deep.
    NotJson,
    /// It is no JSON object.
    NotObject,
    /// The name is none of an interface, or that of one of the resolver's own.
    BadName(Text),
    /// What stands at the name is no string, or no address.
    BadAddress(Text),
    /// Memory was asked for and not granted.
    Memory,
}

impl From<Memory> for RegistryFault {
    ghost use Rattle.std.specs.Prelude.{◌≡◌};
    ghost use Rattle.resolver_core.specs.declared.faults.RegistryFault.TheVariants as fault;

    ghost from_gives = { λ _ made. made ≡ fault.Memory };

    fn from(_memory: Memory) -> RegistryFault {
        RegistryFault::Memory
    }
}

impl fmt::Display for RegistryFault {
    ghost use Rattle.std.specs.Prelude.{Some};
    ghost use Rattle.resolver_core.specs.Registries.{fault_text};

    ghost output = { λ fault. Some (fault_text fault) };

    fn fmt<W: fmt::Write>(&self, f: &mut fmt::Formatter<W>) -> fmt::Result {
        match self {
            RegistryFault::NotJson => f.write_str("not JSON"),
            RegistryFault::NotObject => f.write_str("not an object"),
            RegistryFault::BadName(name) => write!(f, "bad name {}", name.as_str()),
            RegistryFault::BadAddress(name) => write!(f, "bad address of {}", name.as_str()),
            RegistryFault::Memory => f.write_str("out of memory"),
        }
    }
}

impl Error for RegistryFault {}

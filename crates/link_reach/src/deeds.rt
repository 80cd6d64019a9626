// Links by number, and what was done on them.
use link_doors::Address;
use link_port::{List, Memory, Text};
use std::error::Error;
use std::fmt;

/// The number of a link.
#[derive(Debug, Clone, Copy, PartialEq, Eq)]
pub struct LinkNo(pub u64);

/// What became of the link of a number.
#[derive(Debug, Clone, Copy, PartialEq, Eq)]
pub enum LinkState {
    /// No link had the number yet.
    Unopened,
    /// It is open.
    Open,
    /// It was closed.
    Closed,
    /// It was taken out as two ends.
    Halved,
}

/// What was done by a reach.
#[derive(Debug, Drop)]
pub enum Deed {
    /// An address was dialled. That may have failed.
    Dialled(Address),
    /// A program was started as a bridge to a resolver. That may have failed.
    Started {
        /// The program.
        program: Text,
        /// The address of the resolver.
        resolver: Address,
    },
    /// Bytes were sent on a link.
    Sent {
        /// The number of the link.
        link: u64,
        /// The bytes.
        bytes: List<u8>,
    },
    /// Bytes were taken from a link.
    Took {
        /// The number of the link.
        link: u64,
        /// The bytes, at least one.
        bytes: List<u8>,
    },
    /// A take found nothing left on a link.
    Ended {
        /// The number of the link.
        link: u64,
    },
}

/// Why a call of a reach did not do its work.
#[derive(Debug, Clone, Copy, PartialEq, Eq)]
pub enum DialFault {
    /// The reach failed.
    Failed,
    /// Memory was asked for and not granted.
    Memory,
}

impl From<Memory> for DialFault {
    ghost use Rattle.std.specs.Prelude.{◌≡◌};
    ghost use Rattle.link_reach.specs.declared.deeds.DialFault.TheVariants as fault;

    ghost from_gives = { λ _ made. made ≡ fault.Memory };

    fn from(_memory: Memory) -> DialFault {
        DialFault::Memory
    }
}

impl fmt::Display for DialFault {
    ghost use Rattle.std.specs.Prelude.{Some};
    ghost use Rattle.link_reach.specs.Deeds.{fault_text};

    ghost output = { λ fault. Some (fault_text fault) };

    fn fmt<W: fmt::Write>(&self, f: &mut fmt::Formatter<W>) -> fmt::Result {
        match self {
            DialFault::Failed => f.write_str("link fault"),
            DialFault::Memory => f.write_str("out of memory"),
        }
    }
}

impl Error for DialFault {}

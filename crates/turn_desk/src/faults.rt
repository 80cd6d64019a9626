//! Why an ask had no reply.
use link_port::Memory;
use std::alloc::AllocError;

/// Why an ask had no reply.
#[derive(Debug, Drop, Clone, Copy, PartialEq, Eq)]
pub enum AskFault {
    /// The pass has no ask left.
    Worn,
    /// The history weighs this much, and the request would bring it past the limit.
    Full {
        /// The weight of the history.
        bytes: u64,
    },
    /// Memory was asked for and not granted.
    Memory,
}

impl From<AllocError> for AskFault {
    ghost use Rattle.std.specs.Prelude.{◌≡◌};
    ghost use Rattle.turn_desk.specs.declared.faults.AskFault.TheVariants as fault;

    ghost from_gives = { λ _ f. f ≡ fault.Memory };

    fn from(_error: AllocError) -> AskFault {
        AskFault::Memory
    }
}

impl From<Memory> for AskFault {
    ghost use Rattle.std.specs.Prelude.{◌≡◌};
    ghost use Rattle.turn_desk.specs.declared.faults.AskFault.TheVariants as fault;

    ghost from_gives = { λ _ f. f ≡ fault.Memory };

    fn from(_memory: Memory) -> AskFault {
        AskFault::Memory
    }
}

// Why nothing reads.
use link_port::{Memory, Text};

/// Why a JSON value has no value by a type.
#[derive(Debug, Clone, Copy, PartialEq, Eq)]
pub enum ValueFault {
    /// Nothing reads.
    Unfit,
    /// Memory was not granted.
    Memory,
}

/// Why a JSON object has no value by a struct.
#[derive(Drop)]
pub enum FieldFault {
    /// The first field that does not read.
    First(Text),
    /// Memory was not granted.
    Memory,
}

impl From<Memory> for ValueFault {
    ghost use Rattle.std.specs.Prelude.{◌≡◌};
    ghost use Rattle.typed_value.specs.declared.faults.ValueFault.TheVariants as fault;

    ghost from_gives = { λ _ made. made ≡ fault.Memory };

    fn from(_memory: Memory) -> ValueFault {
        ValueFault::Memory
    }
}

impl From<Memory> for FieldFault {
    ghost use Rattle.std.specs.Prelude.{◌≡◌};
    ghost use Rattle.typed_value.specs.declared.faults.FieldFault.TheVariants as fault;

    ghost from_gives = { λ _ made. made ≡ fault.Memory };

    fn from(_memory: Memory) -> FieldFault {
        FieldFault::Memory
    }
}

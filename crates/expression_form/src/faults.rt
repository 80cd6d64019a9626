// Why a part of a sheet is not formed.
use link_port::Memory;
use std::error::Error;
use std::fmt;

/// Why a part of a draft is nothing by a type.
#[derive(Debug, Clone, Copy, PartialEq, Eq)]
pub enum Unformed {
    /// It is not typed.
    IllTyped,
    /// Memory was not granted.
    Memory,
}

impl From<Memory> for Unformed {
    ghost use Rattle.std.specs.Prelude.{◌≡◌};
    ghost use Rattle.expression_form.specs.declared.faults.Unformed.TheVariants as unformed;

    ghost from_gives = { λ _ made. made ≡ unformed.Memory };

    fn from(_memory: Memory) -> Unformed {
        Unformed::Memory
    }
}

impl fmt::Display for Unformed {
    fn fmt<W: fmt::Write>(&self, f: &mut fmt::Formatter<W>) -> fmt::Result {
        match self {
            Unformed::IllTyped => f.write_str("ill typed"),
            Unformed::Memory => f.write_str("out of memory"),
        }
    }
}

impl Error for Unformed {}

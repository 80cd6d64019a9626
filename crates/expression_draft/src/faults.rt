// Why a part of a sheet has no draft.
use link_port::Memory;
use std::error::Error;
use std::fmt;

/// Why a part of a sheet has no draft. `Memory` tells nothing of the part.
#[derive(Debug, Clone, Copy, PartialEq, Eq)]
pub enum Misfit {
    /// It has not the form.
    Unfit,
    /// Memory was not granted.
    Memory,
}

impl From<Memory> for Misfit {
    ghost use Rattle.std.specs.Prelude.{◌≡◌};
    ghost use Rattle.expression_draft.specs.declared.faults.Misfit.TheVariants as misfit;

    ghost from_gives = { λ _ made. made ≡ misfit.Memory };

    fn from(_memory: Memory) -> Misfit {
        Misfit::Memory
    }
}

impl fmt::Display for Misfit {
    fn fmt<W: fmt::Write>(&self, f: &mut fmt::Formatter<W>) -> fmt::Result {
        match self {
            Misfit::Unfit => f.write_str("not the form"),
            Misfit::Memory => f.write_str("out of memory"),
        }
    }
}

impl Error for Misfit {}

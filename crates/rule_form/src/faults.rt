// Why a draft is no rule.
use link_port::Memory;
use sheet_draft::Spot;
use std::error::Error;
use std::fmt;

/// Why a draft is no rule: the first that applies, in the order in which a rule is told. `Memory`
/// alone tells nothing of the draft.
#[derive(Debug, Clone, Copy, PartialEq, Eq)]
pub enum RuleFault {
    /// Its name is no method of the sheet.
    NoSuchMethod,
    /// At this spot a register is named that is not there.
    NoSuchRegister(Spot),
    /// At this spot `float` is reached: by the method, or by an error.
    Float(Spot),
    /// This spot is not typed.
    IllTyped(Spot),
    /// Memory was not granted.
    Memory,
}

impl From<Memory> for RuleFault {
    ghost use Rattle.std.specs.Prelude.{◌≡◌};
    ghost use Rattle.rule_form.specs.declared.faults.RuleFault.TheVariants as fault;

    ghost from_gives = { λ _ made. made ≡ fault.Memory };

    fn from(_memory: Memory) -> RuleFault {
        RuleFault::Memory
    }
}

impl fmt::Display for RuleFault {
    fn fmt<W: fmt::Write>(&self, f: &mut fmt::Formatter<W>) -> fmt::Result {
        match self {
            RuleFault::NoSuchMethod => f.write_str("no such method"),
            RuleFault::NoSuchRegister(spot) => write!(f, "no register at rule{spot}"),
            RuleFault::Float(spot) => write!(f, "float at rule{spot}"),
            RuleFault::IllTyped(spot) => write!(f, "ill typed at rule{spot}"),
            RuleFault::Memory => f.write_str("out of memory"),
        }
    }
}

impl Error for RuleFault {}

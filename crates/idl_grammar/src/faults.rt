// Why a text is refused, and why an item is not taken.
use idl_token::TokenFault;
use idl_tree::NameFault;
use link_port::Memory;
use std::error::Error;
use std::fmt;

/// Why a text is no definition, or no type. Offsets are in bytes.
#[derive(Debug, Drop)]
pub enum IdlFault {
    /// The text cannot be cut into items.
    Token(TokenFault),
    /// Nothing that is read goes on with the item at this offset; at the text's length, something is
    /// missing.
    Syntax {
        /// The item's offset, or the text's length.
        at: u64,
    },
    /// More than 64 brackets are open with the `(` at this offset.
    TooDeep {
        /// The offset of the `(`.
        at: u64,
    },
    /// A name stands twice, or a type is not defined.
    Name(NameFault),
    /// Memory was not granted.
    Memory,
}

impl From<Memory> for IdlFault {
    ghost use Rattle.std.specs.Prelude.{◌≡◌};
    ghost use Rattle.idl_grammar.specs.declared.faults.IdlFault.TheVariants as fault;

    ghost from_gives = { λ _ made. made ≡ fault.Memory };

    fn from(_memory: Memory) -> IdlFault {
        IdlFault::Memory
    }
}

impl fmt::Display for IdlFault {
    ghost use Rattle.idl_grammar.specs.Faults.{fault_text};

    ghost output = { fault_text ⟦<TokenFault as fmt::Display>⟧.output
        ⟦<NameFault as fmt::Display>⟧.output };

    fn fmt<W: fmt::Write>(&self, f: &mut fmt::Formatter<W>) -> fmt::Result {
        match self {
            IdlFault::Token(fault) => write!(f, "{fault}"),
            IdlFault::Syntax { at } => write!(f, "syntax at {at}"),
            IdlFault::TooDeep { at } => write!(f, "too deep at {at}"),
            IdlFault::Name(fault) => write!(f, "{fault}"),
            IdlFault::Memory => f.write_str("out of memory"),
        }
    }
}

impl Error for IdlFault {}

/// Why an item is not taken.
#[derive(Drop)]
pub enum Stop {
    /// Nothing that is read goes on with it.
    Stray,
    /// It is a bracket that is too deep.
    Beyond,
    /// Memory was not granted.
    Memory,
}

impl From<Memory> for Stop {
    ghost use Rattle.std.specs.Prelude.{◌≡◌};
    ghost use Rattle.idl_grammar.specs.declared.faults.Stop.TheVariants as stop;

    ghost from_gives = { λ _ made. made ≡ stop.Memory };

    fn from(_memory: Memory) -> Stop {
        Stop::Memory
    }
}

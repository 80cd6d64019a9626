// Why a text is no sheet.
use idl_grammar::IdlFault;
use link_port::{Memory, Text};
use sheet_draft::Place;
use std::error::Error;
use std::fmt;

/// Why a text is no sheet: the first that applies. Interfaces and registers are counted from 0. `Memory`
/// alone tells nothing of the text.
#[derive(Debug, Drop)]
pub enum SheetFault {
    /// It is no JSON text (RFC 8259) that nests at most 127 deep.
    NotJson,
    /// The JSON has not the form of a sheet.
    Shape {
        /// The first place that has not its form.
        place: Place,
    },
    /// A definition is refused.
    Idl {
        /// Its place among the definitions.
        which: u64,
        /// Why.
        fault: IdlFault,
    },
    /// The name of an interface begins with `org.varlink.`.
    Reserved {
        /// Its place among the definitions.
        which: u64,
    },
    /// An interface has the name of an earlier one.
    TwiceInterface {
        /// Its place among the definitions.
        which: u64,
    },
    /// The scope of a register is no interface of the sheet.
    Scope {
        /// The register's place.
        register: u64,
    },
    /// The text of a register's type is refused.
    RegisterText {
        /// The register's place.
        register: u64,
        /// Why.
        fault: IdlFault,
    },
    /// A type reaches `float`.
    Float {
        /// Where the type stands.
        place: Place,
    },
    /// The first value of a register doesn't read by its type, or has more than 120 levels.
    Initial {
        /// The register's place.
        register: u64,
    },
    /// A rule is of no method of the sheet.
    NoSuchMethod {
        /// The rule's name.
        rule: Text,
    },
    /// A register is named that the sheet doesn't have.
    NoSuchRegister {
        /// Where it is named.
        place: Place,
    },
    /// A part of a rule is not typed.
    IllTyped {
        /// Where it stands.
        place: Place,
    },
    /// Memory was not granted.
    Memory,
}

impl From<Memory> for SheetFault {
    ghost use Rattle.std.specs.Prelude.{◌≡◌};
    ghost use Rattle.sheet_form.specs.declared.faults.SheetFault.TheVariants as fault;

    ghost from_gives = { λ _ made. made ≡ fault.Memory };

    fn from(_memory: Memory) -> SheetFault {
        SheetFault::Memory
    }
}

impl fmt::Display for SheetFault {
    fn fmt<W: fmt::Write>(&self, f: &mut fmt::Formatter<W>) -> fmt::Result {
        match self {
            SheetFault::NotJson => f.write_str("not JSON"),
            SheetFault::Shape { place } => write!(f, "shape at {place}"),
            SheetFault::Idl { which, fault } => write!(f, "interface {which}: {fault}"),
            SheetFault::Reserved { which } => write!(f, "interface {which} is reserved"),
            SheetFault::TwiceInterface { which } => write!(f, "interface {which} stands twice"),
            SheetFault::Scope { register } => write!(f, "register {register} has no scope"),
            SheetFault::RegisterText { register, fault } => {
                write!(f, "register {register}: {fault}")
            }
            SheetFault::Float { place } => write!(f, "float at {place}"),
            SheetFault::Initial { register } => {
                write!(f, "register {register} has no initial value")
            }
            SheetFault::NoSuchMethod { rule } => write!(f, "no method {}", rule.as_str()),
            SheetFault::NoSuchRegister { place } => write!(f, "no register at {place}"),
            SheetFault::IllTyped { place } => write!(f, "ill typed at {place}"),
            SheetFault::Memory => f.write_str("out of memory"),
        }
    }
}

impl Error for SheetFault {}

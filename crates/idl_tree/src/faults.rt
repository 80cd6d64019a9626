// Why the names of a tree are refused.
ghost use Rattle.std.specs.Fmt.{WritesOnOk};
ghost use Rattle.idl_tree.specs.FaultTexts.{told};

use link_port::{Memory, Text};
use std::error::Error;
use std::fmt;

/// Why the names of a tree are refused.
#[derive(Debug, Drop)]
pub enum NameFault {
    /// A type of that name stood before.
    TwiceType(Text),
    /// A method of that name stood before.
    TwiceMethod(Text),
    /// An error of that name stood before.
    TwiceError(Text),
    /// A field or enum name of that name stood before in its bracket.
    TwiceField(Text),
    /// The name is used as a type, and no member defines it.
    UnknownType(Text),
    /// Memory was not granted.
    Memory,
}

impl From<Memory> for NameFault {
    ghost use Rattle.std.specs.Prelude.{◌≡◌};
    ghost use Rattle.idl_tree.specs.declared.faults.NameFault.TheVariants as fault;

    ghost from_gives = { λ _ made. made ≡ fault.Memory };

    fn from(_memory: Memory) -> NameFault {
        NameFault::Memory
    }
}

impl fmt::Display for NameFault {
    ghost use Rattle.std.specs.Prelude.{Some};
    ghost use Rattle.idl_tree.specs.FaultTexts.{fault_text};

    ghost output = { λ fault. Some (fault_text fault) };

    fn fmt<W: fmt::Write>(&self, f: &mut fmt::Formatter<W>) -> fmt::Result {
        match self {
            NameFault::TwiceType(name) => tell(f, "type", name, "stands twice"),
            NameFault::TwiceMethod(name) => tell(f, "method", name, "stands twice"),
            NameFault::TwiceError(name) => tell(f, "error", name, "stands twice"),
            NameFault::TwiceField(name) => tell(f, "name", name, "stands twice"),
            NameFault::UnknownType(name) => tell(f, "type", name, "is not defined"),
            NameFault::Memory => f.write_str("out of memory"),
        }
    }
}

impl Error for NameFault {}

// Tells what is wrong with the name of that kind.
fn tell<W: fmt::Write>(
    f: &mut fmt::Formatter<W>,
    kind: &str,
    name: &Text,
    wrong: &str,
) -> fmt::Result
    ensures { WritesOnOk W.write_str_gives f.old result (told kind.now name.now wrong.now) f.new }
{
    write!(f, "{kind} {} {wrong}", name.as_str())
}

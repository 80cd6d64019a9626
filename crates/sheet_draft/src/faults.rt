// Why a text is no sheet.
use crate::places::Place;
use link_port::Memory;
use std::error::Error;
use std::fmt;

/// Why a text is no draft of a sheet: the first that applies. `Memory` alone tells nothing of the text.
#[derive(Debug, Drop)]
pub enum DraftFault {
    /// It is no JSON text (RFC 8259) that nests at most 127 deep.
    NotJson,
    /// The JSON has not the form of a sheet.
    Shape {
        /// The first place that has not its form.
        place: Place,
    },
    /// Memory was not granted.
    Memory,
}

impl From<Memory> for DraftFault {
    ghost use Rattle.std.specs.Prelude.{◌≡◌};
    ghost use Rattle.sheet_draft.specs.declared.faults.DraftFault.TheVariants as fault;

    ghost from_gives = { λ _ made. made ≡ fault.Memory };

    fn from(_memory: Memory) -> DraftFault {
        DraftFault::Memory
    }
}

impl fmt::Display for DraftFault {
    fn fmt<W: fmt::Write>(&self, f: &mut fmt::Formatter<W>) -> fmt::Result {
        match self {
            DraftFault::NotJson => f.write_str("not JSON"),
            DraftFault::Shape { place } => write!(f, "shape at {place}"),
            DraftFault::Memory => f.write_str("out of memory"),
        }
    }
}

impl Error for DraftFault {}

// The canonical text is written to a sink.
ghost use Rattle.std.specs.Prelude.{◌≡◌, ◌<◌, ℕ, false, OnOk, IfErr, Err, length, take};
ghost use Rattle.std.specs.Io.KnownBytes.{Appends};
ghost use Rattle.link_port.specs.Faults.{Rises};
ghost use Rattle.link_port.specs.Flow.{IsAsBefore};
ghost use Rattle.idl_rules.specs.Canon.{Canon};
ghost use Rattle.idl_print.specs.declared.writing.PrintFault.TheVariants as fault;
ghost use Rattle.link_port.specs.declared.refusals.Short.{Short};

use crate::printing::text;
use idl_tree::Checked;
use link_port::{Memory, Short, Sink, put_all};
use std::alloc::Global;
use std::error::Error;
use std::fmt;

/// Why a definition was not written whole.
#[derive(Debug, Clone, Copy, PartialEq, Eq)]
pub enum PrintFault {
    /// The sink failed; so many bytes were appended.
    Short(Short),
    /// Memory was not granted. Nothing was appended.
    Memory,
}

impl From<Memory> for PrintFault {
    ghost use Rattle.std.specs.Prelude.{◌≡◌};
    ghost use Rattle.idl_print.specs.declared.writing.PrintFault.TheVariants as fault;

    ghost from_gives = { λ _ made. made ≡ fault.Memory };

    fn from(_memory: Memory) -> PrintFault {
        PrintFault::Memory
    }
}

impl fmt::Display for PrintFault {
    ghost use Rattle.std.specs.Prelude.{Some};
    ghost use Rattle.idl_print.specs.Faults.{fault_text};

    ghost output = { λ fault. Some (fault_text fault) };

    fn fmt<W: fmt::Write>(&self, f: &mut fmt::Formatter<W>) -> fmt::Result {
        match self {
            PrintFault::Short(short) => write!(f, "cut off after {} bytes", short.written),
            PrintFault::Memory => f.write_str("out of memory"),
        }
    }
}

impl Error for PrintFault {}

/// Appends the canonical text of the definition to the sink.
pub fn write<K: Sink>(alloc: Global, tree: &Checked, sink: &mut K) -> Result<(), PrintFault>
    requires { K.finished sink.old ≡ false }
    ensures ok { OnOk result (Appends (K.written sink.old) (K.written sink.new) (Canon tree.now)) }
    ensures sound { OnOk result (K.write_faults sink.new ≡ K.write_faults sink.old) }

    ensures part { (short : Short) → result ≡ Err (fault.Short short)
        → short.written < length (Canon tree.now) }
    ensures short { (short : Short) → result ≡ Err (fault.Short short)
        → Appends (K.written sink.old) (K.written sink.new) (take short.written (Canon tree.now)) }
    ensures fault { (short : Short) → result ≡ Err (fault.Short short)
        → Rises (K.write_faults sink.old) (K.write_faults sink.new) }

    ensures memory { result ≡ Err fault.Memory → sink.new ≡ sink.old }
    ensures other { IsAsBefore (K.left sink.old) (K.left sink.new)
        (K.read_faults sink.old) (K.read_faults sink.new) }
    ensures unfinished { K.finished sink.new ≡ false }
{
    let text = match text(alloc, tree) {
        Ok(text) => text,
        Err(_) => return Err(PrintFault::Memory),
    };
    match put_all(sink, text.as_str().as_bytes()) {
        Ok(()) => Ok(()),
        Err(short) => Err(PrintFault::Short(short)),
    }
}

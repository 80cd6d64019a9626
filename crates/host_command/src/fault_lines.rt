// The lines that tell faults of commands that serve.
ghost use Rattle.std.specs.Prelude.{◌≡◌, ◌++◌, false, codes};
ghost use Rattle.link_port.specs.Flow.{IsAsBefore};
ghost use Rattle.resolver_core.specs.Registries.{fault_text as registry_text};
ghost use Rattle.varlink_command.specs.Lines.{PutsAll};
ghost use Rattle.host_command.specs.Faults.{fault_line};

use crate::faults::HostFault;
use link_port::{Failed, Sink};
use resolver_core::RegistryFault;
use varlink_command::{put_texts, write_fault_line};

/// Writes the line that tells the fault of a command that serves: `varlink: `, the text, and a line feed. It takes no
/// memory.
///
/// Where the sink fails, a front of the line was written.
pub fn write_host_line<E: Sink>(faults: &mut E, fault: &HostFault) -> Result<(), Failed>
    requires { E.finished faults.old ≡ false }
    ensures all { PutsAll (E.written faults.old) (E.written faults.new)
        (E.write_faults faults.old) (E.write_faults faults.new) result (fault_line fault.now) }
    ensures other { IsAsBefore (E.left faults.old) (E.left faults.new)
        (E.read_faults faults.old) (E.read_faults faults.new) }
    ensures unfinished { E.finished faults.new ≡ false }
{
    match fault {
        HostFault::File { path, why } => write_fault_line(faults, path.as_str(), why),
        HostFault::NoRegistry(why) => put_registry_line(faults, why),
        HostFault::CannotBind => put_line(faults, "cannot bind"),
        HostFault::CannotAccept => put_line(faults, "cannot accept"),
        HostFault::WriteFault => put_line(faults, "write fault"),
        HostFault::Memory => put_line(faults, "out of memory"),
    }
}

// Writes a line of this text.
fn put_line<E: Sink>(faults: &mut E, text: &str) -> Result<(), Failed>
    requires { E.finished faults.old ≡ false }
    ensures all { PutsAll (E.written faults.old) (E.written faults.new)
        (E.write_faults faults.old) (E.write_faults faults.new) result (codes "varlink: " ++ text.now ++ codes "\n") }
    ensures other { IsAsBefore (E.left faults.old) (E.left faults.new)
        (E.read_faults faults.old) (E.read_faults faults.new) }
    ensures unfinished { E.finished faults.new ≡ false }
{
    put_texts(faults, &["varlink: ", text, "\n"])
}

// Writes the line that tells why a text is no registry.
fn put_registry_line<E: Sink>(faults: &mut E, why: &RegistryFault) -> Result<(), Failed>
    requires { E.finished faults.old ≡ false }
    ensures all { PutsAll (E.written faults.old) (E.written faults.new)
        (E.write_faults faults.old) (E.write_faults faults.new) result (codes "varlink: " ++ registry_text why.now ++ codes "\n") }
    ensures other { IsAsBefore (E.left faults.old) (E.left faults.new)
        (E.read_faults faults.old) (E.read_faults faults.new) }
    ensures unfinished { E.finished faults.new ≡ false }
{
    match why {
        RegistryFault::NotJson => put_line(faults, "not JSON"),
        RegistryFault::NotObject => put_line(faults, "not an object"),
        RegistryFault::BadName(name) => put_named(faults, "bad name ", name.as_str()),
        RegistryFault::BadAddress(name) => put_named(faults, "bad address of ", name.as_str()),
        RegistryFault::Memory => put_line(faults, "out of memory"),
    }
}

// Writes a line of this text with a name behind it.
fn put_named<E: Sink>(faults: &mut E, text: &str, name: &str) -> Result<(), Failed>
    requires { E.finished faults.old ≡ false }
    ensures all { PutsAll (E.written faults.old) (E.written faults.new)
        (E.write_faults faults.old) (E.write_faults faults.new) result (codes "varlink: " ++ (text.now ++ name.now) ++ codes "\n") }
    ensures other { IsAsBefore (E.left faults.old) (E.left faults.new)
        (E.read_faults faults.old) (E.read_faults faults.new) }
    ensures unfinished { E.finished faults.new ≡ false }
{
    put_texts(faults, &["varlink: ", text, name, "\n"])
}

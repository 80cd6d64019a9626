// Why a command that serves did not do what it was asked for, and the status that tells it.
ghost use Rattle.std.specs.Prelude.{◌≡◌};
ghost use Rattle.host_command.specs.Faults.{status_of};

use link_port::Text;
use resolver_core::RegistryFault;
use varlink_command::{Fault, Status};

/// Why a command that serves did not do what it was asked for.
#[derive(Debug, Drop)]
pub enum HostFault {
    /// The file cannot be read, or it holds no sheet.
    File {
        /// The path of the file.
        path: Text,
        /// Why.
        why: Fault,
    },
    /// The file holds no registry. Want of memory is not told by it.
    NoRegistry(RegistryFault),
    /// The address cannot be bound.
    CannotBind,
    /// A door failed to accept a connection.
    CannotAccept,
    /// The output failed.
    WriteFault,
    /// Memory was asked for and not granted.
    Memory,
}

impl HostFault {
    /// The status that tells the fault.
    pub fn status(&self) -> Status
        ensures { result.0 ≡ status_of self.now }
    {
        match self {
            HostFault::File { why, .. } => why.status(),
            HostFault::NoRegistry(_) => Status(2),
            HostFault::CannotBind | HostFault::CannotAccept => Status(5),
            HostFault::WriteFault => Status(6),
            HostFault::Memory => Status(7),
        }
    }
}

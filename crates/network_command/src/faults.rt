// Why a command that needs the network did not do what it was asked for, and the status that tells it.
ghost use Rattle.std.specs.Prelude.{◌≡◌};
ghost use Rattle.network_command.specs.Faults.{status_of, number_of};

use host_command::HostFault;
use link_port::Text;
use varlink_command::Status;

/// Why a command that needs the network did not do what it was asked for. Replies are numbered from 0 on.
#[derive(Debug, Drop)]
pub enum NetworkFault {
    /// The words are those of no command.
    BadWords,
    /// A message of the service is no reply.
    NotReply {
        /// The number of replies before it.
        index: u64,
    },
    /// A reply says that another follows, though it is an error or the call did not ask for more.
    Continues {
        /// The number of replies before it.
        index: u64,
    },
    /// The link ended before a reply was whole.
    Ended {
        /// The number of replies before it.
        index: u64,
    },
    /// A reply is too long.
    TooLong {
        /// The number of replies before it.
        index: u64,
    },
    /// A reply has a parameter that is none of its method's.
    IllTyped {
        /// The number of replies before it.
        index: u64,
        /// The name of the parameter.
        field: Text,
    },
    /// The service told no definition of the method.
    NoDescription,
    /// What the resolver said is not what a resolver says.
    BadResolver,
    /// An error came.
    ErrorReply {
        /// The name of the error.
        name: Text,
    },
    /// The resolver has no address of an interface.
    NoAddress {
        /// The name of the interface.
        interface: Text,
    },
    /// A link failed.
    LinkFault,
    /// The output failed.
    WriteFault,
    /// The link has more bytes than a call takes.
    Long,
    /// Memory was asked for and not granted.
    Memory,
    /// A command that serves did not do it.
    Hosting(HostFault),
}

impl NetworkFault {
    /// The status that tells the fault.
    pub fn status(&self) -> Status
        ensures { result.0 ≡ status_of self.now }
    {
        Status(match self {
            NetworkFault::Hosting(why) => return why.status(),
            NetworkFault::BadWords => 1,
            NetworkFault::NotReply { .. }
            | NetworkFault::Continues { .. }
            | NetworkFault::Ended { .. }
            | NetworkFault::TooLong { .. }
            | NetworkFault::IllTyped { .. }
            | NetworkFault::NoDescription
            | NetworkFault::BadResolver => 3,
            NetworkFault::ErrorReply { .. } => 4,
            NetworkFault::LinkFault => 5,
            NetworkFault::WriteFault => 6,
            NetworkFault::Memory => 7,
            NetworkFault::Long => 8,
            NetworkFault::NoAddress { .. } => 9,
        })
    }

    // The number in the fault's text; 0 where there is none.
    pub fn number(&self) -> u64
        ensures { result ≡ number_of self.now }
    {
        match self {
            NetworkFault::NotReply { index }
            | NetworkFault::Continues { index }
            | NetworkFault::Ended { index }
            | NetworkFault::TooLong { index }
            | NetworkFault::IllTyped { index, .. } => *index,
            _ => 0,
        }
    }
}

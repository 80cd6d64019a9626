// What a command comes to, by how its call or its question ended.
ghost use Rattle.std.specs.Prelude.{◌≡◌};
ghost use Rattle.network_command.specs.Outcomes.{call_outcome, client_outcome, no_address};

use crate::faults::NetworkFault;
use address_finding::ResolveEnd;
use client_ways::ClientEnd;
use link_exchange::AskEnd;
use link_port::Text;

// What a command comes to whose call ended so.
fn call_outcome(end: AskEnd) -> Result<(), NetworkFault>
    ensures { result ≡ call_outcome end }
{
    match end {
        AskEnd::Done { .. } => Ok(()),
        AskEnd::ErrorReply { name } => Err(NetworkFault::ErrorReply { name }),
        AskEnd::NotReply { index, fault } => {
            drop(fault);
            Err(NetworkFault::NotReply { index })
        }
        AskEnd::Continues { index } => Err(NetworkFault::Continues { index }),
        AskEnd::Ended { index } => Err(NetworkFault::Ended { index }),
        AskEnd::TooLong { index } => Err(NetworkFault::TooLong { index }),
        AskEnd::IllTyped { index, field } => Err(NetworkFault::IllTyped { index, field }),
        AskEnd::Long => Err(NetworkFault::Long),
        AskEnd::LinkFault => Err(NetworkFault::LinkFault),
        AskEnd::WriteFault => Err(NetworkFault::WriteFault),
        AskEnd::Memory => Err(NetworkFault::Memory),
    }
}

// What a command comes to whose call by a client ended so.
pub fn client_outcome(end: ClientEnd) -> Result<(), NetworkFault>
    ensures { result ≡ client_outcome end }
{
    match end {
        ClientEnd::Asked(end) => call_outcome(end),
        ClientEnd::NoDescription(why) => {
            drop(why);
            Err(NetworkFault::NoDescription)
        }
        ClientEnd::Unresolved { interface } => Err(NetworkFault::NoAddress { interface }),
        ClientEnd::Resolver(fault) => {
            drop(fault);
            Err(NetworkFault::BadResolver)
        }
    }
}

// Why there is no address of an interface, where the question for it ended so.
pub fn no_address(interface: Text, end: ResolveEnd) -> NetworkFault
    ensures { result ≡ no_address interface end }
{
    match end {
        ResolveEnd::Missing => NetworkFault::NoAddress { interface },
        ResolveEnd::Bad(fault) => {
            drop((interface, fault));
            NetworkFault::BadResolver
        }
        ResolveEnd::LinkFault => {
            drop(interface);
            NetworkFault::LinkFault
        }
        ResolveEnd::Memory => {
            drop(interface);
            NetworkFault::Memory
        }
    }
}

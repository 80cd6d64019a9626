// What is printed of an interface that nobody has.
ghost use Rattle.std.specs.Prelude.{◌≡◌, [], ◌∷◌, ◌++◌, false, ℕ, List, IfOk};
ghost use Rattle.link_port.specs.Flow.{IsAsBefore};
ghost use Rattle.client_ways.specs.Unresolved.{TellsNobody, not_found};
ghost use Rattle.client_ways.specs.Ways.{CountsWriteFaults, CountsLinkFaults};

use crate::ends::ClientEnd;
use call_form::{StdError, reply_text, standard};
use link_exchange::AskEnd;
use link_port::{List, Memory, Sink, Text, put_all};
use std::alloc::Global;

/// What is put behind the payload of a reply: a line feed.
const LINE_END: u8 = 10;

/// Tells the caller that nobody has the interface, unless it wants no reply.
pub fn tell_nobody<K: Sink>(alloc: Global, interface: Text, oneway: bool, sink: &mut K) -> ClientEnd
    requires unfinished { K.finished sink.old ≡ false }
    ensures told { TellsNobody oneway interface (K.written sink.old) (K.written sink.new) result }
    ensures faults { CountsWriteFaults result (K.write_faults sink.old) (K.write_faults sink.new) }
    ensures links { (count : ℕ) → CountsLinkFaults result count count }
    ensures other { IsAsBefore (K.left sink.old) (K.left sink.new)
        (K.read_faults sink.old) (K.read_faults sink.new) }
    ensures unfinished { K.finished sink.new ≡ false }
{
    if oneway {
        return ClientEnd::Unresolved { interface };
    }
    match not_found(alloc, interface.as_str()) {
        Ok(line) => print(interface, line.as_slice(), sink),
        Err(_) => {
            drop(interface);
            ClientEnd::Asked(AskEnd::Memory)
        }
    }
}

// Prints this line of the interface.
fn print<K: Sink>(interface: Text, line: &[u8], sink: &mut K) -> ClientEnd
    requires unfinished { K.finished sink.old ≡ false }
    requires line { line.now ≡ not_found interface }
    ensures told { TellsNobody false interface (K.written sink.old) (K.written sink.new) result }
    ensures faults { CountsWriteFaults result (K.write_faults sink.old) (K.write_faults sink.new) }
    ensures links { (count : ℕ) → CountsLinkFaults result count count }
    ensures other { IsAsBefore (K.left sink.old) (K.left sink.new)
        (K.read_faults sink.old) (K.read_faults sink.new) }
    ensures unfinished { K.finished sink.new ≡ false }
{
    if let Err(_) = put_all(sink, line) {
        drop(interface);
        return ClientEnd::Asked(AskEnd::WriteFault);
    }
    match sink.flush() {
        Ok(()) => ClientEnd::Unresolved { interface },
        Err(_) => {
            drop(interface);
            ClientEnd::Asked(AskEnd::WriteFault)
        }
    }
}

// The error reply for an interface that nobody has, as a line.
fn not_found(alloc: Global, interface: &str) -> Result<List<u8>, Memory>
    ensures { IfOk result (λ line. line ≡ not_found interface.now) }
{
    let name = Text::of(alloc, interface)?;
    let reply = standard(alloc, StdError::InterfaceNotFound(name))?;
    let message = reply_text(alloc, &reply);
    drop(reply);
    as_line(message?)
}

// A message as a line: a line feed stands in place of its NUL.
fn as_line(message: List<u8>) -> Result<List<u8>, Memory>
    ensures { (payload : List ℕ) → message ≡ payload ++ 0 ∷ [] → IfOk result (λ line. line ≡ payload ++ 10 ∷ []) }
{
    let mut bytes = message.into_vec();
    let _nul = bytes.pop();
    let mut line = List::from_vec(bytes);
    line.push(LINE_END)?;
    Ok(line)
}

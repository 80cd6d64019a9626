// One connection is served by a seat.
ghost use Rattle.std.specs.Prelude.{◌≡◌, false};
ghost use Rattle.session_core.specs.Served.{ReadFaults, WriteFaults};
ghost use Rattle.door_serving.specs.Conversations.{Conversation, GoesOn};

use crate::speakers::Speaker;
use link_doors::Gate;
use link_port::{Sink, Source};
use service_core::Request;
use service_desk::Seated;
use session_core::{Stop, serve_link};
use std::alloc::Global;
use std::sync::Wait;
use turn_desk::Ledger;

/// Serves one connection to its stop: its calls are answered by the seat one after another, and the replies are
/// written before more bytes are taken. The gate is told of each call before it is answered, and of each that was
/// answered once the session has stopped, unless it stopped by a write fault or for want of memory.
pub fn serve_connection<C: Source + Sink, L: Ledger<Request> + 'static, G: Gate, R: Wait>(
    rt: &R,
    alloc: Global,
    link: &mut C,
    seated: &mut Seated<'_, L>,
    gate: &G,
    worker: u64,
    connection: u64,
) -> Stop
    requires { C.finished link.old ≡ false }
    ensures serves { Conversation seated.old seated.new (C.left link.old) (C.left link.new)
        (C.written link.old) (C.written link.new) result }
    ensures reads { ReadFaults result (C.read_faults link.old) (C.read_faults link.new) }
    ensures writes { WriteFaults result (C.write_faults link.old) (C.write_faults link.new) }
    ensures goes_on { GoesOn seated.old seated.new }
    ensures unfinished { C.finished link.new ≡ false }
{
    let mut speaker = Speaker {
        rt,
        gate,
        seated,
        worker,
        connection,
        last: None,
    };
    let stop = serve_link(alloc, link, &mut speaker);
    if let Some(last) = speaker.last {
        tell_written(rt, gate, worker, connection, last, &stop);
    }
    stop
}

// Tells the gate of the calls whose replies were written, the first of which is call 0.
fn tell_written<G: Gate, R: Wait>(
    rt: &R,
    gate: &G,
    worker: u64,
    connection: u64,
    last: u64,
    stop: &Stop,
) {
    if matches!(stop, Stop::WriteFault | Stop::Memory) {
        return;
    }
    for call in 0..last {
        gate.after(rt, worker, connection, call);
    }
    gate.after(rt, worker, connection, last);
}

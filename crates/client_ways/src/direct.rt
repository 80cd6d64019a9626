// Calls at an address and over a bridge.
ghost use Rattle.std.specs.Prelude.{◌≡◌, ℕ, false};
ghost use Rattle.link_port.specs.Flow.{IsAsBefore};
ghost use Rattle.link_reach.specs.declared.deeds.Deed.TheVariants as deed;
ghost use Rattle.call_form.specs.CallText.{IsSendable};
ghost use Rattle.typed_call.specs.Describing.{LinkFaultsOf, WriteFaultsOf};
ghost use Rattle.client_ways.specs.Ways.{CallsBy, CountsLinkFaults, CountsWriteFaults, of_typed};

use crate::ends::{Ask, ClientEnd};
use client_core::{call_child, call_direct};
use link_doors::Address;
use link_port::Sink;
use link_reach::Reach;
use std::alloc::Global;
use typed_call::{TypedEnd, typed_child, typed_direct};

/// Calls a method at an address, over a link of its own, which is closed however the call ends (varlink.org, "Method
/// Call"). The payload of each reply is passed on as it came, as a line. The replies of a typed call are read before
/// by the definition that the service gives on the same link.
pub fn call_at<R: Reach, K: Sink>(
    alloc: Global,
    reach: &mut R,
    address: &Address,
    ask: Ask<'_>,
    sink: &mut K,
) -> ClientEnd
    requires sendable { IsSendable ask.call.now }
    requires unfinished { K.finished sink.old ≡ false }
    ensures calls { CallsBy (deed.Dialled address.now) ask.entry.call.now ask.entry.typed
        (record {
          log = R.log reach.old;
          written = K.written sink.old;
          opened = R.opened reach.old;
          state = R.state reach.old;
        })
        (record {
          log = R.log reach.new;
          written = K.written sink.new;
          opened = R.opened reach.new;
          state = R.state reach.new;
        })
        result }
    ensures link_faults { CountsLinkFaults result (R.faults reach.old) (R.faults reach.new) }
    ensures write_faults { CountsWriteFaults result (K.write_faults sink.old) (K.write_faults sink.new) }
    ensures freed { R.freed reach.new ≡ R.freed reach.old }
    ensures other { IsAsBefore (K.left sink.old) (K.left sink.new)
        (K.read_faults sink.old) (K.read_faults sink.new) }
    ensures unfinished { K.finished sink.new ≡ false }
{
    if ask.typed {
        end_of(typed_direct(alloc, reach, address, ask.call, sink))
    } else {
        ClientEnd::Asked(call_direct(alloc, reach, address, ask.call, sink))
    }
}

/// Calls a method over a bridge that is started: `program` with the words `bridge`, `--resolver` and an address. All else
/// is as in a call at an address.
pub fn call_by_child<R: Reach, K: Sink>(
    alloc: Global,
    reach: &mut R,
    program: &str,
    resolver: &Address,
    ask: Ask<'_>,
    sink: &mut K,
) -> ClientEnd
    requires sendable { IsSendable ask.call.now }
    requires unfinished { K.finished sink.old ≡ false }
    ensures calls { CallsBy (deed.Started program.now resolver.now) ask.entry.call.now ask.entry.typed
        (record {
          log = R.log reach.old;
          written = K.written sink.old;
          opened = R.opened reach.old;
          state = R.state reach.old;
        })
        (record {
          log = R.log reach.new;
          written = K.written sink.new;
          opened = R.opened reach.new;
          state = R.state reach.new;
        })
        result }
    ensures link_faults { CountsLinkFaults result (R.faults reach.old) (R.faults reach.new) }
    ensures write_faults { CountsWriteFaults result (K.write_faults sink.old) (K.write_faults sink.new) }
    ensures freed { R.freed reach.new ≡ R.freed reach.old }
    ensures other { IsAsBefore (K.left sink.old) (K.left sink.new)
        (K.read_faults sink.old) (K.read_faults sink.new) }
    ensures unfinished { K.finished sink.new ≡ false }
{
    if ask.typed {
        end_of(typed_child(alloc, reach, program, resolver, ask.call, sink))
    } else {
        ClientEnd::Asked(call_child(alloc, reach, program, resolver, ask.call, sink))
    }
}

// The end of a typed call.
fn end_of(end: TypedEnd) -> ClientEnd
    ensures is { result ≡ of_typed end }
    ensures link_faults { (before now : ℕ) → LinkFaultsOf end before now → CountsLinkFaults result before now }
    ensures write_faults { (before now : ℕ) → WriteFaultsOf end before now → CountsWriteFaults result before now }
{
    match end {
        TypedEnd::Asked(end) => ClientEnd::Asked(end),
        TypedEnd::NoDescription(why) => ClientEnd::NoDescription(why),
    }
}

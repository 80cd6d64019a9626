// Calls by the name of an interface.
ghost use Rattle.std.specs.Prelude.{◌≡◌, false};
ghost use Rattle.link_port.specs.Flow.{IsAsBefore};
ghost use Rattle.call_form.specs.CallText.{IsSendable};
ghost use Rattle.client_ways.specs.Ways.{Resolves, GoesTo, AsksFirst, CountsLinkFaults, CountsWriteFaults};

use crate::direct::call_at;
use crate::ends::{Ask, ClientEnd};
use crate::unresolved::tell_nobody;
use address_finding::{ResolveEnd, resolve};
use link_doors::Address;
use link_exchange::AskEnd;
use link_port::{Sink, Text};
use link_reach::Reach;
use resolver_core::{Goal, target};
use std::alloc::Global;

/// Calls a method where the resolver at an address says that its interface is served (varlink.org, "Resolver").
///
/// The resolver is asked once, and the call is made at the address that it tells. Calls of the resolver's own methods
/// are made at the resolver itself, which is not asked before. Where the resolver does not have the interface, and
/// where the word of the call has no dot and so names none, the call is not made: the error `InterfaceNotFound` of
/// `org.varlink.service` is printed as a line, unless the call is `oneway`. For a word without a dot nobody is asked.
pub fn call_resolved<R: Reach, K: Sink>(
    alloc: Global,
    reach: &mut R,
    resolver: &Address,
    ask: Ask<'_>,
    sink: &mut K,
) -> ClientEnd
    requires sendable { IsSendable ask.call.now }
    requires unfinished { K.finished sink.old ≡ false }
    ensures resolves { Resolves resolver.now ask.entry.call.now ask.entry.typed
        (record {
          log = R.log reach.old;
          written = K.written sink.old;
          opened = R.opened reach.old;
          state = R.state reach.old;
        })
        (record {
          log = R.log reach.new;
          written = K.written sink.new;
          opened = R.opened reach.new;
          state = R.state reach.new;
        })
        result }
    ensures link_faults { CountsLinkFaults result (R.faults reach.old) (R.faults reach.new) }
    ensures write_faults { CountsWriteFaults result (K.write_faults sink.old) (K.write_faults sink.new) }
    ensures freed { R.freed reach.new ≡ R.freed reach.old }
    ensures other { IsAsBefore (K.left sink.old) (K.left sink.new)
        (K.read_faults sink.old) (K.read_faults sink.new) }
    ensures unfinished { K.finished sink.new ≡ false }
{
    match target(alloc, ask.call) {
        Ok(goal) => go_to(alloc, reach, goal, resolver, ask, sink),
        Err(_) => ClientEnd::Asked(AskEnd::Memory),
    }
}

// Makes a call that goes there.
fn go_to<R: Reach, K: Sink>(
    alloc: Global,
    reach: &mut R,
    goal: Goal,
    resolver: &Address,
    ask: Ask<'_>,
    sink: &mut K,
) -> ClientEnd
    requires sendable { IsSendable ask.call.now }
    requires unfinished { K.finished sink.old ≡ false }
    ensures goes { GoesTo goal resolver.now ask.entry.call.now ask.entry.typed
        (record {
          log = R.log reach.old;
          written = K.written sink.old;
          opened = R.opened reach.old;
          state = R.state reach.old;
        })
        (record {
          log = R.log reach.new;
          written = K.written sink.new;
          opened = R.opened reach.new;
          state = R.state reach.new;
        })
        result }
    ensures link_faults { CountsLinkFaults result (R.faults reach.old) (R.faults reach.new) }
    ensures write_faults { CountsWriteFaults result (K.write_faults sink.old) (K.write_faults sink.new) }
    ensures freed { R.freed reach.new ≡ R.freed reach.old }
    ensures other { IsAsBefore (K.left sink.old) (K.left sink.new)
        (K.read_faults sink.old) (K.read_faults sink.new) }
    ensures unfinished { K.finished sink.new ≡ false }
{
    match goal {
        Goal::Resolver => call_at(alloc, reach, resolver, ask, sink),
        Goal::Interface(interface) => ask_first(alloc, reach, interface, resolver, ask, sink),
        Goal::Nowhere(word) => tell_nobody(alloc, word, ask.call.oneway, sink),
    }
}

// Asks the resolver for the interface, and then makes the call at the address that it tells.
fn ask_first<R: Reach, K: Sink>(
    alloc: Global,
    reach: &mut R,
    interface: Text,
    resolver: &Address,
    ask: Ask<'_>,
    sink: &mut K,
) -> ClientEnd
    requires sendable { IsSendable ask.call.now }
    requires unfinished { K.finished sink.old ≡ false }
    ensures asks { AsksFirst resolver.now interface ask.entry.call.now ask.entry.typed
        (record {
          log = R.log reach.old;
          written = K.written sink.old;
          opened = R.opened reach.old;
          state = R.state reach.old;
        })
        (record {
          log = R.log reach.new;
          written = K.written sink.new;
          opened = R.opened reach.new;
          state = R.state reach.new;
        })
        result }
    ensures link_faults { CountsLinkFaults result (R.faults reach.old) (R.faults reach.new) }
    ensures write_faults { CountsWriteFaults result (K.write_faults sink.old) (K.write_faults sink.new) }
    ensures freed { R.freed reach.new ≡ R.freed reach.old }
    ensures other { IsAsBefore (K.left sink.old) (K.left sink.new)
        (K.read_faults sink.old) (K.read_faults sink.new) }
    ensures unfinished { K.finished sink.new ≡ false }
{
    match resolve(alloc, reach, resolver, interface.as_str()) {
        Ok(address) => {
            drop(interface);
            let end = call_at(alloc, reach, &address, ask, sink);
            drop(address);
            end
        }
        Err(ResolveEnd::Missing) => tell_nobody(alloc, interface, ask.call.oneway, sink),
        Err(ResolveEnd::Bad(fault)) => {
            drop(interface);
            ClientEnd::Resolver(fault)
        }
        Err(ResolveEnd::LinkFault) => {
            drop(interface);
            ClientEnd::Asked(AskEnd::LinkFault)
        }
        Err(ResolveEnd::Memory) => {
            drop(interface);
            ClientEnd::Asked(AskEnd::Memory)
        }
    }
}

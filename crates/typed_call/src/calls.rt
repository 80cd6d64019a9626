// Typed calls over a link of their own.
ghost use Rattle.std.specs.Prelude.{◌≡◌, false, List, Option, ℕ};
ghost use Rattle.link_port.specs.Flow.{IsAsBefore};
ghost use Rattle.link_reach.specs.Links.{AsBefore, Becomes};
ghost use Rattle.link_reach.specs.Worlds.{left_of};
ghost use Rattle.link_reach.specs.declared.deeds.Deed.TheVariants as deed;
ghost use Rattle.link_reach.specs.declared.deeds.LinkState.TheVariants.{Open, Closed};
ghost use Rattle.call_form.specs.CallText.{IsSendable};
ghost use Rattle.caller_form.specs.CallBytes.{call_bytes};
ghost use Rattle.link_exchange.specs.Stands.{stand};
ghost use Rattle.typed_call.specs.Describing.{LinkFaultsOf, WriteFaultsOf, FaultsOf};
ghost use Rattle.typed_call.specs.TypedCalls.{TypedOver, TypedOn, DescribedFirst};

use crate::describing::{at_dot, describe};
use crate::ends::{TypedEnd, Why};
use crate::outputs::ByOutput;
use call_form::Call;
use client_core::{call_on, end_of, lines_of, ready};
use link_doors::Address;
use link_exchange::{AskEnd, Inbox};
use link_port::Sink;
use link_reach::{LinkNo, Reach};
use standard_calls::{Described, NoDescription};
use std::alloc::Global;

/// Calls a method at an address, and reads its replies by the definition that the service gives: dials the address,
/// asks for the definition of the method's interface, makes the call on the same link, and closes the link, however
/// the call ends (varlink.org, "Method Call" and "Service"). The payload of each reply that reads, and of an error, is
/// passed on as it came, as a line.
///
/// Where there is no description of the method's replies, the call is not sent. The definition's own name is not
/// asked.
pub fn typed_direct<R: Reach, K: Sink>(
    alloc: Global,
    reach: &mut R,
    address: &Address,
    call: &Call,
    sink: &mut K,
) -> TypedEnd
    requires sendable { IsSendable call.now }
    requires unfinished { K.finished sink.old ≡ false }
    ensures calls { TypedOver (deed.Dialled address.now) call.now
        (record {
          log = R.log reach.old;
          written = K.written sink.old;
          opened = R.opened reach.old;
          state = R.state reach.old;
        })
        (record {
          log = R.log reach.new;
          written = K.written sink.new;
          opened = R.opened reach.new;
          state = R.state reach.new;
        })
        result }
    ensures link_faults { LinkFaultsOf result (R.faults reach.old) (R.faults reach.new) }
    ensures write_faults { WriteFaultsOf result (K.write_faults sink.old) (K.write_faults sink.new) }
    ensures freed { R.freed reach.new ≡ R.freed reach.old }
    ensures other { IsAsBefore (K.left sink.old) (K.left sink.new)
        (K.read_faults sink.old) (K.read_faults sink.new) }
    ensures unfinished { K.finished sink.new ≡ false }
{
    match ready(alloc, call) {
        Ok((text, mut inbox)) => match reach.dial(alloc, address) {
            Ok(link) => typed_on(alloc, reach, link, call, text.as_slice(), &mut inbox, sink),
            Err(fault) => {
                drop((text, inbox));
                TypedEnd::Asked(end_of(fault))
            }
        },
        Err(_) => TypedEnd::Asked(AskEnd::Memory),
    }
}

/// Calls a method over a bridge that is started, `program` with the words `bridge`, `--resolver` and an address, and
/// reads its replies by the definition that comes over the same link, which is closed, however the call ends.
pub fn typed_child<R: Reach, K: Sink>(
    alloc: Global,
    reach: &mut R,
    program: &str,
    resolver: &Address,
    call: &Call,
    sink: &mut K,
) -> TypedEnd
    requires sendable { IsSendable call.now }
    requires unfinished { K.finished sink.old ≡ false }
    ensures calls { TypedOver (deed.Started program.now resolver.now) call.now
        (record {
          log = R.log reach.old;
          written = K.written sink.old;
          opened = R.opened reach.old;
          state = R.state reach.old;
        })
        (record {
          log = R.log reach.new;
          written = K.written sink.new;
          opened = R.opened reach.new;
          state = R.state reach.new;
        })
        result }
    ensures link_faults { LinkFaultsOf result (R.faults reach.old) (R.faults reach.new) }
    ensures write_faults { WriteFaultsOf result (K.write_faults sink.old) (K.write_faults sink.new) }
    ensures freed { R.freed reach.new ≡ R.freed reach.old }
    ensures other { IsAsBefore (K.left sink.old) (K.left sink.new)
        (K.read_faults sink.old) (K.read_faults sink.new) }
    ensures unfinished { K.finished sink.new ≡ false }
{
    match ready(alloc, call) {
        Ok((text, mut inbox)) => match reach.dial_child(alloc, program, resolver) {
            Ok(link) => typed_on(alloc, reach, link, call, text.as_slice(), &mut inbox, sink),
            Err(fault) => {
                drop((text, inbox));
                TypedEnd::Asked(end_of(fault))
            }
        },
        Err(_) => TypedEnd::Asked(AskEnd::Memory),
    }
}

// Makes a typed call of this text on an open link, and closes the link.
fn typed_on<R: Reach, K: Sink>(
    alloc: Global,
    reach: &mut R,
    link: LinkNo,
    call: &Call,
    text: &[u8],
    inbox: &mut Inbox,
    sink: &mut K,
) -> TypedEnd
    requires open { R.state reach.old link.0 ≡ Open }
    requires text { text.now ≡ call_bytes call.now }
    requires unfinished { K.finished sink.old ≡ false }
    ensures typed { TypedOn call.now link.0
        (stand (R.log reach.old) (left_of (R.leads reach.old link.0)) (K.written sink.old) inbox.old)
        (R.log reach.new) (K.written sink.new) result }
    ensures closed { Becomes link.0 Closed (R.state reach.old) (R.state reach.new) }
    ensures opened { R.opened reach.new ≡ R.opened reach.old }
    ensures link_faults { LinkFaultsOf result (R.faults reach.old) (R.faults reach.new) }
    ensures write_faults { WriteFaultsOf result (K.write_faults sink.old) (K.write_faults sink.new) }
    ensures freed { R.freed reach.new ≡ R.freed reach.old }
    ensures other { IsAsBefore (K.left sink.old) (K.left sink.new)
        (K.read_faults sink.old) (K.read_faults sink.new) }
    ensures unfinished { K.finished sink.new ≡ false }
{
    match described_on(alloc, reach, link, call.method.as_str(), inbox) {
        Ok(described) => {
            let asking = lines_of(call);
            let screen = ByOutput { described };
            let end = call_on(alloc, reach, link, text, asking, &screen, inbox, sink);
            drop(screen);
            TypedEnd::Asked(end)
        }
        Err(end) => {
            reach.close(link);
            end
        }
    }
}

// Asks on an open link for the definition of the interface that the word of a method names.
fn described_on<R: Reach>(
    alloc: Global,
    reach: &mut R,
    link: LinkNo,
    word: &str,
    inbox: &mut Inbox,
) -> Result<Described, TypedEnd>
    requires { R.state reach.old link.0 ≡ Open }
    ensures first { (written : Option (List ℕ)) → DescribedFirst word.now link.0
        (stand (R.log reach.old) (left_of (R.leads reach.old link.0)) written inbox.old)
        (stand (R.log reach.new) (left_of (R.leads reach.new link.0)) written inbox.new) result }
    ensures faults { FaultsOf result (R.faults reach.old) (R.faults reach.new) }
    ensures opened { R.opened reach.new ≡ R.opened reach.old }
    ensures states { AsBefore (R.state reach.old) (R.state reach.new) }
    ensures freed { R.freed reach.new ≡ R.freed reach.old }
{
    match at_dot(word) {
        Some((interface, method)) => describe(alloc, reach, link, interface, method, inbox),
        None => Err(TypedEnd::NoDescription(Why::Said(NoDescription::NoMethod))),
    }
}

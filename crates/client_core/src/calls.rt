// Calls over a link of their own.
ghost use Rattle.std.specs.Prelude.{◌≡◌, false, option_map, IfOk};
ghost use Rattle.link_port.specs.Flow.{IsAsBefore};
ghost use Rattle.link_doors.specs.Addresses.{address_text};
ghost use Rattle.link_reach.specs.Links.{Becomes};
ghost use Rattle.link_reach.specs.Worlds.{at_opened, left_of, spot};
ghost use Rattle.link_reach.specs.declared.deeds.Deed.TheVariants as deed;
ghost use Rattle.link_reach.specs.declared.deeds.LinkState.TheVariants.{Open, Closed};
ghost use Rattle.call_form.specs.CallText.{IsSendable};
ghost use Rattle.caller_form.specs.CallBytes.{call_bytes};
ghost use Rattle.link_exchange.specs.Asked.{asked};
ghost use Rattle.link_exchange.specs.Exchanges.{ExchangedIn, IsTold};
ghost use Rattle.link_exchange.specs.Passing.{LinkFaults, WriteFaults};
ghost use Rattle.link_exchange.specs.Stands.{stand};
ghost use Rattle.client_core.specs.Calls.{CallsOver, CalledOn, asking_of, lines_of, unread, end_of};

use call_form::Call;
use caller_form::call_text;
use link_doors::Address;
use link_exchange::{AskEnd, Asking, Inbox, Screen, Unscreened, exchange};
use link_port::{List, Memory, Sink};
use link_reach::{DialFault, LinkNo, Reach};
use std::alloc::Global;

/// What is put behind the payload of each reply: a line feed.
const LINE_END: u8 = 10;

/// Calls a method at an address: dials it, makes the call on the link, and closes the link, however the call
/// ends (varlink.org, "Method Call"). The payload of each reply is passed on as it came, as a line.
pub fn call_direct<R: Reach, K: Sink>(
    alloc: Global,
    reach: &mut R,
    address: &Address,
    call: &Call,
    sink: &mut K,
) -> AskEnd
    requires sendable { IsSendable call.now }
    requires unfinished { K.finished sink.old ≡ false }
    ensures calls { CallsOver (deed.Dialled address.now) (call_bytes call.now) (asking_of call.now)
        (record {
          log = R.log reach.old;
          written = K.written sink.old;
          opened = R.opened reach.old;
          state = R.state reach.old;
        })
        (record {
          log = R.log reach.new;
          written = K.written sink.new;
          opened = R.opened reach.new;
          state = R.state reach.new;
        })
        result }
    ensures told { IsTold result → ExchangedIn R.says (asking_of call.now) (call_bytes call.now) unread
        (option_map (at_opened (address_text address.now)) (R.world reach.old)) (R.world reach.new)
        (K.written sink.old) (K.written sink.new) result }
    ensures link_faults { LinkFaults result (R.faults reach.old) (R.faults reach.new) }
    ensures write_faults { WriteFaults result (K.write_faults sink.old) (K.write_faults sink.new) }
    ensures freed { R.freed reach.new ≡ R.freed reach.old }
    ensures other { IsAsBefore (K.left sink.old) (K.left sink.new)
        (K.read_faults sink.old) (K.read_faults sink.new) }
    ensures unfinished { K.finished sink.new ≡ false }
{
    match ready(alloc, call) {
        Ok((text, mut inbox)) => match reach.dial(alloc, address) {
            Ok(link) => {
                let asking = lines_of(call);
                call_on(
                    alloc,
                    reach,
                    link,
                    text.as_slice(),
                    asking,
                    &Unscreened,
                    &mut inbox,
                    sink,
                )
            }
            Err(fault) => {
                drop((text, inbox));
                end_of(fault)
            }
        },
        Err(_) => AskEnd::Memory,
    }
}

/// Calls a method over a bridge that is started: `program` with the words `bridge`, `--resolver` and an
/// address. It makes the call on the link to its input and output, and closes the link, however the call ends.
/// The payload of each reply is passed on as it came, as a line.
pub fn call_child<R: Reach, K: Sink>(
    alloc: Global,
    reach: &mut R,
    program: &str,
    resolver: &Address,
    call: &Call,
    sink: &mut K,
) -> AskEnd
    requires sendable { IsSendable call.now }
    requires unfinished { K.finished sink.old ≡ false }
    ensures calls { CallsOver (deed.Started program.now resolver.now) (call_bytes call.now) (asking_of call.now)
        (record {
          log = R.log reach.old;
          written = K.written sink.old;
          opened = R.opened reach.old;
          state = R.state reach.old;
        })
        (record {
          log = R.log reach.new;
          written = K.written sink.new;
          opened = R.opened reach.new;
          state = R.state reach.new;
        })
        result }
    ensures link_faults { LinkFaults result (R.faults reach.old) (R.faults reach.new) }
    ensures write_faults { WriteFaults result (K.write_faults sink.old) (K.write_faults sink.new) }
    ensures freed { R.freed reach.new ≡ R.freed reach.old }
    ensures other { IsAsBefore (K.left sink.old) (K.left sink.new)
        (K.read_faults sink.old) (K.read_faults sink.new) }
    ensures unfinished { K.finished sink.new ≡ false }
{
    match ready(alloc, call) {
        Ok((text, mut inbox)) => match reach.dial_child(alloc, program, resolver) {
            Ok(link) => {
                let asking = lines_of(call);
                call_on(
                    alloc,
                    reach,
                    link,
                    text.as_slice(),
                    asking,
                    &Unscreened,
                    &mut inbox,
                    sink,
                )
            }
            Err(fault) => {
                drop((text, inbox));
                end_of(fault)
            }
        },
        Err(_) => AskEnd::Memory,
    }
}

/// The text of a call, and the inbox of a link from which nothing was taken yet.
pub fn ready(alloc: Global, call: &Call) -> Result<(List<u8>, Inbox), Memory>
    requires { IsSendable call.now }
    ensures text { IfOk result (λ both. both.0 ≡ call_bytes call.now) }
    ensures inbox { IfOk result (λ both. both.1 ≡ unread) }
{
    let text = call_text(alloc, call)?;
    match Inbox::new(alloc) {
        Ok(inbox) => Ok((text, inbox)),
        Err(stop) => {
            drop(text);
            Err(stop)
        }
    }
}

/// What replies a call asks for, each passed on as a line.
pub fn lines_of(call: &Call) -> Asking
    ensures { result ≡ lines_of call.now }
{
    Asking {
        oneway: call.oneway,
        more: call.more,
        mark: LINE_END,
    }
}

/// Makes a call of this text on an open link, and closes the link, however the call ends. The payload of each
/// reply that reads by the screen is passed on as it came.
pub fn call_on<R: Reach, S: Screen, K: Sink>(
    alloc: Global,
    reach: &mut R,
    link: LinkNo,
    text: &[u8],
    asking: Asking,
    screen: &S,
    inbox: &mut Inbox,
    sink: &mut K,
) -> AskEnd
    requires open { R.state reach.old link.0 ≡ Open }
    requires unfinished { K.finished sink.old ≡ false }
    ensures called { CalledOn (asked asking (S.unread screen.now)) text.now link.0
        (stand (R.log reach.old) (left_of (R.leads reach.old link.0)) (K.written sink.old) inbox.old)
        (R.log reach.new) (K.written sink.new) result }
    ensures told { IsTold result → ExchangedIn R.says (asked asking (S.unread screen.now)) text.now inbox.old
        (spot (R.world reach.old) (R.leads reach.old link.0)) (R.world reach.new)
        (K.written sink.old) (K.written sink.new) result }
    ensures closed { Becomes link.0 Closed (R.state reach.old) (R.state reach.new) }
    ensures opened { R.opened reach.new ≡ R.opened reach.old }
    ensures link_faults { LinkFaults result (R.faults reach.old) (R.faults reach.new) }
    ensures write_faults { WriteFaults result (K.write_faults sink.old) (K.write_faults sink.new) }
    ensures freed { R.freed reach.new ≡ R.freed reach.old }
    ensures other { IsAsBefore (K.left sink.old) (K.left sink.new)
        (K.read_faults sink.old) (K.read_faults sink.new) }
    ensures unfinished { K.finished sink.new ≡ false }
{
    let end = exchange(alloc, reach, link, text, asking, screen, inbox, sink);
    reach.close(link);
    end
}

/// How a call ends that has no link.
pub fn end_of(fault: DialFault) -> AskEnd
    ensures { result ≡ end_of fault }
{
    match fault {
        DialFault::Failed => AskEnd::LinkFault,
        DialFault::Memory => AskEnd::Memory,
    }
}

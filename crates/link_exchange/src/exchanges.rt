// One call on an open link.
ghost use Rattle.std.specs.Prelude.{◌≡◌, ◌≤◌, ◌+◌, [], false, None, OnOk, option_map, length};
ghost use Rattle.link_port.specs.Flow.{IsAsBefore};
ghost use Rattle.link_reach.specs.Deeds.{CountsFault};
ghost use Rattle.link_reach.specs.Links.{AsBefore, OthersAsBefore};
ghost use Rattle.link_reach.specs.Worlds.{left_of, spot, sends};
ghost use Rattle.link_reach.specs.declared.deeds.LinkState.TheVariants.{Open};
ghost use Rattle.link_exchange.specs.Asked.{asked};
ghost use Rattle.link_exchange.specs.Exchanges.{Took, Exchanged, ExchangedIn, IsTold};
ghost use Rattle.link_exchange.specs.Passing.{SendsAll, LinkFaults, WriteFaults};
ghost use Rattle.link_exchange.specs.Stands.{stand};

use crate::asked::Asking;
use crate::ends::AskEnd;
use crate::inboxes::{Inbox, end_of_fault};
use crate::screens::Screen;
use link_port::Sink;
use link_reach::{DialFault, LinkNo, Reach};
use std::alloc::Global;

/// Sends the whole text on a link, in as many sends as the link needs.
fn send_all<R: Reach>(
    alloc: Global,
    reach: &mut R,
    link: LinkNo,
    text: &[u8],
) -> Result<(), DialFault>
    requires { R.state reach.old link.0 ≡ Open }
    ensures sent { SendsAll link.0 text.now (R.log reach.old) (R.log reach.new) result }
    ensures fault { CountsFault (R.faults reach.old) (R.faults reach.new) result }
    ensures world { OnOk result (spot (R.world reach.new) (R.leads reach.new link.0)
        ≡ option_map (sends R.says text.now) (spot (R.world reach.old) (R.leads reach.old link.0))) }
    ensures links { OthersAsBefore link.0 (R.leads reach.old) (R.leads reach.new) }
    ensures opened { R.opened reach.new ≡ R.opened reach.old }
    ensures states { AsBefore (R.state reach.old) (R.state reach.new) }
    ensures freed { R.freed reach.new ≡ R.freed reach.old }
{
    let mut done = 0;
    'sends: while done < text.len() {
        match reach.send(alloc, link, &text[done..]) {
            Ok(count) => done += count,
            Err(fault) => return Err(fault),
        }
    }
    Ok(())
}

/// Takes the replies of a call, and passes each on before more bytes are awaited.
fn take_replies<R: Reach, S: Screen, K: Sink>(
    alloc: Global,
    reach: &mut R,
    link: LinkNo,
    asking: Asking,
    screen: &S,
    inbox: &mut Inbox,
    sink: &mut K,
) -> AskEnd
    requires open { R.state reach.old link.0 ≡ Open }
    requires unfinished { K.finished sink.old ≡ false }
    ensures took { Took (asked asking (S.unread screen.now)) link.0
        (stand (R.log reach.old) (left_of (R.leads reach.old link.0)) (K.written sink.old) inbox.old)
        (stand (R.log reach.new) (left_of (R.leads reach.new link.0)) (K.written sink.new) inbox.new) result }
    ensures link_faults { LinkFaults result (R.faults reach.old) (R.faults reach.new) }
    ensures write_faults { WriteFaults result (K.write_faults sink.old) (K.write_faults sink.new) }
    ensures world { R.world reach.new ≡ R.world reach.old }
    ensures links { OthersAsBefore link.0 (R.leads reach.old) (R.leads reach.new) }
    ensures opened { R.opened reach.new ≡ R.opened reach.old }
    ensures states { AsBefore (R.state reach.old) (R.state reach.new) }
    ensures freed { R.freed reach.new ≡ R.freed reach.old }
    ensures other { IsAsBefore (K.left sink.old) (K.left sink.new)
        (K.read_faults sink.old) (K.read_faults sink.new) }
    ensures unfinished { K.finished sink.new ≡ false }
{
    // What is held was taken from the link.
    let _taken = inbox.taken();
    let mut index = 0;
    'takes: loop {
        if let Some(end) = inbox.pass_on(alloc, asking, screen, &mut index, sink) {
            return end;
        }
        if let Some(end) = inbox.take_more(alloc, reach, link, index) {
            return end;
        }
    }
}

/// Makes one call on an open link: sends its text, which is the payload of the call and its NUL,
/// and passes on the payload of each reply, as it came, with the mark behind it (varlink.org, "Method
/// Call").
///
/// An error is passed on and ends the call. A reply that says that another follows, though it is an
/// error or the call did not ask for more, is not passed on, and neither is one without error that does
/// not read by the screen; either ends the call. A `oneway` call takes nothing. All
/// replies that are held are put to the sink before more bytes are awaited. What came behind the last
/// reply stays in the inbox, which is that of the link. The link stays open.
pub fn exchange<R: Reach, S: Screen, K: Sink>(
    alloc: Global,
    reach: &mut R,
    link: LinkNo,
    text: &[u8],
    asking: Asking,
    screen: &S,
    inbox: &mut Inbox,
    sink: &mut K,
) -> AskEnd
    requires open { R.state reach.old link.0 ≡ Open }
    requires unfinished { K.finished sink.old ≡ false }
    ensures exchanged { Exchanged (asked asking (S.unread screen.now)) text.now link.0
        (stand (R.log reach.old) (left_of (R.leads reach.old link.0)) (K.written sink.old) inbox.old)
        (stand (R.log reach.new) (left_of (R.leads reach.new link.0)) (K.written sink.new) inbox.new) result }
    ensures told { IsTold result → ExchangedIn R.says (asked asking (S.unread screen.now)) text.now inbox.old
        (spot (R.world reach.old) (R.leads reach.old link.0)) (R.world reach.new)
        (K.written sink.old) (K.written sink.new) result }
    ensures link_faults { LinkFaults result (R.faults reach.old) (R.faults reach.new) }
    ensures write_faults { WriteFaults result (K.write_faults sink.old) (K.write_faults sink.new) }
    ensures links { OthersAsBefore link.0 (R.leads reach.old) (R.leads reach.new) }
    ensures opened { R.opened reach.new ≡ R.opened reach.old }
    ensures states { AsBefore (R.state reach.old) (R.state reach.new) }
    ensures freed { R.freed reach.new ≡ R.freed reach.old }
    ensures other { IsAsBefore (K.left sink.old) (K.left sink.new)
        (K.read_faults sink.old) (K.read_faults sink.new) }
    ensures unfinished { K.finished sink.new ≡ false }
{
    if let Err(fault) = send_all(alloc, reach, link, text) {
        return end_of_fault(fault);
    }
    if asking.oneway {
        return AskEnd::Done { replies: 0 };
    }
    take_replies(alloc, reach, link, asking, screen, inbox, sink)
}

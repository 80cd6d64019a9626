// A service is asked for a definition, and what its reply says of a method.
ghost use Rattle.std.specs.Prelude.{◌≡◌, IfOk, List, Option, option_map, ℕ};
ghost use Rattle.call_form.specs.declared.Reply.{Reply};
ghost use Rattle.caller_form.specs.CallBytes.{call_bytes};
ghost use Rattle.link_reach.specs.Links.{AsBefore, OthersAsBefore};
ghost use Rattle.link_reach.specs.Worlds.{left_of};
ghost use Rattle.link_reach.specs.declared.deeds.LinkState.TheVariants.{Open};
ghost use Rattle.link_exchange.specs.Gathering.{IsLast};
ghost use Rattle.link_exchange.specs.OneReply.{IsLine, IsWellTyped};
ghost use Rattle.link_exchange.specs.Stands.{stand};
ghost use Rattle.resolver_core.specs.Words.{at_dot};
ghost use Rattle.standard_calls.specs.Asking.{description_call};
ghost use Rattle.typed_call.specs.Describing.{Describes, Tells, IsSaid, FaultsOf, lacks, told};

use crate::ends::{ReplyEnd, TypedEnd, Why};
use caller_form::{REPLY_LIMIT, ReplyFault, call_text, read_reply};
use link_exchange::{AskEnd, Asking, Inbox, Unscreened, exchange};
use link_port::{List, MemSink, Memory};
use link_reach::{LinkNo, Reach};
use standard_calls::{Described, NoDescription, description_call};
use std::alloc::Global;

/// One reply is asked for, and passed on as a line.
const ONE: Asking = Asking {
    oneway: false,
    more: false,
    mark: 10,
};

/// The name of an interface and that of a method, which stand before and behind the last dot of a word.
pub fn at_dot(word: &str) -> Option<(&str, &str)>
    ensures { option_map (λ parts. (parts.0.now, parts.1.now)) result ≡ at_dot word.now }
{
    word.rsplit_once('.')
}

/// Asks for the definition of an interface on an open link, and tells what it says of the method of that name.
pub fn describe<R: Reach>(
    alloc: Global,
    reach: &mut R,
    link: LinkNo,
    interface: &str,
    method: &str,
    inbox: &mut Inbox,
) -> Result<Described, TypedEnd>
    requires { R.state reach.old link.0 ≡ Open }
    ensures describes { (written : Option (List ℕ)) → Describes interface.now method.now link.0
        (stand (R.log reach.old) (left_of (R.leads reach.old link.0)) written inbox.old)
        (stand (R.log reach.new) (left_of (R.leads reach.new link.0)) written inbox.new) result }
    ensures faults { FaultsOf result (R.faults reach.old) (R.faults reach.new) }
    ensures links { OthersAsBefore link.0 (R.leads reach.old) (R.leads reach.new) }
    ensures opened { R.opened reach.new ≡ R.opened reach.old }
    ensures states { AsBefore (R.state reach.old) (R.state reach.new) }
    ensures freed { R.freed reach.new ≡ R.freed reach.old }
{
    let Ok(text) = description_text(alloc, interface) else {
        return Err(TypedEnd::Asked(AskEnd::Memory));
    };
    match MemSink::new(alloc, REPLY_LIMIT + 1, List::new(alloc), List::new(alloc)) {
        Ok(mut sink) => {
            let end = exchange(
                alloc,
                reach,
                link,
                text.as_slice(),
                ONE,
                &Unscreened,
                inbox,
                &mut sink,
            );
            drop(text);
            let answer = answer_of(alloc, end, method, sink.bytes());
            drop(sink);
            answer
        }
        Err(_) => {
            drop(text);
            Err(TypedEnd::Asked(AskEnd::Memory))
        }
    }
}

// The text of the call for the definition of an interface.
fn description_text(alloc: Global, interface: &str) -> Result<List<u8>, Memory>
    ensures { IfOk result (λ text. text ≡ call_bytes (description_call interface.now)) }
{
    let call = description_call(alloc, interface)?;
    let text = call_text(alloc, &call);
    drop(call);
    text
}

// What a call for a definition that ended so has told of the method of that name, where it passed on this.
fn answer_of(
    alloc: Global,
    end: AskEnd,
    method: &str,
    printed: &[u8],
) -> Result<Described, TypedEnd>
    requires typed { IsWellTyped end }
    requires line { IsLast end → IsLine 10 printed.now }
    ensures { Tells method.now end printed.now result }
{
    match end {
        AskEnd::Done { .. } => said_in(alloc, method, printed),
        AskEnd::ErrorReply { name } => {
            drop(name);
            said_in(alloc, method, printed)
        }
        AskEnd::NotReply { fault, .. } => lacks(ReplyEnd::NotReply(fault)),
        AskEnd::Continues { .. } => lacks(ReplyEnd::Continues),
        AskEnd::Ended { .. } => lacks(ReplyEnd::Ended),
        AskEnd::TooLong { .. } => lacks(ReplyEnd::TooLong),
        AskEnd::IllTyped { .. } => unreachable!(),
        AskEnd::Long => Err(TypedEnd::Asked(AskEnd::Long)),
        AskEnd::LinkFault => Err(TypedEnd::Asked(AskEnd::LinkFault)),
        AskEnd::WriteFault | AskEnd::Memory => Err(TypedEnd::Asked(AskEnd::Memory)),
    }
}

fn lacks(end: ReplyEnd) -> Result<Described, TypedEnd>
    ensures { result ≡ lacks end }
{
    Err(TypedEnd::NoDescription(Why::Exchange(end)))
}

// What the line of a reply says of the method of that name.
fn said_in(alloc: Global, method: &str, printed: &[u8]) -> Result<Described, TypedEnd>
    requires { IsLine 10 printed.now }
    ensures { IsSaid method.now printed.now result }
{
    let [payload @ .., _] = printed else {
        unreachable!()
    };
    match read_reply(alloc, payload) {
        Ok(reply) => {
            let said = Described::of(alloc, &reply, method);
            drop(reply);
            told(said)
        }
        Err(ReplyFault::Memory) => Err(TypedEnd::Asked(AskEnd::Memory)),
        Err(_) => unreachable!(),
    }
}

// The same of a reply that was read.
fn told(said: Result<Described, NoDescription>) -> Result<Described, TypedEnd>
    ensures { result ≡ told said }
{
    match said {
        Ok(described) => Ok(described),
        Err(NoDescription::Memory) => Err(TypedEnd::Asked(AskEnd::Memory)),
        Err(why) => Err(TypedEnd::NoDescription(Why::Said(why))),
    }
}

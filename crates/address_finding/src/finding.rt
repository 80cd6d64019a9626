// The question for the address of an interface.
ghost use Rattle.std.specs.Prelude.{◌≡◌, ℕ, Err, [], Some};
ghost use Rattle.link_exchange.specs.OneReply.{IsWellTyped};
ghost use Rattle.link_exchange.specs.Passing.{LinkFaults};
ghost use Rattle.address_finding.specs.Finding.{Finds, AnswersBy, TellsIn, CountsFaults, told_of};

use crate::ends::{ResolveEnd, ResolveFault};
use caller_form::{REPLY_LIMIT, ReplyFault, read_reply};
use client_core::call_direct;
use link_doors::Address;
use link_exchange::AskEnd;
use link_port::{List, MemSink};
use link_reach::Reach;
use standard_calls::{NoAddress, address_in, resolve_call};
use std::alloc::Global;

/// Asks the resolver at an address where an interface is served (varlink.org, "Resolver"): dials it once, makes one
/// `Resolve` call, and closes the link. It is `Missing` exactly where the reply is the resolver's
/// `InterfaceNotFound`.
pub fn resolve<R: Reach>(
    alloc: Global,
    reach: &mut R,
    resolver: &Address,
    interface: &str,
) -> Result<Address, ResolveEnd>
    ensures finds { Finds resolver.now interface.now
        (record {
          log = R.log reach.old;
          opened = R.opened reach.old;
          state = R.state reach.old;
        })
        (record {
          log = R.log reach.new;
          opened = R.opened reach.new;
          state = R.state reach.new;
        })
        result }
    ensures faults { CountsFaults result (R.faults reach.old) (R.faults reach.new) }
    ensures freed { R.freed reach.new ≡ R.freed reach.old }
{
    let Ok(call) = resolve_call(alloc, interface) else {
        return Err(ResolveEnd::Memory);
    };
    match MemSink::new(alloc, REPLY_LIMIT + 1, List::new(alloc), List::new(alloc)) {
        Ok(mut sink) => {
            let end = call_direct(alloc, reach, resolver, &call, &mut sink);
            drop(call);
            let answer = answer_of(alloc, end, sink.bytes());
            drop(sink);
            answer
        }
        Err(_) => {
            drop(call);
            Err(ResolveEnd::Memory)
        }
    }
}

// What a call that ended so has told, where it passed on these lines.
fn answer_of(alloc: Global, end: AskEnd, printed: &[u8]) -> Result<Address, ResolveEnd>
    requires { IsWellTyped end }
    ensures answers { AnswersBy (TellsIn result printed.now) result end }
    ensures faults { (before now : ℕ) → LinkFaults end before now → CountsFaults result before now }
{
    match end {
        AskEnd::Done { .. } => told_in(alloc, printed),
        AskEnd::ErrorReply { name } => {
            drop(name);
            told_in(alloc, printed)
        }
        AskEnd::NotReply { fault, .. } => bad(ResolveFault::NotReply(fault)),
        AskEnd::Continues { .. } => bad(ResolveFault::Continues),
        AskEnd::Ended { .. } => bad(ResolveFault::Ended),
        AskEnd::TooLong { .. } => bad(ResolveFault::TooLong),
        AskEnd::Long => bad(ResolveFault::Long),
        AskEnd::LinkFault => Err(ResolveEnd::LinkFault),
        AskEnd::IllTyped { .. } => unreachable!(),
        AskEnd::WriteFault | AskEnd::Memory => Err(ResolveEnd::Memory),
    }
}

fn bad(fault: ResolveFault) -> Result<Address, ResolveEnd>
    ensures { result ≡ Err (ResolveEnd.Bad fault) }
{
    Err(ResolveEnd::Bad(fault))
}

// What the line of a reply tells.
fn told_in(alloc: Global, printed: &[u8]) -> Result<Address, ResolveEnd>
    ensures tells { TellsIn result printed.now }
    ensures faults { (count : ℕ) → CountsFaults result count count }
{
    let [payload @ .., _] = printed else {
        return Err(ResolveEnd::Memory);
    };
    match read_reply(alloc, payload) {
        Ok(reply) => {
            let told = address_in(alloc, &reply);
            drop(reply);
            told_of(told)
        }
        Err(ReplyFault::Memory) => Err(ResolveEnd::Memory),
        Err(fault) => bad(ResolveFault::NotReply(fault)),
    }
}

// The same of a reply that was read.
fn told_of(told: Result<Address, NoAddress>) -> Result<Address, ResolveEnd>
    ensures told { result ≡ told_of told }
    ensures faults { (count : ℕ) → CountsFaults result count count }
{
    match told {
        Ok(address) => Ok(address),
        Err(NoAddress::Missing) => Err(ResolveEnd::Missing),
        Err(NoAddress::OtherError(name)) => bad(ResolveFault::OtherError(name)),
        Err(NoAddress::NoText) => bad(ResolveFault::NoText),
        Err(NoAddress::BadAddress) => bad(ResolveFault::BadAddress),
        Err(NoAddress::Memory) => Err(ResolveEnd::Memory),
    }
}

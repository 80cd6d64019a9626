// Calls at an address and over a bridge: what they pass on, how they end, and what was done.
ghost use Rattle.std.specs.Prelude.{◌≡◌, false, IfOk};
ghost use Rattle.call_form.specs.CallText.{IsSendable};

use call_form::Call;
use client_core::{call_child, call_direct};
use link_doors::Address;
use link_exchange::AskEnd;
use link_port::{List, MemSink, Memory, Text};
use link_reach::{Deed, MemReach};
use standard_calls::resolve_call;
use std::alloc::Global;

/// The text of the call, which is made without a flag, with `more` and with `oneway`.
const PLAIN: &[u8] =
    b"{\"method\":\"org.varlink.resolver.Resolve\",\"parameters\":{\"interface\":\"a.b\"}}\0";

const FOR_MORE: &[u8] =
    b"{\"method\":\"org.varlink.resolver.Resolve\",\"more\":true,\"parameters\":{\"interface\":\"a.b\"}}\0";

const ONEWAY: &[u8] =
    b"{\"method\":\"org.varlink.resolver.Resolve\",\"oneway\":true,\"parameters\":{\"interface\":\"a.b\"}}\0";

/// What a peer says, which calls of the reach fail, and which puts of the sink.
#[derive(Clone, Copy)]
struct Peer<'a> {
    says: &'a [u8],
    failing: &'a [u64],
    failing_puts: &'a [u64],
}

/// What a call comes to: its end, what it passes on, and what was done.
#[derive(Clone, Copy)]
struct Wanted<'a> {
    end: (&'a str, u64),
    lines: &'a [u8],
    deeds: &'a [(&'a str, &'a [u8])],
}

fn copied(alloc: Global, bytes: &[u8]) -> Result<List<u8>, Memory> {
    match Vec::from_slice(alloc, bytes) {
        Ok(copy) => Ok(List::from_vec(copy)),
        Err(_) => Err(Memory),
    }
}

fn numbers(alloc: Global, calls: &[u64]) -> Result<List<u64>, Memory> {
    match Vec::from_slice(alloc, calls) {
        Ok(copy) => Ok(List::from_vec(copy)),
        Err(_) => Err(Memory),
    }
}

// A reach of one link, whose peer says these bytes, and of which these calls fail.
fn reach(alloc: Global, says: &[u8], failing: &[u64]) -> Result<MemReach, Memory> {
    let calls = numbers(alloc, failing)?;
    match one_link(alloc, says) {
        Ok(reach) => Ok(reach.failing(calls)),
        Err(stop) => {
            drop(calls);
            Err(stop)
        }
    }
}

fn one_link(alloc: Global, says: &[u8]) -> Result<MemReach, Memory> {
    let says = copied(alloc, says)?;
    match vec![in alloc; says] {
        Ok(links) => MemReach::new(alloc, List::from_vec(links)),
        Err(failed) => {
            drop(failed);
            Err(Memory)
        }
    }
}

// The call with these flags.
fn called(alloc: Global, oneway: bool, more: bool) -> Result<Call, Memory>
    ensures { IfOk result (λ call. IsSendable call) }
{
    let Call {
        method,
        parameters,
        ..
    } = resolve_call(alloc, "a.b")?;
    Ok(Call {
        method,
        parameters,
        oneway,
        more,
        upgrade: false,
    })
}

// Whether this is how the call ended.
fn is_end(end: &AskEnd, want: (&str, u64)) -> bool {
    match end {
        AskEnd::Done { replies } => want == ("done", *replies),
        AskEnd::ErrorReply { name } => want == (name.as_str(), 0),
        AskEnd::NotReply { index, .. } => want == ("no reply", *index),
        AskEnd::Continues { index } => want == ("continues", *index),
        AskEnd::Ended { index } => want == ("ended", *index),
        AskEnd::TooLong { index } => want == ("too long", *index),
        AskEnd::IllTyped { index, .. } => want == ("ill typed", *index),
        AskEnd::Long => want == ("long", 0),
        AskEnd::LinkFault => want == ("link fault", 0),
        AskEnd::WriteFault => want == ("write fault", 0),
        AskEnd::Memory => false,
    }
}

// Whether this is what was done.
fn is_deed(deed: &Deed, want: (&str, &[u8])) -> bool {
    match deed {
        Deed::Dialled(Address::Unix(path)) => want == ("dialled", path.as_str().as_bytes()),
        Deed::Dialled(_) => false,
        Deed::Started { program, .. } => want == ("started", program.as_str().as_bytes()),
        Deed::Sent { bytes, .. } => want == ("sent", bytes.as_slice()),
        Deed::Took { bytes, .. } => want == ("took", bytes.as_slice()),
        Deed::Ended { .. } => want == ("ended", b""),
    }
}

fn are_deeds(deeds: &[Deed], wants: &[(&str, &[u8])]) -> bool {
    deeds.len() == wants.len()
        && deeds
            .iter()
            .zip(wants.iter())
            .all(|(deed, want)| is_deed(deed, *want))
}

// How a call over this reach ends, directly or over a bridge.
fn end_of(
    alloc: Global,
    reach: &mut MemReach,
    program: Option<&str>,
    call: &Call,
    sink: &mut MemSink,
) -> AskEnd
    requires sendable { IsSendable call.now }
    requires unfinished { sink.old.finished ≡ false }
{
    let Ok(path) = Text::of(alloc, "/a") else {
        return AskEnd::Memory;
    };
    let address = Address::Unix(path);
    let end = match program {
        Some(program) => call_child(alloc, reach, program, &address, call, sink),
        None => call_direct(alloc, reach, &address, call, sink),
    };
    drop(address);
    end
}

// Whether a call over a reach passes this on and ends so.
fn passes_on(
    alloc: Global,
    reach: &mut MemReach,
    program: Option<&str>,
    call: &Call,
    failing_puts: &[u64],
    want: &Wanted<'_>,
) -> bool
    requires { IsSendable call.now }
{
    let Ok(failing) = numbers(alloc, failing_puts) else {
        return false;
    };
    let Ok(mut sink) = MemSink::new(alloc, 256, List::new(alloc), failing) else {
        return false;
    };
    let end = end_of(alloc, reach, program, call, &mut sink);
    let right = is_end(&end, want.end) && sink.bytes() == want.lines;
    drop((end, sink));
    right
}

// Whether the call with these flags comes to this over a peer.
fn comes_to(
    alloc: Global,
    peer: &Peer<'_>,
    program: Option<&str>,
    flags: (bool, bool),
    want: &Wanted<'_>,
) -> bool {
    let Ok(call) = called(alloc, flags.0, flags.1) else {
        return false;
    };
    let right = match reach(alloc, peer.says, peer.failing) {
        Ok(mut reach) => {
            let passed = passes_on(alloc, &mut reach, program, &call, peer.failing_puts, want);
            let done = are_deeds(reach.deeds(), want.deeds);
            drop(reach);
            passed && done
        }
        Err(_) => false,
    };
    drop(call);
    right
}

const fn sound(says: &[u8]) -> Peer<'_> {
    Peer {
        says,
        failing: &[],
        failing_puts: &[],
    }
}

#[test]
fn a_call_is_made_at_an_address(rt: HostRuntime) {
    let says = b"{\"parameters\":{\"address\":\"unix:/count\"}}\0";
    let want = Wanted {
        end: ("done", 1),
        lines: b"{\"parameters\":{\"address\":\"unix:/count\"}}\n",
        deeds: &[("dialled", b"/a"), ("sent", PLAIN), ("took", says)],
    };
    assert!(rt; comes_to(rt.alloc(), &sound(says), None, (false, false), &want));
}

#[test]
fn a_call_is_made_over_a_bridge(rt: HostRuntime) {
    let says = b"{\"error\":\"a.E\"}\0";
    let want = Wanted {
        end: ("a.E", 0),
        lines: b"{\"error\":\"a.E\"}\n",
        deeds: &[("started", b"/bin/bridge"), ("sent", PLAIN), ("took", says)],
    };
    assert!(rt;
        comes_to(
            rt.alloc(),
            &sound(says),
            Some("/bin/bridge"),
            (false, false),
            &want
        )
    );
}

#[test]
fn a_call_that_wants_no_reply_waits_for_none(rt: HostRuntime) {
    let want = Wanted {
        end: ("done", 0),
        lines: b"",
        deeds: &[("dialled", b"/a"), ("sent", ONEWAY)],
    };
    assert!(rt; comes_to(rt.alloc(), &sound(b"{}\0"), None, (true, false), &want));
}

#[test]
fn a_link_that_cannot_be_dialled_is_a_link_fault(rt: HostRuntime) {
    let peer = Peer {
        says: b"{}\0",
        failing: &[0],
        failing_puts: &[],
    };
    let dialled = Wanted {
        end: ("link fault", 0),
        lines: b"",
        deeds: &[("dialled", b"/a")],
    };
    let started = Wanted {
        end: ("link fault", 0),
        lines: b"",
        deeds: &[("started", b"x")],
    };
    assert!(rt; comes_to(rt.alloc(), &peer, None, (false, false), &dialled));
    assert!(rt; comes_to(rt.alloc(), &peer, Some("x"), (false, false), &started));
}

#[test]
fn the_whole_replies_stand_after_a_link_fault(rt: HostRuntime) {
    let says = b"{\"continues\":true}\0";
    let peer = Peer {
        says,
        failing: &[3],
        failing_puts: &[],
    };
    let want = Wanted {
        end: ("link fault", 0),
        lines: b"{\"continues\":true}\n",
        deeds: &[("dialled", b"/a"), ("sent", FOR_MORE), ("took", says)],
    };
    assert!(rt; comes_to(rt.alloc(), &peer, None, (false, true), &want));
}

#[test]
fn a_failing_output_is_a_write_fault(rt: HostRuntime) {
    let says = b"{}\0";
    let peer = Peer {
        says,
        failing: &[],
        failing_puts: &[0],
    };
    let want = Wanted {
        end: ("write fault", 0),
        lines: b"",
        deeds: &[("dialled", b"/a"), ("sent", PLAIN), ("took", says)],
    };
    assert!(rt; comes_to(rt.alloc(), &peer, None, (false, false), &want));
}

#[test]
fn a_link_that_ends_early_is_told(rt: HostRuntime) {
    let says = b"{\"continues\":true}\0{";
    let want = Wanted {
        end: ("ended", 1),
        lines: b"{\"continues\":true}\n",
        deeds: &[
            ("dialled", b"/a"),
            ("sent", FOR_MORE),
            ("took", says),
            ("ended", b""),
        ],
    };
    assert!(rt; comes_to(rt.alloc(), &sound(says), None, (false, true), &want));
}

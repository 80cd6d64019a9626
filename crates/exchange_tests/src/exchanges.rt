// One call is made on a link in memory, and what it passes on, how it ends and what was done are looked at.
ghost use Rattle.std.specs.Prelude.{◌≡◌};
ghost use Rattle.link_reach.specs.declared.deeds.LinkState.TheVariants.{Open};

use call_form::Reply;
use link_doors::Address;
use link_exchange::{AskEnd, Asking, Inbox, Misread, Screen, exchange};
use link_port::{List, MemSink, Memory, Text};
use link_reach::{Deed, LinkNo, MemReach, Reach};
use std::alloc::Global;

/// The call that is sent.
const CALL: &[u8] = b"{}\0";

// A reply reads unless it has a parameter `bad`.
struct NoneBad;

impl Screen for NoneBad {
    ghost use Rattle.std.specs.Prelude.{codes, is_some, option_map};
    ghost use Rattle.serde_json.specs.Find.{get};

    ghost unread = { λ _ reply. option_map (λ _. codes "bad") (get (codes "bad") reply.parameters) };

    fn reads_all(&self) -> bool {
        false
    }

    fn check(&self, alloc: Global, reply: &Reply) -> Result<(), Misread> {
        match reply.parameters.inner().get("bad") {
            Some(_) => Err(Misread::Field(Text::of(alloc, "bad")?)),
            None => Ok(()),
        }
    }
}

fn copied(alloc: Global, bytes: &[u8]) -> Result<List<u8>, Memory> {
    match Vec::from_slice(alloc, bytes) {
        Ok(copy) => Ok(List::from_vec(copy)),
        Err(_) => Err(Memory),
    }
}

fn numbers(alloc: Global, calls: &[u64]) -> Result<List<u64>, Memory> {
    match Vec::from_slice(alloc, calls) {
        Ok(copy) => Ok(List::from_vec(copy)),
        Err(_) => Err(Memory),
    }
}

fn path(alloc: Global) -> Result<Address, Memory> {
    Ok(Address::Unix(Text::of(alloc, "/a")?))
}

// A reach of one link, whose peer says these bytes.
fn one_link(alloc: Global, says: &[u8]) -> Result<MemReach, Memory> {
    let says = copied(alloc, says)?;
    match vec![in alloc; says] {
        Ok(links) => MemReach::new(alloc, List::from_vec(links)),
        Err(failed) => {
            drop(failed);
            Err(Memory)
        }
    }
}

// The same reach, of which these calls fail.
fn reach(alloc: Global, says: &[u8], failing: &[u64]) -> Result<MemReach, Memory> {
    let calls = numbers(alloc, failing)?;
    match one_link(alloc, says) {
        Ok(reach) => Ok(reach.failing(calls)),
        Err(memory) => {
            drop(calls);
            Err(memory)
        }
    }
}

// Whether this is how the call ended.
fn is_end(end: &AskEnd, want: (&str, u64)) -> bool {
    match end {
        AskEnd::Done { replies } => want == ("done", *replies),
        AskEnd::ErrorReply { name } => want == (name.as_str(), 0),
        AskEnd::NotReply { index, .. } => want == ("no reply", *index),
        AskEnd::Continues { index } => want == ("continues", *index),
        AskEnd::Ended { index } => want == ("ended", *index),
        AskEnd::TooLong { index } => want == ("too long", *index),
        AskEnd::IllTyped { index, field } => field.as_str() == "bad"
            && want == ("ill typed", *index),
        AskEnd::Long => want == ("long", 0),
        AskEnd::LinkFault => want == ("link fault", 0),
        AskEnd::WriteFault => want == ("write fault", 0),
        AskEnd::Memory => false,
    }
}

// Whether this is what was done.
fn is_deed(deed: &Deed, want: (&str, &[u8])) -> bool {
    match deed {
        Deed::Sent { bytes, .. } => want == ("sent", bytes.as_slice()),
        Deed::Took { bytes, .. } => want == ("took", bytes.as_slice()),
        Deed::Ended { .. } => want == ("ended", b""),
        _ => false,
    }
}

fn are_deeds(deeds: &[Deed], wants: &[(&str, &[u8])]) -> bool {
    deeds.len() == wants.len()
        && deeds
            .iter()
            .zip(wants.iter())
            .all(|(deed, want)| is_deed(deed, *want))
}

// Whether a call passes this on, ends so, and leaves this in the inbox.
fn is_passed<R: Reach>(
    alloc: Global,
    reach: &mut R,
    link: LinkNo,
    asking: Asking,
    inbox: &mut Inbox,
    room: u64,
    want: (&str, u64, &[u8]),
) -> bool
    requires { R.state reach.old link.0 ≡ Open }
{
    let Ok(mut sink) = MemSink::new(alloc, room, List::new(alloc), List::new(alloc)) else {
        return false;
    };
    let end = exchange(alloc, reach, link, CALL, asking, &NoneBad, inbox, &mut sink);
    let right = is_end(&end, (want.0, want.1)) && sink.bytes() == want.2;
    drop((end, sink));
    right
}

fn is_called<R: Reach>(
    alloc: Global,
    reach: &mut R,
    asking: Asking,
    room: u64,
    want: (&str, u64, &[u8]),
    left: &[u8],
) -> bool {
    let Ok(address) = path(alloc) else {
        return false;
    };
    let dialled = reach.dial(alloc, &address);
    drop(address);
    let Ok(link) = dialled else {
        return false;
    };
    let Ok(mut inbox) = Inbox::new(alloc) else {
        return false;
    };
    let right = is_passed(alloc, reach, link, asking, &mut inbox, room, want);
    let held = inbox.held() == left && inbox.taken() >= left.len() as u64;
    drop(inbox);
    right && held
}

// Whether a call over a peer that says these bytes, and a reach of which these calls fail, comes to this.
fn comes_to(
    alloc: Global,
    peer: (&[u8], &[u64]),
    asking: Asking,
    room: u64,
    want: (&str, u64, &[u8]),
    left: &[u8],
    deeds: &[(&str, &[u8])],
) -> bool {
    let Ok(mut reach) = reach(alloc, peer.0, peer.1) else {
        return false;
    };
    let right = is_called(alloc, &mut reach, asking, room, want, left);
    let done = match reach.deeds() {
        [Deed::Dialled(_), later @ ..] => are_deeds(later, deeds),
        _ => false,
    };
    drop(reach);
    right && done
}

/// A call that asks for one reply, for several, and for none. Each payload has a line end behind it.
const ONE: Asking = Asking {
    oneway: false,
    more: false,
    mark: 10,
};

const SEVERAL: Asking = Asking {
    oneway: false,
    more: true,
    mark: 10,
};

const NONE: Asking = Asking {
    oneway: true,
    more: false,
    mark: 10,
};

#[test]
fn one_reply_is_passed_on_as_it_came(rt: HostRuntime) {
    let says = b" {\"a\" :1} \0{}\0";
    assert!(rt;
        comes_to(
            rt.alloc(),
            (says, &[]),
            ONE,
            64,
            ("done", 1, b" {\"a\" :1} \n"),
            b"{}\0",
            &[("sent", CALL), ("took", says)]
        )
    );
}

#[test]
fn several_replies_are_passed_on(rt: HostRuntime) {
    let says = b"{\"continues\":true}\0{}\0";
    assert!(rt;
        comes_to(
            rt.alloc(),
            (says, &[]),
            SEVERAL,
            64,
            ("done", 2, b"{\"continues\":true}\n{}\n"),
            b"",
            &[("sent", CALL), ("took", says)]
        )
    );
}

#[test]
fn a_reply_that_goes_on_unasked_is_not_passed_on(rt: HostRuntime) {
    let says = b"{\"continues\":true}\0";
    assert!(rt;
        comes_to(
            rt.alloc(),
            (says, &[]),
            ONE,
            64,
            ("continues", 0, b""),
            b"",
            &[("sent", CALL), ("took", says)]
        )
    );
    let error = b"{\"continues\":true,\"error\":\"a.E\"}\0";
    assert!(rt;
        comes_to(
            rt.alloc(),
            (error, &[]),
            SEVERAL,
            64,
            ("continues", 0, b""),
            b"",
            &[("sent", CALL), ("took", error)]
        )
    );
}

#[test]
fn an_error_is_passed_on_and_ends_the_call(rt: HostRuntime) {
    let says = b"{\"error\":\"a.E\"}\0";
    assert!(rt;
        comes_to(
            rt.alloc(),
            (says, &[]),
            ONE,
            64,
            ("a.E", 0, b"{\"error\":\"a.E\"}\n"),
            b"",
            &[("sent", CALL), ("took", says)]
        )
    );
}

#[test]
fn a_reply_that_does_not_read_is_not_passed_on(rt: HostRuntime) {
    let says = b"{\"continues\":true,\"parameters\":{\"a\":1}}\0{\"parameters\":{\"bad\":1}}\0{}\0";
    assert!(rt;
        comes_to(
            rt.alloc(),
            (says, &[]),
            SEVERAL,
            64,
            (
                "ill typed",
                1,
                b"{\"continues\":true,\"parameters\":{\"a\":1}}\n"
            ),
            b"{}\0",
            &[("sent", CALL), ("took", says)]
        )
    );
    let error = b"{\"error\":\"a.E\",\"parameters\":{\"bad\":1}}\0";
    assert!(rt;
        comes_to(
            rt.alloc(),
            (error, &[]),
            ONE,
            64,
            (
                "a.E",
                0,
                b"{\"error\":\"a.E\",\"parameters\":{\"bad\":1}}\n"
            ),
            b"",
            &[("sent", CALL), ("took", error)]
        )
    );
    let astray = b"{\"continues\":true,\"parameters\":{\"bad\":1}}\0";
    assert!(rt;
        comes_to(
            rt.alloc(),
            (astray, &[]),
            ONE,
            64,
            ("continues", 0, b""),
            b"",
            &[("sent", CALL), ("took", astray)]
        )
    );
}

#[test]
fn what_is_no_reply_ends_the_call(rt: HostRuntime) {
    let says = b"{\"continues\":true}\0x\0";
    assert!(rt;
        comes_to(
            rt.alloc(),
            (says, &[]),
            SEVERAL,
            64,
            ("no reply", 1, b"{\"continues\":true}\n"),
            b"",
            &[("sent", CALL), ("took", says)]
        )
    );
    assert!(rt;
        comes_to(
            rt.alloc(),
            (b"{}", &[]),
            ONE,
            64,
            ("ended", 0, b""),
            b"{}",
            &[("sent", CALL), ("took", b"{}"), ("ended", b"")]
        )
    );
}

// A reply without members, with so many spaces behind it.
fn padded(alloc: Global, spaces: usize) -> Result<List<u8>, Memory> {
    let Ok(mut bytes) = vec![in alloc; b' '; spaces] else {
        return Err(Memory);
    };
    if bytes.insert(0, b'}').is_err() || bytes.insert(0, b'{').is_err() || bytes.push(0).is_err() {
        drop(bytes);
        return Err(Memory);
    }
    Ok(List::from_vec(bytes))
}

// Whether a reply with so many spaces behind it ends the call so, and whether it is passed on.
fn padded_ends(alloc: Global, spaces: usize, end: (&str, u64), is_passed_on: bool) -> bool {
    let Ok(says) = padded(alloc, spaces) else {
        return false;
    };
    let Ok(mut reach) = reach(alloc, says.as_slice(), &[]) else {
        drop(says);
        return false;
    };
    let Ok(mut line) = padded(alloc, spaces) else {
        drop((says, reach));
        return false;
    };
    drop(says);
    let right = ends_with_line(alloc, &mut reach, &mut line, end, is_passed_on);
    drop((reach, line));
    right
}

// The same, where this is the message; a line feed takes the place of its NUL.
fn ends_with_line(
    alloc: Global,
    reach: &mut MemReach,
    line: &mut List<u8>,
    end: (&str, u64),
    is_passed_on: bool,
) -> bool {
    let mut bytes = std::mem::replace(line, List::new(alloc)).into_vec();
    let _nul = bytes.pop();
    let pushed = bytes.push(b'\n').is_ok();
    let want: &[u8] = if is_passed_on { bytes.as_slice() } else { b"" };
    let right = pushed && is_called(alloc, reach, ONE, 8_388_608, (end.0, end.1, want), b"");
    drop(bytes);
    right
}

#[test]
fn a_reply_of_several_takes_is_passed_on_whole(rt: HostRuntime) {
    assert!(rt; padded_ends(rt.alloc(), 70_000, ("done", 1), true));
    assert!(rt; padded_ends(rt.alloc(), 65_533, ("done", 1), true));
    assert!(rt; padded_ends(rt.alloc(), 65_534, ("done", 1), true));
}

#[test]
fn a_reply_past_the_limit_is_too_long(rt: HostRuntime) {
    assert!(rt; padded_ends(rt.alloc(), 4_194_302, ("done", 1), true));
    assert!(rt; padded_ends(rt.alloc(), 4_194_303, ("too long", 0), false));
}

#[test]
fn a_oneway_call_takes_nothing(rt: HostRuntime) {
    assert!(rt;
        comes_to(
            rt.alloc(),
            (b"{}\0", &[]),
            NONE,
            64,
            ("done", 0, b""),
            b"",
            &[("sent", CALL)]
        )
    );
}

#[test]
fn faults_of_the_reach_end_the_call(rt: HostRuntime) {
    let says = b"{\"continues\":true}\0";
    assert!(rt;
        comes_to(
            rt.alloc(),
            (says, &[1]),
            SEVERAL,
            64,
            ("link fault", 0, b""),
            b"",
            &[]
        )
    );
    assert!(rt;
        comes_to(
            rt.alloc(),
            (says, &[2]),
            SEVERAL,
            64,
            ("link fault", 0, b""),
            b"",
            &[("sent", CALL)]
        )
    );
    assert!(rt;
        comes_to(
            rt.alloc(),
            (says, &[3]),
            SEVERAL,
            64,
            ("link fault", 0, b"{\"continues\":true}\n"),
            b"",
            &[("sent", CALL), ("took", says)]
        )
    );
}

#[test]
fn a_sink_that_fails_has_a_front(rt: HostRuntime) {
    let says = b"{\"continues\":true}\0{}\0";
    assert!(rt;
        comes_to(
            rt.alloc(),
            (says, &[]),
            SEVERAL,
            20,
            ("write fault", 0, b"{\"continues\":true}\n{"),
            b"",
            &[("sent", CALL), ("took", says)]
        )
    );
}

// Typed calls at an address and over a bridge: what they pass on, how they end, and what was done.
ghost use Rattle.std.specs.Prelude.{◌≡◌, false, IfOk};
ghost use Rattle.call_form.specs.CallText.{IsSendable};

use call_form::Call;
use link_doors::Address;
use link_exchange::AskEnd;
use link_port::{List, MemSink, Memory, Text};
use link_reach::{Deed, MemReach};
use standard_calls::{NoDescription, resolve_call};
use std::alloc::Global;
use typed_call::{ReplyEnd, TypedEnd, Why, typed_child, typed_direct};

/// The call for the definition of `a.b`.
const ASKS: &[u8] =
    b"{\"method\":\"org.varlink.service.GetInterfaceDescription\",\"parameters\":{\"interface\":\"a.b\"}}\0";

/// A reply with a definition, behind it a reply that reads by the output of `Add`, and the call.
const SUM: &[u8] =
    b"{\"parameters\":{\"description\":\"interface a.b method Add(x: int) -> (total: int)\"}}\0{\"parameters\":{\"total\":5}}\0";

const ADD: &[u8] = b"{\"method\":\"a.b.Add\",\"parameters\":{\"interface\":\"a.b\"}}\0";

const ADD_MORE: &[u8] =
    b"{\"method\":\"a.b.Add\",\"more\":true,\"parameters\":{\"interface\":\"a.b\"}}\0";

/// Nothing was sent.
const NONE: &[&[u8]] = &[];

/// The word of a call, whether it asks for more, and what a peer says.
#[derive(Clone, Copy)]
struct Asked<'a> {
    word: &'a str,
    more: bool,
    says: &'a [u8],
}

/// What a call comes to: its end, what it passes on, and what was sent.
#[derive(Clone, Copy)]
struct Wanted<'a> {
    end: (&'a str, u64),
    lines: &'a [u8],
    sent: &'a [&'a [u8]],
}

fn copied(alloc: Global, bytes: &[u8]) -> Result<List<u8>, Memory> {
    match Vec::from_slice(alloc, bytes) {
        Ok(copy) => Ok(List::from_vec(copy)),
        Err(_) => Err(Memory),
    }
}

// A reach of one link, whose peer says these bytes.
fn one_link(alloc: Global, says: &[u8]) -> Result<MemReach, Memory> {
    let says = copied(alloc, says)?;
    match vec![in alloc; says] {
        Ok(links) => MemReach::new(alloc, List::from_vec(links)),
        Err(failed) => {
            drop(failed);
            Err(Memory)
        }
    }
}

// The call of this word.
fn called(alloc: Global, word: &str, more: bool) -> Result<Call, Memory>
    ensures { IfOk result (λ call. IsSendable call) }
{
    let method = Text::of(alloc, word)?;
    match resolve_call(alloc, "a.b") {
        Ok(call) => {
            let Call {
                method: other,
                parameters,
                ..
            } = call;
            drop(other);
            Ok(Call {
                method,
                parameters,
                oneway: false,
                more,
                upgrade: false,
            })
        }
        Err(stop) => {
            drop(method);
            Err(stop)
        }
    }
}

// How this end is told in the tables below.
fn told(end: &TypedEnd) -> (&str, u64) {
    match end {
        TypedEnd::Asked(AskEnd::Done { replies }) => ("done", *replies),
        TypedEnd::Asked(AskEnd::ErrorReply { name }) => (name.as_str(), 0),
        TypedEnd::Asked(AskEnd::IllTyped { index, field }) => (field.as_str(), *index),
        TypedEnd::Asked(AskEnd::LinkFault) => ("link fault", 0),
        TypedEnd::Asked(_) => ("another end", 0),
        TypedEnd::NoDescription(Why::Exchange(end)) => (came(end), 0),
        TypedEnd::NoDescription(Why::Said(why)) => (said(why), 0),
    }
}

fn came(end: &ReplyEnd) -> &str {
    match end {
        ReplyEnd::NotReply(_) => "no reply",
        ReplyEnd::Continues => "continues",
        ReplyEnd::Ended => "ended",
        ReplyEnd::TooLong => "too long",
    }
}

fn said(why: &NoDescription) -> &str {
    match why {
        NoDescription::ErrorReply(name) => name.as_str(),
        NoDescription::NoText => "no text",
        NoDescription::Idl(_) => "no definition",
        NoDescription::NoMethod => "no method",
        NoDescription::Float => "float",
        NoDescription::Memory => "memory",
    }
}

// Whether the first deed opens the link, at `/a` or by that program.
fn is_opened(deeds: &[Deed], program: Option<&str>) -> bool {
    match deeds {
        [Deed::Dialled(Address::Unix(path)), ..] => program.is_none() && path.as_str() == "/a",
        [Deed::Started { program: name, .. }, ..] => program == Some(name.as_str()),
        _ => false,
    }
}

// What a deed sends, if it does.
fn sent_by(deed: &Deed) -> Option<&[u8]> {
    match deed {
        Deed::Sent { bytes, .. } => Some(bytes.as_slice()),
        _ => None,
    }
}

// Whether these are all that was sent, in order.
fn are_sent(deeds: &[Deed], wanted: &[&[u8]]) -> bool {
    let mut left = wanted;
    for deed in deeds {
        let Some(bytes) = sent_by(deed) else {
            continue;
        };
        let [first, rest @ ..] = left else {
            return false;
        };
        if *first != bytes {
            return false;
        }
        left = rest;
    }
    left.is_empty()
}

// How a call over this reach ends, directly or over a bridge.
fn end_of(
    alloc: Global,
    reach: &mut MemReach,
    program: Option<&str>,
    call: &Call,
    sink: &mut MemSink,
) -> TypedEnd
    requires sendable { IsSendable call.now }
    requires unfinished { sink.old.finished ≡ false }
{
    let Ok(path) = Text::of(alloc, "/a") else {
        return TypedEnd::Asked(AskEnd::Memory);
    };
    let address = Address::Unix(path);
    let end = match program {
        Some(program) => typed_child(alloc, reach, program, &address, call, sink),
        None => typed_direct(alloc, reach, &address, call, sink),
    };
    drop(address);
    end
}

// Whether a call over a reach passes this on and ends so.
fn passes_on(
    alloc: Global,
    reach: &mut MemReach,
    program: Option<&str>,
    call: &Call,
    want: &Wanted<'_>,
) -> bool
    requires { IsSendable call.now }
{
    let Ok(mut sink) = MemSink::new(alloc, 256, List::new(alloc), List::new(alloc)) else {
        return false;
    };
    let end = end_of(alloc, reach, program, call, &mut sink);
    let right = told(&end) == want.end && sink.bytes() == want.lines;
    drop((end, sink));
    right
}

// Whether a typed call comes to this over a peer.
fn comes_to(alloc: Global, asked: &Asked<'_>, program: Option<&str>, want: &Wanted<'_>) -> bool {
    let Ok(call) = called(alloc, asked.word, asked.more) else {
        return false;
    };
    let right = match one_link(alloc, asked.says) {
        Ok(mut reach) => {
            let passed = passes_on(alloc, &mut reach, program, &call, want);
            let done = is_opened(reach.deeds(), program) && are_sent(reach.deeds(), want.sent);
            drop(reach);
            passed && done
        }
        Err(_) => false,
    };
    drop(call);
    right
}

const fn add(says: &[u8]) -> Asked<'_> {
    Asked {
        word: "a.b.Add",
        more: false,
        says,
    }
}

#[test]
fn a_reply_that_reads_is_passed_on(rt: HostRuntime) {
    let want = Wanted {
        end: ("done", 1),
        lines: b"{\"parameters\":{\"total\":5}}\n",
        sent: &[ASKS, ADD],
    };
    assert!(rt; comes_to(rt.alloc(), &add(SUM), None, &want));
    assert!(rt; comes_to(rt.alloc(), &add(SUM), Some("/bin/bridge"), &want));
    let other_name =
        b"{\"parameters\":{\"description\":\"interface c.d method Add() -> (total: int)\"}}\0{\"parameters\":{\"total\":5}}\0";
    assert!(rt; comes_to(rt.alloc(), &add(other_name), None, &want));
}

#[test]
fn a_reply_that_does_not_read_is_not_passed_on(rt: HostRuntime) {
    let says =
        b"{\"parameters\":{\"description\":\"interface a.b method Add() -> (total: int)\"}}\0{\"parameters\":{\"total\":\"x\"}}\0";
    let want = Wanted {
        end: ("total", 0),
        lines: b"",
        sent: &[ASKS, ADD],
    };
    assert!(rt; comes_to(rt.alloc(), &add(says), None, &want));
    let several = Asked {
        word: "a.b.Add",
        more: true,
        says: b"{\"parameters\":{\"description\":\"interface a.b method Add() -> (total: int)\"}}\0{\"continues\":true,\"parameters\":{\"total\":1}}\0{\"continues\":true,\"parameters\":{}}\0",
    };
    let first = Wanted {
        end: ("total", 1),
        lines: b"{\"continues\":true,\"parameters\":{\"total\":1}}\n",
        sent: &[ASKS, ADD_MORE],
    };
    assert!(rt; comes_to(rt.alloc(), &several, None, &first));
}

#[test]
fn an_error_is_not_read_by_the_output(rt: HostRuntime) {
    let says =
        b"{\"parameters\":{\"description\":\"interface a.b method Add() -> (total: int)\"}}\0{\"error\":\"a.b.E\",\"parameters\":{\"total\":\"x\"}}\0";
    let want = Wanted {
        end: ("a.b.E", 0),
        lines: b"{\"error\":\"a.b.E\",\"parameters\":{\"total\":\"x\"}}\n",
        sent: &[ASKS, ADD],
    };
    assert!(rt; comes_to(rt.alloc(), &add(says), None, &want));
}

#[test]
fn without_a_description_the_call_is_not_sent(rt: HostRuntime) {
    let rows: &[(&[u8], &str)] = &[
        (
            b"{\"error\":\"org.varlink.service.InterfaceNotFound\",\"parameters\":{\"interface\":\"a.b\"}}\0",
            "org.varlink.service.InterfaceNotFound",
        ),
        (b"{\"parameters\":{}}\0", "no text"),
        (b"{\"parameters\":{\"description\":5}}\0", "no text"),
        (
            b"{\"parameters\":{\"description\":\"x\"}}\0",
            "no definition",
        ),
        (
            b"{\"parameters\":{\"description\":\"interface a.b method M() -> ()\"}}\0",
            "no method",
        ),
        (
            b"{\"parameters\":{\"description\":\"interface a.b method Add() -> (x: float)\"}}\0",
            "float",
        ),
        (b"[]\0", "no reply"),
        (b"{\"continues\":true}\0", "continues"),
        (b"{}", "ended"),
    ];
    'rows: for row in rows {
        let want = Wanted {
            end: (row.1, 0),
            lines: b"",
            sent: &[ASKS],
        };
        assert!(rt; comes_to(rt.alloc(), &add(row.0), None, &want));
    }
}

#[test]
fn a_word_without_a_dot_names_no_method(rt: HostRuntime) {
    let asked = Asked {
        word: "Add",
        more: false,
        says: SUM,
    };
    let want = Wanted {
        end: ("no method", 0),
        lines: b"",
        sent: NONE,
    };
    assert!(rt; comes_to(rt.alloc(), &asked, None, &want));
}

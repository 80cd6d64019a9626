// Calls by a resolver: where they go, what they print, how they end, and what was done.
ghost use Rattle.std.specs.Prelude.{◌≡◌, false, IfOk};
ghost use Rattle.link_port.specs.SoundTrees.{IsSound, HasUtf8};
ghost use Rattle.call_form.specs.CallOf.{IsObject};
ghost use Rattle.call_form.specs.CallText.{IsSendable};

use address_finding::ResolveFault;
use call_form::Call;
use client_ways::{Ask, ClientEnd, call_at, call_by_child, call_resolved};
use link_doors::Address;
use link_exchange::AskEnd;
use link_port::{List, MemSink, Memory, Text, Value};
use link_reach::{Deed, MemReach};
use serde_json::json;
use std::alloc::Global;

/// The method of the worked rows, and the call of it.
const ADD: &str = "org.example.count.Add";

const ADDING: &[u8] = b"{\"method\":\"org.example.count.Add\",\"parameters\":{\"amount\":5}}\0";

const ADDING_ONEWAY: &[u8] =
    b"{\"method\":\"org.example.count.Add\",\"oneway\":true,\"parameters\":{\"amount\":5}}\0";

/// The question to the resolver.
const ASKING: &[u8] =
    b"{\"method\":\"org.varlink.resolver.Resolve\",\"parameters\":{\"interface\":\"org.example.count\"}}\0";

/// What a resolver says that has the interface, and one that does not.
const FOUND: &[u8] = b"{\"parameters\":{\"address\":\"unix:/count;x=1\"}}\0";

const MISSING: &[u8] =
    b"{\"error\":\"org.varlink.resolver.InterfaceNotFound\",\"parameters\":{\"interface\":\"org.example.count\"}}\0";

/// What a service says.
const TOTAL: &[u8] = b"{\"parameters\":{\"total\":5}}\0";

/// What a service says that describes the method first.
const TYPED_TOTAL: &[u8] =
    b"{\"parameters\":{\"description\":\"interface org.example.count method Add(amount: int) -> (total: int)\"}}\0{\"parameters\":{\"total\":5}}\0";

const DESCRIBING: &[u8] =
    b"{\"method\":\"org.varlink.service.GetInterfaceDescription\",\"parameters\":{\"interface\":\"org.example.count\"}}\0";

/// By which way a call is made.
#[derive(Clone, Copy)]
enum By {
    Resolver,
    Address,
    Bridge,
}

/// Nothing was done.
const NOTHING: &[(&str, u64, &[u8])] = &[];

/// A call, what the peers of the first two links say, and which calls of the reach and puts of the sink fail.
#[derive(Clone, Copy)]
struct Way<'a> {
    word: &'a str,
    /// The interface that it names, if it is not empty.
    interface: &'a str,
    oneway: bool,
    typed: bool,
    by: By,
    says: (&'a [u8], &'a [u8]),
    failing: &'a [u64],
    failing_puts: &'a [u64],
}

/// What it comes to: its end, what it prints, and what was done, on which link.
#[derive(Clone, Copy)]
struct Wanted<'a> {
    end: (&'a str, &'a str, u64),
    lines: &'a [u8],
    deeds: &'a [(&'a str, u64, &'a [u8])],
}

fn copied(alloc: Global, bytes: &[u8]) -> Result<List<u8>, Memory> {
    match Vec::from_slice(alloc, bytes) {
        Ok(copy) => Ok(List::from_vec(copy)),
        Err(_) => Err(Memory),
    }
}

fn numbers(alloc: Global, calls: &[u64]) -> Result<List<u64>, Memory> {
    match Vec::from_slice(alloc, calls) {
        Ok(copy) => Ok(List::from_vec(copy)),
        Err(_) => Err(Memory),
    }
}

// What the peers of two links say.
fn links(alloc: Global, says: (&[u8], &[u8])) -> Result<List<List<u8>>, Memory> {
    let first = copied(alloc, says.0)?;
    let second = match copied(alloc, says.1) {
        Ok(second) => second,
        Err(stop) => {
            drop(first);
            return Err(stop);
        }
    };
    match vec![in alloc; first, second] {
        Ok(links) => Ok(List::from_vec(links)),
        Err(failed) => {
            drop(failed);
            Err(Memory)
        }
    }
}

// A reach of two links.
fn reach(alloc: Global, way: &Way<'_>) -> Result<MemReach, Memory> {
    let calls = numbers(alloc, way.failing)?;
    match links(alloc, way.says) {
        Ok(links) => {
            let made = MemReach::new(alloc, links);
            failing(made, calls)
        }
        Err(stop) => {
            drop(calls);
            Err(stop)
        }
    }
}

// The reach, of which these calls fail.
fn failing(made: Result<MemReach, Memory>, calls: List<u64>) -> Result<MemReach, Memory> {
    match made {
        Ok(reach) => Ok(reach.failing(calls)),
        Err(stop) => {
            drop(calls);
            Err(stop)
        }
    }
}

// The name of an interface, or else an amount.
fn parameters(alloc: Global, interface: &str) -> Result<Value, Memory>
    ensures object { IfOk result (λ tree. IsObject tree) }
    ensures sound { IfOk result (λ tree. IsSound tree) }
    ensures utf8 { IfOk result (λ tree. HasUtf8 tree) }
{
    let tree = if interface.is_empty() {
        json!(in alloc; {"amount": 5})?
    } else {
        json!(in alloc; {"interface": interface})?
    };
    Ok(Value::of(tree))
}

// The call of this word.
fn called(alloc: Global, way: &Way<'_>) -> Result<Call, Memory>
    ensures { IfOk result (λ call. IsSendable call) }
{
    let method = Text::of(alloc, way.word)?;
    let parameters = parameters(alloc, way.interface)?;
    Ok(Call {
        method,
        parameters,
        oneway: way.oneway,
        more: false,
        upgrade: false,
    })
}

// Whether this is how the call ended.
fn is_end(end: &ClientEnd, want: (&str, &str, u64)) -> bool {
    match end {
        ClientEnd::Asked(asked) => is_asked(asked, want),
        ClientEnd::NoDescription(_) => want == ("no description", "", 0),
        ClientEnd::Unresolved { interface } => want == ("unresolved", interface.as_str(), 0),
        ClientEnd::Resolver(fault) => want == ("resolver", fault_word(fault), 0),
    }
}

fn is_asked(end: &AskEnd, want: (&str, &str, u64)) -> bool {
    match end {
        AskEnd::Done { replies } => want == ("done", "", *replies),
        AskEnd::ErrorReply { name } => want == ("error", name.as_str(), 0),
        AskEnd::IllTyped { index, field } => want == ("ill typed", field.as_str(), *index),
        AskEnd::LinkFault => want == ("link fault", "", 0),
        AskEnd::WriteFault => want == ("write fault", "", 0),
        _ => false,
    }
}

fn fault_word(fault: &ResolveFault) -> &str {
    match fault {
        ResolveFault::OtherError(name) => name.as_str(),
        ResolveFault::NoText => "no text",
        ResolveFault::BadAddress => "bad address",
        ResolveFault::Ended => "ended",
        _ => "another",
    }
}

// Whether this is what was done.
fn is_deed(deed: &Deed, want: (&str, u64, &[u8])) -> bool {
    match deed {
        Deed::Dialled(Address::Unix(path)) => want == ("dialled", 0, path.as_str().as_bytes()),
        Deed::Started { program, .. } => want == ("started", 0, program.as_str().as_bytes()),
        Deed::Dialled(_) => false,
        Deed::Sent { link, bytes } => want == ("sent", *link, bytes.as_slice()),
        Deed::Took { link, bytes } => want == ("took", *link, bytes.as_slice()),
        Deed::Ended { link } => want == ("ended", *link, b""),
    }
}

fn are_deeds(deeds: &[Deed], wants: &[(&str, u64, &[u8])]) -> bool {
    deeds.len() == wants.len()
        && deeds
            .iter()
            .zip(wants.iter())
            .all(|(deed, want)| is_deed(deed, *want))
}

// How the call ends where the resolver, or the service, is at `unix:/r`.
fn end_of(
    alloc: Global,
    reach: &mut MemReach,
    by: By,
    ask: Ask<'_>,
    sink: &mut MemSink,
) -> ClientEnd
    requires sendable { IsSendable ask.call.now }
    requires unfinished { sink.old.finished ≡ false }
{
    let Ok(path) = Text::of(alloc, "/r") else {
        return ClientEnd::Asked(AskEnd::Memory);
    };
    let address = Address::Unix(path);
    let end = match by {
        By::Resolver => call_resolved(alloc, reach, &address, ask, sink),
        By::Address => call_at(alloc, reach, &address, ask, sink),
        By::Bridge => call_by_child(alloc, reach, "/bin/bridge", &address, ask, sink),
    };
    drop(address);
    end
}

// Whether a call over a reach prints this and ends so.
fn prints(
    alloc: Global,
    reach: &mut MemReach,
    call: &Call,
    way: &Way<'_>,
    want: &Wanted<'_>,
) -> bool
    requires { IsSendable call.now }
{
    let Ok(failing) = numbers(alloc, way.failing_puts) else {
        return false;
    };
    let Ok(mut sink) = MemSink::new(alloc, 256, List::new(alloc), failing) else {
        return false;
    };
    let ask = Ask {
        call,
        typed: way.typed,
    };
    let end = end_of(alloc, reach, way.by, ask, &mut sink);
    let right = is_end(&end, want.end) && sink.bytes() == want.lines;
    drop((end, sink));
    right
}

// Whether the call comes to this.
fn comes_to(alloc: Global, way: &Way<'_>, want: &Wanted<'_>) -> bool {
    let Ok(call) = called(alloc, way) else {
        return false;
    };
    let right = match reach(alloc, way) {
        Ok(mut reach) => {
            let printed = prints(alloc, &mut reach, &call, way, want);
            let done = are_deeds(reach.deeds(), want.deeds);
            drop(reach);
            printed && done
        }
        Err(_) => false,
    };
    drop(call);
    right
}

const fn calls<'a>(word: &'a str, oneway: bool, says: (&'a [u8], &'a [u8])) -> Way<'a> {
    Way {
        word,
        interface: "",
        oneway,
        typed: false,
        by: By::Resolver,
        says,
        failing: &[],
        failing_puts: &[],
    }
}

const fn describes<'a>(interface: &'a str, says: (&'a [u8], &'a [u8])) -> Way<'a> {
    Way {
        word: "org.varlink.service.GetInterfaceDescription",
        interface,
        oneway: false,
        typed: false,
        by: By::Resolver,
        says,
        failing: &[],
        failing_puts: &[],
    }
}

#[test]
fn a_call_goes_where_the_resolver_says(rt: HostRuntime) {
    let want = Wanted {
        end: ("done", "", 1),
        lines: b"{\"parameters\":{\"total\":5}}\n",
        deeds: &[
            ("dialled", 0, b"/r"),
            ("sent", 0, ASKING),
            ("took", 0, FOUND),
            ("dialled", 0, b"/count"),
            ("sent", 1, ADDING),
            ("took", 1, TOTAL),
        ],
    };
    assert!(rt; comes_to(rt.alloc(), &calls(ADD, false, (FOUND, TOTAL)), &want));
}

#[test]
fn a_call_is_made_at_an_address_and_over_a_bridge(rt: HostRuntime) {
    let at = Way {
        by: By::Address,
        ..calls(ADD, false, (TOTAL, b""))
    };
    let dialled = Wanted {
        end: ("done", "", 1),
        lines: b"{\"parameters\":{\"total\":5}}\n",
        deeds: &[
            ("dialled", 0, b"/r"),
            ("sent", 0, ADDING),
            ("took", 0, TOTAL),
        ],
    };
    assert!(rt; comes_to(rt.alloc(), &at, &dialled));
    let over = Way {
        by: By::Bridge,
        ..at
    };
    let started = Wanted {
        deeds: &[
            ("started", 0, b"/bin/bridge"),
            ("sent", 0, ADDING),
            ("took", 0, TOTAL),
        ],
        ..dialled
    };
    assert!(rt; comes_to(rt.alloc(), &over, &started));
}

#[test]
fn replies_of_a_typed_call_are_read(rt: HostRuntime) {
    let way = Way {
        typed: true,
        ..calls(ADD, false, (FOUND, TYPED_TOTAL))
    };
    let want = Wanted {
        end: ("done", "", 1),
        lines: b"{\"parameters\":{\"total\":5}}\n",
        deeds: &[
            ("dialled", 0, b"/r"),
            ("sent", 0, ASKING),
            ("took", 0, FOUND),
            ("dialled", 0, b"/count"),
            ("sent", 1, DESCRIBING),
            ("took", 1, TYPED_TOTAL),
            ("sent", 1, ADDING),
        ],
    };
    assert!(rt; comes_to(rt.alloc(), &way, &want));
    let none = Way {
        says: (FOUND, b"{}\0"),
        ..way
    };
    let unsent = Wanted {
        end: ("no description", "", 0),
        lines: b"",
        deeds: &[
            ("dialled", 0, b"/r"),
            ("sent", 0, ASKING),
            ("took", 0, FOUND),
            ("dialled", 0, b"/count"),
            ("sent", 1, DESCRIBING),
            ("took", 1, b"{}\0"),
        ],
    };
    assert!(rt; comes_to(rt.alloc(), &none, &unsent));
}

#[test]
fn an_error_of_the_service_is_its_own(rt: HostRuntime) {
    let want = Wanted {
        end: ("error", "org.varlink.resolver.InterfaceNotFound", 0),
        lines: b"{\"error\":\"org.varlink.resolver.InterfaceNotFound\",\"parameters\":{\"interface\":\"org.example.count\"}}\n",
        deeds: &[
            ("dialled", 0, b"/r"),
            ("sent", 0, ASKING),
            ("took", 0, FOUND),
            ("dialled", 0, b"/count"),
            ("sent", 1, ADDING),
            ("took", 1, MISSING),
        ],
    };
    assert!(rt; comes_to(rt.alloc(), &calls(ADD, false, (FOUND, MISSING)), &want));
}

#[test]
fn what_is_no_answer_of_a_resolver_is_told(rt: HostRuntime) {
    let want = Wanted {
        end: ("resolver", "no text", 0),
        lines: b"",
        deeds: &[
            ("dialled", 0, b"/r"),
            ("sent", 0, ASKING),
            ("took", 0, b"{}\0"),
        ],
    };
    assert!(rt; comes_to(rt.alloc(), &calls(ADD, false, (b"{}\0", TOTAL)), &want));
}

#[test]
fn nobody_is_asked_for_a_word_without_a_dot(rt: HostRuntime) {
    let told = Wanted {
        end: ("unresolved", "Ping", 0),
        lines: b"{\"error\":\"org.varlink.service.InterfaceNotFound\",\"parameters\":{\"interface\":\"Ping\"}}\n",
        deeds: NOTHING,
    };
    let silent = Wanted { lines: b"", ..told };
    assert!(rt; comes_to(rt.alloc(), &calls("Ping", false, (FOUND, TOTAL)), &told));
    assert!(rt; comes_to(rt.alloc(), &calls("Ping", true, (FOUND, TOTAL)), &silent));
}

#[test]
fn an_interface_that_nobody_has_is_told(rt: HostRuntime) {
    let told = Wanted {
        end: ("unresolved", "org.example.count", 0),
        lines: b"{\"error\":\"org.varlink.service.InterfaceNotFound\",\"parameters\":{\"interface\":\"org.example.count\"}}\n",
        deeds: &[
            ("dialled", 0, b"/r"),
            ("sent", 0, ASKING),
            ("took", 0, MISSING),
        ],
    };
    let silent = Wanted { lines: b"", ..told };
    assert!(rt; comes_to(rt.alloc(), &calls(ADD, false, (MISSING, TOTAL)), &told));
    assert!(rt; comes_to(rt.alloc(), &calls(ADD, true, (MISSING, TOTAL)), &silent));
}

#[test]
fn a_call_that_wants_no_reply_is_sent(rt: HostRuntime) {
    let want = Wanted {
        end: ("done", "", 0),
        lines: b"",
        deeds: &[
            ("dialled", 0, b"/r"),
            ("sent", 0, ASKING),
            ("took", 0, FOUND),
            ("dialled", 0, b"/count"),
            ("sent", 1, ADDING_ONEWAY),
        ],
    };
    assert!(rt; comes_to(rt.alloc(), &calls(ADD, true, (FOUND, TOTAL)), &want));
}

#[test]
fn the_resolver_answers_its_own_calls(rt: HostRuntime) {
    let info = Wanted {
        end: ("done", "", 1),
        lines: b"{\"parameters\":{\"total\":5}}\n",
        deeds: &[
            ("dialled", 0, b"/r"),
            (
                "sent",
                0,
                b"{\"method\":\"org.varlink.resolver.GetInfo\",\"parameters\":{\"amount\":5}}\0",
            ),
            ("took", 0, TOTAL),
        ],
    };
    let fixed = Wanted {
        end: ("done", "", 1),
        lines: b"{\"parameters\":{\"total\":5}}\n",
        deeds: &[
            ("dialled", 0, b"/r"),
            (
                "sent",
                0,
                b"{\"method\":\"org.varlink.service.GetInterfaceDescription\",\"parameters\":{\"interface\":\"org.varlink.service\"}}\0",
            ),
            ("took", 0, TOTAL),
        ],
    };
    assert!(rt;
        comes_to(
            rt.alloc(),
            &calls("org.varlink.resolver.GetInfo", false, (TOTAL, FOUND)),
            &info
        )
    );
    assert!(rt;
        comes_to(
            rt.alloc(),
            &describes("org.varlink.service", (TOTAL, FOUND)),
            &fixed
        )
    );
}

#[test]
fn a_description_is_asked_of_the_service(rt: HostRuntime) {
    let want = Wanted {
        end: ("done", "", 1),
        lines: b"{\"parameters\":{\"total\":5}}\n",
        deeds: &[
            ("dialled", 0, b"/r"),
            ("sent", 0, ASKING),
            ("took", 0, FOUND),
            ("dialled", 0, b"/count"),
            (
                "sent",
                1,
                b"{\"method\":\"org.varlink.service.GetInterfaceDescription\",\"parameters\":{\"interface\":\"org.example.count\"}}\0",
            ),
            ("took", 1, TOTAL),
        ],
    };
    assert!(rt;
        comes_to(
            rt.alloc(),
            &describes("org.example.count", (FOUND, TOTAL)),
            &want
        )
    );
}

#[test]
fn a_dial_that_fails_is_a_link_fault(rt: HostRuntime) {
    let first = Wanted {
        end: ("link fault", "", 0),
        lines: b"",
        deeds: &[("dialled", 0, b"/r")],
    };
    let second = Wanted {
        end: ("link fault", "", 0),
        lines: b"",
        deeds: &[
            ("dialled", 0, b"/r"),
            ("sent", 0, ASKING),
            ("took", 0, FOUND),
            ("dialled", 0, b"/count"),
        ],
    };
    let way = calls(ADD, false, (FOUND, TOTAL));
    let resolver = Way {
        failing: &[0],
        ..way
    };
    let service = Way {
        failing: &[3],
        ..way
    };
    assert!(rt; comes_to(rt.alloc(), &resolver, &first));
    assert!(rt; comes_to(rt.alloc(), &service, &second));
}

#[test]
fn an_output_that_fails_is_a_write_fault(rt: HostRuntime) {
    let want = Wanted {
        end: ("write fault", "", 0),
        lines: b"",
        deeds: NOTHING,
    };
    let way = Way {
        failing_puts: &[0],
        ..calls("Ping", false, (FOUND, TOTAL))
    };
    assert!(rt; comes_to(rt.alloc(), &way, &want));
}

// The parts of a service, and replies that are made one at a time.
ghost use Rattle.std.specs.Prelude.{◌≡◌, false, IfOk};
ghost use Rattle.call_form.specs.CallOf.{IsObject};

use crate::served::{Ends, ends_of, service_of};
use crate::sheets::{COUNT, DEFINITION};
use call_form::{Call, Reply, SERVICE_TEXT, read_call};
use link_port::{List, Memory};
use service_core::{Alone, Placed, Service};
use session_core::{Answerer, Replies, Stop, serve_alone};
use std::alloc::Global;
use typed_value::Val;

/// Whether the service tells and describes its interfaces.
fn is_told(alloc: Global, service: &Service) -> bool {
    let own = service.describe("org.varlink.service") == Some(SERVICE_TEXT.as_bytes());
    let count = service.describe("org.example.count") == Some(DEFINITION.as_bytes());
    let none = service.describe("org.example.coun").is_none();
    let vendor = service.sheet().info().vendor.as_str() == "Example";
    own && count && none && vendor && has_info(alloc, service) && is_shared(service)
}

fn is_shared(service: &Service) -> bool {
    match service.shared() {
        Ok(sheet) => {
            let right = sheet.info().vendor.as_str() == "Example";
            drop(sheet);
            right
        }
        Err(Memory) => false,
    }
}

fn has_info(alloc: Global, service: &Service) -> bool {
    match service.info(alloc) {
        Ok(info) => {
            let names = info
                .inner()
                .get("interfaces")
                .and_then(|names| names.as_array());
            let right = match names {
                Some(names) => names.len() == 2,
                None => false,
            };
            drop(info);
            right
        }
        Err(Memory) => false,
    }
}

fn tells(alloc: Global) -> bool {
    match service_of(alloc, COUNT) {
        Ok(service) => {
            let right = is_told(alloc, &service);
            drop(service);
            right
        }
        Err(Memory) => false,
    }
}

#[test]
fn a_service_tells_of_itself(rt: HostRuntime) {
    assert!(rt; tells(rt.alloc()));
}

/// Calls, each with whether it asks for a step.
const PLACED: [(&[u8], bool); 3] = [
    (
        b"{\"method\":\"org.example.count.Add\",\"parameters\":{\"amount\":1}}",
        true,
    ),
    (b"{\"method\":\"org.example.count.Add\"}", false),
    (b"{\"method\":\"org.varlink.service.GetInfo\"}", false),
];

fn is_asked(placed: Result<Placed, Memory>) -> Option<bool> {
    match placed {
        Ok(Placed::Ask(request)) => {
            drop(request);
            Some(true)
        }
        Ok(Placed::Answered(outcome)) => {
            drop(outcome);
            Some(false)
        }
        Err(Memory) => None,
    }
}

fn is_placed(alloc: Global, service: &Service, payload: &[u8], asks: bool) -> bool {
    match read_call(alloc, payload) {
        Ok(call) => {
            let placed = is_asked(service.place(alloc, &call));
            drop(call);
            placed == Some(asks)
        }
        Err(_) => false,
    }
}

fn are_placed<'x>(alloc: Global, rows: &'x [(&'x [u8], bool)]) -> bool {
    let Ok(service) = service_of(alloc, COUNT) else {
        return false;
    };
    let mut right = true;
    for (payload, asks) in rows {
        right = right && is_placed(alloc, &service, payload, *asks);
    }
    drop(service);
    right
}

#[test]
fn calls_ask_for_steps_or_are_answered(rt: HostRuntime) {
    assert!(rt; are_placed(rt.alloc(), &PLACED));
}

const ADD: &[u8] = b"{\"method\":\"org.example.count.Add\",\"parameters\":{\"amount\":7}}";

/// Whether the register has its new value after the answer, whose one reply is the last.
fn adds<'x>(alloc: Global, mut alone: Alone<'x>, call: Call) -> bool
    requires { IsObject call.parameters }
{
    let answer = alone.answer(alloc, &call);
    drop(call);
    let replied = match answer {
        Ok(mut replies) => {
            let first = is_last(replies.next(alloc)) == Some(true);
            let right = first && is_last(replies.next(alloc)).is_none();
            drop(replies);
            right
        }
        Err(Memory) => false,
    };
    let right = replied && matches!(alone.registers().values(), [Val::Int(7), _]);
    drop(alone);
    right
}

/// Whether it is the last reply, if there is one.
fn is_last(reply: Result<Option<Reply>, Memory>) -> Option<bool> {
    match reply {
        Ok(Some(reply)) => {
            let last = !reply.continues && reply.error.is_none();
            drop(reply);
            Some(last)
        }
        _ => None,
    }
}

fn alone_adds(alloc: Global, service: &Service) -> bool {
    let Ok(call) = read_call(alloc, ADD) else {
        return false;
    };
    match Alone::new(alloc, service) {
        Ok(alone) => adds(alloc, alone, call),
        Err(Memory) => {
            drop(call);
            false
        }
    }
}

fn is_added(alloc: Global) -> bool {
    match service_of(alloc, COUNT) {
        Ok(service) => {
            let right = alone_adds(alloc, &service);
            drop(service);
            right
        }
        Err(Memory) => false,
    }
}

#[test]
fn registers_have_their_new_values(rt: HostRuntime) {
    assert!(rt; is_added(rt.alloc()));
}

const HEAD: &str =
    r#"{"sheet":1,"vendor":"V","product":"P","version":"1","url":"u","interfaces":["interface a.b\n\nmethod All() -> (number: ?int)\n"],"rules":{"a.b.All":{"outcome":{"stream":{"register":["numbers"]},"each":{"struct":{"number":{"item":[]}}},"last":{"struct":{}}}}},"registers":[{"name":"numbers","scope":"a.b","type":"[]int","initial":["#;

/// A sheet with a register of 10,000 numbers.
fn long_sheet(alloc: Global) -> Result<String, Memory> {
    let mut text = String::from_str(alloc, HEAD)?;
    for _ in 0..9999 {
        text.push_str("0,")?;
    }
    text.push_str("0]}]}")?;
    Ok(text)
}

fn long_service(alloc: Global) -> Result<Service, Memory> {
    match long_sheet(alloc) {
        Ok(text) => {
            let service = service_of(alloc, text.as_str());
            drop(text);
            service
        }
        Err(memory) => Err(memory),
    }
}

/// The ends of a session in which the put behind five replies fails; each of these is put and flushed.
fn failing_ends(alloc: Global) -> Result<Ends, Memory>
    ensures { IfOk result (λ ends. ends.sink.finished ≡ false) }
{
    let mut failing = List::new(alloc);
    failing.push(10)?;
    ends_of(
        alloc,
        b"{\"method\":\"a.b.All\",\"more\":true}\0",
        4096,
        failing,
    )
}

const FIVE: &[u8] = b"{\"continues\":true,\"parameters\":{\"number\":0}}\0\
{\"continues\":true,\"parameters\":{\"number\":0}}\0\
{\"continues\":true,\"parameters\":{\"number\":0}}\0\
{\"continues\":true,\"parameters\":{\"number\":0}}\0\
{\"continues\":true,\"parameters\":{\"number\":0}}\0";

fn stops_after_five<'x>(alloc: Global, mut alone: Alone<'x>, mut ends: Ends) -> bool
    requires { ends.sink.finished ≡ false }
{
    let stop = serve_alone(alloc, &mut ends.source, &mut ends.sink, &mut alone);
    let right = stop == Stop::WriteFault && ends.sink.bytes() == FIVE;
    drop((alone, ends));
    right
}

fn streams_to_five(alloc: Global, service: &Service) -> bool {
    let Ok(ends) = failing_ends(alloc) else {
        return false;
    };
    match Alone::new(alloc, service) {
        Ok(alone) => stops_after_five(alloc, alone, ends),
        Err(Memory) => {
            drop(ends);
            false
        }
    }
}

fn is_streamed(alloc: Global) -> bool {
    match long_service(alloc) {
        Ok(service) => {
            let right = streams_to_five(alloc, &service);
            drop(service);
            right
        }
        Err(Memory) => false,
    }
}

#[test]
fn a_stream_is_written_reply_by_reply(rt: HostRuntime) {
    assert!(rt; is_streamed(rt.alloc()));
}

// Calls that a client makes by itself, at the bytes, and what their replies say.
ghost use Rattle.std.specs.Prelude.{IfOk};
ghost use Rattle.call_form.specs.CallText.{IsSendable};

use call_form::{Call, Reply};
use caller_form::{call_text, read_reply};
use link_doors::Address;
use link_port::{Memory, Value};
use serde_json::Value as Json;
use standard_calls::{Described, address_in, description_call, resolve_call};
use std::alloc::Global;
use typed_value::FieldFault;

// Whether a call was made, and has this text.
fn is_written(alloc: Global, call: Result<Call, Memory>, want: &[u8]) -> bool
    requires { IfOk call (λ call. IsSendable call) }
{
    let Ok(call) = call else {
        return false;
    };
    let text = call_text(alloc, &call);
    drop(call);
    match text {
        Ok(text) => {
            let right = text.as_slice() == want;
            drop(text);
            right
        }
        Err(_) => false,
    }
}

#[test]
fn asks_for_an_address(rt: HostRuntime) {
    let want =
        b"{\"method\":\"org.varlink.resolver.Resolve\",\"parameters\":{\"interface\":\"a.b\"}}\0";
    assert!(rt; is_written(rt.alloc(), resolve_call(rt.alloc(), "a.b"), want));
}

#[test]
fn asks_for_a_definition(rt: HostRuntime) {
    let want =
        b"{\"method\":\"org.varlink.service.GetInterfaceDescription\",\"parameters\":{\"interface\":\"a.b\"}}\0";
    assert!(rt; is_written(rt.alloc(), description_call(rt.alloc(), "a.b"), want));
}

// The text of the address that a payload tells, or the fault.
fn told_address(alloc: Global, reply: &Reply) -> String {
    match address_in(alloc, reply) {
        Ok(address) => {
            let text = address_text(alloc, &address);
            drop(address);
            text
        }
        Err(fault) => shown(alloc, format!(in alloc; "{fault}")),
    }
}

fn address_text(alloc: Global, address: &Address) -> String {
    match address.text(alloc) {
        Ok(text) => shown(alloc, String::from_str(alloc, text.as_str())),
        Err(_) => String::new(alloc),
    }
}

fn shown<E: Drop>(alloc: Global, text: Result<String, E>) -> String {
    match text {
        Ok(text) => text,
        Err(stop) => {
            drop(stop);
            String::new(alloc)
        }
    }
}

// Whether the reply that a payload is tells this.
fn tells(alloc: Global, payload: &[u8], want: &str) -> bool {
    match read_reply(alloc, payload) {
        Ok(reply) => {
            let told = told_address(alloc, &reply);
            drop(reply);
            let right = told.as_str() == want;
            drop(told);
            right
        }
        Err(_) => false,
    }
}

#[test]
fn reads_addresses(rt: HostRuntime) {
    let rows: [(&[u8], &str); 9] = [
        (
            b"{\"parameters\":{\"address\":\"unix:/count;x=1\"}}",
            "unix:/count",
        ),
        (
            b"{\"parameters\":{\"x\":1,\"address\":\"tcp:127.0.0.1:80\"}}",
            "tcp:127.0.0.1:80",
        ),
        (b"{}", "no address"),
        (b"{\"parameters\":{\"address\":5}}", "no address"),
        (b"{\"parameters\":{\"address\":null}}", "no address"),
        (b"{\"parameters\":{\"address\":\"count\"}}", "bad address"),
        (
            b"{\"error\":\"org.varlink.resolver.InterfaceNotFound\",\"parameters\":{\"interface\":\"a.b\"}}",
            "interface not found",
        ),
        (
            b"{\"error\":\"org.varlink.service.InterfaceNotFound\"}",
            "error org.varlink.service.InterfaceNotFound",
        ),
        (
            b"{\"error\":\"\",\"parameters\":{\"address\":\"unix:/a\"}}",
            "error ",
        ),
    ];
    for (payload, want) in rows {
        assert!(rt; tells(rt.alloc(), payload, want));
    }
}

// What a definition says of the method `Do` and these parameters of a reply: the first field that does not read,
// or nothing; or why it says nothing.
fn told_field(alloc: Global, reply: &Reply, parameters: &Value) -> String {
    match Described::of(alloc, reply, "Do") {
        Ok(described) => {
            let told = first_field(alloc, &described, parameters);
            drop(described);
            told
        }
        Err(fault) => shown(alloc, format!(in alloc; "{fault}")),
    }
}

fn first_field(alloc: Global, described: &Described, parameters: &Value) -> String {
    if !parameters.inner().is_object() {
        return String::new(alloc);
    }
    match described.check(alloc, parameters) {
        Ok(()) => shown(alloc, String::from_str(alloc, "reads")),
        Err(FieldFault::First(name)) => shown(alloc, String::from_str(alloc, name.as_str())),
        Err(FieldFault::Memory) => String::new(alloc),
    }
}

// Whether the reply that a payload is says this of `Do` and these parameters.
fn says(alloc: Global, payload: &[u8], parameters: &[u8], want: &str) -> bool {
    let Ok(json) = Json::from_slice(alloc, parameters) else {
        return false;
    };
    let parameters = Value::of(json);
    let right = match read_reply(alloc, payload) {
        Ok(reply) => {
            let told = told_field(alloc, &reply, &parameters);
            drop(reply);
            let right = told.as_str() == want;
            drop(told);
            right
        }
        Err(_) => false,
    };
    drop(parameters);
    right
}

#[test]
fn reads_replies_by_definitions(rt: HostRuntime) {
    let plain: &[u8] =
        b"{\"parameters\":{\"description\":\"interface a.b\\nmethod Do() -> (n: int, s: ?string)\"}}";
    let rows: [(&[u8], &[u8], &str); 11] = [
        (plain, b"{\"n\":5}", "reads"),
        (plain, b"{\"s\":null,\"n\":-1,\"x\":1.5}", "reads"),
        (plain, b"{}", "n"),
        (plain, b"{\"n\":5,\"s\":5}", "s"),
        (plain, b"{\"n\":5.5,\"s\":5}", "n"),
        (b"{}", b"{}", "no description"),
        (
            b"{\"parameters\":{\"description\":[]}}",
            b"{}",
            "no description",
        ),
        (
            b"{\"error\":\"org.varlink.service.InterfaceNotFound\"}",
            b"{}",
            "error org.varlink.service.InterfaceNotFound",
        ),
        (
            b"{\"parameters\":{\"description\":\"interface a.b\\nmethod\"}}",
            b"{}",
            "syntax at 20",
        ),
        (
            b"{\"parameters\":{\"description\":\"interface a.b\\nmethod Does() -> ()\"}}",
            b"{}",
            "no such method",
        ),
        (
            b"{\"parameters\":{\"description\":\"interface a.b\\ntype T (x: float)\\nmethod Do() -> (t: []T)\"}}",
            b"{}",
            "its replies have `float`",
        ),
    ];
    for (payload, parameters, want) in rows {
        assert!(rt; says(rt.alloc(), payload, parameters, want));
    }
}

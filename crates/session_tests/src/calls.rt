// Calls read and replies written, at the bytes.
use call_form::{Call, CallFault, Reply, StdError, read_call, reply_text, standard};
use link_port::{List, Memory, Text, Value};
use serde_json::json;
use std::alloc::Global;

fn first_fault(alloc: Global, payload: &[u8]) -> Option<CallFault> {
    match read_call(alloc, payload) {
        Ok(call) => {
            drop(call);
            None
        }
        Err(fault) => Some(fault),
    }
}

/// Each fault of a payload, and what is no fault.
#[test]
fn tells_the_first_fault(rt: HostRuntime) {
    let rows: [(&[u8], Option<CallFault>); 12] = [
        (b"\xff", Some(CallFault::NotUtf8 { at: 0 })),
        (
            b"{\"method\":\"\xc3\"}",
            Some(CallFault::NotUtf8 { at: 11 }),
        ),
        (b"", Some(CallFault::NotJson)),
        (b"{\"method\":\"a\"", Some(CallFault::NotJson)),
        (b"[]", Some(CallFault::NotObject)),
        (b"{}", Some(CallFault::NoMethod)),
        (b"{\"method\":1}", Some(CallFault::NoMethod)),
        (b"{\"method\":\"a\",\"oneway\":1}", Some(CallFault::BadFlag)),
        (
            b"{\"method\":\"a\",\"parameters\":[],\"upgrade\":0}",
            Some(CallFault::BadFlag),
        ),
        (
            b"{\"method\":\"a\",\"parameters\":[]}",
            Some(CallFault::BadParameters),
        ),
        (b"{\"method\":\"a\",\"more\":null}", None),
        (b"{\"method\":\"a\",\"parameters\":null,\"x\":1}", None),
    ];
    for (payload, fault) in rows {
        assert!(rt; first_fault(rt.alloc(), payload) == fault);
    }
}

/// Whether the call has this method, these parameters as text, and these flags: oneway, more, upgrade.
fn is_call(alloc: Global, call: &Call, method: &str, parameters: &str, flags: [bool; 3]) -> bool {
    match call.parameters.inner().to_string(alloc) {
        Ok(text) => {
            let right = text.as_str() == parameters;
            drop(text);
            right
                && call.method.as_str() == method
                && [call.oneway, call.more, call.upgrade] == flags
        }
        Err(_) => false,
    }
}

#[test]
fn reads_a_call(rt: HostRuntime) {
    let payload =
        br#" {"more":true,"parameters":{"b":[1.5],"a":"x"},"method":"a.b.C","oneway":false} "#;
    let parameters = r#"{"a":"x","b":[1.5]}"#;
    let read = match read_call(rt.alloc(), payload) {
        Ok(call) => {
            let right = is_call(rt.alloc(), &call, "a.b.C", parameters, [false, true, false]);
            drop(call);
            right
        }
        Err(_) => false,
    };
    assert!(rt; read);
}

/// Whether this text was made.
fn is_text(text: Result<List<u8>, Memory>, want: &[u8]) -> bool {
    match text {
        Ok(text) => {
            let right = text.as_slice() == want;
            drop(text);
            right
        }
        Err(_) => false,
    }
}

#[test]
fn writes_a_reply(rt: HostRuntime) {
    let written = match json!(in rt.alloc(); {"b": [1, {}], "a": "x"}) {
        Ok(parameters) => {
            let reply = Reply {
                parameters: Value::of(parameters),
                continues: true,
                error: None,
            };
            let text = reply_text(rt.alloc(), &reply);
            drop(reply);
            is_text(
                text,
                b"{\"continues\":true,\"parameters\":{\"a\":\"x\",\"b\":[1,{}]}}\0",
            )
        }
        Err(_) => false,
    };
    assert!(rt; written);
}

fn error_text(alloc: Global, error: StdError) -> Result<List<u8>, Memory> {
    let reply = standard(alloc, error)?;
    let text = reply_text(alloc, &reply);
    drop(reply);
    text
}

#[test]
fn writes_an_error_with_its_parameter(rt: HostRuntime) {
    let text = match Text::of(rt.alloc(), "a\0b") {
        Ok(name) => error_text(rt.alloc(), StdError::MethodNotImplemented(name)),
        Err(memory) => Err(memory),
    };
    let want = b"{\"error\":\"org.varlink.service.MethodNotImplemented\",\
        \"parameters\":{\"method\":\"a\\u0000b\"}}\0";
    assert!(rt; is_text(text, want));
}

#[test]
fn writes_an_error_without_parameters(rt: HostRuntime) {
    let text = error_text(rt.alloc(), StdError::ExpectedMore);
    let want = b"{\"error\":\"org.varlink.service.ExpectedMore\",\"parameters\":{}}\0";
    assert!(rt; is_text(text, want));
}

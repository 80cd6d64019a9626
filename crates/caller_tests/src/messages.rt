// Replies read and calls written, at the bytes.
ghost use Rattle.call_form.specs.CallText.{IsSendable};

use call_form::{Call, Reply};
use caller_form::{ReplyFault, call_text, read_head, read_reply};
use json::Scratch;
use link_port::{List, Memory, Text, Value};
use serde_json::json;
use std::alloc::Global;

fn first_fault(alloc: Global, payload: &[u8]) -> Option<ReplyFault> {
    match read_reply(alloc, payload) {
        Ok(reply) => {
            drop(reply);
            None
        }
        Err(fault) => Some(fault),
    }
}

// The same of the head alone.
fn first_fault_of_head(alloc: Global, payload: &[u8], scratch: &mut Scratch) -> Option<ReplyFault> {
    match read_head(alloc, payload, scratch) {
        Ok(head) => {
            drop(head);
            None
        }
        Err(fault) => Some(fault),
    }
}

// Each fault of a payload, and what is no fault: of the whole reply, and of its head.
#[test]
fn tells_the_first_fault(rt: HostRuntime) {
    let rows: [(&[u8], Option<ReplyFault>); 32] = [
        (b"\xff", Some(ReplyFault::NotUtf8 { at: 0 })),
        (
            b"{\"error\":\"\xc3\"}",
            Some(ReplyFault::NotUtf8 { at: 10 }),
        ),
        (b"", Some(ReplyFault::NotJson)),
        (b"{\"parameters\":{}", Some(ReplyFault::NotJson)),
        (b"[]", Some(ReplyFault::NotObject)),
        (b"null", Some(ReplyFault::NotObject)),
        (b"{\"continues\":1}", Some(ReplyFault::BadContinues)),
        (
            b"{\"continues\":\"true\",\"error\":1}",
            Some(ReplyFault::BadContinues),
        ),
        (b"{\"error\":1}", Some(ReplyFault::BadError)),
        (
            b"{\"parameters\":[],\"error\":{}}",
            Some(ReplyFault::BadError),
        ),
        (b"{\"parameters\":[]}", Some(ReplyFault::BadParameters)),
        (b"{\"parameters\":\"\"}", Some(ReplyFault::BadParameters)),
        (b"{}", None),
        (
            b"{\"continues\":null,\"error\":null,\"parameters\":null}",
            None,
        ),
        (b"{\"error\":\"\",\"x\":1.5}", None),
        (b"{} {}", Some(ReplyFault::NotJson)),
        (b"[] ]", Some(ReplyFault::NotJson)),
        (b"{\"a\":1,}", Some(ReplyFault::NotJson)),
        (b"{\"a\":[1,{\"b\":[}]}", Some(ReplyFault::NotJson)),
        (b"{\"a\":1e308,\"b\":-1e308}", None),
        (b"{\"a\":[{\"b\":1e309}]}", Some(ReplyFault::NotJson)),
        (b"{\"a\":-1e309}", Some(ReplyFault::NotJson)),
        (
            b"{\"a\":18446744073709551616,\"b\":-9223372036854775809}",
            None,
        ),
        (b"{\"error\":1,\"error\":null}", None),
        (
            b"{\"error\":\"a\",\"error\":[]}",
            Some(ReplyFault::BadError),
        ),
        (
            b"{\"parameters\":{},\"parameters\":1}",
            Some(ReplyFault::BadParameters),
        ),
        (b"{\"a\":\"\x01\"}", Some(ReplyFault::NotJson)),
        (b"{\"a\":\"x}", Some(ReplyFault::NotJson)),
        (b"{\"a\":[tru]}", Some(ReplyFault::NotJson)),
        (b"{\"a\":[01]}", Some(ReplyFault::NotJson)),
        (b"{\"a\":[[],{},]}", Some(ReplyFault::NotJson)),
        (b"{}}", Some(ReplyFault::NotJson)),
    ];
    let mut scratch = Scratch::new(rt.alloc());
    for (payload, fault) in rows {
        assert!(rt; first_fault(rt.alloc(), payload) == fault);
        assert!(rt; first_fault_of_head(rt.alloc(), payload, &mut scratch) == fault);
    }
}

// Whether the reply has these parameters as text, and these other members.
fn is_reply(
    alloc: Global,
    reply: &Reply,
    parameters: &str,
    continues: bool,
    error: Option<&str>,
) -> bool {
    match reply.parameters.inner().to_string(alloc) {
        Ok(text) => {
            let right = text.as_str() == parameters;
            drop(text);
            right && reply.continues == continues && is_name(&reply.error, error)
        }
        Err(_) => false,
    }
}

fn is_name(name: &Option<Text>, want: Option<&str>) -> bool {
    match (name, want) {
        (Some(name), Some(want)) => name.as_str() == want,
        (None, None) => true,
        _ => false,
    }
}

// Whether a payload is read as the reply of this.
fn reads_as(
    alloc: Global,
    payload: &[u8],
    parameters: &str,
    continues: bool,
    error: Option<&str>,
) -> bool {
    match read_reply(alloc, payload) {
        Ok(reply) => {
            let right = is_reply(alloc, &reply, parameters, continues, error);
            drop(reply);
            right
        }
        Err(_) => false,
    }
}

// Whether the head of a payload is read as this.
fn heads_as(
    alloc: Global,
    payload: &[u8],
    scratch: &mut Scratch,
    continues: bool,
    error: Option<&str>,
) -> bool {
    match read_head(alloc, payload, scratch) {
        Ok(head) => {
            let right = head.continues == continues && is_name(&head.error, error);
            drop(head);
            right
        }
        Err(_) => false,
    }
}

// Replies, and their heads.
#[test]
fn reads_replies(rt: HostRuntime) {
    let rows: [(&[u8], &str, bool, Option<&str>); 7] = [
        (b"{}", "{}", false, None),
        (
            b" {\"parameters\":{\"b\":[1.5],\"a\":\"x\"},\"continues\":true} ",
            "{\"a\":\"x\",\"b\":[1.5]}",
            true,
            None,
        ),
        (
            b"{\"error\":\"a.b.E\",\"parameters\":{\"n\":1}}",
            "{\"n\":1}",
            false,
            Some("a.b.E"),
        ),
        (
            b"{\"continues\":false,\"error\":\"\"}",
            "{}",
            false,
            Some(""),
        ),
        (
            b"{\"continues\":true,\"continues\":false,\"error\":\"a\",\"error\":\"b\"}",
            "{}",
            false,
            Some("b"),
        ),
        (
            b"{\"err\\u006fr\":\"\\u0061.B\",\"x\":{\"continues\":true,\"error\":null},\"parameters\":{\"error\":\"c\"}}",
            "{\"error\":\"c\"}",
            false,
            Some("a.B"),
        ),
        (
            b"{\"parameters\":{\"a\":[1,true,false,null,\"x\",{\"b\":-1.5e3}],\"c\":[[],{}]},\"continues\":true}",
            "{\"a\":[1,true,false,null,\"x\",{\"b\":-1500.0}],\"c\":[[],{}]}",
            true,
            None,
        ),
    ];
    let mut scratch = Scratch::new(rt.alloc());
    for (payload, parameters, continues, error) in rows {
        assert!(rt; reads_as(rt.alloc(), payload, parameters, continues, error));
        assert!(rt; heads_as(rt.alloc(), payload, &mut scratch, continues, error));
    }
}

// Whether this text was made.
fn is_text(text: Result<List<u8>, Memory>, want: &[u8]) -> bool {
    match text {
        Ok(text) => {
            let right = text.as_slice() == want;
            drop(text);
            right
        }
        Err(_) => false,
    }
}

// Whether a call with these flags (oneway, more, upgrade) is written as this.
fn writes(alloc: Global, flags: [bool; 3], want: &[u8]) -> bool {
    let Ok(parameters) = json!(in alloc; {"b": [1, {}], "a": "x"}) else {
        return false;
    };
    let Ok(method) = Text::of(alloc, "a.b.\u{e9}\"") else {
        drop(parameters);
        return false;
    };
    let [oneway, more, upgrade] = flags;
    let call = Call {
        method,
        parameters: Value::of(parameters),
        oneway,
        more,
        upgrade,
    };
    let text = call_text(alloc, &call);
    drop(call);
    is_text(text, want)
}

#[test]
fn writes_calls(rt: HostRuntime) {
    let rows: [([bool; 3], &str); 3] = [
        (
            [false, false, false],
            "{\"method\":\"a.b.\u{e9}\\\"\",\"parameters\":{\"a\":\"x\",\"b\":[1,{}]}}\0",
        ),
        (
            [true, false, false],
            "{\"method\":\"a.b.\u{e9}\\\"\",\"oneway\":true,\"parameters\":{\"a\":\"x\",\"b\":[1,{}]}}\0",
        ),
        (
            [false, true, true],
            "{\"method\":\"a.b.\u{e9}\\\"\",\"more\":true,\"parameters\":{\"a\":\"x\",\"b\":[1,{}]},\"upgrade\":true}\0",
        ),
    ];
    for (flags, want) in rows {
        assert!(rt; writes(rt.alloc(), flags, want.as_bytes()));
    }
}

// The command `session`: inputs, each with its output, its status and the line of its fault.
use crate::rows::{NOTHING, Row, are_right};
use call_form::CALL_LIMIT;
use link_port::Memory;
use std::alloc::Global;

const GET_INFO: &[u8] = b"{\"method\":\"org.varlink.service.GetInfo\"}\0";

const INFO: &[u8] = b"{\"parameters\":{\"interfaces\":[\"org.varlink.service\"],\
\"product\":\"varlink\",\"url\":\"https://varlink.org\",\"vendor\":\"Varlink\",\"version\":\"1\"}}\0";

const MISSING: &[u8] = b"{\"error\":\"org.varlink.service.InterfaceNotFound\",\"parameters\":\
{\"interface\":\"Ping\"}}\0";

const NOT_NAMED: &[u8] = b"{\"error\":\"org.varlink.service.InvalidParameter\",\"parameters\":\
{\"parameter\":\"interface\"}}\0";

/// The line of an input whose first message is no call.
const NO_CALL: &str = "message 0 is no call";

const SESSION: Row<'static> = Row {
    words: &["session"],
    input: b"",
    sizes: &[],
    failing_takes: &[],
    failing_puts: &[],
    file: "",
    other: "",
    output: b"",
    status: 0,
    line: "",
};

/// Inputs that end as they should, each with its output.
const ANSWERED: [(&[u8], &[u8]); 6] = [
    (b"", b""),
    (GET_INFO, INFO),
    (b"{\"method\":\"Ping\"}\0", MISSING),
    (
        b"{\"method\":\"org.varlink.service.GetInterfaceDescription\"}\0",
        NOT_NAMED,
    ),
    (b"{\"method\":\"Ping\",\"oneway\":true}\0", b""),
    (b"{\"method\":\"Ping\",\"more\":null}\0", MISSING),
];

fn are_answered<'x>(alloc: Global, rows: &'x [(&'x [u8], &'x [u8])]) -> bool {
    for (input, output) in rows {
        let row = Row {
            input,
            output,
            ..SESSION
        };
        if !are_right(alloc, &[row]) {
            return false;
        }
    }
    true
}

#[test]
fn each_input_is_answered(rt: HostRuntime) {
    assert!(rt; are_answered(rt.alloc(), &ANSWERED));
}

/// Inputs without an output, each with the line of its fault.
const REFUSED: [(&[u8], &str); 6] = [
    (b"\0", NO_CALL),
    (b"\xff\0", NO_CALL),
    (b"{\"method\":1}\0", NO_CALL),
    (b"{\"method\":\"a\",\"oneway\":1}\0", NO_CALL),
    (b"{\"method\":\"a\",\"parameters\":[]}\0", NO_CALL),
    (
        b"{\"method\":\"org.varlink.service.GetInfo\"}",
        "cut after 40 bytes",
    ),
];

fn are_refused<'x>(alloc: Global, rows: &'x [(&'x [u8], &'x str)]) -> bool {
    for (input, line) in rows {
        let row = Row {
            input,
            status: 3,
            line,
            ..SESSION
        };
        if !are_right(alloc, &[row]) {
            return false;
        }
    }
    true
}

#[test]
fn each_input_is_refused(rt: HostRuntime) {
    assert!(rt; are_refused(rt.alloc(), &REFUSED));
}

#[test]
fn a_session_ends_at_a_message_that_is_no_call(rt: HostRuntime) {
    let row = Row {
        input: b"{\"method\":\"org.varlink.service.GetInfo\"}\0[]\0\
{\"method\":\"org.varlink.service.GetInfo\"}\0",
        output: INFO,
        status: 3,
        line: "message 1 is no call",
        ..SESSION
    };
    assert!(rt; are_right(rt.alloc(), &[row]));
}

/// The greatest sizes of the takes: each byte alone, and the last NUL alone.
const CUTS: [&[u64]; 2] = [&[1; 41], &[40, 1]];

#[test]
fn cuts_do_not_matter(rt: HostRuntime) {
    for sizes in CUTS {
        let row = Row {
            input: GET_INFO,
            sizes,
            output: INFO,
            ..SESSION
        };
        assert!(rt; are_right(rt.alloc(), &[row]));
    }
}

#[test]
fn a_failing_input_is_a_read_fault(rt: HostRuntime) {
    let row = Row {
        input: GET_INFO,
        failing_takes: &[0],
        status: 5,
        line: "read fault",
        ..SESSION
    };
    assert!(rt; are_right(rt.alloc(), &[row]));
}

#[test]
fn a_failing_output_is_a_write_fault(rt: HostRuntime) {
    let row = Row {
        input: GET_INFO,
        failing_puts: &[0],
        status: 6,
        line: "write fault",
        ..SESSION
    };
    assert!(rt; are_right(rt.alloc(), &[row]));
}

/// The call for the service's information, with spaces up to this length, and its NUL.
fn padded(alloc: Global, length: usize) -> Result<Vec<u8>, Memory> {
    let mut input = Vec::from_slice(alloc, &GET_INFO[..40])?;
    input.resize(length, b' ')?;
    input.extend_from_slice(b"\0")?;
    Ok(input)
}

fn is_so_long(alloc: Global, length: usize, row: Row<'_>) -> Result<bool, Memory> {
    let input = padded(alloc, length)?;
    let is_right = are_right(
        alloc,
        &[Row {
            input: &input,
            ..row
        }],
    );
    Ok(is_right)
}

#[test]
fn the_longest_call_is_answered(rt: HostRuntime) {
    let row = Row {
        output: INFO,
        ..SESSION
    };
    assert!(rt; is_so_long(rt.alloc(), CALL_LIMIT as usize, row) == Ok(true));
}

#[test]
fn a_longer_call_is_too_long(rt: HostRuntime) {
    let row = Row {
        status: 3,
        line: "message 0 is too long",
        ..SESSION
    };
    assert!(rt; is_so_long(rt.alloc(), CALL_LIMIT as usize + 1, row) == Ok(true));
}

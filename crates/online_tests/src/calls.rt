// The command `call` at an address and over a bridge.
use crate::rows::{NOTHING, Row, are_right};

/// The text of the call.
const SENT: &[u8] = b"{\"method\":\"a.b.C\",\"parameters\":{}}\0";

/// A call at an address.
const CALL: Row<'static> = Row {
    words: "call --at unix:/a a.b.C",
    dialled: &["/a"],
    sent: SENT,
    ..NOTHING
};

/// A call for more than one reply.
const MORE: Row<'static> = Row {
    words: "call --at unix:/a --more a.b.C",
    sent: b"{\"method\":\"a.b.C\",\"more\":true,\"parameters\":{}}\0",
    ..CALL
};

#[test]
fn replies_are_printed(rt: HostRuntime) {
    let rows = [
        Row {
            links: &[b"{}\0"],
            output: b"{}\n",
            ..CALL
        },
        Row {
            links: &[b"{ \"parameters\" : {\"total\":5} }\0{}\0"],
            output: b"{ \"parameters\" : {\"total\":5} }\n",
            ..CALL
        },
        Row {
            links: &[b"{\"continues\":true}\0{}\0"],
            output: b"{\"continues\":true}\n{}\n",
            ..MORE
        },
        Row {
            words: "call --oneway --at unix:/a a.b.C {\"x\":1}",
            links: &[b"{}\0"],
            sent: b"{\"method\":\"a.b.C\",\"oneway\":true,\"parameters\":{\"x\":1}}\0",
            ..CALL
        },
    ];
    assert!(rt; are_right(&rt, rt.alloc(), &rows));
}

/// A typed call, and what is sent for it.
const TYPED: Row<'static> = Row {
    words: "call --typed --at unix:/a a.b.C",
    sent: b"{\"method\":\"org.varlink.service.GetInterfaceDescription\",\"parameters\":{\"interface\":\"a.b\"}}\0{\"method\":\"a.b.C\",\"parameters\":{}}\0",
    ..CALL
};

/// The call for the definition alone.
const UNSENT: Row<'static> = Row {
    sent: b"{\"method\":\"org.varlink.service.GetInterfaceDescription\",\"parameters\":{\"interface\":\"a.b\"}}\0",
    status: 3,
    line: "no description",
    ..TYPED
};

#[test]
fn replies_of_a_typed_call_are_read(rt: HostRuntime) {
    let rows = [
        Row {
            links: &[
                b"{\"parameters\":{\"description\":\"interface a.b method C() -> (total: int)\"}}\0{\"parameters\":{\"total\":5}}\0",
            ],
            output: b"{\"parameters\":{\"total\":5}}\n",
            ..TYPED
        },
        Row {
            links: &[
                b"{\"parameters\":{\"description\":\"interface a.b method C() -> (total: int)\"}}\0{\"parameters\":{\"total\":\"x\"}}\0",
            ],
            status: 3,
            line: "reply 0 is ill typed at total",
            ..TYPED
        },
        Row {
            links: &[b"{\"parameters\":{}}\0{\"parameters\":{\"total\":5}}\0"],
            ..UNSENT
        },
        Row {
            links: &[b""],
            ..UNSENT
        },
        Row {
            words: "call --typed --at unix:/a C",
            links: &[b"{}\0"],
            sent: b"",
            ..UNSENT
        },
    ];
    assert!(rt; are_right(&rt, rt.alloc(), &rows));
}

#[test]
fn an_error_is_printed_and_told(rt: HostRuntime) {
    let error = b"{\"error\":\"a.b.E\"}\0";
    let rows = [
        Row {
            links: &[error],
            output: b"{\"error\":\"a.b.E\"}\n",
            status: 4,
            line: "error a.b.E",
            ..CALL
        },
        Row {
            words: "call --at unix:/a org.example.count.List",
            links: &[b"{\"error\":\"org.varlink.service.ExpectedMore\",\"parameters\":{}}\0"],
            sent: b"{\"method\":\"org.example.count.List\",\"parameters\":{}}\0",
            output: b"{\"error\":\"org.varlink.service.ExpectedMore\",\"parameters\":{}}\n",
            status: 4,
            line: "error org.varlink.service.ExpectedMore",
            ..CALL
        },
    ];
    assert!(rt; are_right(&rt, rt.alloc(), &rows));
}

#[test]
fn what_is_no_reply_is_told(rt: HostRuntime) {
    let rows = [
        Row {
            links: &[b"[]\0"],
            status: 3,
            line: "reply 0 is no reply",
            ..CALL
        },
        Row {
            links: &[b""],
            status: 3,
            line: "ended before reply 0",
            ..CALL
        },
        Row {
            links: &[b"{\"continues\":true}\0"],
            status: 3,
            line: "reply 0 continues",
            ..CALL
        },
        Row {
            links: &[b"{\"continues\":true}\0{}"],
            output: b"{\"continues\":true}\n",
            status: 3,
            line: "ended before reply 1",
            ..MORE
        },
        Row {
            links: &[b"{\"continues\":true}\0{\"continues\":true,\"error\":\"a.E\"}\0"],
            output: b"{\"continues\":true}\n",
            status: 3,
            line: "reply 1 continues",
            ..MORE
        },
    ];
    assert!(rt; are_right(&rt, rt.alloc(), &rows));
}

#[test]
fn a_reply_that_is_too_long_is_told(rt: HostRuntime) {
    let row = Row {
        links: &[b"{}\0"],
        spaces: 4_194_303,
        status: 3,
        line: "reply 0 is too long",
        ..CALL
    };
    assert!(rt; are_right(&rt, rt.alloc(), &[row]));
}

#[test]
fn a_link_that_fails_is_told(rt: HostRuntime) {
    let rows = [
        Row {
            failing: &[0],
            sent: b"",
            status: 5,
            line: "link fault",
            ..CALL
        },
        Row {
            links: &[b"{}\0"],
            failing: &[2],
            status: 5,
            line: "link fault",
            ..CALL
        },
    ];
    assert!(rt; are_right(&rt, rt.alloc(), &rows));
}

#[test]
fn an_output_that_fails_is_told(rt: HostRuntime) {
    let row = Row {
        links: &[b"{}\0"],
        failing_puts: &[0],
        status: 6,
        line: "write fault",
        ..CALL
    };
    assert!(rt; are_right(&rt, rt.alloc(), &[row]));
}

#[test]
fn a_bridge_is_started(rt: HostRuntime) {
    let rows = [
        Row {
            words: "call --resolver unix:/r --child bridge.sh a.b.C",
            links: &[b"{}\0"],
            dialled: &["bridge.sh"],
            output: b"{}\n",
            ..CALL
        },
        Row {
            words: "call --child bridge.sh --resolver unix:/r a.b.C",
            dialled: &["bridge.sh"],
            failing: &[0],
            sent: b"",
            status: 5,
            line: "link fault",
            ..CALL
        },
    ];
    assert!(rt; are_right(&rt, rt.alloc(), &rows));
}

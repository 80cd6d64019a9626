// The command `call` by a resolver, and the command `resolve`.
use crate::rows::{NOTHING, Row, are_right};

/// A call where the resolver says.
const CALL: Row<'static> = Row {
    words: "call --resolver unix:/r org.example.count.Add {\"amount\":5}",
    dialled: &["/r"],
    sent: b"{\"method\":\"org.varlink.resolver.Resolve\",\"parameters\":{\"interface\":\"org.example.count\"}}\0",
    ..NOTHING
};

#[test]
fn a_call_is_made_where_the_resolver_says(rt: HostRuntime) {
    let row = Row {
        links: &[
            b"{\"parameters\":{\"address\":\"unix:/count;x=1\"}}\0",
            b"{\"parameters\":{\"total\":5}}\0",
        ],
        dialled: &["/r", "/count"],
        sent: b"{\"method\":\"org.varlink.resolver.Resolve\",\"parameters\":{\"interface\":\"org.example.count\"}}\0\
{\"method\":\"org.example.count.Add\",\"parameters\":{\"amount\":5}}\0",
        output: b"{\"parameters\":{\"total\":5}}\n",
        ..CALL
    };
    assert!(rt; are_right(&rt, rt.alloc(), &[row]));
}

#[test]
fn a_bad_resolver_is_told(rt: HostRuntime) {
    let rows = [
        Row {
            links: &[b"{}\0"],
            status: 3,
            line: "bad resolver",
            ..CALL
        },
        Row {
            links: &[b""],
            status: 3,
            line: "bad resolver",
            ..CALL
        },
        Row {
            links: &[b"{}\0"],
            status: 3,
            line: "bad resolver",
            ..RESOLVE
        },
        Row {
            links: &[b"{\"error\":\"a.b.E\"}\0"],
            status: 3,
            line: "bad resolver",
            ..RESOLVE
        },
    ];
    assert!(rt; are_right(&rt, rt.alloc(), &rows));
}

/// What the resolver says where it has no such interface.
const MISSING: &[u8] =
    b"{\"error\":\"org.varlink.resolver.InterfaceNotFound\",\"parameters\":{\"interface\":\"x\"}}\0";

#[test]
fn a_missing_interface_is_told(rt: HostRuntime) {
    let rows = [
        Row {
            links: &[MISSING],
            output: b"{\"error\":\"org.varlink.service.InterfaceNotFound\",\"parameters\":{\"interface\":\"org.example.count\"}}\n",
            status: 9,
            line: "no address of org.example.count",
            ..CALL
        },
        Row {
            words: "call --resolver unix:/r Ping",
            dialled: &[],
            sent: b"",
            output: b"{\"error\":\"org.varlink.service.InterfaceNotFound\",\"parameters\":{\"interface\":\"Ping\"}}\n",
            status: 9,
            line: "no address of Ping",
            ..CALL
        },
        Row {
            links: &[MISSING],
            status: 9,
            line: "no address of a.b",
            ..RESOLVE
        },
    ];
    assert!(rt; are_right(&rt, rt.alloc(), &rows));
}

/// A question for an address.
const RESOLVE: Row<'static> = Row {
    words: "resolve --resolver unix:/r a.b",
    dialled: &["/r"],
    sent: b"{\"method\":\"org.varlink.resolver.Resolve\",\"parameters\":{\"interface\":\"a.b\"}}\0",
    ..NOTHING
};

#[test]
fn an_address_is_printed(rt: HostRuntime) {
    let rows = [
        Row {
            links: &[b"{\"parameters\":{\"address\":\"unix:/count;x=1\"}}\0"],
            output: b"unix:/count\n",
            ..RESOLVE
        },
        Row {
            words: "resolve a.b --resolver unix:/r",
            links: &[b"{\"parameters\":{\"address\":\"tcp:127.0.0.1:80\"}}\0"],
            output: b"tcp:127.0.0.1:80\n",
            ..RESOLVE
        },
    ];
    assert!(rt; are_right(&rt, rt.alloc(), &rows));
}

#[test]
fn faults_of_ends_are_told(rt: HostRuntime) {
    let rows = [
        Row {
            failing: &[0],
            sent: b"",
            status: 5,
            line: "link fault",
            ..RESOLVE
        },
        Row {
            links: &[b"{\"parameters\":{\"address\":\"unix:/count\"}}\0"],
            failing_puts: &[0],
            status: 6,
            line: "write fault",
            ..RESOLVE
        },
        Row {
            failing: &[0],
            sent: b"",
            status: 5,
            line: "link fault",
            ..CALL
        },
    ];
    assert!(rt; are_right(&rt, rt.alloc(), &rows));
}

// Words of no command, and of commands that are not run yet.
use crate::rows::{NOTHING, Row, are_right};
use std::alloc::Global;
use std::sync::Wait;
use std::thread::Threads;

const WORDS: [&str; 25] = [
    "",
    "call",
    "help",
    "Call --at unix:/a a.b.C",
    "call a.b.C",
    "call --at unix:/a",
    "call --at unix: a.b.C",
    "call --at unix:/a a.b.C [1]",
    "call --at unix:/a a.b.C {\"x\":1.5}",
    "call --at unix:/a a.b.C {} x",
    "call --at unix:/a --child x a.b.C",
    "call --at unix:/a --at unix:/b a.b.C",
    "call --at unix:/a --typed --typed a.b.C",
    "resolve a.b",
    "resolve --resolver unix:/r",
    "resolve --resolver unix:/r a.b c.d",
    "serve",
    "serve unix:/a",
    "serve unix: sheet.json",
    "serve unix:/a sheet.json x",
    "serve unix:/a sheet.json --workers 65",
    "serve unix:/a sheet.json --connections 0",
    "resolver unix:/a registry.json --forget",
    "bridge --to unix:/a",
    "bridge --resolver unix:/r",
];

fn are_bad<R: Threads + Wait + Sync>(rt: &R, alloc: Global, lines: &[&str]) -> bool {
    for words in lines {
        let row = Row {
            words,
            links: &[b"{}\0"],
            status: 1,
            line: "bad words",
            ..NOTHING
        };
        if !are_right(rt, alloc, &[row]) {
            return false;
        }
    }
    true
}

#[test]
fn other_words_are_bad(rt: HostRuntime) {
    assert!(rt; are_bad(&rt, rt.alloc(), &WORDS));
}

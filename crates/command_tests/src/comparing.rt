// The command `compat`: an old and a new definition, with what is told of them.
use crate::rows::{NOTHING, Row, are_right};
use std::alloc::Global;

/// Old and new texts, each pair with the status and the line; status 0 has none.
const COMPARED: [(&str, &str, u8, &str); 13] = [
    (
        "interface a.b method M(x: int) -> (y: int)",
        "interface a.b method M(x: ?int, z: ?string) -> (y: int, w: bool)",
        0,
        "",
    ),
    (
        "interface a.b method M(x: int) -> (y: int)",
        "interface a.b method M(x: int, z: string) -> (y: int)",
        10,
        "differs at M input z",
    ),
    (
        "interface a.b type N (n: ?N, v: int) method M(x: N) -> ()",
        "interface a.b type N (n: ?N, v: string) method M(x: N) -> ()",
        10,
        "differs at M input x v",
    ),
    (
        "interface a.b method M() -> (y: ?[](z: int))",
        "interface a.b method M() -> (y: ?[](z: bool))",
        10,
        "differs at M output y ? [] z",
    ),
    (
        "interface a.b error E (a: [string]int)",
        "interface a.b error E (a: [string]?int)",
        10,
        "differs at E error a [string]",
    ),
    (
        "interface a.b method M() -> ()",
        "interface a.b",
        10,
        "no method M",
    ),
    ("interface a.b", "interface a.b method M() -> ()", 0, ""),
    ("interface a.b", "interface a.c", 10, "other name"),
    ("", "", 2, "syntax at 0"),
    ("interface a.b", "", 2, "syntax at 0"),
    (
        "interface a.b type A () type A ()",
        "interface a.b type T (x: U)",
        2,
        "type A stands twice",
    ),
    (
        "interface a.b",
        "interface a.b type T (x: U)",
        2,
        "type U is not defined",
    ),
    ("interface a.b !", "interface a.c", 2, "bad byte at 14"),
];

/// The command compares the files of these texts.
fn on<'a>(old: &'a str, new: &'a str, status: u8, line: &'a str) -> Row<'a> {
    let output: &[u8] = if status == 0 { b"compatible\n" } else { b"" };
    Row {
        words: &["compat", "d", "n"],
        file: old,
        other: new,
        output,
        status,
        line,
        ..NOTHING
    }
}

/// Whether this is told of each pair.
fn are_compared(alloc: Global, pairs: &[(&str, &str, u8, &str)]) -> bool {
    for (old, new, status, line) in pairs {
        if !are_right(alloc, &[on(old, new, *status, line)]) {
            return false;
        }
    }
    true
}

#[test]
fn each_pair_of_definitions_is_compared(rt: HostRuntime) {
    assert!(rt; are_compared(rt.alloc(), &COMPARED));
}

/// The command cannot read one of these files, the first of which holds no definition.
fn unread<'a>(words: &'a [&'a str], line: &'a str) -> Row<'a> {
    Row {
        words,
        status: 5,
        line,
        ..NOTHING
    }
}

#[test]
fn files_are_read_before_what_they_hold(rt: HostRuntime) {
    let rows = [
        unread(&["compat", "e", "n"], "cannot read e"),
        unread(&["compat", "d", "f"], "cannot read f"),
        unread(&["compat", "e", "f"], "cannot read e"),
    ];
    assert!(rt; are_right(rt.alloc(), &rows));
}

/// The output fails.
const UNWRITTEN: Row<'static> = Row {
    words: &["compat", "d", "n"],
    failing_puts: &[0],
    file: "interface a.b",
    other: "interface a.b",
    status: 6,
    line: "write fault",
    ..NOTHING
};

#[test]
fn an_output_that_fails_is_told(rt: HostRuntime) {
    assert!(rt; are_right(rt.alloc(), &[UNWRITTEN]));
}

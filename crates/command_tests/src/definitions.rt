// The commands `check` and `format`: texts, each with its canonical text or the refusal that is told.
use crate::rows::{NOTHING, Row, are_right};
use call_form::{RESOLVER_TEXT, SERVICE_TEXT};
use std::alloc::Global;

/// Definitions, each with its canonical text.
const PRINTED: [(&str, &str); 9] = [
    ("interface a.b", "interface a.b\n"),
    (
        "interface a.b type T (type: int)",
        "interface a.b\n\ntype T (type: int)\n",
    ),
    (
        "interface a.b\ttype T(x:[]?int)",
        "interface a.b\n\ntype T (x: []?int)\n",
    ),
    (
        "# top\r\ninterface a.b # one\r\nmethod # two\r\nM(x: int # three\r\n) -> () # four\r\n",
        "# top\ninterface a.b\n\n# one\nmethod M(\n  # two\n  x: int\n  # three\n) -> ()\n\n# four\n",
    ),
    (
        "interface a.b type E (a, # x\nb)",
        "interface a.b\n\ntype E (\n  a,\n  # x\n  b\n)\n",
    ),
    (
        "interface a.b method Long(first: string, second: (inner: int, other: []string), \
third: ?[string]int) -> ()",
        "interface a.b\n\nmethod Long(\n  first: string,\n  second: (inner: int, other: \
[]string),\n  third: ?[string]int\n) -> ()\n",
    ),
    (
        "interface a.b method M(x: float) -> ()",
        "interface a.b\n\nmethod M(x: float) -> ()\n",
    ),
    (
        "interface a.b\n\nerror E (aaaaaaaaaaaaaaaaaaaaaaaaaaaaaaaaaaaaaaaaaaaaaaaaaaaaaaaaaaaaaaaaa: int)\n",
        "interface a.b\n\nerror E (aaaaaaaaaaaaaaaaaaaaaaaaaaaaaaaaaaaaaaaaaaaaaaaaaaaaaaaaaaaaaaaaa: int)\n",
    ),
    (
        "interface a.b\n\nerror E (aaaaaaaaaaaaaaaaaaaaaaaaaaaaaaaaaaaaaaaaaaaaaaaaaaaaaaaaaaaaaaaaaa: int)\n",
        "interface a.b\n\nerror E (\n  aaaaaaaaaaaaaaaaaaaaaaaaaaaaaaaaaaaaaaaaaaaaaaaaaaaaaaaaaaaaaaaaaa: int\n)\n",
    ),
];

/// Texts that are no definitions, each with the refusal that is told.
const REFUSED: [(&str, &str); 12] = [
    ("", "syntax at 0"),
    ("interface a.b type T (x: ??int)", "syntax at 26"),
    ("interface a.b type T (x: int,)", "syntax at 29"),
    ("interface a.b # x\ntype T (", "syntax at 26"),
    ("interface a.b error E (a, b)", "syntax at 24"),
    ("interface a.b type T (x: A)", "type A is not defined"),
    ("interface a.b type A () type A ()", "type A stands twice"),
    (
        "interface a.b method A() -> () method A() -> ()",
        "method A stands twice",
    ),
    (
        "interface a.b error A () error A ()",
        "error A stands twice",
    ),
    (
        "interface a.b type A (x: int, x: int)",
        "name x stands twice",
    ),
    ("interface a.b !", "bad byte at 14"),
    (DEEP, "too deep at 277"),
];

/// A type whose brackets are 64 deep.
const NESTED: &str =
    "interface a.b type T (a: (a: (a: (a: (a: (a: (a: (a: (a: (a: (a: (a: (a: (a: (a: (a: \
(a: (a: (a: (a: (a: (a: (a: (a: (a: (a: (a: (a: (a: (a: (a: (a: (a: (a: (a: (a: (a: \
(a: (a: (a: (a: (a: (a: (a: (a: (a: (a: (a: (a: (a: (a: (a: (a: (a: (a: (a: (a: (a: \
(a: (a: (a: (a: (a: (a: int)))))))))))))))))))))))))))))))))))))))))))))))))))))))))\
)))))))";

/// A type whose brackets are 65 deep.
const DEEP: &str =
    "interface a.b type T (a: (a: (a: (a: (a: (a: (a: (a: (a: (a: (a: (a: (a: (a: (a: (a: \
(a: (a: (a: (a: (a: (a: (a: (a: (a: (a: (a: (a: (a: (a: (a: (a: (a: (a: (a: (a: (a: \
(a: (a: (a: (a: (a: (a: (a: (a: (a: (a: (a: (a: (a: (a: (a: (a: (a: (a: (a: (a: (a: \
(a: (a: (a: (a: (a: (a: (a: int)))))))))))))))))))))))))))))))))))))))))))))))))))))\
))))))))))))";

/// A command on a file of this text.
fn on<'a>(words: &'a [&'a str], file: &'a str, output: &'a str) -> Row<'a> {
    Row {
        words,
        file,
        output: output.as_bytes(),
        ..NOTHING
    }
}

/// Whether each text is accepted, and printed so, and that as it is.
fn are_printed(alloc: Global, texts: &[(&str, &str)]) -> bool {
    for (text, canonical) in texts {
        let rows = [
            on(&["check", "d"], text, "ok a.b\n"),
            on(&["format", "d"], text, canonical),
            on(&["format", "d"], canonical, canonical),
        ];
        if !are_right(alloc, &rows) {
            return false;
        }
    }
    true
}

#[test]
fn each_definition_is_printed(rt: HostRuntime) {
    assert!(rt; are_printed(rt.alloc(), &PRINTED));
}

/// A command that refuses a file of this text.
fn refusal<'a>(words: &'a [&'a str], file: &'a str, line: &'a str) -> Row<'a> {
    Row {
        words,
        file,
        status: 2,
        line,
        ..NOTHING
    }
}

/// Whether each text is refused so by both commands.
fn are_refused(alloc: Global, texts: &[(&str, &str)]) -> bool {
    for (text, line) in texts {
        let rows = [
            refusal(&["check", "d"], text, line),
            refusal(&["format", "d"], text, line),
        ];
        if !are_right(alloc, &rows) {
            return false;
        }
    }
    true
}

#[test]
fn each_other_text_is_refused(rt: HostRuntime) {
    assert!(rt; are_refused(rt.alloc(), &REFUSED));
}

#[test]
fn brackets_of_64_are_read(rt: HostRuntime) {
    let row = on(&["check", "d"], NESTED, "ok a.b\n");
    assert!(rt; are_right(rt.alloc(), &[row]));
}

#[test]
fn the_standard_interfaces_are_canonical(rt: HostRuntime) {
    for text in [SERVICE_TEXT, RESOLVER_TEXT] {
        assert!(rt; are_right(rt.alloc(), &[on(&["format", "d"], text, text)]));
    }
}

#[test]
fn a_file_that_is_not_there_cannot_be_read(rt: HostRuntime) {
    let row = Row {
        words: &["check", "e"],
        status: 5,
        line: "cannot read e",
        ..NOTHING
    };
    assert!(rt; are_right(rt.alloc(), &[row]));
}

// Words that are no command.
use crate::rows::{NOTHING, Row, are_right};
use std::alloc::Global;

const WORDS: [&[&str]; 18] = [
    &[],
    &["check"],
    &["Session"],
    &["session", "--d"],
    &["session", "d", "n"],
    &["check", "--d"],
    &["compat", "d"],
    &["compat", "--d", "n"],
    &["compat", "d", "--n"],
    &["check", "d", "n"],
    &["--help"],
    &["work"],
    &["work", "0"],
    &["work", "03"],
    &["work", "+3"],
    &["work", "10001"],
    &["work", "3", "3"],
    &["work", "x"],
];

fn are_bad(alloc: Global, each: &[&[&str]]) -> bool {
    for words in each {
        let row = Row {
            words,
            input: b"{\"method\":\"a.b\"}\0",
            status: 1,
            line: "bad words",
            ..NOTHING
        };
        if !are_right(alloc, &[row]) {
            return false;
        }
    }
    true
}

/// The words of the commands are printed.
const HELP: Row<'static> = Row {
    words: &["help"],
    output: b"check\nformat\nsheet\nsession\nwork\nhelp\nserve\nresolver\ncall\nresolve\ncompat\n",
    ..NOTHING
};

#[test]
fn the_words_of_the_commands_are_printed(rt: HostRuntime) {
    assert!(rt; are_right(rt.alloc(), &[HELP]));
}

#[test]
fn other_words_are_bad(rt: HostRuntime) {
    assert!(rt; are_bad(rt.alloc(), &WORDS));
}

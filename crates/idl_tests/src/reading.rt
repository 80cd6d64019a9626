// Texts, each with the tree or the refusal that it has.
use idl_grammar::{IdlFault, one_cause, read, read_type};
use idl_token::TokenFault;
use idl_tree::{Checked, NameFault};
use std::alloc::{AllocError, Global};
use std::process::Abort;

#[test]
fn law_may_be_called(_rt: HostRuntime) {
    one_cause();
}

#[test]
fn tells_what_a_text_is(rt: HostRuntime) {
    let rows = [
        ("interface a.b", "accepted", 0),
        ("interface a.b type T (type: int)", "accepted", 0),
        ("interface a.b type T (x: []?int)", "accepted", 0),
        ("interface a.b type T (x: ??int)", "syntax", 26),
        ("interface a.b type T (x: int,)", "syntax", 29),
        ("interface a.b type T (x: A)", "unknown type", 0),
        ("interface a.b type A () type A ()", "type twice", 0),
        ("interface a.b error E (a, b)", "syntax", 24),
        ("interface a.b type E (a, # x\nb)", "accepted", 0),
        (
            "# top\r\ninterface a.b # one\r\nmethod # two\r\nM(x: int # three\r\n) -> () # four",
            "accepted",
            0,
        ),
        ("interface a.b -", "bad byte", 14),
        ("", "syntax", 0),
    ];
    for (text, word, at) in rows {
        assert!(rt; told(rt.alloc(), text.as_bytes()) == (word, at), "{text}");
    }
}

#[test]
fn tells_what_a_text_is_as_a_type(rt: HostRuntime) {
    let rows = [
        (b"[string]?int".as_slice(), "accepted", 2),
        (b"int int".as_slice(), "syntax", 4),
        (b"# x".as_slice(), "syntax", 0),
        (b"A".as_slice(), "unknown type", 0),
        (b"".as_slice(), "syntax", 0),
        (b"??int".as_slice(), "syntax", 1),
        (b"(a: int, a: int)".as_slice(), "field twice", 0),
        (b"[".as_slice(), "syntax", 1),
        (b"int # x".as_slice(), "syntax", 4),
        (b"int\xff".as_slice(), "not UTF-8", 3),
    ];
    for (text, word, at) in rows {
        assert!(rt; told_of_type(rt.alloc(), text) == (word, at), "{word} {at}");
    }
}

#[test]
fn takes_brackets_of_a_depth_and_prefixes_of_any_number(rt: HostRuntime) {
    let rows = [
        ("(a: ", 65, ")", "too deep", 277),
        ("(a: ", 64, ")", "accepted", 0),
        ("[]", 100_000, "", "syntax", 21),
    ];
    for (open, count, close, word, at) in rows {
        match nested(rt.alloc(), "interface a.b type T ", open, count, close) {
            Ok(text) => is_told(&rt, told(rt.alloc(), text.as_bytes()), (word, at)),
            Err(_) => assert!(rt; false, "out of memory"),
        }
    }
}

#[test]
fn takes_brackets_of_a_depth_in_a_type(rt: HostRuntime) {
    for (count, word, at) in [(65, "too deep", 192), (64, "accepted", 0)] {
        match nested(rt.alloc(), "", "(a:", count, ")") {
            Ok(text) => is_told(&rt, told_of_type(rt.alloc(), text.as_bytes()), (word, at)),
            Err(_) => assert!(rt; false, "out of memory"),
        }
    }
}

fn is_told(rt: &impl Abort, found: (&str, u64), wanted: (&str, u64)) {
    assert!(rt; found == wanted);
}

// A text in front, so many of one part, `int`, and so many of another.
fn nested(
    alloc: Global,
    front: &str,
    open: &str,
    count: u32,
    close: &str,
) -> Result<String, AllocError> {
    let mut text = String::from_str(alloc, front)?;
    for _ in 0..count {
        text.push_str(open)?;
    }
    text.push_str("int")?;
    for _ in 0..count {
        text.push_str(close)?;
    }
    Ok(text)
}

// What the text is, and the offset that is told.
fn told(alloc: Global, text: &[u8]) -> (&'static str, u64) {
    match read(alloc, text) {
        Ok(checked) => {
            drop(checked);
            ("accepted", 0)
        }
        Err(fault) => refusal(fault),
    }
}

// What the text is as a type where no other is defined, and the offset that is told; of a type the
// number of its prefixes.
fn told_of_type(alloc: Global, text: &[u8]) -> (&'static str, u64) {
    match read(alloc, b"interface a.b") {
        Ok(scope) => {
            let told = told_in(alloc, text, &scope);
            drop(scope);
            told
        }
        Err(fault) => refusal(fault),
    }
}

fn told_in(alloc: Global, text: &[u8], scope: &Checked) -> (&'static str, u64) {
    match read_type(alloc, text, scope) {
        Ok(of) => {
            let prefixes = of.prefixes.len();
            drop(of);
            ("accepted", prefixes)
        }
        Err(fault) => refusal(fault),
    }
}

fn refusal(fault: IdlFault) -> (&'static str, u64) {
    let told = word_of(&fault);
    drop(fault);
    told
}

fn word_of(fault: &IdlFault) -> (&'static str, u64) {
    match fault {
        IdlFault::Token(TokenFault::NotUtf8 { at }) => ("not UTF-8", *at),
        IdlFault::Token(TokenFault::BadByte { at }) => ("bad byte", *at),
        IdlFault::Syntax { at } => ("syntax", *at),
        IdlFault::TooDeep { at } => ("too deep", *at),
        IdlFault::Name(NameFault::TwiceType(_)) => ("type twice", 0),
        IdlFault::Name(NameFault::TwiceField(_)) => ("field twice", 0),
        IdlFault::Name(NameFault::UnknownType(_)) => ("unknown type", 0),
        _ => ("other", 0),
    }
}

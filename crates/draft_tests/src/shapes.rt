// Where texts leave the form of a sheet first.
use link_port::{Memory, Text};
use sheet_draft::{DraftFault, Place, Spot, read};
use std::alloc::Global;

// Texts that are no sheet at their top.
const TOPS: [(&str, &str); 8] = [
    ("", "not JSON"),
    ("{", "not JSON"),
    ("\u{feff}{}", "not JSON"),
    ("1", "top"),
    ("{}", "top"),
    (
        r#"{"interfaces":[],"product":"","registers":[],"rules":{},"sheet":3,"url":"","vendor":"","version":""}"#,
        "top",
    ),
    (
        r#"{"interfaces":[],"product":"","registers":[],"rules":{},"sheet":1.0,"url":"","vendor":"","version":""}"#,
        "top",
    ),
    (
        r#"{"extra":1,"interfaces":[],"product":"","registers":[],"rules":{},"sheet":1,"url":"","vendor":"","version":""}"#,
        "top",
    ),
];

// Interfaces and registers, and what is told of a sheet with them.
const TABLES: [(&str, &str, &str); 7] = [
    ("", "", "ok"),
    (r#""a",1"#, "1", "interface 1"),
    (
        "",
        r#"{"name":"a","scope":"i","type":"int","initial":0},{"name":"a","scope":"i","type":"int","initial":0}"#,
        "register 1",
    ),
    (
        "",
        r#"{"name":"a-b","scope":"i","type":"int","initial":0}"#,
        "register 0",
    ),
    ("", r#"{"name":"a","scope":"i","type":"int"}"#, "register 0"),
    (
        "",
        r#"{"name":"a","scope":"i","type":"int","initial":0,"x":0}"#,
        "register 0",
    ),
    (
        "",
        r#"{"name":"a","scope":1,"type":"int","initial":0}"#,
        "register 0",
    ),
];

// Versions and rules, and what is told of a sheet with them.
const RULES: [(u8, &str, &str); 39] = [
    (1, r#""Add":{"outcome":{"reply":{"item":[]}}}"#, "rule Add"),
    (1, r#""b.B":1,"a.A":1"#, "rule a.A"),
    (1, r#""a.b.C":[]"#, "rule a.b.C"),
    (1, r#""a.A":{}"#, "rule a.A"),
    (1, r#""a.A":{"guards":1,"outcome":1}"#, "rule a.A"),
    (1, r#""a.A":{"steps":{},"outcome":1}"#, "rule a.A"),
    (1, r#""a.A":{"when":1,"outcome":1}"#, "rule a.A"),
    (1, r#""a.A":{"outcome":1,"x":1}"#, "rule a.A"),
    (
        1,
        r#""a.A":[{"outcome":{"reply":{"item":[]}}}]"#,
        "rule a.A",
    ),
    (2, r#""a.A":{"outcome":{"reply":{"item":[]}}}"#, "rule a.A"),
    (2, r#""a.A":[]"#, "rule a.A"),
    (
        2,
        r#""a.A":[{"when":{"present":{"item":[]}},"outcome":{"reply":{"item":[]}}}]"#,
        "rule a.A",
    ),
    (2, r#""a.A":[{"outcome":1},{"outcome":1}]"#, "rule a.A"),
    (2, r#""a.A":[{"when":1,"outcome":1},1]"#, "rule a.A"),
    (
        2,
        r#""a.A":[{"when":1,"outcome":1},{"outcome":1}]"#,
        "rule a.A branch 0 when",
    ),
    (
        2,
        r#""a.A":[{"when":{"not":{"present":{"item":[]}}},"outcome":{"reply":{"item":[]}}},{"outcome":1}]"#,
        "rule a.A branch 1 outcome",
    ),
    (2, r#""a.A":[{"outcome":{"reply":{"item":[]}}}]"#, "ok"),
    (
        1,
        r#""a.A":{"guards":[1],"steps":[1],"outcome":1}"#,
        "rule a.A branch 0 guard 0",
    ),
    (
        1,
        r#""a.A":{"guards":[{"need":{"less":[{"const":1},{"const":2}]},"else":"E","with":{"const":{}}},{"need":1,"else":"E","with":{"const":1}}],"outcome":1}"#,
        "rule a.A branch 0 guard 1",
    ),
    (
        1,
        r#""a.A":{"steps":[{"set":"r","to":{"const":1}},{"put":"r","key":{"const":""},"value":{"const":1}},{"drop":"r","key":{"const":""}},{"push":"r","value":1}],"outcome":1}"#,
        "rule a.A branch 0 step 3",
    ),
    (
        1,
        r#""a.A":{"steps":[{"set":1,"to":{"const":1}}],"outcome":1}"#,
        "rule a.A branch 0 step 0",
    ),
    (
        1,
        r#""a.A":{"steps":[{"put":"r","key":{"const":""}}],"outcome":1}"#,
        "rule a.A branch 0 step 0",
    ),
    (
        1,
        r#""a.A":{"outcome":{"upgrade":"keep","reply":{"const":1}}}"#,
        "rule a.A branch 0 outcome",
    ),
    (
        1,
        r#""a.A":{"outcome":{"upgrade":"discard","reply":{"const":1}}}"#,
        "ok",
    ),
    (
        1,
        r#""a.A":{"outcome":{"reply":{"const":1},"x":1}}"#,
        "rule a.A branch 0 outcome",
    ),
    (
        1,
        r#""a.A":{"outcome":{"stream":{"const":[]},"each":{"const":1},"last":{"const":1}}}"#,
        "rule a.A branch 0 outcome",
    ),
    (
        1,
        r#""a.A":{"outcome":{"reply":{"param":[]}}}"#,
        "rule a.A branch 0 outcome",
    ),
    (
        1,
        r#""a.A":{"outcome":{"reply":{"register":[]}}}"#,
        "rule a.A branch 0 outcome",
    ),
    (
        1,
        r#""a.A":{"outcome":{"reply":{"param":["a-b",""]}}}"#,
        "ok",
    ),
    (
        1,
        r#""a.A":{"outcome":{"reply":{"param":[1]}}}"#,
        "rule a.A branch 0 outcome",
    ),
    (
        1,
        r#""a.A":{"outcome":{"reply":{}}}"#,
        "rule a.A branch 0 outcome",
    ),
    (
        1,
        r#""a.A":{"outcome":{"reply":{"const":1,"item":[]}}}"#,
        "rule a.A branch 0 outcome",
    ),
    (
        1,
        r#""a.A":{"outcome":{"reply":{"sum":[{"const":1}]}}}"#,
        "rule a.A branch 0 outcome",
    ),
    (
        1,
        r#""a.A":{"outcome":{"reply":{"sum":[{"const":1},{"const":1},{"const":1}]}}}"#,
        "rule a.A branch 0 outcome",
    ),
    (
        1,
        r#""a.A":{"outcome":{"reply":{"at":[{"param":["m"]},{"const":""},{"length":{"item":[]}}]}}}"#,
        "ok",
    ),
    (
        1,
        r#""a.A":{"outcome":{"reply":{"at":[{"const":1},{"const":""},{"const":1}]}}}"#,
        "rule a.A branch 0 outcome",
    ),
    (
        1,
        r#""a.A":{"outcome":{"reply":{"length":{"const":1}}}}"#,
        "rule a.A branch 0 outcome",
    ),
    (
        1,
        r#""a.A":{"outcome":{"reply":{"struct":{"f":1}}}}"#,
        "rule a.A branch 0 outcome",
    ),
    (
        1,
        r#""a.A":{"outcome":{"reply":{"list":[{"const":1},1]}}}"#,
        "rule a.A branch 0 outcome",
    ),
];

#[test]
fn tops(rt: HostRuntime) {
    for (text, told) in TOPS {
        assert!(rt; is_told(rt.alloc(), text, told), "{text}");
    }
}

#[test]
fn tables(rt: HostRuntime) {
    for (interfaces, registers, told) in TABLES {
        assert!(rt;
            has(rt.alloc(), 1, interfaces, registers, "", told),
            "{registers}"
        );
    }
}

#[test]
fn rules(rt: HostRuntime) {
    for (version, rules, told) in RULES {
        assert!(rt; has(rt.alloc(), version, "", "", rules, told), "{rules}");
    }
}

// Whether the sheet with these parts is told so.
fn has(
    alloc: Global,
    version: u8,
    interfaces: &str,
    registers: &str,
    rules: &str,
    told: &str,
) -> bool {
    match text_of(alloc, version, interfaces, registers, rules) {
        Ok(text) => is_told(alloc, text.as_str(), told),
        Err(Memory) => false,
    }
}

fn text_of(
    alloc: Global,
    version: u8,
    interfaces: &str,
    registers: &str,
    rules: &str,
) -> Result<String, Memory> {
    let head = r#"{"vendor":"","product":"","version":"","url":"","sheet":"#;
    let text = format!(in alloc;
        "{head}{version},\"interfaces\":[{interfaces}],\"registers\":[{registers}],\"rules\":{{{rules}}}}}"
    )?;
    Ok(text)
}

// Whether the text is told so: `ok`, `not JSON`, or the place where it has not the form.
fn is_told(alloc: Global, text: &str, wanted: &str) -> bool {
    match read(alloc, text.as_bytes()) {
        Ok(draft) => {
            drop(draft);
            wanted == "ok"
        }
        Err(DraftFault::NotJson) => wanted == "not JSON",
        Err(DraftFault::Shape { place }) => is_place(alloc, &place, wanted),
        Err(DraftFault::Memory) => false,
    }
}

fn is_place(alloc: Global, place: &Place, wanted: &str) -> bool {
    match place.text(alloc) {
        Ok(text) => text.as_str() == wanted,
        Err(Memory) => false,
    }
}

// The texts of all kinds of places.
#[test]
fn places(rt: HostRuntime) {
    let kinds = [
        (Spot::Whole, "rule a.B"),
        (Spot::When(1), "rule a.B branch 1 when"),
        (Spot::Guard(2, 3), "rule a.B branch 2 guard 3"),
        (Spot::Step(4, 5), "rule a.B branch 4 step 5"),
        (Spot::Outcome(6), "rule a.B branch 6 outcome"),
    ];
    for (spot, wanted) in kinds {
        match Text::of(rt.alloc(), "a.B") {
            Ok(name) => assert!(rt; is_place(rt.alloc(), &Place::Rule(name, spot), wanted)),
            Err(Memory) => assert!(rt; false, "out of memory"),
        }
    }
}

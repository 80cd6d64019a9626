// Definitions, registers and rules of sheets.
use link_port::Memory;
use sheet_form::{Sheet, SheetFault, read};
use std::alloc::Global;

// Two interfaces.
const TWO: &str =
    r#""interface a.b\ntype T (f: int)\nmethod M() -> ()\n","interface c.d\ntype T (f: float)\nmethod F(t: T) -> ()\n""#;

// Definitions, registers, and what is told of a sheet with them.
const TABLES: [(&str, &str, &str); 12] = [
    ("", "", "0, 0, 0"),
    (
        TWO,
        r#"{"name":"x","scope":"a.b","type":"T","initial":{"f":1}}"#,
        "2, 1, 0",
    ),
    (r#""interface a.b\n","a""#, "", "interface 1: syntax at 0"),
    (
        r#""interface a.b\ntype A ()\ntype A ()\n""#,
        "",
        "interface 0: type A stands twice",
    ),
    (
        r#""interface org.varlink.service\n""#,
        "",
        "interface 0 is reserved",
    ),
    (r#""interface org.varlinks.a\n""#, "", "1, 0, 0"),
    (
        r#""interface a.b\n","interface c.d\n","interface a.b\n","interface c.d\n""#,
        "",
        "interface 2 stands twice",
    ),
    (
        TWO,
        r#"{"name":"x","scope":"a.c","type":"int","initial":1}"#,
        "register 0 has no scope",
    ),
    (
        TWO,
        r#"{"name":"x","scope":"a.b","type":"U","initial":1}"#,
        "register 0: type U is not defined",
    ),
    (
        TWO,
        r#"{"name":"x","scope":"a.b","type":"int","initial":1},{"name":"y","scope":"c.d","type":"[]T","initial":[]}"#,
        "float at register 1",
    ),
    (
        TWO,
        r#"{"name":"x","scope":"a.b","type":"int","initial":"1"}"#,
        "register 0 has no initial value",
    ),
    (
        TWO,
        r#"{"name":"x","scope":"a.b","type":"?T","initial":null}"#,
        "2, 1, 0",
    ),
];

// Versions, rules, and what is told of a sheet with them.
const RULES: [(u8, &str, &str); 8] = [
    (
        1,
        r#""a.b.M":{"outcome":{"reply":{"struct":{}}}}"#,
        "2, 1, 1",
    ),
    (
        1,
        r#""a.b.N":{"outcome":{"reply":{"struct":{}}}}"#,
        "no method a.b.N",
    ),
    (
        1,
        r#""a.M":{"outcome":{"reply":{"struct":{}}}}"#,
        "no method a.M",
    ),
    (
        1,
        r#""a.b.M":{"outcome":{"reply":{"const":1}}}"#,
        "ill typed at rule a.b.M branch 0 outcome",
    ),
    (
        1,
        r#""a.b.M":{"steps":[{"set":"x","to":{"const":1}},{"set":"y","to":{"const":1}}],"outcome":{"reply":{"const":{}}}}"#,
        "no register at rule a.b.M branch 0 step 1",
    ),
    (
        1,
        r#""c.d.F":{"outcome":{"reply":{"const":{}}}}"#,
        "float at rule c.d.F",
    ),
    (
        2,
        r#""a.b.M":[{"when":{"less":[{"register":["x"]},{"const":0}]},"outcome":{"reply":{"const":{}}}},{"outcome":{"upgrade":"echo","reply":{"const":{}}}}]"#,
        "ill typed at rule a.b.M branch 1 outcome",
    ),
    (1, r#""a.b.M":[]"#, "shape at rule a.b.M"),
];

// The register of the sheets with rules.
const X: &str = r#"{"name":"x","scope":"a.b","type":"int","initial":1}"#;

#[test]
fn tables(rt: HostRuntime) {
    for (interfaces, registers, told) in TABLES {
        assert!(rt;
            has(rt.alloc(), 1, interfaces, registers, "", told),
            "{told}"
        );
    }
}

#[test]
fn rules(rt: HostRuntime) {
    for (version, rules, told) in RULES {
        assert!(rt; has(rt.alloc(), version, TWO, X, rules, told), "{told}");
    }
}

// A first value has at most 120 levels.
#[test]
fn levels(rt: HostRuntime) {
    assert!(rt; has_levels(rt.alloc(), 120, "2, 1, 0"));
    assert!(rt; has_levels(rt.alloc(), 121, "register 0 has no initial value"));
}

fn has_levels(alloc: Global, levels: u64, told: &str) -> bool {
    match register_of(alloc, levels) {
        Ok(register) => has(alloc, 1, TWO, register.as_str(), "", told),
        Err(Memory) => false,
    }
}

// A register whose first value is an object with arrays within each other.
fn register_of(alloc: Global, levels: u64) -> Result<String, Memory> {
    let head = r#"{"name":"x","scope":"a.b","type":"object","initial":{"a":"#;
    let mut text = String::from_str(alloc, head)?;
    for _ in 1..levels {
        text.push('[')?;
    }
    for _ in 1..levels {
        text.push(']')?;
    }
    text.push_str("}}")?;
    Ok(text)
}

// Whether the sheet with these parts is told so: by its numbers of interfaces, registers and rules, or by
// its fault.
pub fn has(
    alloc: Global,
    version: u8,
    interfaces: &str,
    registers: &str,
    rules: &str,
    told: &str,
) -> bool {
    match text_of(alloc, version, interfaces, registers, rules) {
        Ok(text) => is_told(alloc, text.as_str(), told),
        Err(Memory) => false,
    }
}

fn text_of(
    alloc: Global,
    version: u8,
    interfaces: &str,
    registers: &str,
    rules: &str,
) -> Result<String, Memory> {
    let head = r#"{"vendor":"","product":"","version":"","url":"","sheet":"#;
    let text = format!(in alloc;
        "{head}{version},\"interfaces\":[{interfaces}],\"registers\":[{registers}],\"rules\":{{{rules}}}}}"
    )?;
    Ok(text)
}

fn is_told(alloc: Global, text: &str, told: &str) -> bool {
    match read(alloc, text.as_bytes()) {
        Ok(sheet) => is_counted(alloc, &sheet, told) && has_places(&sheet) && has_rules(&sheet),
        Err(fault) => is_fault(alloc, fault, told),
    }
}

fn is_counted(alloc: Global, sheet: &Sheet, told: &str) -> bool {
    let interfaces = sheet.interfaces().len();
    let registers = sheet.registers().len();
    let rules = sheet.rules().len();
    match format!(in alloc; "{interfaces}, {registers}, {rules}") {
        Ok(text) => text.as_str() == told,
        Err(_) => false,
    }
}

// Whether each interface is found at its place.
fn has_places(sheet: &Sheet) -> bool {
    let mut place = 0;
    for interface in sheet.interfaces() {
        if sheet.interface_of(interface.tree().name.as_str()) != Some(place) {
            return false;
        }
        place += 1;
    }
    sheet.interface_of("no.interface").is_none() && sheet.info().url.as_str().is_empty()
}

// Whether each rule is found at its place.
fn has_rules(sheet: &Sheet) -> bool {
    for (place, rule) in sheet.rules().iter().enumerate() {
        if sheet.rule_of(rule.interface, rule.method.as_str()) != Some(place as u64) {
            return false;
        }
    }
    sheet.rule_of(0, "NoMethod").is_none() && sheet.rule_of(1000, "Get").is_none()
}

fn is_fault(alloc: Global, fault: SheetFault, told: &str) -> bool {
    let is_told = match format!(in alloc; "{fault}") {
        Ok(text) => text.as_str() == told,
        Err(_) => false,
    };
    drop(fault);
    is_told
}

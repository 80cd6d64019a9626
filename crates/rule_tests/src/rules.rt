// What rules are formed, and where the others are refused first.
ghost use Rattle.expression_form.specs.Places.{Finds};

use crate::sheets::{interfaces, registers};
use expression_form::Places;
use idl_tree::Checked;
use link_port::Memory;
use rule_form::{interface_place, rule_formed};
use sheet_draft::{RuleDraft, SheetDraft, read};
use sheet_rules::{Register, has_one_way, rule_is_typed};
use std::alloc::Global;

// The sheet before its rules.
const BEFORE: &str = r#"{"vendor":"","product":"","version":"","url":"",
 "interfaces":["interface a.b\nmethod M(n: int, maybe: ?int, list: []int) -> (total: int)\nmethod F(x: float) -> ()\nerror Bad (n: int)\nerror Hot (x: float)\n"],
 "registers":[
  {"name":"total","scope":"a.b","type":"int","initial":0},
  {"name":"items","scope":"a.b","type":"[]int","initial":[]},
  {"name":"counts","scope":"a.b","type":"[string]int","initial":{}}],"#;

// A version, a rule of it, and what it is told to be.
const ROWS: [(&str, &str, &str); 17] = [
    (
        "1",
        r#""a.b.M":{"outcome":{"reply":{"struct":{"total":{"param":["n"]}}}}}"#,
        "formed",
    ),
    (
        "1",
        r#""a.b.M":{"outcome":{"reply":{"const":{"total":1}}}}"#,
        "formed",
    ),
    (
        "1",
        r#""a.b.M":{"guards":[{"need":{"not":{"present":{"param":["maybe"]}}},"else":"Bad","with":{"const":{"n":1}}}],
      "steps":[{"set":"total","to":{"length":{"param":["list"]}}},
       {"push":"items","value":{"sum":[{"param":["n"]},{"const":1}]}},
       {"put":"counts","key":{"const":"k"},"value":{"at":[{"register":["counts"]},{"const":"k"},{"const":0}]}},
       {"drop":"counts","key":{"const":"k"}}],
      "outcome":{"stream":{"register":["items"]},"each":{"struct":{"total":{"item":[]}}},"last":{"const":{"total":0}}}}"#,
        "formed",
    ),
    (
        "2",
        r#""a.b.M":[{"when":{"equal":[{"param":["n"]},{"const":0}]},"outcome":{"reply":{"const":{"total":0}}}},
      {"when":{"has":[{"register":["counts"]},{"const":"k"}]},"outcome":{"reply":{"const":{"total":1}}}},
      {"outcome":{"reply":{"const":{"total":2}}}}]"#,
        "formed",
    ),
    (
        "1",
        r#""a.b.N":{"outcome":{"reply":{"struct":{}}}}"#,
        "no such method",
    ),
    (
        "1",
        r#""a.c.M":{"outcome":{"reply":{"struct":{}}}}"#,
        "no such method",
    ),
    (
        "1",
        r#""a.b.F":{"outcome":{"reply":{"struct":{}}}}"#,
        "float at rule",
    ),
    (
        "1",
        r#""a.b.M":{"steps":[{"set":"total","to":{"const":1}},{"set":"lost","to":{"const":1}}],"outcome":{"reply":{"const":1}}}"#,
        "no register at rule branch 0 step 1",
    ),
    (
        "1",
        r#""a.b.M":{"steps":[{"set":"total","to":{"list":[{"const":1},{"register":["lost"]}]}}],"outcome":{"reply":{"const":1}}}"#,
        "no register at rule branch 0 step 0",
    ),
    (
        "1",
        r#""a.b.M":{"guards":[{"need":{"less":[{"const":0},{"param":["n"]}]},"else":"Hot","with":{"struct":{"x":{"const":1}}}}],"outcome":{"reply":{"const":1}}}"#,
        "float at rule branch 0 guard 0",
    ),
    (
        "1",
        r#""a.b.M":{"guards":[{"need":{"less":[{"const":0},{"param":["n"]}]},"else":"Worse","with":{"struct":{}}}],"outcome":{"reply":{"const":1}}}"#,
        "ill typed at rule branch 0 guard 0",
    ),
    (
        "1",
        r#""a.b.M":{"outcome":{"reply":{"const":{"total":"x"}}}}"#,
        "ill typed at rule branch 0 outcome",
    ),
    (
        "1",
        r#""a.b.M":{"outcome":{"reply":{"struct":{}}}}"#,
        "ill typed at rule branch 0 outcome",
    ),
    (
        "1",
        r#""a.b.M":{"outcome":{"stream":{"register":["items"]},"each":{"const":{"total":0}},"last":{"struct":{"total":{"item":[]}}}}}"#,
        "ill typed at rule branch 0 outcome",
    ),
    (
        "2",
        r#""a.b.M":[{"when":{"present":{"param":["n"]}},"outcome":{"reply":{"const":1}}},{"outcome":{"reply":{"const":1}}}]"#,
        "ill typed at rule branch 0 when",
    ),
    (
        "2",
        r#""a.b.M":[{"when":{"less":[{"const":0},{"register":["lost"]}]},"outcome":{"reply":{"const":1}}},{"outcome":{"reply":{"const":1}}}]"#,
        "no register at rule branch 0 when",
    ),
    (
        "2",
        r#""a.b.M":[{"when":{"less":[{"const":0},{"const":1}]},"outcome":{"reply":{"const":{"total":0}}}},
      {"outcome":{"upgrade":"echo","reply":{"const":{"total":0}}}}]"#,
        "ill typed at rule branch 1 outcome",
    ),
];

#[test]
fn rules(rt: HostRuntime) {
    for (version, rule, wanted) in ROWS {
        assert!(rt;
            is_told(rt.alloc(), version, rule, wanted),
            "{wanted}: {rule}"
        );
    }
}

fn is_told(alloc: Global, version: &str, rule: &str, wanted: &str) -> bool {
    match told(alloc, version, rule) {
        Ok(told) => told.as_str() == wanted,
        Err(_) => false,
    }
}

fn told(alloc: Global, version: &str, rule: &str) -> Result<String, Memory> {
    let text = format!(in alloc; "{BEFORE}\"sheet\":{version},\"rules\":{{{rule}}}}}")?;
    match read(alloc, text.as_bytes()) {
        Ok(draft) => {
            let told = told_of(alloc, &draft);
            drop(draft);
            told
        }
        Err(fault) => {
            drop(fault);
            Err(Memory)
        }
    }
}

fn told_of(alloc: Global, draft: &SheetDraft) -> Result<String, Memory> {
    let interfaces = interfaces(alloc, draft)?;
    let told = match registers(alloc, draft, interfaces.as_slice()) {
        Ok(registers) => {
            let told = told_in(alloc, draft, interfaces.as_slice(), registers.as_slice());
            drop(registers);
            told
        }
        Err(memory) => Err(memory),
    };
    drop(interfaces);
    told
}

// What the first rule is told to be.
fn told_in(
    alloc: Global,
    draft: &SheetDraft,
    interfaces: &[Checked],
    registers: &[Register],
) -> Result<String, Memory> {
    match draft.rules.as_slice() {
        [rule, ..] => rule_told(alloc, rule, interfaces, registers),
        [] => Err(Memory),
    }
}

fn rule_told(
    alloc: Global,
    draft: &RuleDraft,
    interfaces: &[Checked],
    registers: &[Register],
) -> Result<String, Memory> {
    let places = Places::of(alloc, registers)?;
    let told = told_by(alloc, draft, interfaces, registers, &places);
    drop(places);
    told
}

fn told_by(
    alloc: Global,
    draft: &RuleDraft,
    interfaces: &[Checked],
    registers: &[Register],
    places: &Places,
) -> Result<String, Memory>
    requires { Finds places.now.by_name registers.now }
{
    let place = interface_place(draft.interface.as_str(), interfaces);
    match rule_formed(alloc, draft, place, interfaces, registers, places) {
        Ok(rule) => {
            let whole = rule_is_typed(&rule, interfaces, registers)
                && has_one_way(rule.branches.as_slice());
            drop(rule);
            word(alloc, if whole { "formed" } else { "not typed" })
        }
        Err(fault) => Ok(format!(in alloc; "{fault}")?),
    }
}

fn word(alloc: Global, word: &str) -> Result<String, Memory> {
    Ok(String::from_str(alloc, word)?)
}

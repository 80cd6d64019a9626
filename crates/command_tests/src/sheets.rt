// The command `sheet`: texts, each with the counts or the refusal that is told.
use crate::rows::{NOTHING, Row, are_right};
use std::alloc::Global;

/// A sheet of one interface, one register and one rule.
const GOOD: &str = "{\"sheet\":1,\"vendor\":\"v\",\"product\":\"p\",\"version\":\"1\",\"url\":\"\
         u\",\"interfaces\":[\"interface a.b\\n\\nmethod M(x: int) -> (y: int)\\n\"],\
         \"registers\":[{\"name\":\"r\",\"scope\":\"a.b\",\"type\":\"int\",\"initial\
         \":0}],\"rules\":{\"a.b.M\":{\"outcome\":{\"reply\":{\"struct\":{\"y\":{\"pa\
         ram\":[\"x\"]}}}}}}}";

/// Texts that are no sheets, each with the line that tells why.
const REFUSED: [(&str, &str); 19] = [
    ("{\"sheet\":1", "not JSON"),
    ("{\"sheet\":1}", "shape at top"),
    (
        "{\"sheet\":1,\"vendor\":\"v\",\"product\":\"p\",\"version\":\"1\",\"url\":\"\
         u\",\"interfaces\":[\"interface a.b\\ntype T (x: U)\"],\"registers\":[],\"ru\
         les\":{}}",
        "interface 0: type U is not defined",
    ),
    (
        "{\"sheet\":1,\"vendor\":\"v\",\"product\":\"p\",\"version\":\"1\",\"url\":\"\
         u\",\"interfaces\":[\"interface org.varlink.x\"],\"registers\":[],\"rules\":\
         {}}",
        "interface 0 is reserved",
    ),
    (
        "{\"sheet\":1,\"vendor\":\"v\",\"product\":\"p\",\"version\":\"1\",\"url\":\"\
         u\",\"interfaces\":[\"interface a.b\\n\\nmethod M(x: int) -> (y: int)\\n\",\
         \"interface a.b\\n\\nmethod M(x: int) -> (y: int)\\n\"],\"registers\":[],\"r\
         ules\":{}}",
        "interface 1 stands twice",
    ),
    (
        "{\"sheet\":1,\"vendor\":\"v\",\"product\":\"p\",\"version\":\"1\",\"url\":\"\
         u\",\"interfaces\":[\"interface\"],\"registers\":[],\"rules\":{}}",
        "interface 0: syntax at 9",
    ),
    (
        "{\"sheet\":1,\"vendor\":\"v\",\"product\":\"p\",\"version\":\"1\",\"url\":\"\
         u\",\"interfaces\":[\"interface a.b\\n\\nmethod M(x: int) -> (y: int)\\n\"],\
         \"registers\":[{\"name\":\"r\",\"scope\":\"a.c\",\"type\":\"int\",\"initial\
         \":0}],\"rules\":{}}",
        "register 0 has no scope",
    ),
    (
        "{\"sheet\":1,\"vendor\":\"v\",\"product\":\"p\",\"version\":\"1\",\"url\":\"\
         u\",\"interfaces\":[\"interface a.b\\n\\nmethod M(x: int) -> (y: int)\\n\"],\
         \"registers\":[{\"name\":\"r\",\"scope\":\"a.b\",\"type\":\"int int\",\"init\
         ial\":0}],\"rules\":{}}",
        "register 0: syntax at 4",
    ),
    (
        "{\"sheet\":1,\"vendor\":\"v\",\"product\":\"p\",\"version\":\"1\",\"url\":\"\
         u\",\"interfaces\":[\"interface a.b\\n\\nmethod M(x: int) -> (y: int)\\n\"],\
         \"registers\":[{\"name\":\"r\",\"scope\":\"a.b\",\"type\":\"float\",\"initia\
         l\":0}],\"rules\":{}}",
        "float at register 0",
    ),
    (
        "{\"sheet\":1,\"vendor\":\"v\",\"product\":\"p\",\"version\":\"1\",\"url\":\"\
         u\",\"interfaces\":[\"interface a.b\\n\\nmethod M(x: int) -> (y: int)\\n\"],\
         \"registers\":[{\"name\":\"r\",\"scope\":\"a.b\",\"type\":\"int\",\"initial\
         \":\"x\"}],\"rules\":{}}",
        "register 0 has no initial value",
    ),
    (
        "{\"sheet\":1,\"vendor\":\"v\",\"product\":\"p\",\"version\":\"1\",\"url\":\"\
         u\",\"interfaces\":[\"interface a.b\\n\\nmethod M(x: int) -> (y: int)\\n\"],\
         \"registers\":[{\"name\":\"r\",\"scope\":\"a.b\",\"type\":\"int\",\"initial\
         \":0,\"x\":1}],\"rules\":{}}",
        "shape at register 0",
    ),
    (
        "{\"sheet\":1,\"vendor\":\"v\",\"product\":\"p\",\"version\":\"1\",\"url\":\"\
         u\",\"interfaces\":[\"interface a.b\\n\\nmethod M(x: int) -> (y: int)\\n\"],\
         \"registers\":[],\"rules\":{\"a.b.N\":{\"outcome\":{\"reply\":{\"struct\":{\
         \"y\":{\"param\":[\"x\"]}}}}}}}",
        "no method a.b.N",
    ),
    (
        "{\"sheet\":1,\"vendor\":\"v\",\"product\":\"p\",\"version\":\"1\",\"url\":\"\
         u\",\"interfaces\":[\"interface a.b\\n\\nmethod M(x: int) -> (y: int)\\n\"],\
         \"registers\":[],\"rules\":{\"a.b.M\":{\"outcome\":{\"reply\":{\"struct\":{\
         \"y\":{\"register\":[\"r\"]}}}}}}}",
        "no register at rule a.b.M branch 0 outcome",
    ),
    (
        "{\"sheet\":1,\"vendor\":\"v\",\"product\":\"p\",\"version\":\"1\",\"url\":\"\
         u\",\"interfaces\":[\"interface a.b\\n\\nmethod M(x: int) -> (y: int)\\n\"],\
         \"registers\":[],\"rules\":{\"a.b.M\":{\"outcome\":{\"reply\":{\"struct\":{}\
         }}}}}",
        "ill typed at rule a.b.M branch 0 outcome",
    ),
    (
        "{\"sheet\":1,\"vendor\":\"v\",\"product\":\"p\",\"version\":\"1\",\"url\":\"\
         u\",\"interfaces\":[\"interface a.b\\n\\nmethod M(x: int) -> (y: int)\\n\"],\
         \"registers\":[],\"rules\":{\"a.b.M\":{\"guards\":[{\"need\":{\"less\":[{\"c\
         onst\":0},{\"param\":[\"x\"]}]},\"else\":\"F\",\"with\":{\"struct\":{}}}],\"\
         outcome\":{\"reply\":{\"struct\":{\"y\":{\"param\":[\"x\"]}}}}}}}",
        "ill typed at rule a.b.M branch 0 guard 0",
    ),
    (
        "{\"sheet\":1,\"vendor\":\"v\",\"product\":\"p\",\"version\":\"1\",\"url\":\"\
         u\",\"interfaces\":[\"interface a.b\\n\\nmethod M(x: int) -> (y: int)\\n\"],\
         \"registers\":[],\"rules\":{\"a.b.M\":{\"steps\":[{\"set\":\"r\",\"to\":{\"c\
         onst\":1}}],\"outcome\":{\"reply\":{\"struct\":{\"y\":{\"param\":[\"x\"]}}}}\
         }}}",
        "no register at rule a.b.M branch 0 step 0",
    ),
    (
        "{\"sheet\":1,\"vendor\":\"v\",\"product\":\"p\",\"version\":\"1\",\"url\":\"\
         u\",\"interfaces\":[\"interface a.b\\n\\nmethod M(x: int) -> (y: int)\\n\"],\
         \"registers\":[],\"rules\":{\"M\":{\"outcome\":{\"reply\":{\"struct\":{\"y\"\
         :{\"param\":[\"x\"]}}}}}}}",
        "shape at rule M",
    ),
    (
        "{\"sheet\":2,\"vendor\":\"v\",\"product\":\"p\",\"version\":\"1\",\"url\":\"\
         u\",\"interfaces\":[\"interface a.b\\n\\nmethod M(x: int) -> (y: int)\\n\"],\
         \"registers\":[],\"rules\":{\"a.b.M\":[{\"when\":{\"present\":{\"param\":[\"\
         x\"]}},\"outcome\":{\"reply\":{\"struct\":{\"y\":{\"param\":[\"x\"]}}}}},{\"\
         outcome\":{\"reply\":{\"struct\":{\"y\":{\"param\":[\"x\"]}}}}}]}}",
        "ill typed at rule a.b.M branch 0 when",
    ),
    (
        "{\"sheet\":1,\"vendor\":\"v\",\"product\":\"p\",\"version\":\"1\",\"url\":\"\
         u\",\"interfaces\":[\"interface a.b\\n\\nmethod M(x: float) -> (y: int)\\n\"\
         ],\"registers\":[],\"rules\":{\"a.b.M\":{\"outcome\":{\"reply\":{\"struct\":\
         {\"y\":{\"const\":1}}}}}}}",
        "float at rule a.b.M",
    ),
];

/// The command refuses a file of this text.
fn refusal<'a>(words: &'a [&'a str], file: &'a str, line: &'a str) -> Row<'a> {
    Row {
        words,
        file,
        status: 2,
        line,
        ..NOTHING
    }
}

/// Whether each text is refused so.
fn are_refused(alloc: Global, texts: &[(&str, &str)]) -> bool {
    for (text, line) in texts {
        if !are_right(alloc, &[refusal(&["sheet", "d"], text, line)]) {
            return false;
        }
    }
    true
}

/// A sheet's counts are shown.
const COUNTED: Row<'static> = Row {
    words: &["sheet", "d"],
    file: GOOD,
    output: b"interfaces 1\nregisters 1\nrules 1\n",
    ..NOTHING
};

#[test]
fn a_sheet_is_counted(rt: HostRuntime) {
    assert!(rt; are_right(rt.alloc(), &[COUNTED]));
}

#[test]
fn each_other_text_is_no_sheet(rt: HostRuntime) {
    assert!(rt; are_refused(rt.alloc(), &REFUSED));
}

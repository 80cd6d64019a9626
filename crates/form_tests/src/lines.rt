// For each line of the tables of typing, parts of a rule that are typed and parts that are not.
use crate::tables::has;
use std::alloc::Global;

// Two interfaces with a type of one name.
const INTERFACES: &str =
    r#""interface a.b\ntype Entry (amount: int, note: ?string)\nmethod M(n: int, maybe: ?int, list: []int, counts: [string]int, texts: [string]string, entry: Entry, opt: ?Entry) -> (total: int)\nerror Bad (n: int)\n","interface c.d\ntype Entry (amount: int, note: ?string)\nerror Worse (n: int)\n""#;

const REGISTERS: &str = r#"{"name":"total","scope":"a.b","type":"int","initial":0},
 {"name":"chance","scope":"a.b","type":"?int","initial":null},
 {"name":"items","scope":"a.b","type":"[]int","initial":[]},
 {"name":"counts","scope":"a.b","type":"[string]int","initial":{}},
 {"name":"entry","scope":"a.b","type":"Entry","initial":{"amount":1}},
 {"name":"other","scope":"c.d","type":"Entry","initial":{"amount":1}}"#;

// The line, a register, and an expression that gives its type or doesn't.
const EXPRESSIONS: [(&str, &str, &str, bool); 31] = [
    ("param", "total", r#"{"param":["n"]}"#, true),
    ("param", "total", r#"{"param":["maybe"]}"#, false),
    ("param", "total", r#"{"param":["lost"]}"#, false),
    ("fits", "chance", r#"{"param":["n"]}"#, true),
    ("fits", "chance", r#"{"param":["list"]}"#, false),
    ("path", "total", r#"{"param":["entry","amount"]}"#, true),
    ("path", "total", r#"{"param":["opt","amount"]}"#, false),
    ("path", "total", r#"{"param":["list","amount"]}"#, false),
    ("path", "total", r#"{"param":["counts","amount"]}"#, false),
    ("register", "entry", r#"{"register":["entry"]}"#, true),
    ("register", "entry", r#"{"register":["other"]}"#, false),
    (
        "register",
        "total",
        r#"{"register":["other","amount"]}"#,
        true,
    ),
    ("item", "total", r#"{"item":[]}"#, false),
    ("const", "total", r#"{"const":1}"#, true),
    ("const", "total", r#"{"const":"1"}"#, false),
    (
        "struct",
        "entry",
        r#"{"struct":{"amount":{"const":1}}}"#,
        true,
    ),
    (
        "struct",
        "entry",
        r#"{"struct":{"note":{"const":"x"}}}"#,
        false,
    ),
    (
        "struct",
        "entry",
        r#"{"struct":{"amount":{"const":1},"more":{"const":1}}}"#,
        false,
    ),
    ("struct", "total", r#"{"struct":{}}"#, false),
    (
        "list",
        "items",
        r#"{"list":[{"const":1},{"param":["n"]}]}"#,
        true,
    ),
    (
        "list",
        "items",
        r#"{"list":[{"const":1},{"const":"1"}]}"#,
        false,
    ),
    ("list", "total", r#"{"list":[]}"#, false),
    (
        "sum",
        "total",
        r#"{"sum":[{"const":1},{"param":["n"]}]}"#,
        true,
    ),
    (
        "sum",
        "total",
        r#"{"sum":[{"const":1},{"param":["maybe"]}]}"#,
        false,
    ),
    ("length", "total", r#"{"length":{"param":["list"]}}"#, true),
    (
        "length",
        "total",
        r#"{"length":{"register":["counts"]}}"#,
        true,
    ),
    ("length", "total", r#"{"length":{"param":["n"]}}"#, false),
    (
        "at",
        "total",
        r#"{"at":[{"param":["counts"]},{"const":"k"},{"const":0}]}"#,
        true,
    ),
    (
        "at",
        "total",
        r#"{"at":[{"param":["texts"]},{"const":"k"},{"const":0}]}"#,
        false,
    ),
    (
        "at",
        "total",
        r#"{"at":[{"param":["counts"]},{"const":1},{"const":0}]}"#,
        false,
    ),
    (
        "at",
        "total",
        r#"{"at":[{"param":["counts"]},{"const":"k"},{"const":"0"}]}"#,
        false,
    ),
];

// The line, and a condition that is typed or not.
const CONDITIONS: [(&str, &str, bool); 11] = [
    ("equal", r#"{"equal":[{"param":["n"]},{"const":1}]}"#, true),
    (
        "equal",
        r#"{"equal":[{"param":["n"]},{"const":"1"}]}"#,
        false,
    ),
    ("less", r#"{"less":[{"param":["n"]},{"const":1}]}"#, true),
    ("less", r#"{"less":[{"const":"0"},{"const":1}]}"#, false),
    ("present", r#"{"present":{"param":["maybe"]}}"#, true),
    ("present", r#"{"present":{"param":["n"]}}"#, false),
    (
        "has",
        r#"{"has":[{"param":["counts"]},{"const":"k"}]}"#,
        true,
    ),
    (
        "has",
        r#"{"has":[{"param":["list"]},{"const":"k"}]}"#,
        false,
    ),
    (
        "has",
        r#"{"has":[{"param":["counts"]},{"const":1}]}"#,
        false,
    ),
    ("not", r#"{"not":{"present":{"param":["maybe"]}}}"#, true),
    ("not", r#"{"not":{"present":{"param":["n"]}}}"#, false),
];

// An error of the method's interface and its struct, or not.
const GUARDS: [(&str, &str, bool); 3] = [
    ("Bad", r#"{"const":{"n":1}}"#, true),
    ("Bad", r#"{"const":1}"#, false),
    ("Worse", r#"{"const":{"n":1}}"#, false),
];

// The line, and a step that is typed or not.
const STEPS: [(&str, &str, bool); 12] = [
    ("set", r#"{"set":"total","to":{"const":1}}"#, true),
    ("set", r#"{"set":"total","to":{"const":[]}}"#, false),
    ("push", r#"{"push":"items","value":{"const":1}}"#, true),
    ("push", r#"{"push":"items","value":{"const":"1"}}"#, false),
    ("push", r#"{"push":"counts","value":{"const":1}}"#, false),
    (
        "put",
        r#"{"put":"counts","key":{"const":"k"},"value":{"const":1}}"#,
        true,
    ),
    (
        "put",
        r#"{"put":"counts","key":{"const":1},"value":{"const":1}}"#,
        false,
    ),
    (
        "put",
        r#"{"put":"counts","key":{"const":"k"},"value":{"const":"1"}}"#,
        false,
    ),
    (
        "put",
        r#"{"put":"items","key":{"const":"k"},"value":{"const":1}}"#,
        false,
    ),
    ("drop", r#"{"drop":"counts","key":{"const":"k"}}"#, true),
    ("drop", r#"{"drop":"counts","key":{"const":1}}"#, false),
    ("drop", r#"{"drop":"items","key":{"const":"k"}}"#, false),
];

// The line, and an outcome that is typed or not.
const OUTCOMES: [(&str, &str, bool); 10] = [
    ("reply", r#"{"reply":{"const":{"total":1}}}"#, true),
    ("reply", r#"{"reply":{"const":{}}}"#, false),
    (
        "stream",
        r#"{"stream":{"param":["list"]},"each":{"struct":{"total":{"item":[]}}},"last":{"const":{"total":1}}}"#,
        true,
    ),
    (
        "stream",
        r#"{"stream":{"param":["n"]},"each":{"const":{"total":1}},"last":{"const":{"total":1}}}"#,
        false,
    ),
    (
        "stream",
        r#"{"stream":{"item":[]},"each":{"const":{"total":1}},"last":{"const":{"total":1}}}"#,
        false,
    ),
    (
        "stream",
        r#"{"stream":{"param":["list"]},"each":{"item":[]},"last":{"const":{"total":1}}}"#,
        false,
    ),
    (
        "stream",
        r#"{"stream":{"param":["list"]},"each":{"const":{"total":1}},"last":{"struct":{"total":{"item":[]}}}}"#,
        false,
    ),
    (
        "upgrade",
        r#"{"upgrade":"echo","reply":{"const":{"total":1}}}"#,
        true,
    ),
    (
        "upgrade",
        r#"{"upgrade":"discard","reply":{"const":{"total":1}}}"#,
        true,
    ),
    (
        "upgrade",
        r#"{"upgrade":"echo","reply":{"const":1}}"#,
        false,
    ),
];

#[test]
fn expressions(rt: HostRuntime) {
    for (line, register, expression, typed) in EXPRESSIONS {
        assert!(rt;
            is_set(rt.alloc(), register, expression, typed),
            "{line}: {expression}"
        );
    }
}

#[test]
fn conditions(rt: HostRuntime) {
    for (line, condition, typed) in CONDITIONS {
        assert!(rt;
            is_guarded(rt.alloc(), condition, "Bad", r#"{"const":{"n":1}}"#, typed),
            "{line}: {condition}"
        );
    }
}

#[test]
fn guards(rt: HostRuntime) {
    for (error, with, typed) in GUARDS {
        assert!(rt;
            is_guarded(
                rt.alloc(),
                r#"{"less":[{"const":0},{"const":1}]}"#,
                error,
                with,
                typed
            ),
            "{error} with {with}"
        );
    }
}

#[test]
fn steps(rt: HostRuntime) {
    for (line, step, typed) in STEPS {
        assert!(rt; is_done(rt.alloc(), step, typed), "{line}: {step}");
    }
}

#[test]
fn outcomes(rt: HostRuntime) {
    for (line, outcome, typed) in OUTCOMES {
        assert!(rt; is_ended(rt.alloc(), outcome, typed), "{line}: {outcome}");
    }
}

// Whether a register may be set to an expression, or may not.
fn is_set(alloc: Global, register: &str, expression: &str, typed: bool) -> bool {
    match format!(in alloc; "{{\"set\":\"{register}\",\"to\":{expression}}}") {
        Ok(step) => is_done(alloc, step.as_str(), typed),
        Err(_) => false,
    }
}

fn is_done(alloc: Global, step: &str, typed: bool) -> bool {
    let outcome = r#"{"reply":{"const":{"total":1}}}"#;
    let rule = format!(in alloc; "\"a.b.M\":{{\"steps\":[{step}],\"outcome\":{outcome}}}");
    is_rule(
        alloc,
        rule,
        typed,
        "ill typed at rule a.b.M branch 0 step 0",
    )
}

fn is_guarded(alloc: Global, need: &str, error: &str, with: &str, typed: bool) -> bool {
    let outcome = r#"{"reply":{"const":{"total":1}}}"#;
    let rule = format!(in alloc;
        "\"a.b.M\":{{\"guards\":[{{\"need\":{need},\"else\":\"{error}\",\"with\":{with}}}],\"outcome\":{outcome}}}"
    );
    is_rule(
        alloc,
        rule,
        typed,
        "ill typed at rule a.b.M branch 0 guard 0",
    )
}

fn is_ended(alloc: Global, outcome: &str, typed: bool) -> bool {
    let rule = format!(in alloc; "\"a.b.M\":{{\"outcome\":{outcome}}}");
    is_rule(
        alloc,
        rule,
        typed,
        "ill typed at rule a.b.M branch 0 outcome",
    )
}

// Whether a sheet with the rule is read, or told to be ill typed there.
fn is_rule<E: Drop>(alloc: Global, rule: Result<String, E>, typed: bool, told: &str) -> bool {
    match rule {
        Ok(rule) => has(
            alloc,
            1,
            INTERFACES,
            REGISTERS,
            rule.as_str(),
            if typed { "2, 6, 1" } else { told },
        ),
        Err(_) => false,
    }
}

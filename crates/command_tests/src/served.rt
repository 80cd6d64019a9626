// The command `session` on sheets: calls, each with what is written for them.
use crate::rows::{NOTHING, Row, are_right};
use crate::served_sheets::{COUNT, DEEP, GOING, TWO};
use std::alloc::Global;

/// The text of a sheet, what comes in, and what goes out.
const ROWS: [(&str, &str, &str); 17] = [
    // A call between two others that gets no reply.
    (
        COUNT,
        "{\"method\":\"org.example.count.Add\",\"parameters\":{\"amount\":1}}\0{\"method\":\"org.example.count.Add\",\"parameters\":{\"amount\":\"x\"},\"oneway\":true}\0{\"method\":\"org.example.count.Add\",\"parameters\":{\"amount\":2}}\0",
        "{\"parameters\":{\"total\":1}}\0{\"parameters\":{\"total\":3}}\0",
    ),
    // A stream of three items.
    (
        COUNT,
        "{\"method\":\"org.example.count.Note\",\"parameters\":{\"entry\":{\"amount\":1,\"name\":\"a\"},\"tag\":\"t\"}}\0{\"method\":\"org.example.count.Note\",\"parameters\":{\"entry\":{\"amount\":2,\"name\":\"b\"},\"tag\":\"t\"}}\0{\"method\":\"org.example.count.Note\",\"parameters\":{\"entry\":{\"amount\":3,\"name\":\"c\"},\"tag\":\"t\"}}\0{\"method\":\"org.example.count.List\",\"more\":true}\0",
        "{\"parameters\":{}}\0{\"parameters\":{}}\0{\"parameters\":{}}\0{\"continues\":true,\"parameters\":{\"done\":false,\"entry\":{\"amount\":1,\"name\":\"a\"}}}\0{\"continues\":true,\"parameters\":{\"done\":false,\"entry\":{\"amount\":2,\"name\":\"b\"}}}\0{\"continues\":true,\"parameters\":{\"done\":false,\"entry\":{\"amount\":3,\"name\":\"c\"}}}\0{\"parameters\":{\"done\":true}}\0",
    ),
    // A stream without items.
    (
        COUNT,
        "{\"method\":\"org.example.count.List\",\"more\":true}\0",
        "{\"parameters\":{\"done\":true}}\0",
    ),
    // A stream asked for without `more`.
    (
        COUNT,
        "{\"method\":\"org.example.count.List\"}\0",
        "{\"error\":\"org.varlink.service.ExpectedMore\",\"parameters\":{}}\0",
    ),
    // Nothing is written for a refused `oneway` call.
    (
        COUNT,
        "{\"method\":\"org.example.count.List\",\"oneway\":true}\0{\"method\":\"org.example.count.Add\",\"parameters\":{\"amount\":0}}\0",
        "{\"parameters\":{\"total\":0}}\0",
    ),
    // `upgrade` comes before `more`.
    (
        COUNT,
        "{\"method\":\"org.example.count.List\",\"parameters\":{\"a\":1},\"more\":true,\"upgrade\":true}\0",
        "{\"error\":\"org.varlink.service.InvalidParameter\",\"parameters\":{\"parameter\":\"upgrade\"}}\0",
    ),
    // The first field that does not read.
    (
        COUNT,
        "{\"method\":\"org.example.count.Note\",\"parameters\":{\"entry\":{\"amount\":\"x\",\"name\":\"a\"}}}\0{\"method\":\"org.example.count.Note\",\"parameters\":{\"entry\":{\"amount\":1,\"name\":\"a\"}}}\0{\"method\":\"org.example.count.Note\"}\0",
        "{\"error\":\"org.varlink.service.InvalidParameter\",\"parameters\":{\"parameter\":\"entry\"}}\0{\"error\":\"org.varlink.service.InvalidParameter\",\"parameters\":{\"parameter\":\"tag\"}}\0{\"error\":\"org.varlink.service.InvalidParameter\",\"parameters\":{\"parameter\":\"entry\"}}\0",
    ),
    // An accepted upgrade, and its raw bytes.
    (
        COUNT,
        "{\"method\":\"org.example.count.Echo\",\"upgrade\":true}\0abc",
        "{\"parameters\":{}}\0abc",
    ),
    // Upgrades that are refused.
    (
        COUNT,
        "{\"method\":\"org.example.count.Echo\",\"upgrade\":true,\"oneway\":true}\0{\"method\":\"org.example.count.Echo\"}\0{\"method\":\"org.example.count.Echo\",\"upgrade\":true,\"more\":true}\0{\"method\":\"org.example.count.Add\",\"parameters\":{\"amount\":1},\"upgrade\":true}\0{\"method\":\"org.example.count.Add\",\"parameters\":{\"amount\":1}}\0",
        "{\"error\":\"org.varlink.service.InvalidParameter\",\"parameters\":{\"parameter\":\"upgrade\"}}\0{\"error\":\"org.varlink.service.InvalidParameter\",\"parameters\":{\"parameter\":\"upgrade\"}}\0{\"error\":\"org.varlink.service.InvalidParameter\",\"parameters\":{\"parameter\":\"upgrade\"}}\0{\"parameters\":{\"total\":1}}\0",
    ),
    // What the service does not have; a method without a rule before its flags.
    (
        COUNT,
        "{\"method\":\"Ping\"}\0{\"method\":\"org.none.Ping\"}\0{\"method\":\"org.example.count.None\"}\0{\"method\":\"org.example.count.Ping\"}\0{\"method\":\"org.example.count.Ping\",\"upgrade\":true}\0",
        "{\"error\":\"org.varlink.service.InterfaceNotFound\",\"parameters\":{\"interface\":\"Ping\"}}\0{\"error\":\"org.varlink.service.InterfaceNotFound\",\"parameters\":{\"interface\":\"org.none\"}}\0{\"error\":\"org.varlink.service.MethodNotFound\",\"parameters\":{\"method\":\"org.example.count.None\"}}\0{\"error\":\"org.varlink.service.MethodNotImplemented\",\"parameters\":{\"method\":\"org.example.count.Ping\"}}\0{\"error\":\"org.varlink.service.MethodNotImplemented\",\"parameters\":{\"method\":\"org.example.count.Ping\"}}\0",
    ),
    // Amounts at their bounds.
    (
        COUNT,
        "{\"method\":\"org.example.count.Add\",\"parameters\":{\"amount\":9223372036854775807}}\0{\"method\":\"org.example.count.Add\",\"parameters\":{\"amount\":1}}\0{\"method\":\"org.example.count.Add\",\"parameters\":{\"amount\":9223372036854775808}}\0{\"method\":\"org.example.count.Add\",\"parameters\":{\"amount\":1.0}}\0{\"method\":\"org.example.count.Add\",\"parameters\":{\"amount\":-1}}\0",
        "{\"parameters\":{\"total\":9223372036854775807}}\0{\"parameters\":{\"total\":9223372036854775807}}\0{\"error\":\"org.varlink.service.InvalidParameter\",\"parameters\":{\"parameter\":\"amount\"}}\0{\"error\":\"org.varlink.service.InvalidParameter\",\"parameters\":{\"parameter\":\"amount\"}}\0{\"error\":\"org.example.count.Negative\",\"parameters\":{\"amount\":-1}}\0",
    ),
    // What the service tells of itself.
    (
        COUNT,
        "{\"method\":\"org.varlink.service.GetInterfaceDescription\"}\0{\"method\":\"org.varlink.service.GetInterfaceDescription\",\"parameters\":{\"interface\":\"org.none\"}}\0{\"method\":\"org.varlink.service.GetInterfaceDescription\",\"parameters\":{\"interface\":\"org.example.count\"}}\0{\"method\":\"org.varlink.service.None\"}\0{\"method\":\"org.varlink.service.GetInfo\",\"upgrade\":true}\0{\"method\":\"org.varlink.service.GetInfo\"}\0",
        "{\"error\":\"org.varlink.service.InvalidParameter\",\"parameters\":{\"parameter\":\"interface\"}}\0{\"error\":\"org.varlink.service.InterfaceNotFound\",\"parameters\":{\"interface\":\"org.none\"}}\0{\"parameters\":{\"description\":\"interface org.example.count\\n\\ntype Entry (name: string, amount: int)\\n\\nmethod Add(amount: int) -> (total: int)\\n\\nmethod List() -> (entry: ?Entry, done: bool)\\n\\nmethod Note(entry: Entry, tag: string) -> ()\\n\\nmethod Echo() -> ()\\n\\nmethod Ping() -> ()\\n\\nerror Negative (amount: int)\\n\"}}\0{\"error\":\"org.varlink.service.MethodNotFound\",\"parameters\":{\"method\":\"org.varlink.service.None\"}}\0{\"error\":\"org.varlink.service.InvalidParameter\",\"parameters\":{\"parameter\":\"upgrade\"}}\0{\"parameters\":{\"interfaces\":[\"org.varlink.service\",\"org.example.count\"],\"product\":\"Count\",\"url\":\"https://example.org\",\"vendor\":\"Example\",\"version\":\"1\"}}\0",
    ),
    // One reply to a caller that takes more.
    (
        COUNT,
        "{\"method\":\"org.example.count.Add\",\"parameters\":{\"amount\":1},\"more\":true}\0",
        "{\"parameters\":{\"total\":1}}\0",
    ),
    // A rule of two branches.
    (
        TWO,
        "{\"method\":\"org.example.count.Add\",\"parameters\":{\"amount\":-5}}\0{\"method\":\"org.example.count.Add\",\"parameters\":{\"amount\":5}}\0",
        "{\"parameters\":{\"total\":-1}}\0{\"parameters\":{\"total\":5}}\0",
    ),
    // An upgrade that changes a register, whose raw bytes are dropped.
    (
        GOING,
        "{\"method\":\"a.b.Go\",\"parameters\":{\"by\":2}}\0{\"method\":\"a.b.At\"}\0{\"method\":\"a.b.Go\",\"parameters\":{\"by\":2},\"upgrade\":true}\0{\"method\":\"a.b.At\"}\0",
        "{\"error\":\"org.varlink.service.InvalidParameter\",\"parameters\":{\"parameter\":\"upgrade\"}}\0{\"parameters\":{\"at\":1}}\0{\"parameters\":{\"at\":3}}\0",
    ),
    // Replies of 120 and 121 levels.
    (
        DEEP,
        "{\"method\":\"a.b.Give\",\"parameters\":{\"what\":{\"a\":{\"a\":{\"a\":{\"a\":{\"a\":{\"a\":{\"a\":{\"a\":{\"a\":{\"a\":{\"a\":{\"a\":{\"a\":{\"a\":{\"a\":{\"a\":{\"a\":{\"a\":{\"a\":{\"a\":{\"a\":{\"a\":{\"a\":{\"a\":{\"a\":{\"a\":{\"a\":{\"a\":{\"a\":{\"a\":{\"a\":{\"a\":{\"a\":{\"a\":{\"a\":{\"a\":{\"a\":{\"a\":{\"a\":{\"a\":{\"a\":{\"a\":{\"a\":{\"a\":{\"a\":{\"a\":{\"a\":{\"a\":{\"a\":{\"a\":{\"a\":{\"a\":{\"a\":{\"a\":{\"a\":{\"a\":{\"a\":{\"a\":{\"a\":{\"a\":{\"a\":{\"a\":{\"a\":{\"a\":{\"a\":{\"a\":{\"a\":{\"a\":{\"a\":{\"a\":{\"a\":{\"a\":{\"a\":{\"a\":{\"a\":{\"a\":{\"a\":{\"a\":{\"a\":{\"a\":{\"a\":{\"a\":{\"a\":{\"a\":{\"a\":{\"a\":{\"a\":{\"a\":{\"a\":{\"a\":{\"a\":{\"a\":{\"a\":{\"a\":{\"a\":{\"a\":{\"a\":{\"a\":{\"a\":{\"a\":{\"a\":{\"a\":{\"a\":{\"a\":{\"a\":{\"a\":{\"a\":{\"a\":{\"a\":{\"a\":{\"a\":{\"a\":{\"a\":{\"a\":{\"a\":{\"a\":{\"a\":{\"a\":{}}}}}}}}}}}}}}}}}}}}}}}}}}}}}}}}}}}}}}}}}}}}}}}}}}}}}}}}}}}}}}}}}}}}}}}}}}}}}}}}}}}}}}}}}}}}}}}}}}}}}}}}}}}}}}}}}}}}}}}}}\0{\"method\":\"a.b.Give\",\"parameters\":{\"what\":{\"a\":{\"a\":{\"a\":{\"a\":{\"a\":{\"a\":{\"a\":{\"a\":{\"a\":{\"a\":{\"a\":{\"a\":{\"a\":{\"a\":{\"a\":{\"a\":{\"a\":{\"a\":{\"a\":{\"a\":{\"a\":{\"a\":{\"a\":{\"a\":{\"a\":{\"a\":{\"a\":{\"a\":{\"a\":{\"a\":{\"a\":{\"a\":{\"a\":{\"a\":{\"a\":{\"a\":{\"a\":{\"a\":{\"a\":{\"a\":{\"a\":{\"a\":{\"a\":{\"a\":{\"a\":{\"a\":{\"a\":{\"a\":{\"a\":{\"a\":{\"a\":{\"a\":{\"a\":{\"a\":{\"a\":{\"a\":{\"a\":{\"a\":{\"a\":{\"a\":{\"a\":{\"a\":{\"a\":{\"a\":{\"a\":{\"a\":{\"a\":{\"a\":{\"a\":{\"a\":{\"a\":{\"a\":{\"a\":{\"a\":{\"a\":{\"a\":{\"a\":{\"a\":{\"a\":{\"a\":{\"a\":{\"a\":{\"a\":{\"a\":{\"a\":{\"a\":{\"a\":{\"a\":{\"a\":{\"a\":{\"a\":{\"a\":{\"a\":{\"a\":{\"a\":{\"a\":{\"a\":{\"a\":{\"a\":{\"a\":{\"a\":{\"a\":{\"a\":{\"a\":{\"a\":{\"a\":{\"a\":{\"a\":{\"a\":{\"a\":{\"a\":{\"a\":{\"a\":{\"a\":{\"a\":{\"a\":{\"a\":{\"a\":{\"a\":{}}}}}}}}}}}}}}}}}}}}}}}}}}}}}}}}}}}}}}}}}}}}}}}}}}}}}}}}}}}}}}}}}}}}}}}}}}}}}}}}}}}}}}}}}}}}}}}}}}}}}}}}}}}}}}}}}}}}}}}}}}\0",
        "{\"parameters\":{\"what\":{\"a\":{\"a\":{\"a\":{\"a\":{\"a\":{\"a\":{\"a\":{\"a\":{\"a\":{\"a\":{\"a\":{\"a\":{\"a\":{\"a\":{\"a\":{\"a\":{\"a\":{\"a\":{\"a\":{\"a\":{\"a\":{\"a\":{\"a\":{\"a\":{\"a\":{\"a\":{\"a\":{\"a\":{\"a\":{\"a\":{\"a\":{\"a\":{\"a\":{\"a\":{\"a\":{\"a\":{\"a\":{\"a\":{\"a\":{\"a\":{\"a\":{\"a\":{\"a\":{\"a\":{\"a\":{\"a\":{\"a\":{\"a\":{\"a\":{\"a\":{\"a\":{\"a\":{\"a\":{\"a\":{\"a\":{\"a\":{\"a\":{\"a\":{\"a\":{\"a\":{\"a\":{\"a\":{\"a\":{\"a\":{\"a\":{\"a\":{\"a\":{\"a\":{\"a\":{\"a\":{\"a\":{\"a\":{\"a\":{\"a\":{\"a\":{\"a\":{\"a\":{\"a\":{\"a\":{\"a\":{\"a\":{\"a\":{\"a\":{\"a\":{\"a\":{\"a\":{\"a\":{\"a\":{\"a\":{\"a\":{\"a\":{\"a\":{\"a\":{\"a\":{\"a\":{\"a\":{\"a\":{\"a\":{\"a\":{\"a\":{\"a\":{\"a\":{\"a\":{\"a\":{\"a\":{\"a\":{\"a\":{\"a\":{\"a\":{\"a\":{\"a\":{\"a\":{\"a\":{\"a\":{\"a\":{\"a\":{\"a\":{\"a\":{}}}}}}}}}}}}}}}}}}}}}}}}}}}}}}}}}}}}}}}}}}}}}}}}}}}}}}}}}}}}}}}}}}}}}}}}}}}}}}}}}}}}}}}}}}}}}}}}}}}}}}}}}}}}}}}}}}}}}}}}}\0{\"error\":\"org.varlink.service.InvalidParameter\",\"parameters\":{\"parameter\":\"depth\"}}\0",
    ),
    // Registers of 120 and 121 levels.
    (
        DEEP,
        "{\"method\":\"a.b.Keep\",\"parameters\":{\"what\":{\"a\":{\"a\":{\"a\":{\"a\":{\"a\":{\"a\":{\"a\":{\"a\":{\"a\":{\"a\":{\"a\":{\"a\":{\"a\":{\"a\":{\"a\":{\"a\":{\"a\":{\"a\":{\"a\":{\"a\":{\"a\":{\"a\":{\"a\":{\"a\":{\"a\":{\"a\":{\"a\":{\"a\":{\"a\":{\"a\":{\"a\":{\"a\":{\"a\":{\"a\":{\"a\":{\"a\":{\"a\":{\"a\":{\"a\":{\"a\":{\"a\":{\"a\":{\"a\":{\"a\":{\"a\":{\"a\":{\"a\":{\"a\":{\"a\":{\"a\":{\"a\":{\"a\":{\"a\":{\"a\":{\"a\":{\"a\":{\"a\":{\"a\":{\"a\":{\"a\":{\"a\":{\"a\":{\"a\":{\"a\":{\"a\":{\"a\":{\"a\":{\"a\":{\"a\":{\"a\":{\"a\":{\"a\":{\"a\":{\"a\":{\"a\":{\"a\":{\"a\":{\"a\":{\"a\":{\"a\":{\"a\":{\"a\":{\"a\":{\"a\":{\"a\":{\"a\":{\"a\":{\"a\":{\"a\":{\"a\":{\"a\":{\"a\":{\"a\":{\"a\":{\"a\":{\"a\":{\"a\":{\"a\":{\"a\":{\"a\":{\"a\":{\"a\":{\"a\":{\"a\":{\"a\":{\"a\":{\"a\":{\"a\":{\"a\":{\"a\":{\"a\":{\"a\":{\"a\":{\"a\":{\"a\":{\"a\":{\"a\":{\"a\":{\"a\":{}}}}}}}}}}}}}}}}}}}}}}}}}}}}}}}}}}}}}}}}}}}}}}}}}}}}}}}}}}}}}}}}}}}}}}}}}}}}}}}}}}}}}}}}}}}}}}}}}}}}}}}}}}}}}}}}}}}}}}}}}}\0{\"method\":\"a.b.Tell\"}\0{\"method\":\"a.b.Keep\",\"parameters\":{\"what\":{\"a\":{\"a\":{\"a\":{\"a\":{\"a\":{\"a\":{\"a\":{\"a\":{\"a\":{\"a\":{\"a\":{\"a\":{\"a\":{\"a\":{\"a\":{\"a\":{\"a\":{\"a\":{\"a\":{\"a\":{\"a\":{\"a\":{\"a\":{\"a\":{\"a\":{\"a\":{\"a\":{\"a\":{\"a\":{\"a\":{\"a\":{\"a\":{\"a\":{\"a\":{\"a\":{\"a\":{\"a\":{\"a\":{\"a\":{\"a\":{\"a\":{\"a\":{\"a\":{\"a\":{\"a\":{\"a\":{\"a\":{\"a\":{\"a\":{\"a\":{\"a\":{\"a\":{\"a\":{\"a\":{\"a\":{\"a\":{\"a\":{\"a\":{\"a\":{\"a\":{\"a\":{\"a\":{\"a\":{\"a\":{\"a\":{\"a\":{\"a\":{\"a\":{\"a\":{\"a\":{\"a\":{\"a\":{\"a\":{\"a\":{\"a\":{\"a\":{\"a\":{\"a\":{\"a\":{\"a\":{\"a\":{\"a\":{\"a\":{\"a\":{\"a\":{\"a\":{\"a\":{\"a\":{\"a\":{\"a\":{\"a\":{\"a\":{\"a\":{\"a\":{\"a\":{\"a\":{\"a\":{\"a\":{\"a\":{\"a\":{\"a\":{\"a\":{\"a\":{\"a\":{\"a\":{\"a\":{\"a\":{\"a\":{\"a\":{\"a\":{\"a\":{\"a\":{\"a\":{\"a\":{\"a\":{\"a\":{\"a\":{\"a\":{\"a\":{\"a\":{}}}}}}}}}}}}}}}}}}}}}}}}}}}}}}}}}}}}}}}}}}}}}}}}}}}}}}}}}}}}}}}}}}}}}}}}}}}}}}}}}}}}}}}}}}}}}}}}}}}}}}}}}}}}}}}}}}}}}}}}}}}\0{\"method\":\"a.b.Keep\",\"parameters\":{\"what\":{\"b\":1}}}\0{\"method\":\"a.b.Tell\"}\0",
        "{\"parameters\":{}}\0{\"error\":\"org.varlink.service.InvalidParameter\",\"parameters\":{\"parameter\":\"depth\"}}\0{\"error\":\"org.varlink.service.InvalidParameter\",\"parameters\":{\"parameter\":\"depth\"}}\0{\"parameters\":{}}\0{\"parameters\":{\"what\":{\"b\":1}}}\0",
    ),
];

fn are_served<'x>(alloc: Global, rows: &'x [(&'x str, &'x str, &'x str)]) -> bool {
    for (file, input, output) in rows {
        let row = Row {
            words: &["session", "d"],
            file,
            input: input.as_bytes(),
            output: output.as_bytes(),
            ..NOTHING
        };
        if !are_right(alloc, &[row]) {
            return false;
        }
    }
    true
}

#[test]
fn sheets_are_served(rt: HostRuntime) {
    assert!(rt; are_served(rt.alloc(), &ROWS));
}

#[test]
fn a_session_of_no_sheet_takes_nothing(rt: HostRuntime) {
    let row = Row {
        words: &["session", "d"],
        file: "{}",
        input: b"{\"method\":\"org.varlink.service.GetInfo\"}\0",
        status: 2,
        line: "shape at top",
        ..NOTHING
    };
    let missing = Row {
        words: &["session", "m"],
        status: 5,
        line: "cannot read m",
        ..row
    };
    assert!(rt; are_right(rt.alloc(), &[row, missing]));
}

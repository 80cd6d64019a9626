// The count sheet, read whole.
use sheet_draft::{
    ActionDraft, CondDraft, DraftFault, EndingDraft, ExprDraft, RefDraft, RuleDraft, SheetDraft,
    read,
};

const COUNT: &str =
    r#"{"sheet":1,"vendor":"Example","product":"Count","version":"1","url":"https://example.org",
 "interfaces":["interface org.example.count\n\ntype Entry (name: string, amount: int)\n\nmethod Add(amount: int) -> (total: int)\n\nmethod List() -> (entry: ?Entry, done: bool)\n\nmethod Note(entry: Entry, tag: string) -> ()\n\nmethod Echo() -> ()\n\nmethod Ping() -> ()\n\nerror Negative (amount: int)\n"],
 "registers":[
  {"name":"total","scope":"org.example.count","type":"int","initial":0},
  {"name":"entries","scope":"org.example.count","type":"[]Entry","initial":[]}],
 "rules":{
  "org.example.count.Add":{
   "guards":[{"need":{"not":{"less":[{"param":["amount"]},{"const":0}]}},
              "else":"Negative","with":{"struct":{"amount":{"param":["amount"]}}}}],
   "steps":[{"set":"total","to":{"sum":[{"register":["total"]},{"param":["amount"]}]}}],
   "outcome":{"reply":{"struct":{"total":{"register":["total"]}}}}},
  "org.example.count.Echo":{"outcome":{"upgrade":"echo","reply":{"struct":{}}}},
  "org.example.count.List":{"outcome":{"stream":{"register":["entries"]},
   "each":{"struct":{"entry":{"item":[]},"done":{"const":false}}},
   "last":{"struct":{"done":{"const":true}}}}},
  "org.example.count.Note":{"steps":[{"push":"entries","value":{"param":["entry"]}}],
   "outcome":{"reply":{"struct":{}}}}}}"#;

#[test]
fn count(rt: HostRuntime) {
    match read(rt.alloc(), COUNT.as_bytes()) {
        Ok(draft) => assert!(rt; is_count(&draft)),
        Err(DraftFault::Memory) => assert!(rt; false, "out of memory"),
        Err(_) => assert!(rt; false, "no sheet"),
    }
}

fn is_count(draft: &SheetDraft) -> bool {
    let info = &draft.info;
    info.vendor.as_str() == "Example"
        && info.product.as_str() == "Count"
        && info.version.as_str() == "1"
        && info.url.as_str() == "https://example.org"
        && draft.interfaces.len() == 1
        && has_registers(draft)
        && has_rules(draft.rules.as_slice())
}

fn has_registers(draft: &SheetDraft) -> bool {
    match draft.registers.as_slice() {
        [total, entries] => {
            total.name.as_str() == "total"
                && total.scope.as_str() == "org.example.count"
                && total.of.as_str() == "int"
                && total.initial.inner().as_u64() == Some(0)
                && entries.name.as_str() == "entries"
                && entries.of.as_str() == "[]Entry"
                && entries.initial.inner().is_array()
        }
        _ => false,
    }
}

fn has_rules(rules: &[RuleDraft]) -> bool {
    match rules {
        [add, echo, list, note] => is_add(add) && is_echo(echo) && is_list(list) && is_note(note),
        _ => false,
    }
}

fn is_rule(rule: &RuleDraft, method: &str) -> bool {
    rule.interface.as_str() == "org.example.count" && rule.method.as_str() == method
}

fn is_add(rule: &RuleDraft) -> bool {
    match rule.branches.as_slice() {
        [branch] => {
            let guarded = match branch.guards.as_slice() {
                [guard] => {
                    matches!(guard.need, CondDraft::Not(_)) && guard.error.as_str() == "Negative"
                }
                _ => false,
            };
            let stepped = match branch.steps.as_slice() {
                [ActionDraft::Set(register, ExprDraft::Sum(_, _))] => register.as_str() == "total",
                _ => false,
            };
            is_rule(rule, "Add") && branch.when.is_none() && guarded && stepped
        }
        _ => false,
    }
}

fn is_echo(rule: &RuleDraft) -> bool {
    match rule.branches.as_slice() {
        [branch] => {
            is_rule(rule, "Echo") && matches!(branch.outcome, EndingDraft::Upgrade { .. })
        }
        _ => false,
    }
}

fn is_list(rule: &RuleDraft) -> bool {
    match rule.branches.as_slice() {
        [branch] => match &branch.outcome {
            EndingDraft::Stream { over, .. } => is_rule(rule, "List") && is_entries(over),
            _ => false,
        },
        _ => false,
    }
}

fn is_entries(over: &RefDraft) -> bool {
    match over {
        RefDraft::Register(names) => match names.as_slice() {
            [name] => name.as_str() == "entries",
            _ => false,
        },
        _ => false,
    }
}

fn is_note(rule: &RuleDraft) -> bool {
    match rule.branches.as_slice() {
        [branch] => {
            is_rule(rule, "Note")
                && matches!(
                    branch.steps.as_slice(),
                    [ActionDraft::Push(_, ExprDraft::From(_))]
                )
                && matches!(branch.outcome, EndingDraft::Reply(ExprDraft::Struct(_)))
        }
        _ => false,
    }
}

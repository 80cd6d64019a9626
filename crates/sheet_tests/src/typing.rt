// For each line of the tables of typing, a part that is typed and one that is not.
use crate::definitions::{interfaces, registers};
use crate::parts::{at, guard, not, number, one, param, register, sum, text, two};
use call_form::Raw;
use link_port::{List, Memory};
use sheet_rules::{
    Action, Cond, Ending, Expr, Ref, Standing, action_is_typed, cond_is_typed, ending_is_typed,
    gives, guard_is_typed, method_of, register_typ, standing,
};
use std::alloc::Global;

// The register whose type an expression has to give, and the line that it is of.
const EXPRESSIONS: [(u64, &str); 9] = [
    (0, "reference"),
    (0, "path"),
    (3, "name"),
    (0, "const"),
    (3, "struct"),
    (1, "list"),
    (0, "sum"),
    (0, "length"),
    (0, "at"),
];

const CONDITIONS: [&str; 5] = ["equal", "less", "present", "has", "not"];

const STEPS: [&str; 4] = ["set", "push", "put", "drop"];

const OUTCOMES: [&str; 5] = ["reply", "stream", "over", "last", "upgrade"];

#[test]
fn expressions(rt: HostRuntime) {
    for (place, line) in EXPRESSIONS {
        assert!(rt; is_right(rt.alloc(), place, "expression", line), "{line}");
    }
}

#[test]
fn conditions(rt: HostRuntime) {
    for line in CONDITIONS {
        assert!(rt; is_right(rt.alloc(), 0, "condition", line), "{line}");
    }
}

#[test]
fn steps(rt: HostRuntime) {
    for line in STEPS {
        assert!(rt; is_right(rt.alloc(), 0, "step", line), "{line}");
    }
}

#[test]
fn outcomes(rt: HostRuntime) {
    for line in OUTCOMES {
        assert!(rt; is_right(rt.alloc(), 0, "outcome", line), "{line}");
    }
}

#[test]
fn guards(rt: HostRuntime) {
    assert!(rt; is_right(rt.alloc(), 0, "guard", "error"));
}

// Whether the part of the line that is typed is so, and the other is not.
fn is_right(alloc: Global, place: u64, kind: &str, line: &str) -> bool {
    matches!(told(alloc, place, kind, line, true), Ok(true))
        && matches!(told(alloc, place, kind, line, false), Ok(false))
}

fn told(alloc: Global, place: u64, kind: &str, line: &str, good: bool) -> Result<bool, Memory> {
    let interfaces = interfaces(alloc)?;
    let told = match registers(alloc, interfaces.as_slice()) {
        Ok(registers) => {
            let told = match method_of("M", interfaces.as_slice(), 0) {
                Some((input, output)) => {
                    let standing = standing(
                        interfaces.as_slice(),
                        registers.as_slice(),
                        0,
                        input,
                        output,
                    );
                    told_in(alloc, &standing, place, kind, line, good)
                }
                None => Err(Memory),
            };
            drop(registers);
            told
        }
        Err(memory) => Err(memory),
    };
    drop(interfaces);
    told
}

fn told_in(
    alloc: Global,
    standing: &Standing<'_>,
    place: u64,
    kind: &str,
    line: &str,
    good: bool,
) -> Result<bool, Memory> {
    match kind {
        "expression" => expression_told(alloc, standing, place, line, good),
        "condition" => Ok(cond_is_typed(&condition(alloc, line, good)?, standing)),
        "step" => Ok(action_is_typed(&step(alloc, line, good)?, standing)),
        "outcome" => Ok(ending_is_typed(&outcome(alloc, line, good)?, standing)),
        _ => Ok(guard_is_typed(&guard(alloc, if good { "Bad" } else { "Worse" })?, standing)),
    }
}

fn expression_told(
    alloc: Global,
    standing: &Standing<'_>,
    place: u64,
    line: &str,
    good: bool,
) -> Result<bool, Memory> {
    match register_typ(standing.registers, place) {
        Some(of) => Ok(gives(&expression(alloc, line, good)?, standing, &of)),
        None => Err(Memory),
    }
}

fn expression(alloc: Global, line: &str, good: bool) -> Result<Expr, Memory> {
    match line {
        "reference" => Ok(Expr::From(param(alloc, if good { &[0] } else { &[1] })?)),
        "path" => Ok(Expr::From(param(alloc, if good { &[5, 0] } else { &[6, 0] })?)),
        "name" => Ok(Expr::From(register(alloc, if good { 3 } else { 4 }))),
        "const" => Ok(number(good)),
        "struct" => Ok(Expr::Struct(two(alloc, number(good), number(false))?)),
        "list" => Ok(Expr::Items(two(alloc, number(true), number(good))?)),
        "sum" => sum(alloc, good),
        "length" => Ok(Expr::Length(param(alloc, if good { &[2] } else { &[0] })?)),
        _ => at(alloc, param(alloc, if good { &[3] } else { &[4] })?),
    }
}

fn condition(alloc: Global, line: &str, good: bool) -> Result<Cond, Memory> {
    match line {
        "equal" => Ok(Cond::Equal(param(alloc, &[0])?, number(good))),
        "less" => Ok(Cond::Less(number(true), number(good))),
        "present" => Ok(Cond::Present(param(alloc, if good { &[1] } else { &[0] })?)),
        "has" => Ok(Cond::Has(param(alloc, if good { &[3] } else { &[2] })?, text(alloc)?)),
        _ => not(alloc, Cond::Less(number(true), number(good))),
    }
}

fn step(alloc: Global, line: &str, good: bool) -> Result<Action, Memory> {
    match line {
        "set" => Ok(Action::Set(0, number(good))),
        "push" => Ok(Action::Push(if good { 1 } else { 0 }, number(true))),
        "put" => Ok(Action::Put(2, text(alloc)?, number(good))),
        _ => Ok(Action::Drop(if good { 2 } else { 1 }, text(alloc)?)),
    }
}

fn outcome(alloc: Global, line: &str, good: bool) -> Result<Ending, Memory> {
    match line {
        "reply" => Ok(Ending::Reply(reply(alloc, number(good))?)),
        "stream" => streamed(
            alloc,
            register(alloc, if good { 1 } else { 0 }),
            number(true),
        ),
        "over" => streamed(alloc, over(alloc, good), number(true)),
        "last" => streamed(
            alloc,
            register(alloc, 1),
            if good { number(true) } else { item(alloc) },
        ),
        _ => Ok(Ending::Upgrade {
            raw: Raw::Echo,
            reply: reply(alloc, number(good))?,
        }),
    }
}

fn reply(alloc: Global, total: Expr) -> Result<Expr, Memory> {
    Ok(Expr::Struct(one(alloc, total)?))
}

fn item(alloc: Global) -> Expr {
    Expr::From(Ref::Item(List::new(alloc)))
}

// A register, or a stream's item, over which there is no stream.
fn over(alloc: Global, good: bool) -> Ref {
    if good {
        register(alloc, 1)
    } else {
        Ref::Item(List::new(alloc))
    }
}

// A stream whose replies have the item, and whose last one has this.
fn streamed(alloc: Global, over: Ref, last: Expr) -> Result<Ending, Memory> {
    match reply(alloc, item(alloc)) {
        Ok(each) => match reply(alloc, last) {
            Ok(last) => Ok(Ending::Stream { over, each, last }),
            Err(memory) => {
                drop((over, each));
                Err(memory)
            }
        },
        Err(memory) => {
            drop((over, last));
            Err(memory)
        }
    }
}

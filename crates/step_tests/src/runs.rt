// What requests are answered with, and the registers after them.
use crate::rules::{branch, guarded, only};
use crate::steps::registers;
use link_port::{List, Memory};
use sheet_rules::{Action, Expr};
use sheet_step::{Done, run};
use std::alloc::Global;
use typed_value::Val;

#[test]
fn answered(rt: HostRuntime) {
    assert!(rt; is_answered(rt.alloc()) == Ok(true));
}

#[test]
fn refused(rt: HostRuntime) {
    assert!(rt; is_refused(rt.alloc()) == Ok(true));
}

#[test]
fn too_deep(rt: HostRuntime) {
    assert!(rt; is_right(rt.alloc(), 120, true) == Ok(true));
    assert!(rt; is_right(rt.alloc(), 121, false) == Ok(true));
}

// Whether the reply sees the register after the step.
fn is_answered(alloc: Global) -> Result<bool, Memory> {
    let branch = branch(alloc, Action::Set(0, Expr::Const(Val::Int(7))))?;
    let branches = [branch];
    match registers(alloc) {
        Ok(mut registers) => {
            let done = run(alloc, "a.b", &branches, &Val::Nothing, &mut registers);
            drop(branches);
            let right = matches!(registers.as_slice(), [Val::Int(7), _, _]) && replies_seven(done);
            drop(registers);
            Ok(right)
        }
        Err(stop) => {
            drop(branches);
            Err(stop)
        }
    }
}

fn replies_seven(done: Result<Done, Memory>) -> bool {
    let right = match &done {
        Ok(Done::Replies(vals)) => matches!(vals.as_slice(), [Val::Int(7)]),
        _ => false,
    };
    drop(done);
    right
}

// Whether a guard that does not hold refuses with its error, and the register stays.
fn is_refused(alloc: Global) -> Result<bool, Memory> {
    let branch = guarded(alloc, Action::Set(0, Expr::Const(Val::Int(7))))?;
    let branches = [branch];
    match registers(alloc) {
        Ok(mut registers) => {
            let done = run(alloc, "a.b", &branches, &Val::Nothing, &mut registers);
            drop(branches);
            let right = matches!(registers.as_slice(), [Val::Int(5), _, _]) && refuses(done);
            drop(registers);
            Ok(right)
        }
        Err(stop) => {
            drop(branches);
            Err(stop)
        }
    }
}

fn refuses(done: Result<Done, Memory>) -> bool {
    let right = match &done {
        Ok(Done::Refused { error, parameters }) => {
            error.as_str() == "a.b.Bad" && matches!(parameters, Val::Int(3))
        }
        _ => false,
    };
    drop(done);
    right
}

// Whether a register becomes a value of so many levels where it fits, and stays where it doesn't.
fn is_right(alloc: Global, levels: u64, fits: bool) -> Result<bool, Memory> {
    let branch = branch(alloc, Action::Set(0, Expr::Const(nested(alloc, levels)?)))?;
    let branches = [branch];
    match registers(alloc) {
        Ok(mut registers) => {
            let done = run(alloc, "a.b", &branches, &Val::Nothing, &mut registers);
            drop(branches);
            let deep = is_too_deep(done);
            let stays = matches!(registers.as_slice(), [Val::Int(5), _, _]);
            drop(registers);
            Ok(deep != fits && stays != fits)
        }
        Err(stop) => {
            drop(branches);
            Err(stop)
        }
    }
}

fn is_too_deep(done: Result<Done, Memory>) -> bool {
    let right = matches!(&done, Ok(Done::TooDeep));
    drop(done);
    right
}

// Arrays within each other.
fn nested(alloc: Global, levels: u64) -> Result<Val, Memory> {
    let mut val = Val::Items(List::new(alloc));
    for _ in 1..levels {
        val = Val::Items(only(alloc, val)?);
    }
    Ok(val)
}

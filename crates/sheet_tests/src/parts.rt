// Parts of rules, made for the rows.
use link_port::{Box, List, Memory, Text};
use sheet_rules::{Cond, Expr, Guard, Ref};
use std::alloc::Global;
use typed_value::Val;

pub fn places(alloc: Global, path: &[u64]) -> Result<List<u64>, Memory> {
    let mut places = List::new(alloc);
    for place in path {
        places.push(*place)?;
    }
    Ok(places)
}

pub fn param(alloc: Global, path: &[u64]) -> Result<Ref, Memory> {
    Ok(Ref::Param(places(alloc, path)?))
}

pub fn register(alloc: Global, place: u64) -> Ref {
    Ref::Register(place, List::new(alloc))
}

// A number, or nothing.
pub fn number(good: bool) -> Expr {
    if good {
        Expr::Const(Val::Int(1))
    } else {
        Expr::Const(Val::Nothing)
    }
}

pub fn text(alloc: Global) -> Result<Expr, Memory> {
    Ok(Expr::Const(Val::Str(Text::of(alloc, "key")?)))
}

// A list of these two.
pub fn two(alloc: Global, one: Expr, other: Expr) -> Result<List<Expr>, Memory> {
    let mut exprs = List::new(alloc);
    match exprs.push(one) {
        Ok(()) => {
            exprs.push(other)?;
            Ok(exprs)
        }
        Err(memory) => {
            drop((exprs, other));
            Err(memory)
        }
    }
}

pub fn one(alloc: Global, expr: Expr) -> Result<List<Expr>, Memory> {
    let mut exprs = List::new(alloc);
    exprs.push(expr)?;
    Ok(exprs)
}

pub fn sum(alloc: Global, good: bool) -> Result<Expr, Memory> {
    let one = Box::new(alloc, number(true))?;
    match Box::new(alloc, number(good)) {
        Ok(other) => Ok(Expr::Sum(one, other)),
        Err(memory) => {
            drop(one);
            Err(memory)
        }
    }
}

pub fn at(alloc: Global, over: Ref) -> Result<Expr, Memory> {
    match text(alloc) {
        Ok(key) => at_key(alloc, over, key),
        Err(memory) => {
            drop(over);
            Err(memory)
        }
    }
}

fn at_key(alloc: Global, over: Ref, key: Expr) -> Result<Expr, Memory> {
    match Box::new(alloc, key) {
        Ok(key) => match Box::new(alloc, number(true)) {
            Ok(other) => Ok(Expr::At(over, key, other)),
            Err(memory) => {
                drop((over, key));
                Err(memory)
            }
        },
        Err(memory) => {
            drop(over);
            Err(memory)
        }
    }
}

pub fn not(alloc: Global, cond: Cond) -> Result<Cond, Memory> {
    Ok(Cond::Not(Box::new(alloc, cond)?))
}

pub fn guard(alloc: Global, error: &str) -> Result<Guard, Memory> {
    let with = Expr::Struct(one(alloc, number(true))?);
    match Text::of(alloc, error) {
        Ok(error) => Ok(Guard {
            need: Cond::Less(number(true), number(true)),
            error,
            with,
        }),
        Err(memory) => {
            drop(with);
            Err(memory)
        }
    }
}

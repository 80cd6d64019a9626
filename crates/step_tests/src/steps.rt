// What one step does to registers of a number, an array and a map.
ghost use Rattle.std.specs.Prelude.{◌≡◌, [], ◌∷◌, pos, codes, IfOk};
ghost use Rattle.sheet_rules.specs.declared.forms.Expr.TheVariants as expr;
ghost use Rattle.typed_value.specs.declared.vals.Val.TheVariants as val;

use link_port::{List, Memory, Text};
use rule_values::value_at;
use sheet_rules::{Action, Expr};
use sheet_step::act;
use std::alloc::Global;
use typed_value::Val;

#[test]
fn set(rt: HostRuntime) {
    assert!(rt; is_set(rt.alloc()) == Ok(true));
}

#[test]
fn push(rt: HostRuntime) {
    assert!(rt; is_pushed(rt.alloc()) == Ok(true));
}

#[test]
fn put(rt: HostRuntime) {
    assert!(rt; is_put(rt.alloc()) == Ok(true));
}

#[test]
fn drop_key(rt: HostRuntime) {
    assert!(rt; is_dropped(rt.alloc()) == Ok(true));
}

// Registers of a number, an empty array and an empty map.
pub fn registers(alloc: Global) -> Result<Vec<Val>, Memory>
    ensures { IfOk result (λ registers. registers.items ≡ val.Int (pos 5) ∷ val.Items [] ∷ val.Map [] ∷ []) }
{
    let mut registers = Vec::with_capacity(alloc, 3)?;
    registers.push_reserved(Val::Int(5));
    registers.push_reserved(Val::Items(List::new(alloc)));
    registers.push_reserved(Val::Map(List::new(alloc)));
    Ok(registers)
}

// Whether a register that is set has the value.
fn is_set(alloc: Global) -> Result<bool, Memory> {
    let mut registers = registers(alloc)?;
    let step = Action::Set(0, Expr::Const(Val::Int(7)));
    let done = act(alloc, &step, &Val::Nothing, &mut registers);
    drop(step);
    let right = matches!(registers.as_slice(), [Val::Int(7), _, _]);
    drop((done, registers));
    Ok(right)
}

// Whether a value that is pushed stands in the array.
fn is_pushed(alloc: Global) -> Result<bool, Memory> {
    let mut registers = registers(alloc)?;
    let step = Action::Push(1, Expr::Const(Val::Int(7)));
    let done = act(alloc, &step, &Val::Nothing, &mut registers);
    drop(step);
    let right = match registers.as_slice() {
        [_, Val::Items(items), _] => matches!(items.as_slice(), [Val::Int(7)]),
        _ => false,
    };
    drop((done, registers));
    Ok(right)
}

// The registers, and an expression that gives a key.
fn with_key(alloc: Global) -> Result<(Expr, Vec<Val>), Memory>
    ensures key { IfOk result (λ made. made.0 ≡ expr.Const (val.Str (codes "key"))) }
    ensures registers { IfOk result (λ made. made.1.items ≡ val.Int (pos 5) ∷ val.Items [] ∷ val.Map [] ∷ []) }
{
    let key = Expr::Const(Val::Str(Text::of(alloc, "key")?));
    match registers(alloc) {
        Ok(registers) => Ok((key, registers)),
        Err(stop) => {
            drop(key);
            Err(stop)
        }
    }
}

// Whether a value that is put stands at the key.
fn is_put(alloc: Global) -> Result<bool, Memory> {
    let (key, mut registers) = with_key(alloc)?;
    let step = Action::Put(2, key, Expr::Const(Val::Int(7)));
    let done = act(alloc, &step, &Val::Nothing, &mut registers);
    drop(step);
    let right = match registers.as_slice() {
        [_, _, Val::Map(entries)] => match value_at(entries.as_slice(), "key") {
            Some(Val::Int(7)) => true,
            _ => false,
        },
        _ => false,
    };
    drop((done, registers));
    Ok(right)
}

// Whether a key that is dropped, and was not there, is not there.
fn is_dropped(alloc: Global) -> Result<bool, Memory> {
    let (key, mut registers) = with_key(alloc)?;
    let step = Action::Drop(2, key);
    let done = act(alloc, &step, &Val::Nothing, &mut registers);
    drop(step);
    let right = match registers.as_slice() {
        [_, _, Val::Map(entries)] => entries.len() == 0,
        _ => false,
    };
    drop((done, registers));
    Ok(right)
}

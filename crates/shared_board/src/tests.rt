// A board that two threads ask, from start to close.
use crate::{Board, ask_by_two};
use idl_tree::{Checked, Interface, in_form};
use link_port::{List, Memory, Text};
use std::alloc::Global;
use std::sync::Arc;
use std::test::Fail;
use typed_value::Val;

/// A definition without members.
fn bare_sheet(alloc: Global) -> Result<Checked, Memory> {
    let tree = Interface {
        notes: List::new(alloc),
        name: Text::of(alloc, "a.b")?,
        members: List::new(alloc),
        tail: List::new(alloc),
    };
    if !in_form(&tree) {
        drop(tree);
        return Err(Memory);
    }
    match Checked::of(alloc, tree) {
        Ok(sheet) => Ok(sheet),
        Err(fault) => {
            drop(fault);
            Err(Memory)
        }
    }
}

fn bare_board(alloc: Global) -> Result<Board, Memory> {
    let sheet = bare_sheet(alloc)?;
    match Arc::new(alloc, sheet) {
        Ok(sheet) => Ok(Board {
            sheet,
            values: List::new(alloc),
        }),
        Err(failed) => {
            drop(failed);
            Err(Memory)
        }
    }
}

/// How many values are this number.
fn count(values: &[Val], number: i64) -> usize {
    values
        .iter()
        .filter(|v| matches!(v, Val::Int(n) if *n == number))
        .count()
}

#[test]
fn two_askers_in_threads(rt: HostRuntime) -> Result<(), Fail> {
    let board = bare_board(rt.alloc())?;
    let (board, history) = ask_by_two(&rt, rt.alloc(), board, 100)?;
    assert_eq!(rt; history.len(), 200);
    let values = board.values.as_slice();
    assert_eq!(rt; (count(values, 1), count(values, 2)), (100, 100));
    Ok(())
}

// What the owned values hold.
use link_port::{Box, List, Memory, Text, Value};
use std::alloc::Global;
use std::test::Fail;

/// A type that leads back to itself through a list and a box.
#[derive(Drop)]
enum Tree {
    Leaf(u64),
    Boxed(Box<Tree>),
    Listed(List<Tree>),
}

// A list of one box, which holds a leaf.
fn listed(alloc: Global) -> Result<Tree, Memory> {
    let leaf = Box::new(alloc, Tree::Leaf(8))?;
    let mut list = List::new(alloc);
    match list.push(Tree::Boxed(leaf)) {
        Ok(()) => Ok(Tree::Listed(list)),
        Err(memory) => {
            drop(list);
            Err(memory)
        }
    }
}

// The number of trees that stand in this one's list.
fn count(tree: &Tree) -> u64 {
    match tree {
        Tree::Listed(items) => items.len(),
        _ => 0,
    }
}

#[test]
fn lists_and_boxes_hold_what_was_put_in(rt: HostRuntime) -> Result<(), Fail> {
    let tree = listed(rt.alloc())?;
    assert_eq!(rt; count(&tree), 1);
    drop(tree);
    let boxed = Box::new(rt.alloc(), 5u64)?;
    assert_eq!(rt; *boxed.get(), 5);
    assert_eq!(rt; boxed.into_inner(), 5);
    Ok(())
}

#[test]
fn texts_are_copied_and_compared(rt: HostRuntime) -> Result<(), Fail> {
    let one = Text::of(rt.alloc(), "org.varlink.service")?;
    assert_eq!(rt; one.as_str(), "org.varlink.service");
    assert_eq!(rt; one.len(), 19);
    assert!(rt; one == one);
    Ok(())
}

#[test]
fn values_are_wrapped_and_lent(rt: HostRuntime) -> Result<(), Fail> {
    let value = Value::of(serde_json::Value::from_str(rt.alloc(), "[1,null]")?);
    assert!(rt; value.inner().is_array());
    assert!(rt; value.into_inner().is_array());
    Ok(())
}

// The stack of open brackets.
use idl_rules::{Stack, one_tree};
use std::test::Fail;

#[test]
fn stack_gives_back_the_last_first(rt: HostRuntime) -> Result<(), Fail> {
    one_tree();
    let mut stack: Stack<u64> = Stack::new(rt.alloc());
    stack.push(3)?;
    stack.push(5)?;
    assert_eq!(rt; stack.len(), 2);
    assert!(rt; stack.pop() == Some(5));
    assert!(rt; stack.pop() == Some(3));
    assert!(rt; stack.pop().is_none());
    Ok(())
}

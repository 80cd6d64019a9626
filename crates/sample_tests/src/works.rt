// The texts of the work, and what it comes to.
ghost use Rattle.std.specs.Prelude.{◌≤◌};

use link_port::Memory;
use std::alloc::Global;
use work_sample::{Figures, work, work_calls, work_sheet};

/// The sheet with one method.
const ONE_SHEET: &str =
    "{\"interfaces\":[\"interface org.example.work\\n\\nmethod M1(a: int) -> (b: int)\\n\"],\"product\":\"Work\",\"registers\":[{\"initial\":0,\"name\":\"total\",\"scope\":\"org.example.work\",\"type\":\"int\"}],\"rules\":{\"org.example.work.M1\":{\"outcome\":{\"reply\":{\"struct\":{\"b\":{\"register\":[\"total\"]}}}},\"steps\":[{\"set\":\"total\",\"to\":{\"sum\":[{\"register\":[\"total\"]},{\"param\":[\"a\"]}]}}]}},\"sheet\":1,\"url\":\"https://example.org\",\"vendor\":\"Example\",\"version\":\"1\"}";

/// The sheet with three methods.
const THREE_SHEET: &str =
    "{\"interfaces\":[\"interface org.example.work\\n\\nmethod M1(a: int) -> (b: int)\\n\\nmethod M2(a: int) -> (b: int)\\n\\nmethod M3(a: int) -> (b: int)\\n\"],\"product\":\"Work\",\"registers\":[{\"initial\":0,\"name\":\"total\",\"scope\":\"org.example.work\",\"type\":\"int\"}],\"rules\":{\"org.example.work.M1\":{\"outcome\":{\"reply\":{\"struct\":{\"b\":{\"register\":[\"total\"]}}}},\"steps\":[{\"set\":\"total\",\"to\":{\"sum\":[{\"register\":[\"total\"]},{\"param\":[\"a\"]}]}}]},\"org.example.work.M2\":{\"outcome\":{\"reply\":{\"struct\":{\"b\":{\"register\":[\"total\"]}}}},\"steps\":[{\"set\":\"total\",\"to\":{\"sum\":[{\"register\":[\"total\"]},{\"param\":[\"a\"]}]}}]},\"org.example.work.M3\":{\"outcome\":{\"reply\":{\"struct\":{\"b\":{\"register\":[\"total\"]}}}},\"steps\":[{\"set\":\"total\",\"to\":{\"sum\":[{\"register\":[\"total\"]},{\"param\":[\"a\"]}]}}]}},\"sheet\":1,\"url\":\"https://example.org\",\"vendor\":\"Example\",\"version\":\"1\"}";

/// A call of one method.
const ONE_CALLS: &str = "{\"method\":\"org.example.work.M1\",\"parameters\":{\"a\":1}}\0";

/// A call of each of three methods.
const THREE_CALLS: &str =
    "{\"method\":\"org.example.work.M1\",\"parameters\":{\"a\":1}}\0{\"method\":\"org.example.work.M2\",\"parameters\":{\"a\":2}}\0{\"method\":\"org.example.work.M3\",\"parameters\":{\"a\":3}}\0";

// Whether this is the sheet.
fn is_sheet(alloc: Global, n: u64, text: &str) -> bool
    requires { n ≤ 10000 }
{
    match work_sheet(alloc, n) {
        Ok(sheet) => sheet.as_slice() == text.as_bytes(),
        Err(Memory) => false,
    }
}

// Whether these are the calls.
fn are_calls(alloc: Global, n: u64, text: &str) -> bool {
    match work_calls(alloc, n) {
        Ok(calls) => calls.as_slice() == text.as_bytes(),
        Err(Memory) => false,
    }
}

// Whether the work comes to these lengths and this number.
fn comes_to(alloc: Global, n: u64, lengths: (u64, u64, u64), total: i64) -> bool
    requires { n ≤ 10000 }
{
    let wanted = Figures {
        definition: lengths.0,
        calls: lengths.1,
        replies: lengths.2,
        total,
    };
    match work(alloc, n) {
        Ok(figures) => figures == wanted,
        Err(fault) => {
            drop(fault);
            false
        }
    }
}

// The rules stand in the byte order of their names: that of the tenth method behind that of the first.
fn is_in_order(alloc: Global) -> bool {
    match work_sheet(alloc, 10) {
        Ok(sheet) => {
            let text = sheet.as_slice();
            text.len() == 2200
                && text.get(651..674) == Some(b"\"org.example.work.M10\":".as_slice())
        }
        Err(Memory) => false,
    }
}

#[test]
fn the_sheet_has_the_methods(rt: HostRuntime) {
    let one = is_sheet(rt.alloc(), 1, ONE_SHEET);
    let three = is_sheet(rt.alloc(), 3, THREE_SHEET);
    assert!(rt; one && three);
}

#[test]
fn rules_stand_in_the_order_of_their_names(rt: HostRuntime) {
    assert!(rt; is_in_order(rt.alloc()));
}

#[test]
fn each_method_is_called(rt: HostRuntime) {
    let one = are_calls(rt.alloc(), 1, ONE_CALLS);
    let three = are_calls(rt.alloc(), 3, THREE_CALLS);
    assert!(rt; one && three);
}

#[test]
fn the_work_comes_to_its_numbers(rt: HostRuntime) {
    let one = comes_to(rt.alloc(), 1, (58, 54, 23), 1);
    let three = comes_to(rt.alloc(), 3, (120, 162, 69), 6);
    let ten = comes_to(rt.alloc(), 10, (338, 541, 237), 45);
    assert!(rt; one && three && ten);
}

#[test]
fn the_most_methods_come_to_their_numbers(rt: HostRuntime) {
    assert!(rt; comes_to(rt.alloc(), 10000, (338921, 568894, 267528), 45000));
}

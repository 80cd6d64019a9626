// The texts of the work: a sheet with so many methods, and a call of each.
ghost use Rattle.std.specs.Prelude.{◌≡◌, ◌≤◌, ◌+◌, ◌++◌, OnOk, IfOk};
ghost use Rattle.std.specs.List.{flat_map};
ghost use Rattle.work_sample.specs.Texts.{below, method_text, rule_text, next_rule, rules_text, call_text};
ghost use Rattle.work_sample.specs.Texts.{work_sheet as sheet_text, work_calls as calls_text};
ghost use Rattle.work_sample.specs.Texts.{before_methods, before_rules, behind_rules};

use crate::orders::in_order;
use crate::pieces::{add_between, add_text};
use link_port::{List, Memory};
use std::alloc::Global;

/// The most methods that there may be.
pub const MOST_METHODS: u64 = 10_000;

/// The sheet with this many methods.
#[tactic(auto, unfolding(crate::specs::Texts::work_sheet))]
pub fn work_sheet(alloc: Global, n: u64) -> Result<List<u8>, Memory>
    requires { n ≤ 10000 }
    ensures { IfOk result (λ text. text ≡ sheet_text n) }
{
    let order = in_order(alloc, n)?;
    let mut text = Vec::new(alloc);
    add_start(&mut text)?;
    add_methods(&mut text, n)?;
    add_middle(&mut text)?;
    add_rules(&mut text, order.as_slice())?;
    add_end(&mut text)?;
    Ok(List::from_vec(text))
}

/// A call of each of this many methods, in order.
pub fn work_calls(alloc: Global, n: u64) -> Result<List<u8>, Memory>
    ensures { IfOk result (λ text. text ≡ calls_text n) }
{
    let mut text = Vec::new(alloc);
    add_calls(&mut text, n)?;
    Ok(List::from_vec(text))
}

#[tactic(auto, using(crate::proofs::Growing::begins, crate::proofs::Growing::grows), unfolding(crate::specs::Texts::work_calls))]
fn add_calls(text: &mut Vec<u8>, n: u64) -> Result<(), Memory>
    ensures { OnOk result (text.new.items ≡ text.old.items ++ calls_text n) }
{
    for k in 0..n {
        add_call(text, k + 1)?;
    }
    Ok(())
}

#[tactic(auto, unfolding(crate::specs::Texts::before_methods))]
fn add_start(text: &mut Vec<u8>) -> Result<(), Memory>
    ensures { OnOk result (text.new.items ≡ text.old.items ++ before_methods) }
{
    add_text(text, "{\"interfaces\":[\"interface org.example.work")
}

#[tactic(auto, unfolding(crate::specs::Texts::before_rules))]
fn add_middle(text: &mut Vec<u8>) -> Result<(), Memory>
    ensures { OnOk result (text.new.items ≡ text.old.items ++ before_rules) }
{
    add_text(
        text,
        "\\n\"],\"product\":\"Work\",\"registers\":[{\"initial\":0,\"name\":\"total\",\"scope\":\"org.example.work\",\"type\":\"int\"}],\"rules\":{",
    )
}

#[tactic(auto, unfolding(crate::specs::Texts::behind_rules))]
fn add_end(text: &mut Vec<u8>) -> Result<(), Memory>
    ensures { OnOk result (text.new.items ≡ text.old.items ++ behind_rules) }
{
    add_text(
        text,
        "},\"sheet\":1,\"url\":\"https://example.org\",\"vendor\":\"Example\",\"version\":\"1\"}",
    )
}

#[tactic(auto, using(crate::proofs::Growing::begins, crate::proofs::Growing::grows))]
fn add_methods(text: &mut Vec<u8>, n: u64) -> Result<(), Memory>
    ensures { OnOk result (text.new.items ≡ text.old.items ++ below (λ k. method_text (k + 1)) n) }
{
    for k in 0..n {
        add_method(text, k + 1)?;
    }
    Ok(())
}

#[tactic(auto, unfolding(crate::specs::Texts::method_text))]
fn add_method(text: &mut Vec<u8>, k: u64) -> Result<(), Memory>
    ensures { OnOk result (text.new.items ≡ text.old.items ++ method_text k) }
{
    add_between(text, "\\n\\nmethod M", k, "(a: int) -> (b: int)")
}

#[tactic(auto, unfolding(crate::specs::Texts::rules_text))]
fn add_rules(text: &mut Vec<u8>, order: &[u64]) -> Result<(), Memory>
    ensures { OnOk result (text.new.items ≡ text.old.items ++ rules_text order.now) }
{
    match order {
        [] => Ok(()),
        [first, rest @ ..] => {
            add_rule(text, *first)?;
            add_next_rules(text, rest)
        }
    }
}

// Adds rules, each behind a comma.
fn add_next_rules(text: &mut Vec<u8>, order: &[u64]) -> Result<(), Memory>
    ensures { OnOk result (text.new.items ≡ text.old.items ++ flat_map next_rule order.now) }
{
    for k in order {
        add_next_rule(text, *k)?;
    }
    Ok(())
}

#[tactic(auto, unfolding(crate::specs::Texts::next_rule))]
fn add_next_rule(text: &mut Vec<u8>, k: u64) -> Result<(), Memory>
    ensures { OnOk result (text.new.items ≡ text.old.items ++ next_rule k) }
{
    add_text(text, ",")?;
    add_rule(text, k)
}

#[tactic(auto, unfolding(crate::specs::Texts::rule_text))]
fn add_rule(text: &mut Vec<u8>, k: u64) -> Result<(), Memory>
    ensures { OnOk result (text.new.items ≡ text.old.items ++ rule_text k) }
{
    add_between(
        text,
        "\"org.example.work.M",
        k,
        "\":{\"outcome\":{\"reply\":{\"struct\":{\"b\":{\"register\":[\"total\"]}}}},\"steps\":[{\"set\":\"total\",\"to\":{\"sum\":[{\"register\":[\"total\"]},{\"param\":[\"a\"]}]}}]}",
    )
}

#[tactic(auto, unfolding(crate::specs::Texts::call_text))]
fn add_call(text: &mut Vec<u8>, k: u64) -> Result<(), Memory>
    ensures { OnOk result (text.new.items ≡ text.old.items ++ call_text k) }
{
    add_between(
        text,
        "{\"method\":\"org.example.work.M",
        k,
        "\",\"parameters\":{\"a\":",
    )?;
    add_between(text, "", k % 10, "}}\0")
}

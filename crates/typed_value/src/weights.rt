// The weight of values.
ghost use Rattle.std.specs.Prelude.{◌≡◌, ◌^◌, ◌+◌, ◌≤◌, min, map, sum, length};
ghost use Rattle.serde_json.specs.View.{view, items_view, members_view};
ghost use Rattle.typed_value.specs.Sizes.{weight_of, data_weight, items_weight, members_weight};

use crate::sizes::MOST;
use crate::vals::Val;
use link_port::Text;
use serde_json::{Map, Value as Json};

/// What a value, and each node of foreign data, weighs before its texts, keys and parts.
pub const NODE: u64 = 64;

/// What a value weighs: 64, the length of each text and key in it, and its parts; foreign data weighs
/// the nodes of its tree. Where it weighs more than 2^63 it is 2^63. It takes no memory.
#[cycle(weights)]
pub fn weight(val: &Val) -> u64
    ensures { result ≡ min (weight_of val.now) (2 ^ 63) }
{
    match val {
        Val::Str(text) => add(NODE, length(text.as_str())),
        Val::Items(values) => add(NODE, weigh_all(values.as_slice())),
        Val::Map(entries) => add(NODE, weigh_entries(entries.as_slice())),
        Val::Struct(values) => add(NODE, weigh_all(values.as_slice())),
        Val::Foreign(tree) => weigh_tree(tree.inner()),
        _ => NODE,
    }
}

#[cycle(weights)]
fn weigh_all(values: &[Val]) -> u64
    ensures { result ≡ min (sum (map weight_of values.now)) (2 ^ 63) }
{
    let mut total = 0;
    for value in values {
        total = add(total, weight(value));
    }
    total
}

#[cycle(weights)]
fn weigh_entries(entries: &[(Text, Val)]) -> u64
    ensures { result
        ≡ min (sum (map (λ entry. length entry.0 + weight_of entry.1) entries.now)) (2 ^ 63) }
{
    let mut total = 0;
    for entry in entries {
        total = add(total, add(length(entry.0.as_str()), weight(&entry.1)));
    }
    total
}

#[cycle(tree_weights)]
fn weigh_tree(json: &Json) -> u64
    ensures { result ≡ min (data_weight (view json.now)) (2 ^ 63) }
{
    match json {
        Json::String(text) => add(NODE, length(text.as_str())),
        Json::Array(items) => add(NODE, weigh_items(items)),
        Json::Object(members) => add(NODE, weigh_members(members)),
        _ => NODE,
    }
}

#[cycle(tree_weights)]
fn weigh_items(items: &Vec<Json>) -> u64
    ensures { result ≡ min (items_weight (items_view items.now.items)) (2 ^ 63) }
{
    let mut total = 0;
    for item in items {
        total = add(total, weigh_tree(item));
    }
    total
}

#[cycle(tree_weights)]
fn weigh_members(members: &Map<String, Json>) -> u64
    ensures { result ≡ min (members_weight (members_view members.now.entries)) (2 ^ 63) }
{
    let mut total = 0;
    for (key, member) in members.iter() {
        total = add(total, add(length(key.as_str()), weigh_tree(member)));
    }
    total
}

// The number of bytes, up to 2^63.
fn length(text: &str) -> u64
    ensures { result ≡ min (length text.now) (2 ^ 63) }
{
    (text.len() as u64).min(MOST)
}

// The sum, up to 2^63.
fn add(one: u64, other: u64) -> u64
    requires one { one ≤ 2 ^ 63 }
    requires other { other ≤ 2 ^ 63 }
    ensures { result ≡ min (one + other) (2 ^ 63) }
{
    if other < MOST - one {
        one + other
    } else {
        MOST
    }
}

// The levels of values.
ghost use Rattle.std.specs.Prelude.{◌≡◌, ◌^◌, ◌+◌, min, map};
ghost use Rattle.serde_json.specs.Data.{depth, items_depth, members_depth};
ghost use Rattle.serde_json.specs.View.{view, items_view, members_view};
ghost use Rattle.idl_tree.specs.Form.{greatest};
ghost use Rattle.typed_value.specs.Sizes.{levels_of};

use crate::vals::Val;
use link_port::Text;
use serde_json::{Map, Value as Json};

/// The greatest number that a size is told as; a greater one is told as this.
pub const MOST: u64 = 1 << 63;

/// How many arrays, maps, structs, and arrays and objects of foreign data stand within each other, or
/// 2^63 where there are more. It takes no memory.
#[cycle(levels)]
pub fn levels(val: &Val) -> u64
    ensures { result ≡ min (levels_of val.now) (2 ^ 63) }
{
    match val {
        Val::Items(values) => one_more(most_levels(values.as_slice())),
        Val::Map(entries) => one_more(most_entry_levels(entries.as_slice())),
        Val::Struct(values) => one_more(most_levels(values.as_slice())),
        Val::Foreign(tree) => tree_levels(tree.inner()),
        _ => 0,
    }
}

#[cycle(levels)]
fn most_levels(values: &[Val]) -> u64
    ensures { result ≡ min (greatest (map levels_of values.now)) (2 ^ 63) }
{
    let mut most = 0;
    for value in values {
        most = most.max(levels(value));
    }
    most
}

#[cycle(levels)]
fn most_entry_levels(entries: &[(Text, Val)]) -> u64
    ensures { result ≡ min (greatest (map (λ entry. levels_of entry.1) entries.now)) (2 ^ 63) }
{
    let mut most = 0;
    for entry in entries {
        most = most.max(levels(&entry.1));
    }
    most
}

#[cycle(tree_levels)]
fn tree_levels(json: &Json) -> u64
    ensures { result ≡ min (depth (view json.now)) (2 ^ 63) }
{
    match json {
        Json::Array(items) => one_more(most_item_levels(items)),
        Json::Object(members) => one_more(most_member_levels(members)),
        _ => 0,
    }
}

#[cycle(tree_levels)]
fn most_item_levels(items: &Vec<Json>) -> u64
    ensures { result ≡ min (items_depth (items_view items.now.items)) (2 ^ 63) }
{
    let mut most = 0;
    for item in items {
        most = most.max(tree_levels(item));
    }
    most
}

#[cycle(tree_levels)]
fn most_member_levels(members: &Map<String, Json>) -> u64
    ensures { result ≡ min (members_depth (members_view members.now.entries)) (2 ^ 63) }
{
    let mut most = 0;
    for (_, member) in members.iter() {
        most = most.max(tree_levels(member));
    }
    most
}

// One more, up to the greatest number that is told.
fn one_more(levels: u64) -> u64
    ensures { result ≡ min (levels + 1) (2 ^ 63) }
{
    if levels < MOST { levels + 1 } else { MOST }
}

// Whether two JSON trees are equal.
ghost use Rattle.std.specs.Prelude.{◌≡◌, ◌↔◌, IsTrue, true};
ghost use Rattle.serde_json.specs.View.{view, items_view, members_view};
ghost use Rattle.typed_value.specs.Ints.{has_only_ints, items_have_only_ints, members_have_only_ints, IsNumber};

use serde_json::{Map, Value as Json};

/// Whether two JSON trees are equal, which have no numbers but whole ones that 64 bits with a sign hold.
#[cycle(trees)]
pub fn same_tree(one: &Json, other: &Json) -> bool
    requires one { has_only_ints (view one.now) ≡ true }
    requires other { has_only_ints (view other.now) ≡ true }
    ensures { IsTrue result ↔ (view one.now ≡ view other.now) }
{
    match (one, other) {
        (Json::Null, Json::Null) => true,
        (Json::Bool(a), Json::Bool(b)) => *a == *b,
        (Json::Number(_), Json::Number(_)) => same_number(one, other),
        (Json::String(a), Json::String(b)) => a.as_str() == b.as_str(),
        (Json::Array(a), Json::Array(b)) => same_items(a.as_slice(), b.as_slice()),
        (Json::Object(a), Json::Object(b)) => same_members(a, b),
        _ => false,
    }
}

#[cycle(trees)]
fn same_items(one: &[Json], other: &[Json]) -> bool
    requires one { items_have_only_ints (items_view one.now) ≡ true }
    requires other { items_have_only_ints (items_view other.now) ≡ true }
    ensures { IsTrue result ↔ (items_view one.now ≡ items_view other.now) }
{
    if one.len() != other.len() {
        return false;
    }
    for (i, item) in one.iter().enumerate() {
        if !same_tree(item, &other[i]) {
            return false;
        }
    }
    true
}

#[cycle(trees)]
fn same_members(one: &Map<String, Json>, other: &Map<String, Json>) -> bool
    requires one { members_have_only_ints (members_view one.now.entries) ≡ true }
    requires other { members_have_only_ints (members_view other.now.entries) ≡ true }
    ensures { IsTrue result ↔ (members_view one.now.entries ≡ members_view other.now.entries) }
{
    let mut others = other.iter();
    for (key, member) in one.iter() {
        match others.next() {
            Some((name, value)) => {
                if !(key.as_str() == name.as_str() && same_tree(member, value)) {
                    return false;
                }
            }
            None => return false,
        }
    }
    others.next().is_none()
}

// Whether two numbers are the same whole number.
fn same_number(one: &Json, other: &Json) -> bool
    requires one { has_only_ints (view one.now) ≡ true }
    requires other { has_only_ints (view other.now) ≡ true }
    requires number { IsNumber (view one.now) }
    requires other_number { IsNumber (view other.now) }
    ensures { IsTrue result ↔ (view one.now ≡ view other.now) }
{
    one.as_u64() == other.as_u64() && one.as_i64() == other.as_i64()
}

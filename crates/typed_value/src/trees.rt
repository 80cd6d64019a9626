// What is asked of JSON trees that stand for themselves.
ghost use Rattle.std.specs.Prelude.{◌≡◌, true, is_some, IsTrue};
ghost use Rattle.serde_json.specs.View.{view, number_view, items_view, members_view};
ghost use Rattle.typed_value.specs.Ints.{int_of, has_only_ints, items_have_only_ints, members_have_only_ints};
ghost use Rattle.typed_value.specs.KeyOrder.{has_sign_below_zero, is_as_read, items_are_as_read, members_are_as_read};

use serde_json::{Map, Number, Value as Json};

/// Whether every number of the tree is a whole number that 64 bits with a sign hold. The tree is as the
/// reader of JSON makes it, as every value's is.
#[cycle(ints)]
pub fn has_only_ints(json: &Json) -> bool
    ensures ints { result ≡ has_only_ints (view json.now) }
    ensures order { IsTrue result → is_as_read (view json.now) ≡ true }
{
    match json {
        Json::Number(number) => is_int(number),
        Json::Array(items) => items_have_only_ints(items),
        Json::Object(members) => members_have_only_ints(members),
        _ => true,
    }
}

// Whether it is a whole number that 64 bits with a sign hold.
fn is_int(number: &Number) -> bool
    ensures ints { result ≡ is_some (int_of (number_view number.now)) }
    ensures sign { has_sign_below_zero (number_view number.now) ≡ true }
{
    match number.as_i64() {
        Some(_) => true,
        None => false,
    }
}

#[cycle(ints)]
fn items_have_only_ints(items: &Vec<Json>) -> bool
    ensures ints { result ≡ items_have_only_ints (items_view items.now.items) }
    ensures order { IsTrue result → items_are_as_read (items_view items.now.items) ≡ true }
{
    for item in items {
        if !has_only_ints(item) {
            return false;
        }
    }
    true
}

#[cycle(ints)]
fn members_have_only_ints(members: &Map<String, Json>) -> bool
    ensures ints { result ≡ members_have_only_ints (members_view members.now.entries) }
    ensures order { IsTrue result → members_are_as_read (members_view members.now.entries) ≡ true }
{
    for (_, member) in members.iter() {
        if !has_only_ints(member) {
            return false;
        }
    }
    true
}

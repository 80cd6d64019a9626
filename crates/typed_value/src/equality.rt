// Whether two values are equal.
ghost use Rattle.std.specs.Prelude.{◌≡◌, ◌↔◌, IsTrue, true};
ghost use Rattle.std.specs.List.{list_all};
ghost use Rattle.idl_tree.specs.Names.{Bytes};
ghost use Rattle.typed_value.specs.Sizes.{is_whole, entries_are_whole};

use crate::equal_trees::same_tree;
use crate::vals::Val;
use link_port::Text;

/// Whether two values are equal, whose foreign data has no numbers but whole ones from -2^63 to 2^63-1.
/// It takes no memory.
#[cycle(same)]
pub fn same(one: &Val, other: &Val) -> bool
    requires one { is_whole one.now ≡ true }
    requires other { is_whole other.now ≡ true }
    ensures { IsTrue result ↔ (one.now ≡ other.now) }
{
    match (one, other) {
        (Val::Bool(a), Val::Bool(b)) => *a == *b,
        (Val::Int(a), Val::Int(b)) => *a == *b,
        (Val::Str(a), Val::Str(b)) => a.as_str() == b.as_str(),
        (Val::Items(a), Val::Items(b)) => same_all(a.as_slice(), b.as_slice()),
        (Val::Map(a), Val::Map(b)) => same_entries(a.as_slice(), b.as_slice()),
        (Val::Struct(a), Val::Struct(b)) => same_all(a.as_slice(), b.as_slice()),
        (Val::Pick(a), Val::Pick(b)) => *a == *b,
        (Val::Nothing, Val::Nothing) => true,
        (Val::Foreign(a), Val::Foreign(b)) => same_tree(a.inner(), b.inner()),
        _ => false,
    }
}

#[cycle(same)]
fn same_all(one: &[Val], other: &[Val]) -> bool
    requires one { list_all is_whole one.now ≡ true }
    requires other { list_all is_whole other.now ≡ true }
    ensures { IsTrue result ↔ (one.now ≡ other.now) }
{
    if one.len() != other.len() {
        return false;
    }
    for (i, value) in one.iter().enumerate() {
        if !same(value, &other[i]) {
            return false;
        }
    }
    true
}

#[cycle(same)]
fn same_entries(one: &[(Text, Val)], other: &[(Text, Val)]) -> bool
    requires one { entries_are_whole one.now ≡ true }
    requires other { entries_are_whole other.now ≡ true }
    ensures { IsTrue result ↔ (one.now ≡ other.now) }
{
    if one.len() != other.len() {
        return false;
    }
    for (i, entry) in one.iter().enumerate() {
        if !same_entry(entry, &other[i]) {
            return false;
        }
    }
    true
}

#[cycle(same)]
fn same_entry(one: &(Text, Val), other: &(Text, Val)) -> bool
    requires one { is_whole one.now.1 ≡ true }
    requires other { is_whole other.now.1 ≡ true }
    ensures { IsTrue result ↔ (one.now ≡ other.now) }
{
    one.0.as_str() == other.0.as_str() && same(&one.1, &other.1)
}

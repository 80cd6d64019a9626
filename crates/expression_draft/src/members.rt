// JSON objects and arrays that are taken apart from their fronts.
ghost use Rattle.std.specs.Prelude.{◌≡◌, ◌↔◌, IsTrue, option_map, MatchOption, None, Some};
ghost use Rattle.serde_json.specs.Find.{as_array, as_object};
ghost use Rattle.std.specs.String.{string_bytes};
ghost use Rattle.serde_json.specs.Data.{item, no_items, member, no_members};
ghost use Rattle.expression_draft.specs.Members.{has_no_item, has_no_member, begins_with, next, only_if, optional, sole_item, sole_of};
ghost use Rattle.expression_draft.specs.Answers.{Gives};

use crate::faults::Misfit;
use link_port::Value;
use serde_json::{Map, Value as Json};
use std::alloc::Global;
use std::collections::VecDeque;
use std::marker::Model;

/// The items of an array that are left, in order.
#[derive(Drop)]
pub struct Items {
    left: VecDeque<Json>,
}

impl Model for Items {
    ghost use Rattle.serde_json.specs.Data as json;
    ghost use Rattle.serde_json.specs.View.{items_view};
    ghost use Rattle.expression_draft.specs.Codes.{coded_items};

    ghost Value = { json.Items };

    ghost coded = { coded_items };

    ghost view = { λ items. items_view items.left.items };
}

impl Items {
    /// The items of an array; nothing where it is no array.
    pub fn of(array: Value) -> Option<Items>
        ensures { result ≡ as_array array }
    {
        match array.into_inner() {
            Json::Array(items) => Some(Items {
                left: VecDeque::from(items),
            }),
            other => {
                drop(other);
                None
            }
        }
    }

    /// No items. It takes no memory.
    pub fn none(alloc: Global) -> Items
        ensures { result ≡ no_items }
    {
        Items {
            left: VecDeque::new(alloc),
        }
    }

    /// Whether no item is left.
    pub fn is_empty(&self) -> bool
        ensures { result ≡ has_no_item self.now }
    {
        match self.left.front() {
            Some(_) => false,
            None => true,
        }
    }

    /// Takes the first item that is left.
    pub fn next(&mut self) -> Option<Value>
        ensures { MatchOption result ((self.old ≡ no_items) × (self.new ≡ no_items))
            (λ first. self.old ≡ item first self.new) }
    {
        match self.left.pop_front() {
            Some(first) => Some(Value::of(first)),
            None => None,
        }
    }
}

/// The members of an object that are left, in the byte order of their names.
#[derive(Drop)]
pub struct Members {
    left: Map<String, Json>,
}

impl Model for Members {
    ghost use Rattle.serde_json.specs.Data as json;
    ghost use Rattle.serde_json.specs.View.{members_view};
    ghost use Rattle.expression_draft.specs.Codes.{coded_members};

    ghost Value = { json.Members };

    ghost coded = { coded_members };

    ghost view = { λ members. members_view members.left.entries };
}

impl Members {
    /// The members of an object; nothing where it is no object.
    pub fn of(object: Value) -> Option<Members>
        ensures { result ≡ as_object object }
    {
        match object.into_inner() {
            Json::Object(left) => Some(Members { left }),
            other => {
                drop(other);
                None
            }
        }
    }

    /// Whether no member is left.
    pub fn is_empty(&self) -> bool
        ensures { result ≡ has_no_member self.now }
    {
        self.left.len() == 0
    }

    /// Whether the first member that is left has this name.
    pub fn begins_with(&self, name: &str) -> bool
        ensures { result ≡ begins_with name.now self.now }
    {
        match self.left.first_key_value() {
            Some((first, _)) => first.as_str() == name,
            None => false,
        }
    }

    /// Takes the first member that is left. It is nothing where the member has another name, and then it
    /// is let go.
    pub fn next(&mut self, name: &str) -> Option<Value>
        ensures { MatchOption result (next name.now self.old ≡ None)
            (λ first. next name.now self.old ≡ Some (first, self.new)) }
    {
        match self.left.pop_first() {
            Some((first, value)) => {
                if first.as_str() == name {
                    return Some(Value::of(value));
                }
                drop(value);
                None
            }
            None => None,
        }
    }

    /// Takes the first member that is left, whatever its name is.
    pub fn first(&mut self) -> Option<(String, Value)>
        ensures { MatchOption result ((self.old ≡ no_members) × (self.new ≡ no_members))
            (λ first. self.old ≡ member (string_bytes first.0) first.1 self.new) }
    {
        match self.left.pop_first() {
            Some((name, value)) => Some((name, Value::of(value))),
            None => None,
        }
    }

    /// Takes the first member that is left, where it has this name.
    pub fn optional(&mut self, name: &str) -> Option<Value>
        ensures { optional name.now self.old ≡ (result, self.new) }
    {
        if self.begins_with(name) {
            self.next(name)
        } else {
            None
        }
    }
}

/// The only member of an object, with its name; nothing where it is no object of one member.
pub fn sole_member(object: Value) -> Option<(String, Value)>
    ensures { option_map (λ only. (string_bytes only.0, only.1)) result
        ≡ sole_of object }
{
    match Members::of(object) {
        Some(mut members) => match members.first() {
            Some(only) => {
                if members.is_empty() {
                    return Some(only);
                }
                drop(only);
                None
            }
            None => None,
        },
        None => None,
    }
}

/// The only item; nothing where not one item is left.
pub fn sole_item(mut items: Items) -> Option<Value>
    ensures { result ≡ sole_item items }
{
    match items.next() {
        Some(only) => {
            if items.is_empty() {
                return Some(only);
            }
            drop(only);
            None
        }
        None => None,
    }
}

/// What was read, where no member is left; else it is let go.
pub fn whole<T: Drop>(members: &Members, read: T) -> Result<T, Misfit>
    ensures { Gives result (only_if (has_no_member members.now) (Some read)) }
{
    if members.is_empty() {
        Ok(read)
    } else {
        drop(read);
        Err(Misfit::Unfit)
    }
}

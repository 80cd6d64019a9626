// The steps of a rule, done to the registers in place.
ghost use Rattle.std.specs.Prelude.{◌≡◌, ◌<◌, ◌≤◌, Some, IsSome, IfOk, OnErr};
ghost use Rattle.std.specs.Prelude.{vec_len};
ghost use Rattle.std.specs.List.{insert};
ghost use Rattle.sheet_step.specs.Registers as changes;
ghost use Rattle.sheet_step.specs.Undoing.{change_of, IsDone, ReplacesAt, Turns, TurnsEntries};

use crate::backs::{Act, Back, Undo};
use crate::deeds::{Deed, deed_of};
use crate::entries::{Spot, place_of, spot_of};
use crate::levels::is_small;
use link_port::{List, Memory, Text};
use sheet_rules::Action;
use std::alloc::Global;
use std::mem;
use typed_value::Val;

/// Does a step, and tells what undoes it. After want of memory the registers are as before.
pub fn act(
    alloc: Global,
    step: &Action,
    parameters: &Val,
    registers: &mut Vec<Val>,
) -> Result<Act, Memory>
    requires { IsSome (changes.after_step parameters.now step.now registers.old.items) }
    ensures ok { IfOk result (IsDone (changes.after_step parameters.now step.now registers.old.items)
        registers.old.items registers.new.items) }
    ensures memory { OnErr result (registers.new.items ≡ registers.old.items) }
{
    let (place, deed) = deed_of(alloc, step, parameters, registers.as_slice())?;
    turn_at(alloc, place, deed, registers)
}

// Changes the register at a place.
fn turn_at(alloc: Global, place: u64, deed: Deed, registers: &mut Vec<Val>) -> Result<Act, Memory>
    requires { IsSome (changes.changed place (change_of deed) registers.old.items) }
    ensures ok { IfOk result (IsDone (changes.changed place (change_of deed) registers.old.items)
        registers.old.items registers.new.items) }
    ensures memory { OnErr result (registers.new.items ≡ registers.old.items) }
{
    let small = is_small(&deed);
    match turn(alloc, deed, &mut registers[place as usize]) {
        Ok(back) => Ok(Act {
            undo: Undo { place, back },
            small,
        }),
        Err(stop) => Err(stop),
    }
}

// Changes a register's value.
fn turn(alloc: Global, deed: Deed, val: &mut Val) -> Result<Back, Memory>
    requires { IsSome (change_of deed val.old) }
    ensures ok { IfOk result (Turns (change_of deed) val.old val.new) }
    ensures memory { OnErr result (val.new ≡ val.old) }
{
    match deed {
        Deed::Set(new) => Ok(Back::Set(mem::replace(val, new))),
        Deed::Push(item) => push(val, item),
        Deed::Put(key, new) => put(alloc, val, key, new),
        Deed::Drop(key) => remove(alloc, val, key),
    }
}

// The array has the value at its end.
fn push(val: &mut Val, item: Val) -> Result<Back, Memory>
    requires { IsSome (changes.pushed item val.old) }
    ensures ok { IfOk result (Turns (changes.pushed item) val.old val.new) }
    ensures memory { OnErr result (val.new ≡ val.old) }
{
    match val {
        Val::Items(items) => match items.push(item) {
            Ok(()) => Ok(Back::Pop),
            Err(stop) => Err(stop),
        },
        _ => unreachable!(),
    }
}

// The map has the value at the key.
fn put(alloc: Global, val: &mut Val, key: Text, new: Val) -> Result<Back, Memory>
    requires { IsSome (changes.put key new val.old) }
    ensures ok { IfOk result (Turns (changes.put key new) val.old val.new) }
    ensures memory { OnErr result (val.new ≡ val.old) }
{
    match val {
        Val::Map(entries) => put_entry(alloc, entries, key, new),
        _ => unreachable!(),
    }
}

// The map does not have the key.
fn remove(alloc: Global, val: &mut Val, key: Text) -> Result<Back, Memory>
    requires { IsSome (changes.dropped key val.old) }
    ensures ok { IfOk result (Turns (changes.dropped key) val.old val.new) }
    ensures memory { OnErr result (val.new ≡ val.old) }
{
    match val {
        Val::Map(entries) => remove_entry(alloc, entries, key),
        _ => unreachable!(),
    }
}

fn put_entry(
    alloc: Global,
    entries: &mut List<(Text, Val)>,
    key: Text,
    new: Val,
) -> Result<Back, Memory>
    ensures ok { IfOk result (TurnsEntries (changes.with_entry key new entries.old) entries.old entries.new) }
    ensures memory { OnErr result (entries.new ≡ entries.old) }
{
    let mut vec = mem::replace(entries, List::new(alloc)).into_vec();
    let done = put_in(&mut vec, key, new);
    *entries = List::from_vec(vec);
    done
}

fn put_in(vec: &mut Vec<(Text, Val)>, key: Text, new: Val) -> Result<Back, Memory>
    ensures ok { IfOk result (TurnsEntries (changes.with_entry key new vec.old.items) vec.old.items vec.new.items) }
    ensures memory { OnErr result (vec.new.items ≡ vec.old.items) }
{
    match spot_of(vec.as_slice(), key.as_str()) {
        Spot::At(place) => {
            drop(key);
            Ok(replace_at(vec, place, new))
        }
        Spot::Before(place) => insert_at(vec, place, (key, new)),
    }
}

// The entry at a place has the value.
fn replace_at(vec: &mut Vec<(Text, Val)>, place: usize, new: Val) -> Back
    requires { place < vec_len vec.old }
    ensures { ReplacesAt vec.old.items vec.new.items place new result }
{
    let entry = &mut vec[place];
    Back::Restore(place as u64, mem::replace(&mut entry.1, new))
}

// The entry stands at a place.
fn insert_at(vec: &mut Vec<(Text, Val)>, place: usize, entry: (Text, Val)) -> Result<Back, Memory>
    requires { place ≤ vec_len vec.old }
    ensures ok { IfOk result (TurnsEntries (insert vec.old.items place entry) vec.old.items vec.new.items) }
    ensures memory { OnErr result (vec.new.items ≡ vec.old.items) }
{
    match vec.insert(place, entry) {
        Ok(()) => Ok(Back::Remove(place as u64)),
        Err(failed) => {
            drop(failed);
            Err(Memory)
        }
    }
}

fn remove_entry(alloc: Global, entries: &mut List<(Text, Val)>, key: Text) -> Result<Back, Memory>
    ensures ok { IfOk result (TurnsEntries (changes.without_entry key entries.old) entries.old entries.new) }
    ensures memory { OnErr result (entries.new ≡ entries.old) }
{
    let mut vec = mem::replace(entries, List::new(alloc)).into_vec();
    let done = remove_in(alloc, &mut vec, key.as_str());
    drop(key);
    *entries = List::from_vec(vec);
    done
}

fn remove_in(alloc: Global, vec: &mut Vec<(Text, Val)>, key: &str) -> Result<Back, Memory>
    ensures ok { IfOk result (TurnsEntries (changes.without_entry key.now vec.old.items) vec.old.items vec.new.items) }
    ensures memory { OnErr result (vec.new.items ≡ vec.old.items) }
{
    match place_of(vec.as_slice(), key) {
        Some(place) => match Vec::with_capacity(alloc, vec.len()) {
            Ok(room) => Ok(Back::Insert(place as u64, vec.remove(place), room)),
            Err(_) => Err(Memory),
        },
        None => Ok(Back::Same),
    }
}

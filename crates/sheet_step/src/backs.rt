// What undoes the changes of registers.
ghost use Rattle.std.specs.Prelude.{◌≡◌, ◌-◌, ◌<◌, ◌≤◌, [], Some, IsSome, length, take, slice_get, slice_set};
ghost use Rattle.std.specs.Prelude.{vec_capacity, vec_len};
ghost use Rattle.std.specs.List.{insert, remove};
ghost use Rattle.idl_tree.specs.Names.{Bytes};
ghost use Rattle.sheet_step.specs.Undoing as undoing;

use link_port::{List, Text};
use std::alloc::Global;
use std::mem;
use typed_value::Val;

/// What undoes a change of a register's value.
#[derive(Drop)]
pub enum Back {
    /// It is the old value again.
    Set(Val),
    /// The array has one item less.
    Pop,
    /// The map's entry at a place has its old value again.
    Restore(u64, Val),
    /// The map does not have the entry at a place.
    Remove(u64),
    /// The map has the entry again, at its place. The vector has room for all entries.
    Insert(u64, (Text, Val), Vec<(Text, Val)>),
    /// Nothing was changed.
    Same,
}

/// What undoes a change of the registers.
#[derive(Drop)]
pub struct Undo {
    /// The place of the register.
    pub place: u64,
    /// What undoes the change of its value.
    pub back: Back,
}

/// A step that was done.
#[derive(Drop)]
pub struct Act {
    /// What undoes it.
    pub undo: Undo,
    /// Whether what it put in leaves the register within its levels.
    pub small: bool,
}

/// Undoes all changes, the last one first. It takes no memory.
pub fn undo_all(alloc: Global, mut undos: Vec<Undo>, registers: &mut Vec<Val>)
    requires { IsSome (undoing.all_undone undos.items registers.old.items) }
    ensures { undoing.all_undone undos.items registers.old.items ≡ Some registers.new.items }
{
    while let Some(last) = undos.pop() {
        undo_one(alloc, last, registers);
    }
}

// Undoes a change.
fn undo_one(alloc: Global, undo: Undo, registers: &mut Vec<Val>)
    requires { IsSome (undoing.undone undo registers.old.items) }
    ensures { undoing.undone undo registers.old.items ≡ Some registers.new.items }
{
    let Undo { place, back } = undo;
    turn_back(alloc, back, &mut registers[place as usize]);
}

// Undoes a change of a register's value.
fn turn_back(alloc: Global, back: Back, val: &mut Val)
    requires { IsSome (undoing.turned back val.old) }
    ensures { undoing.turned back val.old ≡ Some val.new }
{
    match back {
        Back::Set(old) => *val = old,
        Back::Pop => pop_item(alloc, val),
        back => turn_map(alloc, back, val),
    }
}

fn pop_item(alloc: Global, val: &mut Val)
    requires { IsSome (undoing.popped val.old) }
    ensures { undoing.popped val.old ≡ Some val.new }
{
    match val {
        Val::Items(items) => pop(alloc, items),
        _ => unreachable!(),
    }
}

fn turn_map(alloc: Global, back: Back, val: &mut Val)
    requires { IsSome (undoing.map_turned back val.old) }
    ensures { undoing.map_turned back val.old ≡ Some val.new }
{
    match val {
        Val::Map(entries) => turn_entries(alloc, back, entries),
        _ => unreachable!(),
    }
}

// Takes the last item of an array away.
fn pop(alloc: Global, items: &mut List<Val>)
    ensures { items.new ≡ take (length items.old - 1) items.old }
{
    let mut vec = mem::replace(items, List::new(alloc)).into_vec();
    let _last = vec.pop();
    *items = List::from_vec(vec);
}

// Undoes a change of a map's entries.
fn turn_entries(alloc: Global, back: Back, entries: &mut List<(Text, Val)>)
    requires { IsSome (undoing.entries_turned back entries.old) }
    ensures { undoing.entries_turned back entries.old ≡ Some entries.new }
{
    let vec = mem::replace(entries, List::new(alloc)).into_vec();
    *entries = List::from_vec(turned(back, vec));
}

fn turned(back: Back, entries: Vec<(Text, Val)>) -> Vec<(Text, Val)>
    requires { IsSome (undoing.entries_turned back entries.items) }
    ensures { undoing.entries_turned back entries.items ≡ Some result.items }
{
    match back {
        Back::Restore(place, old) => restored(entries, place as usize, old),
        Back::Remove(place) => removed(entries, place as usize),
        Back::Insert(place, entry, room) => inserted(entries, place as usize, entry, room),
        Back::Same => entries,
        _ => unreachable!(),
    }
}

// The entry at a place has its old value.
fn restored(mut entries: Vec<(Text, Val)>, place: usize, old: Val) -> Vec<(Text, Val)>
    requires { place < vec_len entries }
    ensures { (key : Bytes) (v : Val) → slice_get entries.items place ≡ Some (key, v)
        → result.items ≡ slice_set entries.items place (key, old) }
{
    let entry = &mut entries[place];
    entry.1 = old;
    entries
}

// The entry at a place goes.
fn removed(mut entries: Vec<(Text, Val)>, place: usize) -> Vec<(Text, Val)>
    requires { place < vec_len entries }
    ensures { result.items ≡ remove entries.items place }
{
    let _entry = entries.remove(place);
    entries
}

// The entry comes back, with all in the room that was kept for them.
fn inserted(
    mut entries: Vec<(Text, Val)>,
    place: usize,
    entry: (Text, Val),
    room: Vec<(Text, Val)>,
) -> Vec<(Text, Val)>
    requires empty { room.items ≡ [] }
    requires room { vec_len entries < vec_capacity room }
    requires place { place ≤ vec_len entries }
    ensures { result.items ≡ insert entries.items place entry }
{
    let mut all = room;
    match all.append(&mut entries) {
        Ok(()) => {}
        Err(_) => unreachable!(),
    }
    match all.insert(place, entry) {
        Ok(()) => {}
        Err(_) => unreachable!(),
    }
    all
}

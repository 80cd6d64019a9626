// Marks that spread from types to their users.
ghost use Rattle.std.specs.Prelude.{◌≡◌, ℕ, true, [], ◌∷◌, ◌++◌, IfOk, OnOk, length};
ghost use Rattle.idl_tree.specs.Marks.{has, is_marked, Closed, Reached, Marked};

use link_port::{List, Memory};
use std::alloc::Global;

/// Marks the users of marked places, their users, and so on. Each place is taken once, and each of its
/// users is looked at once.
pub fn mark_users(alloc: Global, users: &[List<usize>], marks: &mut Vec<bool>) -> Result<(), Memory>
    ensures size { OnOk result (length marks.new.items ≡ length marks.old.items) }
    ensures kept { OnOk result ((i : ℕ) → is_marked marks.old.items i ≡ true
        → is_marked marks.new.items i ≡ true) }
    ensures closed { OnOk result (Closed users.now marks.new.items) }
    ensures reached { OnOk result ((i : ℕ) → is_marked marks.new.items i ≡ true
        → Reached users.now marks.old.items i) }
{
    let mut taken = marked_places(alloc, marks.as_slice())?;
    while let Some(place) = taken.pop() {
        if let Some(list) = users.get(place) {
            mark_all(list.as_slice(), marks, &mut taken)?;
        }
    }
    Ok(())
}

// The places that are marked.
fn marked_places(alloc: Global, marks: &[bool]) -> Result<Vec<usize>, Memory>
    ensures all { IfOk result (λ places. (i : ℕ) → is_marked marks.now i ≡ true
        → has i places.items ≡ true) }
    ensures only { IfOk result (λ places. (i : ℕ) → has i places.items ≡ true
        → is_marked marks.now i ≡ true) }
{
    let mut places = Vec::new(alloc);
    for (place, mark) in marks.iter().enumerate() {
        if *mark {
            add(&mut places, place)?;
        }
    }
    Ok(places)
}

// Marks each of the places, and adds those that were not marked to those that wait.
fn mark_all(places: &[usize], marks: &mut Vec<bool>, taken: &mut Vec<usize>) -> Result<(), Memory>
    ensures { OnOk result
        (Marked places.now marks.old.items marks.new.items taken.old.items taken.new.items) }
{
    for place in places {
        mark_one(*place, marks, taken)?;
    }
    Ok(())
}

fn mark_one(place: usize, marks: &mut Vec<bool>, taken: &mut Vec<usize>) -> Result<(), Memory>
    ensures { OnOk result
        (Marked (place ∷ []) marks.old.items marks.new.items taken.old.items taken.new.items) }
{
    if place < marks.len() && !marks[place] {
        marks[place] = true;
        add(taken, place)?;
    }
    Ok(())
}

fn add(places: &mut Vec<usize>, place: usize) -> Result<(), Memory>
    ensures { OnOk result (places.new.items ≡ places.old.items ++ place ∷ []) }
{
    match places.push(place) {
        Ok(()) => Ok(()),
        Err(_) => Err(Memory),
    }
}

//! What a desk keeps of its history.
ghost use Rattle.std.specs.Prelude.{◌≡◌, List, [], ◌∷◌, ◌++◌, ◌<◌, OnOk};
ghost use Rattle.std.specs.Prelude.{vec_len, vec_capacity};
ghost use Rattle.turn_desk.specs.declared.objects.Entry.{Entry};

use crate::objects::Entry;
use link_port::{List, Memory};
use std::alloc::Global;

/// What is kept of a history while it grows.
pub trait Ledger<R>: Drop {
    // The ledger stands for the history.
    ghost stands_for: { Self → List (Entry R) → Type 0 };

    // One more entry takes no memory.
    ghost has_room: { Self → Type 0 };

    /// The ledger of a history with no entry. It takes no memory.
    fn new(alloc: Global) -> Self
        ensures { stands_for result [] };

    /// Makes room for one entry. What the ledger stands for stays, after want of memory too.
    fn make_room(&mut self, alloc: Global) -> Result<(), Memory>
        ensures same { (history : List (Entry R)) → stands_for self.old history
            → stands_for self.new history }
        ensures room { OnOk result (has_room self.new) };

    /// Adds an entry at the end of the history.
    fn add(&mut self, entry: Entry<R>)
        requires { has_room self.old }
        ensures { (history : List (Entry R)) → stands_for self.old history
            → stands_for self.new (history ++ entry ∷ []) };
}

/// A ledger that keeps every entry.
#[derive(Drop)]
pub struct Kept<R> {
    pub entries: Vec<Entry<R>>,
}

impl<R: Drop> Ledger<R> for Kept<R> {
    ghost use Rattle.std.specs.Prelude.{◌≡◌, ◌<◌, vec_len, vec_capacity};

    ghost stands_for = { λ ledger history. ledger.entries.items ≡ history };

    ghost has_room = { λ ledger. vec_len ledger.entries < vec_capacity ledger.entries };

    fn new(alloc: Global) -> Kept<R> {
        Kept {
            entries: Vec::new(alloc),
        }
    }

    fn make_room(&mut self, _alloc: Global) -> Result<(), Memory> {
        match self.entries.reserve(1) {
            Ok(()) => Ok(()),
            Err(_) => Err(Memory),
        }
    }

    fn add(&mut self, entry: Entry<R>)
        requires { vec_len self.old.entries < vec_capacity self.old.entries }
        ensures { self.new.entries.items ≡ self.old.entries.items ++ entry ∷ [] }
    {
        self.entries.push_reserved(entry);
    }
}

impl<R> Kept<R> {
    /// The history as a list. Its entries are moved and not copied.
    pub fn into_list(self) -> List<Entry<R>>
        ensures { result ≡ self.entries.items }
    {
        let Kept { entries } = self;
        List::from_vec(entries)
    }
}

/// A ledger that keeps nothing.
#[derive(Drop)]
pub struct Forgotten;

impl<R: Drop> Ledger<R> for Forgotten {
    ghost stands_for = { λ ledger history. Unit {0} };

    ghost has_room = { λ ledger. Unit {0} };

    fn new(_alloc: Global) -> Forgotten {
        Forgotten
    }

    fn make_room(&mut self, _alloc: Global) -> Result<(), Memory> {
        Ok(())
    }

    fn add(&mut self, _entry: Entry<R>)
        requires { Unit {0} }
    {}
}

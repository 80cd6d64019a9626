//! What the threads share, and what each of them knows of it.
use crate::objects::Entry;
use std::collections::LinkedList;
use std::snapshot::Snapshot;

/// The object with what is kept of its history, which one thread at a time has.
#[derive(Drop)]
pub struct Book<O, L, R> {
    pub object: O,
    pub ledger: L,
    /// What all entries of the history weigh.
    pub weight: u64,
    /// The entry that the last turn has added, or none. Only the proofs read it.
    pub added: Option<Snapshot<Entry<R>>>,
}

/// What a pass is doing. No value of it is made.
pub enum Stage<R> {
    /// It was joined into another one.
    Gone,
    Idle,
    /// It has drawn this ticket.
    Waits(u64),
    /// Its ticket is served, and it has the book, which had this history when it was taken.
    Has(u64, LinkedList<Entry<R>>),
    /// It has drawn this number for a new pass.
    Numbered(u64),
    /// Another pass was joined into it: the two histories, and the numbers of the two.
    Joined(LinkedList<Entry<R>>, LinkedList<Entry<R>>, LinkedList<u64>, LinkedList<u64>),
}

/// What a pass knows. No value of it is made.
pub struct View<O, R> {
    /// The object that the desk was started with.
    pub start: Option<O>,
    pub stage: Stage<R>,
    pub number: u64,
    /// The numbers of the passes joined into it.
    pub joined: LinkedList<u64>,
    pub left: u64,
    pub spent: u64,
    /// The history that it has seen.
    pub seen: LinkedList<Entry<R>>,
}

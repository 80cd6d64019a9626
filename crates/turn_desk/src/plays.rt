//! The table that the threads share: its three words and its one slot, its rule, and what each kind
//! of step tells the one that takes it.
ghost use Rattle.std.specs.Prelude.{ℕ};
ghost use Rattle.turn_desk.specs.Turns.{drew, looked, passed, numbered, settled, recalled};
ghost use Rattle.turn_desk.specs.Turns.{split_kept, split_given, joined, gone};

use crate::ledgers::Ledger;
use crate::objects::Object;
use crate::views::{Book, View};
use atomic_table::{Join, Play, Seat, Split, Table, TableRule};
use std::alloc::Global;
use std::marker::{Brand, PhantomData};
use std::snapshot::Snapshot;

/// The word of the next ticket.
pub const NEXT_TICKET: usize = 0;

/// The word of the ticket that is served.
pub const SERVED: usize = 1;

/// The word of the next number of a pass.
pub const NEXT_NUMBER: usize = 2;

/// The slot of the book.
pub const BOOK: usize = 0;

/// What the slot holds: the book, or nothing while a thread has it.
pub type Slot<O, L, R> = Option<Book<O, L, R>>;

/// A seat at the table, of which each pass has one.
pub type Place<O, L, R> = Seat<Slot<O, L, R>, View<O, R>>;

/// The rule: one history, and one turn at a time.
pub struct OneHistory<O, L> {
    object: PhantomData<(O, L)>,
}

impl<O: Object, L: Ledger<O::Request>> TableRule<
    Slot<O, L, O::Request>,
    View<O, O::Request>,
    Snapshot<O>,
> for OneHistory<O, L> {
    ghost use Rattle.turn_desk.specs.Turns.{Holds, first_view};

    ghost holds = { λ key. Holds O.good O.after O.weigh L.stands_for key.value };

    ghost first = { λ key. first_view key.value };
}

/// The table of a desk.
pub type Words<O, L> = Table<
    Slot<O, L, <O as Object>::Request>,
    View<O, <O as Object>::Request>,
    Snapshot<O>,
    OneHistory<O, L>,
    Global,
>;

/// A ticket is drawn.
pub struct Draw;

impl<O, L, R> Play<Slot<O, L, R>, View<O, R>> for Draw {
    ghost then = { drew };
}

/// A look at the ticket that is served. Where it is one's own, the book is taken.
pub struct Look<O, L> {
    object: PhantomData<(O, L)>,
}

impl<O: Object, L: Ledger<O::Request>> Play<Slot<O, L, O::Request>, View<O, O::Request>>
    for Look<O, L> {
    ghost then = { looked O.good O.after O.weigh L.stands_for };
}

/// The book goes home, and the next ticket is served.
pub struct PassOn;

impl<O, L, R> Play<Slot<O, L, R>, View<O, R>> for PassOn {
    ghost then = { passed };
}

/// A number for a new pass is drawn.
pub struct Number<O> {
    object: PhantomData<O>,
}

impl<O: Object, L> Play<Slot<O, L, O::Request>, View<O, O::Request>> for Number<O> {
    ghost then = { numbered O.good };
}

/// A look after a join, which tells what became of the two passes.
pub struct Settle<O> {
    object: PhantomData<O>,
}

impl<O: Object, L> Play<Slot<O, L, O::Request>, View<O, O::Request>> for Settle<O> {
    ghost then = { settled O.good };
}

/// A look that tells that what was seen is good.
pub struct Recall<O> {
    object: PhantomData<O>,
}

impl<O: Object, L> Play<Slot<O, L, O::Request>, View<O, O::Request>> for Recall<O> {
    ghost then = { recalled O.good };
}

/// How many asks a new pass gets. Each call picks it.
pub trait Amount {
    ghost amount: { ℕ };
}

impl Amount for Brand {
    ghost use Rattle.std.specs.Prelude.{ℕ};

    ghost amount = { 0 };
}

/// A pass is split.
pub struct Cut<G> {
    amount: PhantomData<G>,
}

impl<O, R, G: Amount> Split<View<O, R>> for Cut<G> {
    ghost left = { split_kept G.amount };

    ghost right = { split_given G.amount };
}

/// Two passes are joined.
pub struct Unite;

impl<O, R> Join<View<O, R>> for Unite {
    ghost both = { joined };

    ghost spent = { gone };
}

//! One turn: to wait for it, to answer in it, and to pass it on.
ghost use Rattle.std.specs.Prelude.{◌≡◌, ◌<◌, ◌≤◌, [], ◌∷◌, IfOk, IfErr, OnOk, OnErr, None};
ghost use Rattle.turn_desk.specs.declared.views.Stage.TheVariants.{Idle, Waits};
ghost use Rattle.turn_desk.specs.Asks.{EndsWith};
ghost use Rattle.turn_desk.specs.Faults.{NotMade};
ghost use Rattle.turn_desk.specs.Histories.{IsReply, weight_of, AllGood, GoesOn};
ghost use Rattle.turn_desk.specs.Seats.{IsLaid, IsSeatOf, history_at, seen_by};
ghost use Rattle.turn_desk.specs.Turns.{GoesHome, Taken, numbers_of, with_book, back_from};
ghost use Rattle.turn_desk.specs.Turns.{history_with, asked_once};

use crate::books::answer;
use crate::faults::AskFault;
use crate::ledgers::Ledger;
use crate::objects::{Entry, Object};
use crate::plays::{BOOK, Draw, Look, NEXT_TICKET, OneHistory, PassOn, Place, SERVED, Slot};
use crate::views::{Book, View};
use atomic_table::Shared;
use crossbeam_utils::Backoff;
use std::alloc::Global;
use std::snapshot::Snapshot;
use std::sync::Wait;

pub(crate) type SharedTable<O, L> = Shared<
    Slot<O, L, <O as Object>::Request>,
    View<O, <O as Object>::Request>,
    Snapshot<O>,
    OneHistory<O, L>,
>;

/// Waits until the ticket is served, and takes the book.
fn take_turn<O: Object, L: Ledger<O::Request>, R: Wait>(
    rt: &R,
    shared: &SharedTable<O, L>,
    seat: &mut Place<O, L, O::Request>,
    ticket: u64,
) -> Book<O, L, O::Request>
    requires table { IsLaid shared.now.table_id }
    requires seat { IsSeatOf shared.now.table_id shared.now.key seat.old }
    requires ticket { (seat.old.me.0.stage ≡ Waits ticket) × (seat.old.me.1 ≡ []) }
    ensures table { seat.new.table_id ≡ seat.old.table_id }
    ensures seat { let log = history_at seat.new in
        seat.new.me ≡ (with_book ticket log seat.old.me.0, (0, None) ∷ []) }
    ensures book { let s = shared.now.key.value in
        Taken O.good O.after O.weigh L.stands_for s seat.old.me.0 result (history_at seat.new) }
{
    let backoff = Backoff::new();
    for _ in rt.forever() {
        if shared.load::<Look<O, L>>(seat, SERVED) == ticket {
            return shared.exchange(seat, BOOK, None).unwrap();
        }
        backoff.snooze();
    }
    unreachable!()
}

/// Gives the book back, which goes on from the one that was taken, and serves the next ticket.
fn pass_on<O: Object, L: Ledger<O::Request>>(
    shared: &SharedTable<O, L>,
    seat: &mut Place<O, L, O::Request>,
    book: Book<O, L, O::Request>,
)
    requires table { IsLaid shared.now.table_id × (seat.old.table_id ≡ shared.now.table_id) }
    requires seat { seat.old.me.1 ≡ (0, None) ∷ [] }
    requires book { let s = shared.now.key.value in
        GoesHome O.good O.after O.weigh L.stands_for s seat.old.me.0 book }
    ensures table { seat.new.table_id ≡ seat.old.table_id }
    ensures seat { let log = history_with seat.old.me.0 book in
        seat.new.me ≡ (back_from log seat.old.me.0, []) }
{
    shared.exchange(seat, BOOK, Some(book));
    shared.fetch_add::<PassOn>(seat, SERVED, 1);
}

/// Asks in a turn of its own.
pub(crate) fn ask_in_turn<O: Object, L: Ledger<O::Request>, R: Wait>(
    rt: &R,
    alloc: Global,
    shared: &SharedTable<O, L>,
    limit: u64,
    seat: &mut Place<O, L, O::Request>,
    entry: Entry<O::Request>,
) -> Result<O::Reply, AskFault>
    requires table { IsLaid shared.now.table_id }
    requires seat { IsSeatOf shared.now.table_id shared.now.key seat.old }
    requires idle { (seat.old.me.0.stage ≡ Idle) × (seat.old.me.1 ≡ []) }
    requires left { 0 < seat.old.me.0.left }
    requires pass { entry.pass ≡ seat.old.me.0.number }
    requires request { O.good shared.now.key.value entry.request }
    ensures table { seat.new.table_id ≡ seat.old.table_id }
    ensures seat { seat.new.me ≡ (asked_once (seen_by seat.new) seat.old.me.0, []) }
    ensures good { AllGood O.good shared.now.key.value (seen_by seat.new) }
    ensures entry { let v = seat.old.me.0 in
        OnOk result (EndsWith v.seen (numbers_of v) entry (seen_by seat.new)) }
    ensures reply { let s = shared.now.key.value in
        IfOk result (IsReply O.after O.answer s (seen_by seat.new)) }
    ensures within { OnOk result (weight_of O.weigh (seen_by seat.new) ≤ limit) }
    ensures others { let v = seat.old.me.0 in
        OnErr result (GoesOn v.seen (numbers_of v) (seen_by seat.new)) }
    ensures fault { IfErr result
        (NotMade limit (weight_of O.weigh (seen_by seat.new)) (O.weigh entry.request)) }
{
    let ticket = shared.fetch_add::<Draw>(seat, NEXT_TICKET, 1);
    let taken = take_turn(rt, shared, seat, ticket);
    let (book, reply) = answer(alloc, taken, limit, entry);
    pass_on(shared, seat, book);
    reply
}

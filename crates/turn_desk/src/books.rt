//! The answer to one request, on a book in hand.
ghost use Rattle.std.specs.Prelude.{◌≡◌, ◌+◌, ◌<◌, ◌≤◌, List, [], ◌∷◌, ◌++◌};
ghost use Rattle.std.specs.Prelude.{IfOk, IfErr, OnOk, OnErr};
ghost use Rattle.turn_desk.specs.declared.objects.Entry.{Entry};
ghost use Rattle.turn_desk.specs.Faults.{NotMade};
ghost use Rattle.turn_desk.specs.Turns.{Grown, Unmoved};

use crate::faults::AskFault;
use crate::ledgers::Ledger;
use crate::objects::{Entry, Object};
use crate::views::Book;
use std::alloc::Global;
use std::snapshot::Snapshot;

/// What the history weighs with this request in it, where that is within the limit.
fn heavier(weight: u64, request: u64, limit: u64) -> Result<u64, AskFault>
    ensures ok { IfOk result (λ sum. (sum ≡ weight + request) × (sum ≤ limit)) }
    ensures full { IfErr result (λ f. (f ≡ AskFault.Full weight) × (limit < weight + request)) }
{
    match weight.checked_add(request) {
        Some(sum) if sum <= limit => Ok(sum),
        _ => Err(AskFault::Full { bytes: weight }),
    }
}

/// Makes one step of the object and adds its entry, or leaves object and history as they were.
fn step_within<O: Object, L: Ledger<O::Request>>(
    alloc: Global,
    object: &mut O,
    ledger: &mut L,
    weight: u64,
    limit: u64,
    entry: Entry<O::Request>,
) -> Result<(O::Reply, u64), AskFault>
    requires { O.good object.old entry.request }
    ensures reply { IfOk result (λ r. r.0 ≡ O.answer object.old entry.request) }
    ensures state { OnOk result (object.new ≡ O.after object.old entry.request) }
    ensures ledger { OnOk result ((log : List (Entry O.Request)) → L.stands_for ledger.old log
        → L.stands_for ledger.new (log ++ entry ∷ [])) }
    ensures weight { IfOk result (λ r. (r.1 ≡ weight + O.weigh entry.request) × (r.1 ≤ limit)) }
    ensures same_state { OnErr result (object.new ≡ object.old) }
    ensures same_ledger { OnErr result ((log : List (Entry O.Request))
        → L.stands_for ledger.old log → L.stands_for ledger.new log) }
    ensures fault { IfErr result (NotMade limit weight (O.weigh entry.request)) }
{
    let sum = heavier(weight, object.weight(&entry.request), limit)?;
    ledger.make_room(alloc)?;
    let reply = object.step(alloc, &entry.request)?;
    ledger.add(entry);
    Ok((reply, sum))
}

/// Answers the request and adds its entry, or leaves object and history as they were.
pub(crate) fn answer<O: Object, L: Ledger<O::Request>>(
    alloc: Global,
    book: Book<O, L, O::Request>,
    limit: u64,
    entry: Entry<O::Request>,
) -> (Book<O, L, O::Request>, Result<O::Reply, AskFault>)
    requires { O.good book.object entry.request }
    ensures reply { IfOk result.1 (λ r. r ≡ O.answer book.object entry.request) }
    ensures book { OnOk result.1 (Grown O.after O.weigh L.stands_for book entry result.0) }
    ensures within { OnOk result.1 (book.weight + O.weigh entry.request ≤ limit) }
    ensures same { OnErr result.1 (Unmoved L.stands_for book result.0) }
    ensures fault { IfErr result.1 (NotMade limit book.weight (O.weigh entry.request)) }
{
    let Book {
        mut object,
        mut ledger,
        weight,
        added: _,
    } = book;
    let signed = Snapshot::of(&entry);
    let made = step_within(alloc, &mut object, &mut ledger, weight, limit, entry);
    let (weight, added, reply) = match made {
        Ok((reply, sum)) => (sum, Some(signed), Ok(reply)),
        Err(fault) => (weight, None, Err(fault)),
    };
    let book = Book {
        object,
        ledger,
        weight,
        added,
    };
    (book, reply)
}

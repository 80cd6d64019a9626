//! The public calls of a desk.
ghost use Rattle.std.specs.Prelude.{◌≡◌, ◌↔◌, ℕ, ◌+◌, ◌-◌, ◌^◌, ◌<◌, ◌≤◌, [], ◌∷◌, ◌++◌};
ghost use Rattle.std.specs.Prelude.{All, Contains, IfOk, OnOk, OnErr, Some, Err};
ghost use Rattle.turn_desk.specs.Asks.{SeesOwn, SeesOthers};
ghost use Rattle.turn_desk.specs.Histories.{state_of, IsReply, weight_of, AllGood, Apart};
ghost use Rattle.turn_desk.specs.Passes.{IsOf, IsSamePass, all_asks, carried, own_requests};
ghost use Rattle.turn_desk.specs.Passes.{first_pass, split_off, split_to, united};

use crate::faults::AskFault;
use crate::ledgers::Ledger;
use crate::objects::{Entry, Object};
use crate::passes::{Holder, Pass};
use crate::plays::{BOOK, NEXT_NUMBER, NEXT_TICKET, Number, Recall, SERVED, Settle, Unite, Words};
use crate::splits::cut;
use crate::turns::ask_in_turn;
use crate::views::Book;
use atomic_table::Table;
use link_port::Memory;
use std::alloc::Global;
use std::marker::{Brand, Model};
use std::snapshot::Snapshot;
use std::sync::{Mutex, Wait};

/// One object that many threads ask in turn, with a limit on what its history may weigh and a ledger
/// of that history. It is shared by `&`, and each thread has a pass of its own.
#[derive(Drop)]
pub struct Desk<O: Object, L: Ledger<O::Request>> {
    table: Words<O, L>,
    limit: u64,
    /// Lets those who wait sleep. No fact about the history rests on it.
    gate: Mutex<()>,
}

impl<O: Object, L: Ledger<O::Request>> Model for Desk<O, L> {
    ghost use Rattle.std.specs.Prelude.{◌≡◌};
    ghost use Rattle.turn_desk.specs.Passes.{DeskView};

    ghost Value = { DeskView O };

    ghost use Rattle.turn_desk.specs.Seats.{IsLaid, desk_of};

    ghost view = { λ d. desk_of d.table.shared.table_id d.table.shared.key d.limit };

    ghost invariant = { λ d. IsLaid d.table.shared.table_id };
}

impl<O: Object, L: Ledger<O::Request>> Desk<O, L> {
    /// Puts the object under a desk whose history may weigh `limit`, and gives the first pass.
    pub fn start(alloc: Global, object: O, limit: u64) -> Result<(Desk<O, L>, Pass<O, L>), Memory>
        requires { limit ≤ 2 ^ 62 }
        ensures desk { IfOk result (λ r. (r.0.start ≡ object) × (r.0.limit ≡ limit)) }
        ensures pass { IfOk result (λ r. r.1 ≡ first_pass r.0) }
    {
        let mut slots = Vec::new(alloc);
        slots.reserve(1)?;
        let key = Snapshot::of(&object);
        slots.push_reserved(Some(Book {
            object,
            ledger: L::new(alloc),
            weight: 0,
            added: None,
        }));
        let Ok((table, seat)) = Table::new(alloc, &[0, 0, 1], slots, &key) else {
            return Err(Memory);
        };
        let pass = Holder {
            seat,
            number: 0,
            left: 1 << 62,
            asked: 0,
        };
        let gate = Mutex::new(());
        Ok((Desk { table, limit, gate }, pass))
    }

    /// Waits for a turn of its own, and answers one good request in it.
    /// Each call spends an ask but where none is left. After `Full` and `Memory` the pass may have
    /// seen more.
    pub fn ask<R: Wait>(
        &self,
        rt: &R,
        alloc: Global,
        pass: &mut Pass<O, L>,
        request: O::Request,
    ) -> Result<O::Reply, AskFault>
        requires pass { IsOf self.now pass.old }
        requires request { O.good self.now.start request }
        ensures pass { IsSamePass pass.old pass.new }
        ensures left { pass.new.left ≡ pass.old.left - 1 }
        ensures asked { all_asks pass.new ≡ all_asks pass.old }
        ensures entry { OnOk result (SeesOwn pass.old request pass.new) }
        ensures reply { IfOk result (IsReply O.after O.answer self.now.start pass.new.seen) }
        ensures within { OnOk result (weight_of O.weigh pass.new.seen ≤ self.now.limit) }
        ensures others { OnErr result (SeesOthers pass.old pass.new) }
        ensures own { OnOk result (own_requests pass.new ≡ own_requests pass.old ++ request ∷ []) }
        ensures no_own { OnErr result (own_requests pass.new ≡ own_requests pass.old) }
        ensures worn { (result ≡ Err AskFault.Worn) ↔ (pass.old.left ≡ 0) }
        ensures same { result ≡ Err AskFault.Worn → pass.new ≡ pass.old }
        ensures bytes { (n : ℕ) → result ≡ Err (AskFault.Full n) → n ≡ weight_of O.weigh pass.new.seen }
        ensures full { (n : ℕ) → result ≡ Err (AskFault.Full n) → self.now.limit < n + O.weigh request }
        ensures good { AllGood O.good self.now.start pass.new.seen }
    {
        let shared = &self.table.shared;
        if pass.left == 0 {
            shared.load::<Recall<O>>(&mut pass.seat, SERVED);
            return Err(AskFault::Worn);
        }
        let entry = Entry {
            pass: pass.number,
            request,
        };
        let turn = self.gate.lock(rt);
        let reply = ask_in_turn(rt, alloc, shared, self.limit, &mut pass.seat, entry);
        drop(turn);
        pass.left -= 1;
        pass.asked += 1;
        reply
    }

    /// Makes a pass with a number of its own, which has seen what this one has seen, and hands it so
    /// many asks. That spends one more ask. It takes no memory.
    pub fn split(&self, pass: &mut Pass<O, L>, asks: u64) -> Pass<O, L>
        requires pass { IsOf self.now pass.old }
        requires asks { asks < pass.old.left }
        ensures kept { pass.new ≡ split_off asks pass.old }
        ensures given { result ≡ split_to result.number asks pass.old }
        ensures number { result.number ≤ 2 ^ 62 }
        ensures other { ¬ Contains (carried pass.old) result.number }
        ensures none { own_requests result ≡ [] }
        ensures good { AllGood O.good self.now.start pass.new.seen }
    {
        let shared = &self.table.shared;
        let number = shared.fetch_add::<Number<O>>(&mut pass.seat, NEXT_NUMBER, 1);
        let seat = cut::<O, L, Brand>(shared, &mut pass.seat, asks);
        pass.left -= asks + 1;
        pass.asked += 1;
        Holder {
            seat,
            number,
            left: asks,
            asked: 0,
        }
    }

    /// Joins another pass into this one, which carries its numbers and has its asks from now on, and
    /// has seen the longer of the two histories. It takes no memory.
    pub fn join(&self, pass: &mut Pass<O, L>, other: Pass<O, L>)
        requires pass { IsOf self.now pass.old }
        requires other { IsOf self.now other }
        ensures pass { pass.new ≡ united pass.old other }
        ensures first { SeesOthers pass.old pass.new }
        ensures second { SeesOthers other pass.new }
        ensures apart { Apart (carried pass.old) (carried other) }
        ensures good { AllGood O.good self.now.start pass.new.seen }
    {
        let Holder {
            seat,
            number: _,
            left,
            asked,
        } = other;
        let shared = &self.table.shared;
        shared.join_seat::<Unite>(&mut pass.seat, seat);
        shared.load::<Settle<O>>(&mut pass.seat, NEXT_TICKET);
        pass.left += left;
        pass.asked += asked;
    }

    /// Ends the desk by a pass that has all asks, which one has once every other pass was joined into
    /// it. Gives the object and the ledger of the history.
    pub fn close(self, pass: Pass<O, L>) -> (O, L)
        requires pass { IsOf self pass }
        requires all { all_asks pass ≡ 2 ^ 62 }
        ensures history { L.stands_for result.1 pass.seen }
        ensures state { result.0 ≡ state_of O.after self.start pass.seen }
        ensures numbers { All (λ e. Contains (carried pass) e.pass) pass.seen }
        ensures good { AllGood O.good self.start pass.seen }
    {
        let Desk {
            table,
            limit: _,
            gate: _,
        } = self;
        let Holder {
            seat,
            number: _,
            left: _,
            asked: _,
        } = pass;
        let mut closed = table.close_with(seat);
        let slot = closed.take(BOOK);
        closed.free();
        let Book {
            object,
            ledger,
            weight: _,
            added: _,
        } = slot.unwrap();
        (object, ledger)
    }
}

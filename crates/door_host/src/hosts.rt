//! A service is served at several doors at once.
ghost use Rattle.std.specs.Prelude.{◌≡◌, ◌≤◌, ◌^◌, [], All, IfOk, IfSome, OnErr, OnOk, length};
ghost use Rattle.std.specs.Prelude.{Contains, vec_capacity};
ghost use Rattle.turn_desk.specs.Histories.{AllGood, state_of};
ghost use Rattle.turn_desk.specs.Passes.{IsOf, all_asks, carried, first_pass};
ghost use Rattle.service_desk.specs.Boards.{IsDeskOf, IsGoodFor, state_after};
ghost use Rattle.door_host.specs.Doors.{kind_of};
ghost use Rattle.door_host.specs.Hosts.{OneHistory};
ghost use Rattle.door_host.specs.Rounds.{Gathered, IsBegun};

use crate::rounds::{Round, serve_at};
use door_serving::WorkerEnd;
use link_doors::{Gate, Listener};
use link_port::Memory;
use service_core::{Request, Service};
use service_desk::Board;
use std::alloc::Global;
use std::sync::Wait;
use std::thread::Threads;
use turn_desk::{Desk, Ledger, Pass};

/// The most that the history of a service may weigh where it is kept.
pub const HISTORY_LIMIT: u64 = 268_435_456;

/// The most that it may weigh where it is not kept.
pub const FORGOTTEN_LIMIT: u64 = 1 << 62;

/// The asks of the pass of a worker.
pub const PASS_ASKS: u64 = 1 << 40;

/// What is left once a service was served.
#[derive(Drop)]
pub struct Served<L> {
    /// The registers in their last state.
    pub board: Board,
    /// What is kept of the history.
    pub ledger: L,
    /// How many entries the history has.
    pub entries: u64,
    /// What became of each worker, in the order of the doors.
    pub ends: Vec<WorkerEnd>,
}

/// Serves a service at each of the doors, in a thread of its own: their connections one after another, until each
/// door has given all that it states, or fails. All steps that are asked for on all connections are one history.
///
/// The history may weigh `limit`, which is at most 2^62: a call whose step would pass it ends its connection. `HISTORY_LIMIT` is
/// for a history that is kept, and `FORGOTTEN_LIMIT` for one that is not: that is past all that a service can come to.
///
/// What it takes itself it takes first: after `Memory` no connection was accepted. The doors are left in their order.
pub fn serve<
    R: Threads + Wait + Sync,
    D: Listener + Send + Drop,
    G: Gate + Sync,
    L: Ledger<Request> + Send + 'static,
>(
    rt: &R,
    alloc: Global,
    doors: &mut Vec<D>,
    service: &Service,
    gate: &G,
    limit: u64,
) -> Result<Served<L>, Memory>
where
    D::Conn: Send,
    requires limit { limit ≤ 2 ^ 62 }
    requires some { 1 ≤ length doors.old.items }
    requires few { length doors.old.items ≤ 64 }
    requires out { All (λ door. IfSome (D.back door) (λ visits. length visits ≤ D.given door)) doors.old.items }
    ensures memory { OnErr result (doors.new.items ≡ doors.old.items) }
    ensures serves { IfOk result (λ served. OneHistory L.stands_for
        (kind_of D.stated D.given D.faults D.coming D.back D.Conn.left D.Conn.written) service.now limit
        doors.old.items doors.new.items served.board served.ledger served.entries served.ends.items) }
{
    let ends = room_for_ends(alloc, doors.len())?;
    let board = match Board::start(alloc, service) {
        Ok(board) => board,
        Err(memory) => {
            drop(ends);
            return Err(memory);
        }
    };
    match Desk::start(alloc, board, limit) {
        Ok((desk, pass)) => serve_desk(rt, alloc, doors, service, gate, desk, pass, ends),
        Err(memory) => {
            drop(ends);
            Err(memory)
        }
    }
}

/// Room for the ends of so many workers.
pub(crate) fn room_for_ends(alloc: Global, doors: usize) -> Result<Vec<WorkerEnd>, Memory>
    ensures { IfOk result (λ v. (v.items ≡ []) × (doors ≤ vec_capacity v)) }
{
    match Vec::with_capacity(alloc, doors) {
        Ok(ends) => Ok(ends),
        Err(_) => Err(Memory),
    }
}

/// Serves the doors at a desk from its first pass on, and closes it.
fn serve_desk<
    R: Threads + Wait + Sync,
    D: Listener + Send + Drop,
    G: Gate + Sync,
    L: Ledger<Request> + Send + 'static,
>(
    rt: &R,
    alloc: Global,
    doors: &mut Vec<D>,
    service: &Service,
    gate: &G,
    desk: Desk<Board, L>,
    pass: Pass<Board, L>,
    ends: Vec<WorkerEnd>,
) -> Result<Served<L>, Memory>
where
    D::Conn: Send,
    requires desk { IsDeskOf service.now desk }
    requires begun { IsBegun service.now desk }
    requires pass { pass ≡ first_pass desk }
    requires ends { (ends.items ≡ []) × (length doors.old.items ≤ vec_capacity ends) }
    requires some { 1 ≤ length doors.old.items }
    requires few { length doors.old.items ≤ 64 }
    requires out { All (λ door. IfSome (D.back door) (λ visits. length visits ≤ D.given door)) doors.old.items }
    ensures memory { OnErr result (doors.new.items ≡ doors.old.items) }
    ensures serves { IfOk result (λ served. OneHistory L.stands_for
        (kind_of D.stated D.given D.faults D.coming D.back D.Conn.left D.Conn.written) service.now desk.limit
        doors.old.items doors.new.items served.board served.ledger served.entries served.ends.items) }
{
    match serve_at(rt, alloc, doors, service, gate, &desk, pass, ends) {
        Ok(round) => Ok(close(desk, round)),
        Err(memory) => {
            drop(desk);
            Err(memory)
        }
    }
}

/// Closes the desk by the pass that has all asks.
fn close<L: Ledger<Request>>(desk: Desk<Board, L>, round: Round<L>) -> Served<L>
    requires pass { IsOf desk round.pass }
    requires all { all_asks round.pass ≡ 2 ^ 62 }
    ensures history { L.stands_for result.ledger round.pass.seen }
    ensures state { result.board ≡ state_of state_after desk.start round.pass.seen }
    ensures numbers { All (λ entry. Contains (carried round.pass) entry.pass) round.pass.seen }
    ensures good { AllGood IsGoodFor desk.start round.pass.seen }
    ensures entries { result.entries ≡ round.entries }
    ensures ends { result.ends ≡ round.ends }
{
    let Round {
        pass,
        entries,
        ends,
    } = round;
    let (board, ledger) = desk.close(pass);
    Served {
        board,
        ledger,
        entries,
        ends,
    }
}

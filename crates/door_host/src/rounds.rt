//! Workers are seated at a desk, serve their doors in threads, and leave it.
ghost use Rattle.std.specs.Prelude.{◌≡◌, ◌+◌, ◌*◌, ◌≤◌, ◌<◌, ◌^◌, [], ◌∷◌, All, IfOk, IfSome, OnErr, OnOk, length};
ghost use Rattle.std.specs.Prelude.{vec_capacity};
ghost use Rattle.std.specs.List.{AllZip};
ghost use Rattle.turn_desk.specs.Histories as histories;
ghost use Rattle.turn_desk.specs.Passes.{IsOf, all_asks, first_pass};
ghost use Rattle.turn_desk.specs.Turns.{total};
ghost use Rattle.service_desk.specs.Boards.{IsDeskOf};
ghost use Rattle.door_serving.specs.Conversations.{GoesOn};
ghost use Rattle.door_host.specs.Doors.{kind_of, Worked};
ghost use Rattle.door_host.specs.Rounds.{Gathered, IsBegun, IsFirst, IsSeated, IsWhole, MayLeave, from_last};

use crate::hosts::PASS_ASKS;
use crate::keepers::Keeper;
use door_serving::WorkerEnd;
use link_doors::{Gate, Listener};
use link_port::Memory;
use service_core::{Request, Service};
use service_desk::{Board, Seated};
use shared_work::each;
use std::alloc::Global;
use std::sync::Wait;
use std::thread::Threads;
use turn_desk::{Desk, Ledger, Pass};

/// What the workers left: the pass that has all asks, how many entries they made, and what became of each.
#[derive(Drop)]
pub struct Round<L: Ledger<Request>> {
    pub pass: Pass<Board, L>,
    pub entries: u64,
    pub ends: Vec<WorkerEnd>,
}

/// Serves the doors at a desk from its first pass on. The ends have room.
pub fn serve_at<
    R: Threads + Wait + Sync,
    D: Listener + Send + Drop,
    G: Gate + Sync,
    L: Ledger<Request> + Send + 'static,
>(
    rt: &R,
    alloc: Global,
    doors: &mut Vec<D>,
    service: &Service,
    gate: &G,
    desk: &Desk<Board, L>,
    pass: Pass<Board, L>,
    ends: Vec<WorkerEnd>,
) -> Result<Round<L>, Memory>
where
    D::Conn: Send,
    requires desk { IsDeskOf service.now desk.now }
    requires begun { IsBegun service.now desk.now }
    requires pass { pass ≡ first_pass desk.now }
    requires ends { (ends.items ≡ []) × (length doors.old.items ≤ vec_capacity ends) }
    requires some { 1 ≤ length doors.old.items }
    requires few { length doors.old.items ≤ 64 }
    requires out { All (λ door. IfSome (D.back door) (λ visits. length visits ≤ D.given door)) doors.old.items }
    ensures memory { OnErr result (doors.new.items ≡ doors.old.items) }
    ensures gathered { IfOk result (λ round. Gathered
        (kind_of D.stated D.given D.faults D.coming D.back D.Conn.left D.Conn.written) service.now desk.now
        doors.old.items doors.new.items round.pass round.entries round.ends.items) }
{
    match room_for(alloc, doors.len()) {
        Ok(keepers) => Ok(serve_all(rt, alloc, doors, service, gate, desk, pass, ends, keepers)),
        Err(memory) => {
            drop((pass, ends));
            Err(memory)
        }
    }
}

/// Room for so many workers.
fn room_for<'a, D: Drop, L: Ledger<Request>>(
    alloc: Global,
    doors: usize,
) -> Result<Vec<Keeper<'a, D, L>>, Memory>
    ensures { IfOk result (λ v. (v.items ≡ []) × (doors ≤ vec_capacity v)) }
{
    match Vec::with_capacity(alloc, doors) {
        Ok(keepers) => Ok(keepers),
        Err(_) => Err(Memory),
    }
}

/// The round of the workers, for whom there is room.
fn serve_all<
    'a,
    R: Threads + Wait + Sync,
    D: Listener + Send + Drop,
    G: Gate + Sync,
    L: Ledger<Request> + Send + 'static,
>(
    rt: &R,
    alloc: Global,
    doors: &mut Vec<D>,
    service: &'a Service,
    gate: &G,
    desk: &'a Desk<Board, L>,
    mut pass: Pass<Board, L>,
    ends: Vec<WorkerEnd>,
    keepers: Vec<Keeper<'a, D, L>>,
) -> Round<L>
where
    D::Conn: Send,
    requires desk { IsDeskOf service.now desk.now }
    requires begun { IsBegun service.now desk.now }
    requires pass { pass ≡ first_pass desk.now }
    requires ends { (ends.items ≡ []) × (length doors.old.items ≤ vec_capacity ends) }
    requires keepers { (keepers.items ≡ []) × (length doors.old.items ≤ vec_capacity keepers) }
    requires some { 1 ≤ length doors.old.items }
    requires few { length doors.old.items ≤ 64 }
    requires out { All (λ door. IfSome (D.back door) (λ visits. length visits ≤ D.given door)) doors.old.items }
    ensures { Gathered
        (kind_of D.stated D.given D.faults D.coming D.back D.Conn.left D.Conn.written) service.now desk.now
        doors.old.items doors.new.items result.pass result.entries result.ends.items }
{
    let mut keepers = seat_workers(alloc, doors, service, desk, &mut pass, keepers);
    work_all(rt, gate, keepers.as_mut_slice());
    unseat_workers(doors, desk, pass, ends, keepers)
}

/// Gives each door a worker with a seat at the desk, by a pass that is split off the first one. The last door has the
/// first worker.
fn seat_workers<'a, D: Listener + Drop, L: Ledger<Request>>(
    alloc: Global,
    doors: &mut Vec<D>,
    service: &'a Service,
    desk: &'a Desk<Board, L>,
    pass: &mut Pass<Board, L>,
    mut keepers: Vec<Keeper<'a, D, L>>,
) -> Vec<Keeper<'a, D, L>>
    requires desk { IsDeskOf service.now desk.now }
    requires pass { pass.old ≡ first_pass desk.now }
    requires keepers { (keepers.items ≡ []) × (length doors.old.items ≤ vec_capacity keepers) }
    requires few { length doors.old.items ≤ 64 }
    ensures doors { doors.old.items ≡ from_last (λ keeper. keeper.door) result.items }
    ensures none { doors.new.items ≡ [] }
    ensures room { length doors.old.items ≤ vec_capacity doors.new }
    ensures pass { IsFirst desk.now pass.new }
    ensures seats { All (λ keeper. IsSeated service.now desk.now keeper.seated) result.items }
    ensures asks { all_asks pass.new + total (λ keeper. all_asks keeper.seated.pass) result.items ≡ 2 ^ 62 }
{
    while let Some(door) = doors.pop() {
        let mine = desk.split(pass, PASS_ASKS);
        let end = WorkerEnd {
            pass: mine.number(),
            connections: 0,
            listen_failed: false,
        };
        keepers.push_reserved(Keeper {
            door,
            seated: Seated::new(service, desk, mine),
            end,
            alloc,
            number: doors.len() as u64,
        });
    }
    keepers
}

/// Has each worker serve its door, in a thread of its own.
fn work_all<
    R: Threads + Wait + Sync,
    D: Listener + Send + Drop,
    G: Gate + Sync,
    L: Ledger<Request> + Send + 'static,
>(rt: &R, gate: &G, keepers: &mut [Keeper<'_, D, L>])
where
    D::Conn: Send,
    requires some { 0 < length keepers.old }
    requires out { All (λ keeper. IfSome (D.back keeper.door) (λ visits. length visits ≤ D.given keeper.door)) keepers.old }
    ensures { AllZip (λ keeper after.
        Worked (kind_of D.stated D.given D.faults D.coming D.back D.Conn.left D.Conn.written)
        keeper.seated after.seated keeper.door after.door after.end
        × GoesOn keeper.seated after.seated) keepers.old keepers.new }
{
    let threads = keepers.len();
    each(rt, gate, keepers, threads);
}

/// Joins the pass of each worker into the first one, and puts the doors back.
fn unseat_workers<D: Listener + Drop, L: Ledger<Request>>(
    doors: &mut Vec<D>,
    desk: &Desk<Board, L>,
    mut pass: Pass<Board, L>,
    mut ends: Vec<WorkerEnd>,
    mut keepers: Vec<Keeper<'_, D, L>>,
) -> Round<L>
    requires pass { IsFirst desk.now pass }
    requires seats { All (λ keeper. MayLeave desk.now keeper.seated) keepers.items }
    requires asks { all_asks pass + total (λ keeper. all_asks keeper.seated.pass) keepers.items ≡ 2 ^ 62 }
    requires doors { (doors.old.items ≡ []) × (length keepers.items ≤ vec_capacity doors.old) }
    requires ends { (ends.items ≡ []) × (length keepers.items ≤ vec_capacity ends) }
    ensures doors { doors.new.items ≡ from_last (λ keeper. keeper.door) keepers.entry.items }
    ensures ends { result.ends.items ≡ from_last (λ keeper. keeper.end) keepers.entry.items }
    ensures whole { IsWhole desk.now result.pass (from_last (λ keeper. keeper.seated.pass.number) keepers.entry.items) }
    ensures entries { result.entries ≡ total (λ keeper. keeper.seated.made) keepers.entry.items }
    ensures history { All (λ keeper. histories.GoesOn keeper.seated.pass.seen (keeper.seated.pass.number ∷ []) result.pass.seen)
        keepers.entry.items }
{
    let mut entries = 0;
    while let Some(keeper) = keepers.pop() {
        let Keeper {
            door,
            seated,
            end,
            alloc: _,
            number: _,
        } = keeper;
        entries += seated.made();
        desk.join(&mut pass, seated.leave());
        doors.push_reserved(door);
        ends.push_reserved(end);
    }
    Round {
        pass,
        entries,
        ends,
    }
}

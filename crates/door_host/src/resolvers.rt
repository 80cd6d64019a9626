//! A registry is served at several doors at once.
ghost use Rattle.std.specs.Prelude.{◌≡◌, ◌≤◌, ◌<◌, [], All, IfOk, IfSome, OnErr, length};
ghost use Rattle.std.specs.Prelude.{vec_capacity};
ghost use Rattle.std.specs.List.{AllZip};
ghost use Rattle.door_host.specs.Doors.{kind_of};
ghost use Rattle.door_host.specs.Porters.{AreNumberedFrom};
ghost use Rattle.door_host.specs.Resolvers.{AllResolved, ResolvedBy};
ghost use Rattle.door_host.specs.Rounds.{from_last};

use crate::hosts::room_for_ends;
use crate::porters::Porter;
use door_serving::WorkerEnd;
use link_doors::Listener;
use link_port::Memory;
use resolver_core::Registry;
use shared_work::each;
use std::alloc::Global;
use std::sync::Wait;
use std::thread::Threads;

/// Serves a registry at each of the doors, in a thread of its own: their connections one after another, until each door
/// has given all that it states, or fails. What became of each worker is given in the order of the doors; a worker has
/// the number of its door, from 0 on.
///
/// What it takes itself it takes first: after `Memory` no connection was accepted. The doors are left in their order.
pub fn serve_registry<R: Threads + Wait + Sync, D: Listener + Send + Drop>(
    rt: &R,
    alloc: Global,
    doors: &mut Vec<D>,
    registry: &Registry,
) -> Result<Vec<WorkerEnd>, Memory>
where
    D::Conn: Send,
    requires some { 1 ≤ length doors.old.items }
    requires few { length doors.old.items ≤ 64 }
    requires out { All (λ door. IfSome (D.back door) (λ visits. length visits ≤ D.given door)) doors.old.items }
    ensures memory { OnErr result (doors.new.items ≡ doors.old.items) }
    ensures serves { IfOk result (λ ends. AllResolved
        (kind_of D.stated D.given D.faults D.coming D.back D.Conn.left D.Conn.written) registry.now 0
        doors.old.items doors.new.items ends.items) }
{
    let ends = room_for_ends(alloc, doors.len())?;
    match room_for_porters(alloc, doors.len()) {
        Ok(porters) => Ok(resolve_all(rt, alloc, doors, registry, ends, porters)),
        Err(memory) => {
            drop(ends);
            Err(memory)
        }
    }
}

/// Room for so many workers.
fn room_for_porters<D: Drop>(alloc: Global, doors: usize) -> Result<Vec<Porter<D>>, Memory>
    ensures { IfOk result (λ v. (v.items ≡ []) × (doors ≤ vec_capacity v)) }
{
    match Vec::with_capacity(alloc, doors) {
        Ok(porters) => Ok(porters),
        Err(_) => Err(Memory),
    }
}

/// Serves the registry at the doors. There is room for the workers and their ends.
fn resolve_all<R: Threads + Wait + Sync, D: Listener + Send + Drop>(
    rt: &R,
    alloc: Global,
    doors: &mut Vec<D>,
    registry: &Registry,
    ends: Vec<WorkerEnd>,
    porters: Vec<Porter<D>>,
) -> Vec<WorkerEnd>
where
    D::Conn: Send,
    requires ends { (ends.items ≡ []) × (length doors.old.items ≤ vec_capacity ends) }
    requires porters { (porters.items ≡ []) × (length doors.old.items ≤ vec_capacity porters) }
    requires some { 1 ≤ length doors.old.items }
    requires out { All (λ door. IfSome (D.back door) (λ visits. length visits ≤ D.given door)) doors.old.items }
    ensures { AllResolved
        (kind_of D.stated D.given D.faults D.coming D.back D.Conn.left D.Conn.written) registry.now 0
        doors.old.items doors.new.items result.items }
{
    let mut porters = seat_porters(alloc, doors, porters);
    resolve_each(rt, registry, porters.as_mut_slice());
    unseat_porters(doors, ends, porters)
}

/// Gives each door a worker. The last door has the first worker.
fn seat_porters<D: Listener + Drop>(
    alloc: Global,
    doors: &mut Vec<D>,
    mut porters: Vec<Porter<D>>,
) -> Vec<Porter<D>>
    requires { (porters.items ≡ []) × (length doors.old.items ≤ vec_capacity porters) }
    ensures doors { doors.old.items ≡ from_last (λ porter. porter.door) result.items }
    ensures none { doors.new.items ≡ [] }
    ensures room { length doors.old.items ≤ vec_capacity doors.new }
    ensures numbers { AreNumberedFrom (λ porter. porter.number) 0 result.items }
{
    while let Some(door) = doors.pop() {
        let number = doors.len() as u64;
        let end = WorkerEnd {
            pass: number,
            connections: 0,
            listen_failed: false,
        };
        porters.push_reserved(Porter {
            door,
            end,
            alloc,
            number,
        });
    }
    porters
}

/// Has each worker serve its door, in a thread of its own.
fn resolve_each<R: Threads + Wait + Sync, D: Listener + Send + Drop>(
    rt: &R,
    registry: &Registry,
    porters: &mut [Porter<D>],
)
where
    D::Conn: Send,
    requires some { 0 < length porters.old }
    requires out { All (λ porter. IfSome (D.back porter.door) (λ visits. length visits ≤ D.given porter.door)) porters.old }
    ensures { AllZip (λ porter after.
        ResolvedBy (kind_of D.stated D.given D.faults D.coming D.back D.Conn.left D.Conn.written)
        registry.now porter.number porter.door after.door after.end) porters.old porters.new }
{
    let threads = porters.len();
    each(rt, registry, porters, threads);
}

/// Puts the doors back, and what became of each worker beside them.
fn unseat_porters<D: Listener + Drop>(
    doors: &mut Vec<D>,
    mut ends: Vec<WorkerEnd>,
    mut porters: Vec<Porter<D>>,
) -> Vec<WorkerEnd>
    requires doors { (doors.old.items ≡ []) × (length porters.items ≤ vec_capacity doors.old) }
    requires ends { (ends.items ≡ []) × (length porters.items ≤ vec_capacity ends) }
    ensures doors { doors.new.items ≡ from_last (λ porter. porter.door) porters.items }
    ensures ends { result.items ≡ from_last (λ porter. porter.end) porters.items }
{
    while let Some(porter) = porters.pop() {
        let Porter {
            door,
            end,
            alloc: _,
            number: _,
        } = porter;
        doors.push_reserved(door);
        ends.push_reserved(end);
    }
    ends
}

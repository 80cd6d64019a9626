//! The worker of a door that a registry serves.
ghost use Rattle.std.specs.Prelude.{◌≤◌, IfSome, length};
ghost use Rattle.door_host.specs.Doors.{kind_of};
ghost use Rattle.door_host.specs.Resolvers.{ResolvedBy};

use door_serving::{WorkerEnd, serve_registry_door};
use link_doors::Listener;
use resolver_core::Registry;
use shared_work::Work;
use std::alloc::Global;
use std::sync::Wait;

/// A door whose connections a registry answers, and what became of it.
#[derive(Drop)]
pub struct Porter<D> {
    pub door: D,
    pub end: WorkerEnd,
    pub alloc: Global,
    /// Which worker it is, counted from 0.
    pub number: u64,
}

impl<D: Listener + Drop> Work<Registry> for Porter<D> {
    ghost use Rattle.std.specs.Prelude.{◌≤◌, IfSome, length};
    ghost use Rattle.door_host.specs.Doors.{kind_of};
    ghost use Rattle.door_host.specs.Resolvers.{ResolvedBy};

    ghost ready = { λ porter registry. IfSome (D.back porter.door) (λ visits. length visits ≤ D.given porter.door) };

    ghost done = { λ porter registry after.
        ResolvedBy (kind_of D.stated D.given D.faults D.coming D.back D.Conn.left D.Conn.written)
        registry porter.number porter.door after.door after.end };

    fn work<R: Wait>(&mut self, rt: &R, registry: &Registry) {
        let Porter {
            door,
            end,
            alloc,
            number,
        } = self;
        *end = serve_registry_door(rt, *alloc, door, registry, *number);
    }
}

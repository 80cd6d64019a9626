//! The worker of a door.
ghost use Rattle.std.specs.Prelude.{◌≤◌, IfSome, length};
ghost use Rattle.door_serving.specs.Conversations.{GoesOn};
ghost use Rattle.door_host.specs.Doors.{kind_of, Worked};

use door_serving::{WorkerEnd, serve_door};
use link_doors::{Gate, Listener};
use service_core::Request;
use service_desk::Seated;
use shared_work::Work;
use std::alloc::Global;
use std::sync::Wait;
use turn_desk::Ledger;

/// A door with the seat that answers the calls of its connections, and what became of it.
#[derive(Drop)]
pub struct Keeper<'a, D, L: Ledger<Request>> {
    pub door: D,
    pub seated: Seated<'a, L>,
    pub end: WorkerEnd,
    pub alloc: Global,
    /// Which worker it is, counted from 0.
    pub number: u64,
}

impl<'a, D: Listener + Drop, L: Ledger<Request> + 'static, G: Gate> Work<G> for Keeper<'a, D, L> {
    ghost use Rattle.std.specs.Prelude.{◌≤◌, IfSome, length};
    ghost use Rattle.door_serving.specs.Conversations.{GoesOn};
    ghost use Rattle.door_host.specs.Doors.{kind_of, Worked};

    ghost ready = { λ keeper gate. IfSome (D.back keeper.door) (λ visits. length visits ≤ D.given keeper.door) };

    ghost done = { λ keeper gate after.
        Worked (kind_of D.stated D.given D.faults D.coming D.back D.Conn.left D.Conn.written)
        keeper.seated after.seated keeper.door after.door after.end
        × GoesOn keeper.seated after.seated };

    fn work<R: Wait>(&mut self, rt: &R, gate: &G) {
        let Keeper {
            door,
            seated,
            end,
            alloc,
            number,
        } = self;
        *end = serve_door(rt, *alloc, door, seated, gate, *number);
    }
}

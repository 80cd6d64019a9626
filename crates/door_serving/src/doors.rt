// The connections of one door are served one after another, by a seat or by a registry.
ghost use Rattle.std.specs.Prelude.{◌≡◌, ◌+◌, ◌≤◌, IfSome, length};
ghost use Rattle.door_serving.specs.Attended.{AttendsSeat, Ended, ServedDoor};
ghost use Rattle.door_serving.specs.Conversations.{GoesOn};
ghost use Rattle.door_serving.specs.Resolving.{AttendsRegistry};

use crate::attendants::attend_door;
use crate::clerks::Clerk;
use crate::ushers::Usher;
use link_doors::{Gate, Listener};
use resolver_core::Registry;
use service_core::Request;
use service_desk::Seated;
use std::alloc::Global;
use std::sync::Wait;
use turn_desk::Ledger;

/// What a worker came to.
#[derive(Debug, Clone, Copy, PartialEq, Eq)]
pub struct WorkerEnd {
    /// The number of its pass, or of the worker where there are no passes.
    pub pass: u64,
    /// How many connections its door gave.
    pub connections: u64,
    /// Its door failed.
    pub listen_failed: bool,
}

/// Serves the connections of a door one after another, each to its stop, and gives it back with how its session
/// stopped and the number of entries that it made. It goes on after any stop, and ends only where the door has given
/// all connections that it states, or fails.
pub fn serve_door<D: Listener, L: Ledger<Request> + 'static, G: Gate, R: Wait>(
    rt: &R,
    alloc: Global,
    door: &mut D,
    seated: &mut Seated<'_, L>,
    gate: &G,
    worker: u64,
) -> WorkerEnd
    requires out { IfSome (D.back door.old) (λ visits. length visits ≤ D.given door.old) }
    ensures pass { result.pass ≡ seated.old.pass.number }
    ensures given { D.given door.new ≡ D.given door.old + result.connections }
    ensures stated { D.stated door.new ≡ D.stated door.old }
    ensures ends { Ended result.listen_failed (D.stated door.new) (D.given door.new) (D.faults door.old) (D.faults door.new) }
    ensures serves { ServedDoor AttendsSeat D.Conn.left D.Conn.written seated.old seated.new
        (D.coming door.old) (D.coming door.new) (D.back door.old) (D.back door.new) result.connections }
    ensures goes_on { GoesOn seated.old seated.new }
{
    let pass = seated.number();
    let mut usher = Usher {
        seated,
        gate,
        worker,
    };
    let end = attend_door(rt, alloc, door, &mut usher);
    WorkerEnd {
        pass,
        connections: end.connections,
        listen_failed: end.failed,
    }
}

/// Serves the connections of a door by a registry, one after another, each to its stop, and gives it back with how its
/// session stopped. It goes on after any stop, and ends only where the door has given all connections that it states,
/// or fails. No entry is made.
pub fn serve_registry_door<D: Listener, R: Wait>(
    rt: &R,
    alloc: Global,
    door: &mut D,
    registry: &Registry,
    worker: u64,
) -> WorkerEnd
    requires out { IfSome (D.back door.old) (λ visits. length visits ≤ D.given door.old) }
    ensures worker { result.pass ≡ worker }
    ensures given { D.given door.new ≡ D.given door.old + result.connections }
    ensures stated { D.stated door.new ≡ D.stated door.old }
    ensures ends { Ended result.listen_failed (D.stated door.new) (D.given door.new) (D.faults door.old) (D.faults door.new) }
    ensures serves { ServedDoor AttendsRegistry D.Conn.left D.Conn.written registry.now registry.now
        (D.coming door.old) (D.coming door.new) (D.back door.old) (D.back door.new) result.connections }
{
    let mut clerk = Clerk { registry };
    let end = attend_door(rt, alloc, door, &mut clerk);
    WorkerEnd {
        pass: worker,
        connections: end.connections,
        listen_failed: end.failed,
    }
}

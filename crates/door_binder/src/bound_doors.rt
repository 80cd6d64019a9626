// A door in memory that was bound.
ghost use Rattle.std.specs.Prelude.{◌≡◌, ◌<◌, ◌++◌, ◌∷◌, [], IfOk, IfSome, length};
ghost use Rattle.link_doors.specs.Connections.{IsNewInMemory};
ghost use Rattle.link_doors.specs.Doors.{AcceptsInMemory};
ghost use Rattle.link_doors.specs.Visits.{LeavesFit};
ghost use Rattle.door_binder.specs.BoundDoors.{cut};

use link_doors::{Leave, Listener, MemConn, MemDoor, Returned};
use link_port::Failed;
use std::marker::Model;

/// A door in memory that was bound: it gives no more connections than was said. Contracts see the door
/// with those connections alone.
#[derive(Debug, Drop)]
pub struct BoundDoor {
    door: MemDoor,
    /// How many connections it still gives at most, where that was said.
    left: Option<u64>,
}

impl Model for BoundDoor {
    ghost use Rattle.link_doors.specs.Doors.{DoorInMemory};
    ghost use Rattle.door_binder.specs.BoundDoors.{cut};

    ghost Value = { DoorInMemory };

    ghost view = { λ bound. cut bound.left bound.door };
}

impl BoundDoor {
    /// The door, which gives at most so many connections, where that is said.
    pub fn new(door: MemDoor, connections: Option<u64>) -> BoundDoor
        ensures { result ≡ cut connections door }
    {
        BoundDoor {
            door,
            left: connections,
        }
    }

    /// Lends the connections that were given back, in order.
    pub fn returned(&self) -> &[Returned]
        ensures { result.now ≡ self.now.back }
    {
        self.door.returned()
    }
}

impl Listener for BoundDoor {
    ghost use Rattle.std.specs.Prelude.{◌+◌, Some, length, map};
    ghost use Rattle.link_doors.specs.Doors.{visit_back};

    type Conn = MemConn;

    ghost stated = { λ door. Some (door.given + length door.coming) };

    ghost given = { λ door. door.given };

    ghost faults = { λ door. 0 };

    ghost coming = { λ door. Some door.coming };

    ghost back = { λ door. Some (map visit_back door.back) };

    fn accept(&mut self) -> Result<Option<MemConn>, Failed>
        ensures exact { AcceptsInMemory self.old result self.new }
        ensures fresh { IfOk result (λ conn. IfSome conn IsNewInMemory) }
    {
        match self.left {
            None => self.door.accept(),
            Some(0) => Ok(None),
            Some(left) => {
                let conn = self.door.accept();
                self.left = Some(left - 1);
                conn
            }
        }
    }

    fn done(&mut self, conn: MemConn, leave: Leave, entries: u64)
        requires out { length self.old.back < self.old.given }
        requires fits { LeavesFit leave conn.source.calls.faults conn.sink.calls.faults }
        ensures exact { self.new ≡ record {
          coming = self.old.coming;
          given = self.old.given;
          back = self.old.back ++ record { conn = conn; leave = leave; entries = entries } ∷ [];
        } }
    {
        self.door.done(conn, leave, entries);
    }
}

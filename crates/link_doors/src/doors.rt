// A door in memory.
ghost use Rattle.std.specs.Prelude.{◌≡◌, ◌<◌, ◌+◌, ◌++◌, ◌∷◌, [], IfOk, IfSome, length};
ghost use Rattle.link_doors.specs.Connections.{AreNew, IsNewInMemory};
ghost use Rattle.link_doors.specs.Doors.{AcceptsInMemory};
ghost use Rattle.link_doors.specs.Visits.{LeavesFit};

use crate::connections::MemConn;
use crate::listeners::{Leave, Listener};
use crate::returned::Returned;
use link_port::{Failed, List, Memory};
use std::alloc::Global;
use std::marker::Model;

/// A door in memory: it gives its connections in order, and keeps those that are given back.
#[derive(Debug, Drop)]
pub struct MemDoor {
    /// The connections still to come, the last one first.
    coming: Vec<MemConn>,
    given: u64,
    back: Vec<Returned>,
}

impl Model for MemDoor {
    ghost use Rattle.std.specs.Prelude.{◌+◌, ◌≤◌, reverse, vec_len, vec_capacity};
    ghost use Rattle.link_doors.specs.Connections.{AreNew};
    ghost use Rattle.link_doors.specs.Doors.{DoorInMemory};

    ghost Value = { DoorInMemory };

    ghost view = { λ door. record { coming = reverse door.coming.items; given = door.given; back = door.back.items } };

    ghost invariant = { λ door. (vec_len door.back ≤ door.given) × (door.given + vec_len door.coming ≤ vec_capacity door.back)
        × AreNew (reverse door.coming.items) };
}

impl MemDoor {
    /// A door that gives these connections, and has room for all of them when they are given back.
    pub fn new(alloc: Global, connections: List<MemConn>) -> Result<MemDoor, Memory>
        requires { AreNew connections }
        ensures { IfOk result (λ door. door ≡ record { coming = connections; given = 0; back = [] }) }
    {
        let mut coming = connections.into_vec();
        coming.reverse();
        let back = match Vec::with_capacity(alloc, coming.len()) {
            Ok(back) => back,
            Err(_) => {
                drop(coming);
                return Err(Memory);
            }
        };
        Ok(MemDoor {
            coming,
            given: 0,
            back,
        })
    }

    /// Lends the connections that were given back, in order.
    pub fn returned(&self) -> &[Returned]
        ensures { result.now ≡ self.now.back }
    {
        self.back.as_slice()
    }
}

impl Listener for MemDoor {
    ghost use Rattle.std.specs.Prelude.{◌+◌, Some, length, map};
    ghost use Rattle.link_doors.specs.Doors.{visit_back};

    type Conn = MemConn;

    ghost stated = { λ door. Some (door.given + length door.coming) };

    ghost given = { λ door. door.given };

    ghost faults = { λ door. 0 };

    ghost coming = { λ door. Some door.coming };

    ghost back = { λ door. Some (map visit_back door.back) };

    fn accept(&mut self) -> Result<Option<MemConn>, Failed>
        ensures exact { AcceptsInMemory self.old result self.new }
        ensures fresh { IfOk result (λ conn. IfSome conn IsNewInMemory) }
    {
        match self.coming.pop() {
            None => Ok(None),
            Some(conn) => {
                self.given += 1;
                Ok(Some(conn))
            }
        }
    }

    fn done(&mut self, conn: MemConn, leave: Leave, entries: u64)
        requires out { length self.old.back < self.old.given }
        requires fits { LeavesFit leave conn.source.calls.faults conn.sink.calls.faults }
        ensures exact { self.new ≡ record {
          coming = self.old.coming;
          given = self.old.given;
          back = self.old.back ++ record { conn = conn; leave = leave; entries = entries } ∷ [];
        } }
    {
        let returned = Returned {
            conn,
            leave,
            entries,
        };
        match self.back.push(returned) {
            Ok(()) => {}
            Err(_) => unreachable!(),
        }
    }
}

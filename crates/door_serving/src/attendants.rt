// What attends the connections of a door, and the loop over them.
ghost use Rattle.std.specs.Prelude.{◌≡◌, false, ◌+◌, ◌<◌, ◌≤◌, ℕ, List, IfSome, length};
ghost use Rattle.std.specs.declared.option.Option.{Option};
ghost use Rattle.session_core.specs.declared.stops.Stop.{Stop};
ghost use Rattle.session_core.specs.Served.{ReadFaults, WriteFaults};
ghost use Rattle.link_doors.specs.Accepts.{IsNew};
ghost use Rattle.link_doors.specs.Visits.{with_visit};
ghost use Rattle.door_serving.specs.Attended.{AttendedAndBack, Ended, ServedDoor};

use crate::stops::leave;
use link_doors::Listener;
use link_port::{Failed, Sink, Source};
use session_core::Stop;
use std::alloc::Global;
use std::sync::Wait;

/// How the session of a connection had stopped, and how many entries it made in a history.
#[derive(Drop)]
pub(crate) struct Sitting {
    pub(crate) stop: Stop,
    pub(crate) entries: u64,
}

/// What attends connections, one after another.
pub(crate) trait Attendant {
    // How the session of one connection takes it from one state to another.
    ghost attends: { Self → Self → Option (List ℕ) → Option (List ℕ) → Option (List ℕ) → Option (List ℕ) → Stop → ℕ → Type 0 };

    // That state stands for the same attendant as this one.
    ghost same: { Self → Self → Type 0 };

    /// Attends one connection to the stop of its session.
    fn attend<C: Source + Sink, R: Wait>(
        &mut self,
        rt: &R,
        alloc: Global,
        link: &mut C,
        connection: u64,
    ) -> Sitting
        requires { C.finished link.old ≡ false }
        ensures attends { attends self.old self.new (C.left link.old) (C.left link.new)
            (C.written link.old) (C.written link.new) result.stop result.entries }
        ensures reads { ReadFaults result.stop (C.read_faults link.old) (C.read_faults link.new) }
        ensures writes { WriteFaults result.stop (C.write_faults link.old) (C.write_faults link.new) }
        ensures same { same self.old self.new };

    // It is the same as itself.
    ghost same_self: { (a : Self) → same a a };

    // It stays the same over connections in a row.
    ghost same_on: { (a b c : Self) → same a b → same b c → same a c };
}

/// How the connections of a door came to their end.
#[derive(Drop)]
pub(crate) struct DoorEnd {
    pub(crate) connections: u64,
    pub(crate) failed: bool,
}

/// Attends the connections of a door until it has given all that it states, or fails.
pub(crate) fn attend_door<D: Listener, A: Attendant, R: Wait>(
    rt: &R,
    alloc: Global,
    door: &mut D,
    attendant: &mut A,
) -> DoorEnd
    requires out { IfSome (D.back door.old) (λ visits. length visits ≤ D.given door.old) }
    ensures given { D.given door.new ≡ D.given door.old + result.connections }
    ensures stated { D.stated door.new ≡ D.stated door.old }
    ensures ends { Ended result.failed (D.stated door.new) (D.given door.new) (D.faults door.old) (D.faults door.new) }
    ensures serves { ServedDoor A.attends D.Conn.left D.Conn.written attendant.old attendant.new
        (D.coming door.old) (D.coming door.new) (D.back door.old) (D.back door.new) result.connections }
    ensures same { A.same attendant.old attendant.new }
{
    for connections in 0..u64::MAX {
        match door.accept() {
            Ok(Some(conn)) => attend_one(rt, alloc, door, attendant, conn, connections),
            Ok(None) => {
                return DoorEnd {
                    connections,
                    failed: false,
                };
            }
            Err(Failed) => {
                return DoorEnd {
                    connections,
                    failed: true,
                };
            }
        }
    }
    stand_still(rt);
    unreachable!()
}

// Waits without end, behind more connections than can be counted.
fn stand_still<R: Wait>(rt: &R)
    ensures { ⊥ }
{
    for _ in rt.forever() {}
    unreachable!()
}

// Attends a connection that the door gave, and gives it back.
fn attend_one<D: Listener, A: Attendant, R: Wait>(
    rt: &R,
    alloc: Global,
    door: &mut D,
    attendant: &mut A,
    mut conn: D::Conn,
    connection: u64,
)
    requires out { IfSome (D.back door.old) (λ visits. length visits < D.given door.old) }
    requires fresh { IsNew (D.Conn.written conn) (D.Conn.read_faults conn) (D.Conn.write_faults conn) (D.Conn.finished conn) }
    ensures back { AttendedAndBack A.attends attendant.old attendant.new (D.Conn.left conn) (D.Conn.written conn)
        (D.back door.old) (D.back door.new) }
    ensures given { D.given door.new ≡ D.given door.old }
    ensures stated { D.stated door.new ≡ D.stated door.old }
    ensures coming { D.coming door.new ≡ D.coming door.old }
    ensures faults { D.faults door.new ≡ D.faults door.old }
    ensures same { A.same attendant.old attendant.new }
{
    let Sitting { stop, entries } = attendant.attend(rt, alloc, &mut conn, connection);
    door.done(conn, leave(stop), entries);
}

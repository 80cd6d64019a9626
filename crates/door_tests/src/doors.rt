// Connections are accepted in order, used, and given back.
ghost use Rattle.std.specs.Prelude.{◌≡◌, [], length, IfOk};
ghost use Rattle.link_doors.specs.Connections.{IsNewInMemory};
ghost use Rattle.link_doors.specs.Visits.{LeavesFit};

use link_doors::{Gate, Leave, Listener, MemConn, MemDoor, OpenGate, Returned};
use link_port::{List, MemSink, MemSource, Memory, Sink, Source};
use std::alloc::Global;

/// A connection whose peer says these bytes.
fn connection(alloc: Global, says: &str) -> Result<MemConn, Memory>
    ensures { IfOk result IsNewInMemory }
{
    let bytes = List::from_vec(Vec::from_slice(alloc, says.as_bytes())?);
    let source = MemSource::new(alloc, bytes, List::new(alloc), List::new(alloc))?;
    match MemSink::new(alloc, 16, List::new(alloc), List::new(alloc)) {
        Ok(sink) => Ok(MemConn::new(source, sink)),
        Err(memory) => {
            drop(source);
            Err(memory)
        }
    }
}

/// A door for two connections, whose peers say `one` and `two`.
fn door(alloc: Global) -> Result<MemDoor, Memory>
    ensures { IfOk result (λ door. (door.given ≡ 0) × (door.back ≡ [])) }
{
    let one = connection(alloc, "one")?;
    let two = match connection(alloc, "two") {
        Ok(two) => two,
        Err(memory) => {
            drop(one);
            return Err(memory);
        }
    };
    match vec![in alloc; one, two] {
        Ok(connections) => MemDoor::new(alloc, List::from_vec(connections)),
        Err(failed) => {
            drop(failed);
            Err(Memory)
        }
    }
}

/// Whether the next connection says this, and gets a reply before it is given back.
fn is_served(door: &mut MemDoor, says: &[u8], leave: Leave, entries: u64) -> bool
    requires back { length door.old.back ≡ door.old.given }
    requires leave { LeavesFit leave 0 0 }
    ensures { length door.new.back ≡ door.new.given }
{
    let Ok(Some(mut conn)) = door.accept() else {
        return false;
    };
    let mut into = [0u8; 8];
    let taken = conn.take(&mut into);
    let put = conn.put(b"ok");
    door.done(conn, leave, entries);
    (taken, put) == (Ok(3), Ok(2)) && into.starts_with(says)
}

/// Whether this is what a served connection leaves.
fn is_left(returned: Option<&Returned>, leave: Leave, entries: u64) -> bool {
    match returned {
        Some(returned) => {
            returned.conn.written() == b"ok".as_slice()
                && (returned.leave, returned.entries) == (leave, entries)
        }
        None => false,
    }
}

/// Whether both connections are served in order, and no third comes.
fn serves_both(door: &mut MemDoor) -> bool
    requires { length door.old.back ≡ door.old.given }
{
    is_served(door, b"one", Leave::Whole, 1)
        && is_served(door, b"two", Leave::Worn, 2)
        && door.accept().is_ok_and(|conn| conn.is_none())
        && is_left(door.returned().first(), Leave::Whole, 1)
        && is_left(door.returned().last(), Leave::Worn, 2)
}

#[test]
fn a_door_gives_its_connections_in_order_and_keeps_them(rt: HostRuntime) {
    let served = match door(rt.alloc()) {
        Ok(mut door) => {
            let right = serves_both(&mut door);
            drop(door);
            right
        }
        Err(Memory) => false,
    };
    assert!(rt; served);
}

#[test]
fn an_open_gate_lets_each_call_through(rt: HostRuntime) {
    let gate = OpenGate::new();
    gate.before(&rt, 0, 0, 0);
    gate.after(&rt, 0, 0, 0);
}

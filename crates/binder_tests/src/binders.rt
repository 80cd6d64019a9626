// Doors are bound, used and given back.
ghost use Rattle.std.specs.Prelude.{◌≡◌, [], All, Some, IfOk, map};
ghost use Rattle.link_doors.specs.Connections.{IsNewInMemory};
ghost use Rattle.link_doors.specs.Doors.{visit_back};
ghost use Rattle.door_binder.specs.Binds.{IsUnused};
ghost use Rattle.door_binder.specs.BoundDoors.{IsFresh};

use door_binder::{Bind, Binder, BoundDoor, MemBinder};
use link_doors::{Address, Leave, Listener, MemConn, MemDoor};
use link_port::{List, MemSink, MemSource, Memory, Sink, Source, Text};
use link_reach::DialFault;
use std::alloc::Global;

// A connection whose peer says these bytes.
fn connection(alloc: Global, says: &str) -> Result<MemConn, Memory>
    ensures { IfOk result IsNewInMemory }
{
    let bytes = List::from_vec(Vec::from_slice(alloc, says.as_bytes())?);
    let source = MemSource::new(alloc, bytes, List::new(alloc), List::new(alloc))?;
    match MemSink::new(alloc, 16, List::new(alloc), List::new(alloc)) {
        Ok(sink) => Ok(MemConn::new(source, sink)),
        Err(memory) => {
            drop(source);
            Err(memory)
        }
    }
}

// A door for two connections, whose peers say this and `more`.
fn door(alloc: Global, says: &str) -> Result<MemDoor, Memory>
    ensures { IfOk result IsFresh }
{
    let first = connection(alloc, says)?;
    let second = match connection(alloc, "more") {
        Ok(second) => second,
        Err(memory) => {
            drop(first);
            return Err(memory);
        }
    };
    match vec![in alloc; first, second] {
        Ok(connections) => MemDoor::new(alloc, List::from_vec(connections)),
        Err(failed) => {
            drop(failed);
            Err(Memory)
        }
    }
}

// Adds a door.
fn add_door(alloc: Global, doors: &mut Vec<MemDoor>, says: &str) -> Result<(), Memory>
    requires { All IsFresh doors.old.items }
    ensures { All IsFresh doors.new.items }
{
    let door = door(alloc, says)?;
    match doors.push(door) {
        Ok(()) => Ok(()),
        Err(_) => Err(Memory),
    }
}

// A binder of two doors, of which the binds with these numbers fail.
fn binder(alloc: Global, failing: &[u64]) -> Result<MemBinder, Memory> {
    let failing = List::from_vec(Vec::from_slice(alloc, failing)?);
    let mut doors = Vec::new(alloc);
    let added = match add_door(alloc, &mut doors, "one") {
        Ok(()) => add_door(alloc, &mut doors, "two"),
        Err(memory) => Err(memory),
    };
    match added {
        Ok(()) => MemBinder::new(alloc, doors, failing),
        Err(memory) => {
            drop((failing, doors));
            Err(memory)
        }
    }
}

// Whether the next connection of an unused door says this, and gets a reply before it is given back.
fn is_served(door: &mut BoundDoor, says: &[u8]) -> bool
    requires given { door.old.given ≡ 0 }
    requires none { map visit_back door.old.back ≡ [] }
{
    let Ok(Some(mut conn)) = door.accept() else {
        return false;
    };
    let mut into = [0u8; 8];
    let taken = conn.take(&mut into);
    let put = conn.put(b"ok");
    door.done(conn, Leave::Whole, 1);
    (taken, put) == (Ok(3), Ok(2)) && into.starts_with(says)
}

// Whether no connection comes any more.
fn is_over(door: &mut BoundDoor) -> bool {
    match door.accept() {
        Ok(None) => true,
        _ => false,
    }
}

// Whether the first of unused doors serves a connection that says this.
fn serves_first(doors: &mut Vec<BoundDoor>, says: &[u8]) -> bool
    requires { All (λ door. IsUnused door.given 0 (Some (map visit_back door.back))) doors.old.items }
{
    if doors.is_empty() {
        return false;
    }
    is_served(&mut doors[0], says)
}

// Whether the first door gives no connection any more.
fn first_is_over(doors: &mut Vec<BoundDoor>) -> bool {
    if doors.is_empty() {
        return false;
    }
    is_over(&mut doors[0])
}

// Whether so many doors are bound, and the first one's first connection is this one. They are given back.
fn is_bound(
    alloc: Global,
    binder: &mut MemBinder,
    address: &Address,
    doors: u64,
    says: &[u8],
) -> bool {
    match binder.bind(alloc, address, doors, None) {
        Ok(mut made) => {
            let right = made.len() as u64 == doors && serves_first(&mut made, says);
            binder.free(made);
            right
        }
        Err(_) => false,
    }
}

// Whether a door gives one connection of its two.
fn is_cut(alloc: Global, binder: &mut MemBinder, address: &Address) -> bool {
    match binder.bind(alloc, address, 1, Some(1)) {
        Ok(mut made) => {
            let right = serves_first(&mut made, b"one") && first_is_over(&mut made);
            binder.free(made);
            right
        }
        Err(_) => false,
    }
}

// Whether a bind fails so.
fn fails(alloc: Global, binder: &mut MemBinder, address: &Address, doors: u64) -> bool {
    match binder.bind(alloc, address, doors, None) {
        Ok(made) => {
            binder.free(made);
            false
        }
        Err(fault) => fault == DialFault::Failed,
    }
}

// Whether this was asked.
fn is_bind(bind: &Bind, doors: u64, connections: Option<u64>) -> bool {
    let there = match &bind.address {
        Address::Unix(path) => path.as_str() == "/a",
        Address::Tcp { .. } => false,
    };
    there && bind.doors == doors && bind.connections == connections
}

// Whether these were the binds.
fn are_binds(binds: &[Bind], wants: &[(u64, Option<u64>)]) -> bool {
    binds.len() == wants.len()
        && binds
            .iter()
            .zip(wants.iter())
            .all(|(bind, want)| is_bind(bind, want.0, want.1))
}

// Whether the first door given back has one connection back, with the reply, and the others have none.
fn are_back(freed: &[BoundDoor]) -> bool {
    match freed {
        [first, rest @ ..] => {
            rest.iter().all(|door| door.returned().is_empty()) && has_reply(first)
        }
        [] => false,
    }
}

fn has_reply(door: &BoundDoor) -> bool {
    match door.returned() {
        [returned] => {
            returned.conn.written() == b"ok".as_slice()
                && (returned.leave, returned.entries) == (Leave::Whole, 1)
        }
        _ => false,
    }
}

// Whether two doors are bound, and there is no third one.
fn binds_two(alloc: Global, mut binder: MemBinder, address: &Address) -> bool {
    let bound = is_bound(alloc, &mut binder, address, 2, b"one");
    let back = are_back(binder.freed()) && binder.freed().len() == 2;
    let none = fails(alloc, &mut binder, address, 1);
    let logged = are_binds(binder.binds(), &[(2, None), (1, None)]);
    drop(binder);
    bound && back && none && logged
}

// Whether doors are bound in order, where there are enough of them and the bind is none that is to fail.
fn binds_in_order(alloc: Global, mut binder: MemBinder, address: &Address) -> bool {
    let first = fails(alloc, &mut binder, address, 1);
    let cut = is_cut(alloc, &mut binder, address);
    let many = fails(alloc, &mut binder, address, 2);
    let last = is_bound(alloc, &mut binder, address, 1, b"two");
    let logged = are_binds(
        binder.binds(),
        &[(1, None), (1, Some(1)), (2, None), (1, None)],
    );
    drop(binder);
    first && cut && many && last && logged
}

fn address(alloc: Global) -> Result<Address, Memory> {
    Ok(Address::Unix(Text::of(alloc, "/a")?))
}

fn is_right_of_two(alloc: Global, address: &Address) -> bool {
    match binder(alloc, &[]) {
        Ok(binder) => binds_two(alloc, binder, address),
        Err(Memory) => false,
    }
}

fn is_right_in_order(alloc: Global, address: &Address) -> bool {
    match binder(alloc, &[0]) {
        Ok(binder) => binds_in_order(alloc, binder, address),
        Err(Memory) => false,
    }
}

#[test]
fn doors_are_bound_used_and_given_back(rt: HostRuntime) {
    let right = match address(rt.alloc()) {
        Ok(address) => is_right_of_two(rt.alloc(), &address),
        Err(Memory) => false,
    };
    assert!(rt; right);
}

#[test]
fn doors_are_bound_in_order_and_cut(rt: HostRuntime) {
    let right = match address(rt.alloc()) {
        Ok(address) => is_right_in_order(rt.alloc(), &address),
        Err(Memory) => false,
    };
    assert!(rt; right);
}

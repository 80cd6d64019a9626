// Two doors of one service.
ghost use Rattle.std.specs.Prelude.{◌≡◌, [], All, length};

use crate::doors::{doors, is_left};
use crate::sheets::COUNT;
use door_host::{HISTORY_LIMIT, Served, serve};
use link_doors::{Gate, MemDoor, OpenGate};
use link_port::Memory;
use service_core::{Request, Service};
use sheet_form::read;
use std::alloc::Global;
use std::sync::Wait;
use std::thread::Threads;
use turn_desk::Kept;
use typed_value::Val;

pub const ADD: &str = "{\"method\":\"org.example.count.Add\",\"parameters\":{\"amount\":1}}\0";

const PING: &str = "{\"method\":\"org.example.count.Ping\"}\0";

pub const ONE: &str = "{\"parameters\":{\"total\":1}}\0";

pub const TWO: &str = "{\"parameters\":{\"total\":2}}\0";

const NO_RULE: &str =
    "{\"error\":\"org.varlink.service.MethodNotImplemented\",\"parameters\":{\"method\":\"org.example.count.Ping\"}}\0";

/// One was added once.
const ONCE: Made = Made {
    entries: 1,
    total: 1,
};

/// One was added twice.
pub const TWICE: Made = Made {
    entries: 2,
    total: 2,
};

/// The service of the count sheet.
pub fn count_service(alloc: Global) -> Result<Service, Memory> {
    match read(alloc, COUNT.as_bytes()) {
        Ok(sheet) => Service::new(alloc, sheet),
        Err(fault) => {
            drop(fault);
            Err(Memory)
        }
    }
}

/// What is made by the two workers: so many entries, and this total.
#[derive(Clone, Copy)]
pub struct Made {
    pub entries: u64,
    pub total: i64,
}

/// Whether this was made.
pub fn is_served(served: &Served<Kept<Request>>, made: Made) -> bool {
    let total = served.board.registers().values().first();
    let ended = served
        .ends
        .iter()
        .all(|end| end.connections == 1 && !end.listen_failed);
    served.entries == made.entries
        && served.ledger.entries.len() as u64 == made.entries
        && matches!(total, Some(Val::Int(number)) if *number == made.total)
        && served.ends.len() == 2
        && ended
}

/// What two doors of one connection each must be left with: the bytes written, and the number of entries.
pub type Left<'a> = [(&'a str, u64); 2];

/// Whether two doors whose peers say this are left so, with this made in all.
pub fn serves<R: Threads + Wait + Sync, G: Gate + Sync>(
    rt: &R,
    alloc: Global,
    gate: &G,
    says: [&str; 2],
    made: Made,
    wanted: &[Left<'_>],
) -> bool {
    let Ok(service) = count_service(alloc) else {
        return false;
    };
    let right = match doors(alloc, says) {
        Ok(mut doors) => {
            let made = is_made(rt, alloc, gate, &mut doors, &service, made);
            let left = wanted.iter().any(|left| are_left(doors.as_slice(), *left));
            drop(doors);
            made && left
        }
        Err(memory) => {
            drop(memory);
            false
        }
    };
    drop(service);
    right
}

/// Whether the doors are served, and this is made.
fn is_made<R: Threads + Wait + Sync, G: Gate + Sync>(
    rt: &R,
    alloc: Global,
    gate: &G,
    doors: &mut Vec<MemDoor>,
    service: &Service,
    made: Made,
) -> bool
    requires few { length doors.old.items ≡ 2 }
    requires none { All (λ door. (door.given ≡ 0) × (door.back ≡ [])) doors.old.items }
{
    let served: Result<Served<Kept<Request>>, Memory> = serve(
        rt,
        alloc,
        doors,
        service,
        gate,
        HISTORY_LIMIT,
    );
    match served {
        Ok(served) => {
            let made = is_served(&served, made);
            drop(served);
            made
        }
        Err(memory) => {
            drop(memory);
            false
        }
    }
}

fn are_left(doors: &[MemDoor], left: Left<'_>) -> bool {
    match doors {
        [one, two] => is_left(one, left[0].0, left[0].1) && is_left(two, left[1].0, left[1].1),
        _ => false,
    }
}

#[test]
fn doors_are_left_in_their_order(rt: HostRuntime) {
    let left: [Left<'_>; 1] = [[(ONE, 1), (NO_RULE, 0)]];
    let gate = OpenGate::new();
    assert!(rt; serves(&rt, rt.alloc(), &gate, [ADD, PING], ONCE, &left));
}

#[test]
fn connections_of_two_doors_share_the_registers(rt: HostRuntime) {
    let left: [Left<'_>; 2] = [[(ONE, 1), (TWO, 1)], [(TWO, 1), (ONE, 1)]];
    let gate = OpenGate::new();
    assert!(rt; serves(&rt, rt.alloc(), &gate, [ADD, ADD], TWICE, &left));
}

// A door whose connections a seat serves.
use crate::connections::{Row, are_left, door};
use crate::sheets::COUNT;
use door_serving::{WorkerEnd, serve_door};
use link_doors::{Leave, MemDoor, OpenGate};
use link_port::Memory;
use service_core::{Request, Service};
use service_desk::{Board, Seated};
use sheet_form::read;
use std::alloc::Global;
use std::sync::Wait;
use turn_desk::{Desk, Kept};

pub type Whole = Kept<Request>;

const ADD: &str = "{\"method\":\"org.example.count.Add\",\"parameters\":{\"amount\":1}}\0";

const ADD_TWICE: &str =
    "{\"method\":\"org.example.count.Add\",\"parameters\":{\"amount\":1}}\0{\"method\":\"org.example.count.Add\",\"parameters\":{\"amount\":1}}\0";

const LESS_ONEWAY: &str =
    "{\"method\":\"org.example.count.Add\",\"oneway\":true,\"parameters\":{\"amount\":-1}}\0";

const PING_AND_CUT: &str = "{\"method\":\"org.example.count.Ping\"}\0{\"me";

const ECHO: &str = "{\"method\":\"org.example.count.Echo\",\"upgrade\":true}\0raw";

const NO_CALL: &str = "[]\0";

const ONE: &str = "{\"parameters\":{\"total\":1}}\0";

const TWO: &str = "{\"parameters\":{\"total\":2}}\0";

const BOTH: &str = "{\"parameters\":{\"total\":1}}\0{\"parameters\":{\"total\":2}}\0";

const ECHOED: &str = "{\"parameters\":{}}\0raw";

const NO_RULE: &str =
    "{\"error\":\"org.varlink.service.MethodNotImplemented\",\"parameters\":{\"method\":\"org.example.count.Ping\"}}\0";

/// Two connections that add one, each to what is there.
const ADDING: Row<'static> = Row {
    says: [ADD, ADD],
    failing_takes: &[],
    failing_puts: &[],
    leaves: [(ONE, Leave::Whole, 1), (TWO, Leave::Whole, 1)],
};

/// The service of the count sheet.
pub fn count_service(alloc: Global) -> Result<Service, Memory> {
    match read(alloc, COUNT.as_bytes()) {
        Ok(sheet) => Service::new(alloc, sheet),
        Err(fault) => {
            drop(fault);
            Err(Memory)
        }
    }
}

/// Whether a desk of this limit, with a pass of so many asks, leaves each of the two connections so.
fn serves<R: Wait>(
    rt: &R,
    alloc: Global,
    service: &Service,
    limit: u32,
    asks: u32,
    row: &Row<'_>,
) -> bool {
    let Ok(board) = Board::start(alloc, service) else {
        return false;
    };
    let Ok((desk, mut pass)) = Desk::<Board, Whole>::start(alloc, board, limit as u64) else {
        return false;
    };
    let other = desk.split(&mut pass, asks as u64);
    let mut seated = Seated::new(service, &desk, other);
    let right = serves_door(rt, alloc, &mut seated, row);
    drop(seated);
    drop(pass);
    right
}

/// Whether the seat leaves each of the two connections so.
fn serves_door<'x, R: Wait>(
    rt: &R,
    alloc: Global,
    seated: &mut Seated<'x, Whole>,
    row: &Row<'_>,
) -> bool {
    let Ok(mut door) = door(alloc, row) else {
        return false;
    };
    let end = serve_door(rt, alloc, &mut door, seated, &OpenGate::new(), 0);
    let right = end
        == WorkerEnd {
            pass: 1,
            connections: 2,
            listen_failed: false,
        }
        && are_left(&door, row);
    drop(door);
    right
}

/// Whether each row is so, at a desk of this limit with a pass of so many asks.
fn are_served<R: Wait>(rt: &R, alloc: Global, limit: u32, asks: u32, rows: &[Row<'_>]) -> bool {
    let Ok(service) = count_service(alloc) else {
        return false;
    };
    let right = rows
        .iter()
        .all(|row| serves(rt, alloc, &service, limit, asks, row));
    drop(service);
    right
}

#[test]
fn connections_share_the_registers(rt: HostRuntime) {
    let rows = [
        ADDING,
        Row {
            says: [LESS_ONEWAY, ADD_TWICE],
            leaves: [("", Leave::Whole, 1), (BOTH, Leave::Whole, 2)],
            ..ADDING
        },
        Row {
            says: [PING_AND_CUT, ECHO],
            leaves: [(NO_RULE, Leave::Whole, 0), (ECHOED, Leave::Whole, 1)],
            ..ADDING
        },
        Row {
            says: [NO_CALL, ADD],
            leaves: [("", Leave::Whole, 0), (ONE, Leave::Whole, 1)],
            ..ADDING
        },
    ];
    assert!(rt; are_served(&rt, rt.alloc(), 1 << 28, 100, &rows));
}

#[test]
fn a_connection_that_fails_ends_alone(rt: HostRuntime) {
    let rows = [
        Row {
            failing_takes: &[0],
            leaves: [("", Leave::ReadFault, 0), (ONE, Leave::Whole, 1)],
            ..ADDING
        },
        Row {
            failing_puts: &[0],
            leaves: [("", Leave::WriteFault, 1), (TWO, Leave::Whole, 1)],
            ..ADDING
        },
    ];
    assert!(rt; are_served(&rt, rt.alloc(), 1 << 28, 100, &rows));
}

#[test]
fn a_full_history_ends_each_connection_that_asks_for_a_step(rt: HostRuntime) {
    let rows = [
        Row {
            says: [ADD_TWICE, ADD],
            leaves: [
                (ONE, Leave::Full { bytes: 192 }, 1),
                ("", Leave::Full { bytes: 192 }, 0),
            ],
            ..ADDING
        },
        Row {
            says: [ADD_TWICE, PING_AND_CUT],
            leaves: [
                (ONE, Leave::Full { bytes: 192 }, 1),
                (NO_RULE, Leave::Whole, 0),
            ],
            ..ADDING
        },
    ];
    assert!(rt; are_served(&rt, rt.alloc(), 192, 100, &rows));
}

#[test]
fn a_worn_pass_ends_each_connection_that_asks_for_a_step(rt: HostRuntime) {
    let row = Row {
        says: [ADD_TWICE, ADD],
        leaves: [(ONE, Leave::Worn, 1), ("", Leave::Worn, 0)],
        ..ADDING
    };
    assert!(rt; are_served(&rt, rt.alloc(), 1 << 28, 1, &[row]));
}

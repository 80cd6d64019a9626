// A door whose connections a registry serves.
use crate::connections::{Row, are_left, door};
use door_serving::{WorkerEnd, serve_registry_door};
use link_doors::Leave;
use resolver_core::Registry;
use std::alloc::Global;
use std::sync::Wait;

const REGISTRY: &str = "{\"org.example.count\":\"unix:/count\"}";

const RESOLVE: &str =
    "{\"method\":\"org.varlink.resolver.Resolve\",\"parameters\":{\"interface\":\"org.example.count\"}}\0";

const MISSING: &str =
    "{\"method\":\"org.varlink.resolver.Resolve\",\"parameters\":{\"interface\":\"a.b\"}}\0{";

const ADDRESS: &str = "{\"parameters\":{\"address\":\"unix:/count\"}}\0";

const NO_ADDRESS: &str =
    "{\"error\":\"org.varlink.resolver.InterfaceNotFound\",\"parameters\":{\"interface\":\"a.b\"}}\0";

/// Whether the registry leaves each of the two connections so.
fn serves<R: Wait>(rt: &R, alloc: Global, row: &Row<'_>) -> bool {
    let Ok(registry) = Registry::read(alloc, REGISTRY.as_bytes()) else {
        return false;
    };
    let right = match door(alloc, row) {
        Ok(mut door) => {
            let end = serve_registry_door(rt, alloc, &mut door, &registry, 7);
            let ended = end
                == WorkerEnd {
                    pass: 7,
                    connections: 2,
                    listen_failed: false,
                };
            let left = are_left(&door, row);
            drop(door);
            ended && left
        }
        Err(memory) => {
            drop(memory);
            false
        }
    };
    drop(registry);
    right
}

#[test]
fn a_registry_tells_addresses_on_each_connection(rt: HostRuntime) {
    let rows = [
        Row {
            says: [RESOLVE, MISSING],
            failing_takes: &[],
            failing_puts: &[],
            leaves: [(ADDRESS, Leave::Whole, 0), (NO_ADDRESS, Leave::Whole, 0)],
        },
        Row {
            says: [RESOLVE, RESOLVE],
            failing_takes: &[],
            failing_puts: &[0],
            leaves: [("", Leave::WriteFault, 0), (ADDRESS, Leave::Whole, 0)],
        },
    ];
    assert!(rt; rows.iter().all(|row| serves(&rt, rt.alloc(), row)));
}

// Calls to services, and what is written for them.
ghost use Rattle.std.specs.Prelude.{◌≡◌, false, IfOk};

use crate::sheets::OPENED;
use link_port::{List, MemSink, MemSource, Memory};
use service_core::{Alone, Service};
use session_core::{Stop, serve_alone};
use sheet_form::read;
use std::alloc::Global;

/// The calls of the service without a sheet.
const BARE: [(&str, &str); 3] = [
    (
        "{\"method\":\"org.varlink.service.GetInfo\"}\0",
        "{\"parameters\":{\"interfaces\":[\"org.varlink.service\"],\"product\":\"varlink\",\"url\":\"https://varlink.org\",\"vendor\":\"Varlink\",\"version\":\"1\"}}\0",
    ),
    (
        "{\"method\":\"org.varlink.service.GetInterfaceDescription\",\"parameters\":{\"interface\":1}}\0",
        "{\"error\":\"org.varlink.service.InvalidParameter\",\"parameters\":{\"parameter\":\"interface\"}}\0",
    ),
    (
        "{\"method\":\"a.b.C\"}\0",
        "{\"error\":\"org.varlink.service.InterfaceNotFound\",\"parameters\":{\"interface\":\"a.b\"}}\0",
    ),
];

/// A refused upgrade, which leaves the register as it was, and one that is accepted: its reply shows the
/// register after the step, and behind it the bytes come back.
const UPGRADES: [(&str, &str); 1] = [(
    "{\"method\":\"a.b.Open\",\"parameters\":{\"by\":-1},\"upgrade\":true}\0{\"method\":\"a.b.Open\",\"parameters\":{\"by\":2},\"upgrade\":true}\0raw\0bytes",
    "{\"error\":\"a.b.Shut\",\"parameters\":{\"by\":-1}}\0{\"parameters\":{\"opened\":2}}\0raw\0bytes",
)];

/// What a session is served with.
#[derive(Drop)]
pub struct Ends {
    pub source: MemSource,
    pub sink: MemSink,
}

fn source_of(alloc: Global, input: &[u8]) -> Result<MemSource, Memory> {
    match Vec::from_slice(alloc, input) {
        Ok(bytes) => {
            MemSource::new(
                alloc,
                List::from_vec(bytes),
                List::new(alloc),
                List::new(alloc),
            )
        }
        Err(_) => Err(Memory),
    }
}

/// A session's input, and room for its output; the puts of these numbers fail.
pub fn ends_of(alloc: Global, input: &[u8], room: u64, failing: List<u64>) -> Result<Ends, Memory>
    ensures { IfOk result (λ ends. ends.sink.finished ≡ false) }
{
    match source_of(alloc, input) {
        Ok(source) => match MemSink::new(alloc, room, List::new(alloc), failing) {
            Ok(sink) => Ok(Ends { source, sink }),
            Err(memory) => {
                drop(source);
                Err(memory)
            }
        },
        Err(memory) => {
            drop(failing);
            Err(memory)
        }
    }
}

/// The service of the sheet that a text is.
pub fn service_of(alloc: Global, text: &str) -> Result<Service, Memory> {
    match read(alloc, text.as_bytes()) {
        Ok(sheet) => Service::new(alloc, sheet),
        Err(fault) => {
            drop(fault);
            Err(Memory)
        }
    }
}

/// Whether the service gives this output to this input, and comes to this stop.
fn gives(alloc: Global, service: &Service, input: &str, output: &str, stop: Stop) -> bool {
    let Ok(ends) = ends_of(alloc, input.as_bytes(), 65536, List::new(alloc)) else {
        return false;
    };
    match Alone::new(alloc, service) {
        Ok(alone) => is_served(alloc, alone, ends, output, stop),
        Err(Memory) => {
            drop(ends);
            false
        }
    }
}

fn is_served<'x>(
    alloc: Global,
    mut alone: Alone<'x>,
    mut ends: Ends,
    output: &str,
    wanted: Stop,
) -> bool
    requires { ends.sink.finished ≡ false }
{
    let stop = serve_alone(alloc, &mut ends.source, &mut ends.sink, &mut alone);
    let right = stop == wanted && ends.sink.bytes() == output.as_bytes();
    drop((alone, ends));
    right
}

fn are_served<'x>(
    alloc: Global,
    made: Result<Service, Memory>,
    rows: &'x [(&'x str, &'x str)],
    stop: Stop,
) -> bool {
    let Ok(service) = made else {
        return false;
    };
    let mut right = true;
    for (input, output) in rows {
        right = right && gives(alloc, &service, input, output, stop);
    }
    drop(service);
    right
}

#[test]
fn the_bare_service_is_served(rt: HostRuntime) {
    assert!(rt; are_served(rt.alloc(), Service::bare(rt.alloc()), &BARE, Stop::End));
}

#[test]
fn upgrades_are_accepted_by_one_reply(rt: HostRuntime) {
    assert!(rt;
        are_served(
            rt.alloc(),
            service_of(rt.alloc(), OPENED),
            &UPGRADES,
            Stop::Upgraded
        )
    );
}

// The commands that serve, over doors in memory: what they are given, and what each connection is left with.
ghost use Rattle.std.specs.Prelude.{◌≡◌, [], All, IfOk, false};
ghost use Rattle.door_binder.specs.BoundDoors.{IsFresh};
ghost use Rattle.link_doors.specs.Connections.{IsNewInMemory};

use crate::rows::{beside, is_line, list, sink, source, texts};
use crate::sheets::COUNT;
use door_binder::{BoundDoor, MemBinder};
use link_doors::{Leave, MemConn, MemDoor, OpenGate};
use link_port::{List, MemFiles, MemSink, MemSource, Memory, Text};
use link_reach::MemReach;
use network_command::{Network, online};
use std::alloc::Global;
use std::sync::Wait;
use std::thread::Threads;
use varlink_command::{Desktop, Status};

type Fake = Network<MemSource, MemSink, MemSink, MemFiles, MemReach, MemBinder, OpenGate>;

/// What a command is given, and what it must leave.
#[derive(Clone, Copy)]
struct Case<'a> {
    words: &'a str,
    /// What the peer of the one connection of each door says.
    says: [&'a str; 2],
    /// The numbers of the binds that fail.
    failing_binds: &'a [u64],
    /// The numbers of the puts to the output that fail.
    failing_puts: &'a [u64],
    /// What each connection is left with, where the doors were given back.
    left: &'a [&'a str],
    /// How many binds there are.
    binds: usize,
    output: &'a str,
    status: u8,
    line: &'a str,
}

const ADD: &str = "{\"method\":\"org.example.count.Add\",\"parameters\":{\"amount\":1}}\0";

const PING: &str = "{\"method\":\"org.example.count.Ping\"}\0";

const ONE: &str = "{\"parameters\":{\"total\":1}}\0";

const NO_RULE: &str =
    "{\"error\":\"org.varlink.service.MethodNotImplemented\",\"parameters\":{\"method\":\"org.example.count.Ping\"}}\0";

const RESOLVE: &str =
    "{\"method\":\"org.varlink.resolver.Resolve\",\"parameters\":{\"interface\":\"a.b\"}}\0";

const ADDRESS: &str = "{\"parameters\":{\"address\":\"unix:/b\"}}\0";

/// A service at two doors.
const SERVED: Case<'static> = Case {
    words: "serve unix:/a sheet --workers 2 --connections 1",
    says: [ADD, PING],
    failing_binds: &[],
    failing_puts: &[],
    left: &[ONE, NO_RULE],
    binds: 1,
    output: "entries 1\n",
    status: 0,
    line: "",
};

/// A command that binds nothing.
const UNBOUND: Case<'static> = Case {
    left: &[],
    binds: 0,
    output: "",
    ..SERVED
};

/// A registry at two doors.
const RESOLVED: Case<'static> = Case {
    words: "resolver unix:/a registry --workers 2 --connections 1",
    says: [RESOLVE, RESOLVE],
    left: &[ADDRESS, ADDRESS],
    output: "",
    ..SERVED
};

/// A connection whose peer says these bytes.
fn connection(alloc: Global, says: &str) -> Result<MemConn, Memory>
    ensures { IfOk result IsNewInMemory }
{
    let bytes = list(alloc, says.as_bytes())?;
    let source = MemSource::new(alloc, bytes, List::new(alloc), List::new(alloc))?;
    match MemSink::new(alloc, 4096, List::new(alloc), List::new(alloc)) {
        Ok(sink) => Ok(MemConn::new(source, sink)),
        Err(memory) => {
            drop(source);
            Err(memory)
        }
    }
}

/// Adds a door for one connection.
fn add_door(alloc: Global, doors: &mut Vec<MemDoor>, says: &str) -> Result<(), Memory>
    requires { All IsFresh doors.old.items }
    ensures { All IsFresh doors.new.items }
{
    let connection = connection(alloc, says)?;
    let door = match vec![in alloc; connection] {
        Ok(connections) => MemDoor::new(alloc, List::from_vec(connections))?,
        Err(failed) => {
            drop(failed);
            return Err(Memory);
        }
    };
    match doors.push(door) {
        Ok(()) => Ok(()),
        Err(_) => Err(Memory),
    }
}

fn binder(alloc: Global, case: &Case<'_>) -> Result<MemBinder, Memory> {
    let failing = list(alloc, case.failing_binds)?;
    let mut doors = Vec::new(alloc);
    let added = match add_door(alloc, &mut doors, case.says[0]) {
        Ok(()) => add_door(alloc, &mut doors, case.says[1]),
        Err(memory) => Err(memory),
    };
    match added {
        Ok(()) => MemBinder::new(alloc, doors, failing),
        Err(memory) => {
            drop((failing, doors));
            Err(memory)
        }
    }
}

/// A file of this name and text.
fn held(alloc: Global, name: &str, text: &str) -> Result<(Text, List<u8>), Memory> {
    beside(Text::of(alloc, name)?, list(alloc, text.as_bytes()))
}

/// A sheet, a registry, and a registry with an address that is none.
fn files(alloc: Global) -> Result<MemFiles, Memory> {
    let named = [
        ("sheet", COUNT),
        ("registry", "{\"a.b\":\"unix:/b\"}"),
        ("bad", "{\"a.b\":\"b\"}"),
    ];
    let mut files = List::new(alloc);
    for (name, text) in named {
        match held(alloc, name, text) {
            Ok(file) => files.push(file)?,
            Err(memory) => {
                drop(files);
                return Err(memory);
            }
        }
    }
    MemFiles::new(alloc, files, List::new(alloc))
}

fn desktop(
    alloc: Global,
    case: &Case<'_>,
) -> Result<Desktop<MemSource, MemSink, MemSink, MemFiles>, Memory>
    ensures output { IfOk result (λ desktop. desktop.output.finished ≡ false) }
    ensures faults { IfOk result (λ desktop. desktop.faults.finished ≡ false) }
{
    let (input, files) = beside(source(alloc)?, files(alloc))?;
    let output = match sink(alloc, case.failing_puts) {
        Ok(output) => output,
        Err(memory) => {
            drop((input, files));
            return Err(memory);
        }
    };
    match sink(alloc, &[]) {
        Ok(faults) => Ok(Desktop {
            input,
            output,
            faults,
            files,
        }),
        Err(memory) => {
            drop((input, files, output));
            Err(memory)
        }
    }
}

fn world(alloc: Global, case: &Case<'_>) -> Result<Fake, Memory>
    ensures output { IfOk result (λ world. world.desktop.output.finished ≡ false) }
    ensures faults { IfOk result (λ world. world.desktop.faults.finished ≡ false) }
{
    let desktop = desktop(alloc, case)?;
    let reach = match MemReach::new(alloc, List::new(alloc)) {
        Ok(reach) => reach,
        Err(memory) => {
            drop(desktop);
            return Err(memory);
        }
    };
    match binder(alloc, case) {
        Ok(binder) => Ok(Network {
            desktop,
            reach,
            binder,
            gate: OpenGate::new(),
        }),
        Err(memory) => {
            drop((desktop, reach));
            Err(memory)
        }
    }
}

/// Whether the one connection of each door was given back with these bytes.
fn are_left(doors: &[BoundDoor], wanted: &[&str]) -> bool {
    doors.len() == wanted.len()
        && doors
            .iter()
            .zip(wanted)
            .all(|(door, bytes)| is_left(door, bytes))
}

fn is_left(door: &BoundDoor, bytes: &str) -> bool {
    match door.returned() {
        [returned] => {
            returned.conn.written() == bytes.as_bytes() && returned.leave == Leave::Whole
        }
        _ => false,
    }
}

/// Whether the command of these words leaves what the case says.
fn leaves<R: Threads + Wait + Sync>(
    rt: &R,
    alloc: Global,
    words: &[Text],
    world: Fake,
    case: &Case<'_>,
) -> bool
    requires output { world.desktop.output.finished ≡ false }
    requires faults { world.desktop.faults.finished ≡ false }
{
    let mut world = world;
    let status = online(rt, alloc, words, &mut world);
    let is_right = status == Status(case.status)
        && world.desktop.output.bytes() == case.output.as_bytes()
        && is_line(world.desktop.faults.bytes(), case.line)
        && world.reach.deeds().is_empty()
        && world.binder.binds().len() == case.binds
        && are_left(world.binder.freed(), case.left);
    drop(world);
    is_right
}

fn is_right<R: Threads + Wait + Sync>(
    rt: &R,
    alloc: Global,
    case: &Case<'_>,
) -> Result<bool, Memory> {
    let words = texts(alloc, case.words)?;
    match world(alloc, case) {
        Ok(world) => Ok(leaves(rt, alloc, words.as_slice(), world, case)),
        Err(memory) => {
            drop(words);
            Err(memory)
        }
    }
}

fn are_right<R: Threads + Wait + Sync>(rt: &R, alloc: Global, cases: &[Case<'_>]) -> bool {
    for case in cases {
        if is_right(rt, alloc, case) != Ok(true) {
            return false;
        }
    }
    true
}

#[test]
fn a_sheet_is_served(rt: HostRuntime) {
    let cases = [
        SERVED,
        Case {
            words: "serve unix:/a sheet --workers 2 --connections 1 --forget",
            ..SERVED
        },
        Case {
            failing_puts: &[0],
            output: "",
            status: 6,
            line: "write fault",
            ..SERVED
        },
    ];
    assert!(rt; are_right(&rt, rt.alloc(), &cases));
}

#[test]
fn what_is_no_sheet_binds_nothing(rt: HostRuntime) {
    let cases = [
        Case {
            words: "serve unix:/a registry",
            status: 2,
            line: "shape at top",
            ..UNBOUND
        },
        Case {
            words: "serve unix:/a missing",
            status: 5,
            line: "cannot read missing",
            ..UNBOUND
        },
        Case {
            failing_binds: &[0],
            binds: 1,
            status: 5,
            line: "cannot bind",
            ..UNBOUND
        },
    ];
    assert!(rt; are_right(&rt, rt.alloc(), &cases));
}

#[test]
fn a_registry_is_served(rt: HostRuntime) {
    let cases = [
        RESOLVED,
        Case {
            words: "resolver unix:/a bad",
            status: 2,
            line: "bad address of a.b",
            ..UNBOUND
        },
        Case {
            words: "resolver unix:/a sheet",
            status: 2,
            line: "bad name interfaces",
            ..UNBOUND
        },
        Case {
            words: "resolver unix:/a missing",
            status: 5,
            line: "cannot read missing",
            ..UNBOUND
        },
        Case {
            words: "resolver unix:/a registry",
            failing_binds: &[0],
            binds: 1,
            status: 5,
            line: "cannot bind",
            ..UNBOUND
        },
    ];
    assert!(rt; are_right(&rt, rt.alloc(), &cases));
}

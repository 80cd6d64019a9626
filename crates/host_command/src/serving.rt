// The command that serves a sheet.
ghost use Rattle.std.specs.Prelude.{◌≡◌, ◌≤◌, ◌^◌, All, IfOk, IfSome, List, Ok, OnErr, ℕ, false, length};
ghost use Rattle.link_port.specs.Flow.{IsAsBefore};
ghost use Rattle.door_host.specs.Doors.{kind_of};
ghost use Rattle.host_command.specs.Hosting.{BecomesOf, ServedBy, Serves, ServesBound, ShowsEntries, any_failed, bind_fault, limit_of, outcome_of};
ghost use Rattle.host_command.specs.declared.faults.HostFault.TheVariants as fault;

use crate::faults::HostFault;
use door_binder::Binder;
use door_host::{FORGOTTEN_LIMIT, HISTORY_LIMIT, Served};
use door_serving::WorkerEnd;
use itoa::Buffer;
use link_doors::{Gate, Listener};
use link_port::{Failed, Files, Memory, Sink};
use link_reach::DialFault;
use network_words::Serving;
use service_core::{Request, Service};
use std::alloc::Global;
use std::sync::Wait;
use std::thread::Threads;
use turn_desk::{Forgotten, Kept, Ledger};
use varlink_command::{Fault, put_texts, read_sheet};

/// Serves the sheet in a file at an address: the file is read, as many doors as there are workers are bound to the
/// address, and the connections that they give are served beside each other until each door has given as many as the
/// words say, or fails; without end where they say nothing. Then the number of entries of the history is put as a line.
///
/// Where `forgets` is set, the history is not kept: a service may then run without end.
pub fn serve<R: Threads + Wait + Sync, O: Sink, F: Files, B: Binder, G: Gate + Sync>(
    rt: &R,
    alloc: Global,
    what: Serving,
    forgets: bool,
    files: &mut F,
    output: &mut O,
    binder: &mut B,
    gate: &G,
) -> Result<(), HostFault>
where
    B::Door: Send,
    <B::Door as Listener>::Conn: Send,
    requires workers { (1 ≤ what.workers) × (what.workers ≤ 64) }
    requires open { O.finished output.old ≡ false }
    ensures serves { Serves
        (kind_of B.Door.stated B.Door.given B.Door.faults B.Door.coming B.Door.back B.Door.Conn.left B.Door.Conn.written)
        what forgets (record { holds = F.holds files.old; paths = F.paths files.old; faults = F.faults files.old })
        (record { holds = F.holds files.new; paths = F.paths files.new; faults = F.faults files.new })
        (record {
          doors = record { binds = B.binds binder.old; faults = B.faults binder.old; freed = B.freed binder.old };
          written = O.written output.old;
          write_faults = O.write_faults output.old;
        })
        (record {
          doors = record { binds = B.binds binder.new; faults = B.faults binder.new; freed = B.freed binder.new };
          written = O.written output.new;
          write_faults = O.write_faults output.new;
        })
        result }
    ensures held { (path : List ℕ) → F.holds files.new path ≡ F.holds files.old path }
    ensures other { IsAsBefore (O.left output.old) (O.left output.new)
        (O.read_faults output.old) (O.read_faults output.new) }
    ensures unfinished { O.finished output.new ≡ false }
{
    match read_sheet(alloc, files, what.path.as_str()) {
        Ok(sheet) => match Service::new(alloc, sheet) {
            Ok(service) => {
                let outcome = serve_bound(
                    rt, alloc, &what, forgets, &service, output, binder, gate,
                );
                drop((what, service));
                outcome
            }
            Err(Memory) => {
                drop(what);
                Err(HostFault::Memory)
            }
        },
        Err(why) => Err(file_fault(what, why)),
    }
}

// The fault of the file that the words name.
pub(crate) fn file_fault(what: Serving, why: Fault) -> HostFault
    ensures { result ≡ fault.File what.path why }
{
    let Serving { address, path, .. } = what;
    drop(address);
    HostFault::File { path, why }
}

// Binds the doors once, and serves the service at them.
fn serve_bound<R: Threads + Wait + Sync, O: Sink, B: Binder, G: Gate + Sync>(
    rt: &R,
    alloc: Global,
    what: &Serving,
    forgets: bool,
    service: &Service,
    output: &mut O,
    binder: &mut B,
    gate: &G,
) -> Result<(), HostFault>
where
    B::Door: Send,
    <B::Door as Listener>::Conn: Send,
    requires workers { (1 ≤ what.now.workers) × (what.now.workers ≤ 64) }
    requires open { O.finished output.old ≡ false }
    ensures serves { ServesBound
        (kind_of B.Door.stated B.Door.given B.Door.faults B.Door.coming B.Door.back B.Door.Conn.left B.Door.Conn.written)
        what.now service.now (limit_of forgets)
        (record {
          doors = record { binds = B.binds binder.old; faults = B.faults binder.old; freed = B.freed binder.old };
          written = O.written output.old;
          write_faults = O.write_faults output.old;
        })
        (record {
          doors = record { binds = B.binds binder.new; faults = B.faults binder.new; freed = B.freed binder.new };
          written = O.written output.new;
          write_faults = O.write_faults output.new;
        })
        result }
    ensures other { IsAsBefore (O.left output.old) (O.left output.new)
        (O.read_faults output.old) (O.read_faults output.new) }
    ensures unfinished { O.finished output.new ≡ false }
{
    match binder.bind(alloc, &what.address, what.workers, what.connections) {
        Ok(doors) => serve_doors(rt, alloc, doors, forgets, service, output, binder, gate),
        Err(why) => Err(bind_fault(why)),
    }
}

// What a command comes to that no doors were bound for.
pub(crate) fn bind_fault(why: DialFault) -> HostFault
    ensures { result ≡ bind_fault why }
{
    match why {
        DialFault::Failed => HostFault::CannotBind,
        DialFault::Memory => HostFault::Memory,
    }
}

// Serves the service at the doors, gives them back, and shows how many entries there are.
fn serve_doors<R: Threads + Wait + Sync, O: Sink, B: Binder, G: Gate + Sync>(
    rt: &R,
    alloc: Global,
    mut doors: Vec<B::Door>,
    forgets: bool,
    service: &Service,
    output: &mut O,
    binder: &mut B,
    gate: &G,
) -> Result<(), HostFault>
where
    B::Door: Send,
    <B::Door as Listener>::Conn: Send,
    requires some { 1 ≤ length doors.items }
    requires few { length doors.items ≤ 64 }
    requires out { All (λ door. IfSome (B.Door.back door) (λ visits. length visits ≤ B.Door.given door)) doors.items }
    requires open { O.finished output.old ≡ false }
    ensures serves { BecomesOf
        (kind_of B.Door.stated B.Door.given B.Door.faults B.Door.coming B.Door.back B.Door.Conn.left B.Door.Conn.written)
        service.now (limit_of forgets)
        (record {
          doors = record { binds = B.binds binder.old; faults = B.faults binder.old; freed = B.freed binder.old };
          written = O.written output.old;
          write_faults = O.write_faults output.old;
        })
        (record {
          doors = record { binds = B.binds binder.new; faults = B.faults binder.new; freed = B.freed binder.new };
          written = O.written output.new;
          write_faults = O.write_faults output.new;
        })
        result (Ok doors.items) }
    ensures log { B.binds binder.new ≡ B.binds binder.old }
    ensures faults { B.faults binder.new ≡ B.faults binder.old }
    ensures other { IsAsBefore (O.left output.old) (O.left output.new)
        (O.read_faults output.old) (O.read_faults output.new) }
    ensures unfinished { O.finished output.new ≡ false }
{
    let limit = limit_of(forgets);
    let served = if forgets {
        serve_by::<R, B::Door, G, Forgotten>(rt, alloc, &mut doors, service, gate, limit)
    } else {
        serve_by::<R, B::Door, G, Kept<Request>>(rt, alloc, &mut doors, service, gate, limit)
    };
    binder.free(doors);
    match served {
        Ok(told) => show_entries(told, output),
        Err(Memory) => Err(HostFault::Memory),
    }
}

// What the history may weigh.
fn limit_of(forgets: bool) -> u64
    ensures limit { result ≡ limit_of forgets }
    ensures most { result ≤ 2 ^ 62 }
{
    if forgets {
        FORGOTTEN_LIMIT
    } else {
        HISTORY_LIMIT
    }
}

/// What is told of doors that were served.
#[derive(Clone, Copy)]
struct Told {
    /// How many entries the history has.
    entries: u64,
    /// The door of one of the workers failed.
    failed: bool,
}

// Serves the service at the doors, with a history of which so much is kept.
fn serve_by<
    R: Threads + Wait + Sync,
    D: Listener + Send + Drop,
    G: Gate + Sync,
    L: Ledger<Request> + Send + 'static,
>(
    rt: &R,
    alloc: Global,
    doors: &mut Vec<D>,
    service: &Service,
    gate: &G,
    limit: u64,
) -> Result<Told, Memory>
where
    D::Conn: Send,
    requires limit { limit ≤ 2 ^ 62 }
    requires some { 1 ≤ length doors.old.items }
    requires few { length doors.old.items ≤ 64 }
    requires out { All (λ door. IfSome (D.back door) (λ visits. length visits ≤ D.given door)) doors.old.items }
    ensures memory { OnErr result (doors.new.items ≡ doors.old.items) }
    ensures serves { IfOk result (λ told. ServedBy
        (kind_of D.stated D.given D.faults D.coming D.back D.Conn.left D.Conn.written) service.now limit
        doors.old.items doors.new.items told.entries told.failed) }
{
    let served: Result<Served<L>, Memory> = door_host::serve(
        rt, alloc, doors, service, gate, limit,
    );
    match served {
        Ok(served) => {
            let told = Told {
                entries: served.entries,
                failed: any_failed(served.ends.as_slice()),
            };
            drop(served);
            Ok(told)
        }
        Err(memory) => Err(memory),
    }
}

// Whether the door of one of the workers failed.
pub(crate) fn any_failed(ends: &[WorkerEnd]) -> bool
    ensures { result ≡ any_failed ends.now }
{
    for end in ends {
        if end.listen_failed {
            return true;
        }
    }
    false
}

// Shows how many entries there are, in a line, and tells whether a door failed.
fn show_entries<O: Sink>(told: Told, output: &mut O) -> Result<(), HostFault>
    requires { O.finished output.old ≡ false }
    ensures shows { ShowsEntries told.entries told.failed (O.written output.old) (O.written output.new)
        (O.write_faults output.old) (O.write_faults output.new) result }
    ensures other { IsAsBefore (O.left output.old) (O.left output.new)
        (O.read_faults output.old) (O.read_faults output.new) }
    ensures unfinished { O.finished output.new ≡ false }
{
    let mut digits = Buffer::new();
    match put_texts(output, &["entries ", digits.format(told.entries), "\n"]) {
        Ok(()) => outcome_of(told.failed),
        Err(Failed) => Err(HostFault::WriteFault),
    }
}

// What a command comes to once its doors were served.
pub(crate) fn outcome_of(failed: bool) -> Result<(), HostFault>
    ensures { result ≡ outcome_of failed }
{
    if failed {
        Err(HostFault::CannotAccept)
    } else {
        Ok(())
    }
}

// The command that serves a registry.
ghost use Rattle.std.specs.Prelude.{◌≡◌, ◌≤◌, All, IfOk, IfSome, List, Ok, OnErr, ℕ, length};
ghost use Rattle.door_host.specs.Doors.{kind_of};
ghost use Rattle.resolver_core.specs.Registries.{registry_of};
ghost use Rattle.host_command.specs.Resolving.{BecomesOf, ResolvedAt, ResolvesBound, MayServeText, ServesRegistry};

use crate::faults::HostFault;
use crate::serving::{any_failed, bind_fault, file_fault, outcome_of};
use door_binder::Binder;
use door_host::serve_registry;
use link_doors::Listener;
use link_port::{Files, Memory};
use network_words::Serving;
use resolver_core::{Registry, RegistryFault};
use std::alloc::Global;
use std::sync::Wait;
use std::thread::Threads;
use varlink_command::{Which, read_file};

/// The most bytes that a registry's file may hold.
pub const REGISTRY_LIMIT: u64 = 1_048_576;

/// Serves the registry in a file at an address: the file is read, as many doors as there are workers are bound to the
/// address, and the connections that they give are answered beside each other until each door has given as many as the
/// words say, or fails; without end where they say nothing. Nothing is printed.
pub fn serve_resolver<R: Threads + Wait + Sync, F: Files, B: Binder>(
    rt: &R,
    alloc: Global,
    what: Serving,
    files: &mut F,
    binder: &mut B,
) -> Result<(), HostFault>
where
    B::Door: Send,
    <B::Door as Listener>::Conn: Send,
    requires workers { (1 ≤ what.workers) × (what.workers ≤ 64) }
    ensures serves { ServesRegistry
        (kind_of B.Door.stated B.Door.given B.Door.faults B.Door.coming B.Door.back B.Door.Conn.left B.Door.Conn.written)
        what (record { holds = F.holds files.old; paths = F.paths files.old; faults = F.faults files.old })
        (record { holds = F.holds files.new; paths = F.paths files.new; faults = F.faults files.new })
        (record { binds = B.binds binder.old; faults = B.faults binder.old; freed = B.freed binder.old })
        (record { binds = B.binds binder.new; faults = B.faults binder.new; freed = B.freed binder.new })
        result }
    ensures held { (path : List ℕ) → F.holds files.new path ≡ F.holds files.old path }
{
    match read_file(
        alloc,
        files,
        Which::First,
        what.path.as_str(),
        REGISTRY_LIMIT,
    ) {
        Ok(text) => {
            let outcome = serve_text(rt, alloc, &what, text.as_slice(), binder);
            drop((what, text));
            outcome
        }
        Err(why) => Err(file_fault(what, why)),
    }
}

// Serves the registry that a text is.
fn serve_text<R: Threads + Wait + Sync, B: Binder>(
    rt: &R,
    alloc: Global,
    what: &Serving,
    text: &[u8],
    binder: &mut B,
) -> Result<(), HostFault>
where
    B::Door: Send,
    <B::Door as Listener>::Conn: Send,
    requires workers { (1 ≤ what.now.workers) × (what.now.workers ≤ 64) }
    ensures serves { MayServeText
        (kind_of B.Door.stated B.Door.given B.Door.faults B.Door.coming B.Door.back B.Door.Conn.left B.Door.Conn.written)
        what.now (registry_of text.now)
        (record { binds = B.binds binder.old; faults = B.faults binder.old; freed = B.freed binder.old })
        (record { binds = B.binds binder.new; faults = B.faults binder.new; freed = B.freed binder.new })
        result }
{
    match Registry::read(alloc, text) {
        Ok(registry) => {
            let outcome = serve_bound(rt, alloc, what, &registry, binder);
            drop(registry);
            outcome
        }
        Err(RegistryFault::Memory) => Err(HostFault::Memory),
        Err(why) => Err(HostFault::NoRegistry(why)),
    }
}

// Binds the doors once, and serves the registry at them.
fn serve_bound<R: Threads + Wait + Sync, B: Binder>(
    rt: &R,
    alloc: Global,
    what: &Serving,
    registry: &Registry,
    binder: &mut B,
) -> Result<(), HostFault>
where
    B::Door: Send,
    <B::Door as Listener>::Conn: Send,
    requires workers { (1 ≤ what.now.workers) × (what.now.workers ≤ 64) }
    ensures serves { ResolvesBound
        (kind_of B.Door.stated B.Door.given B.Door.faults B.Door.coming B.Door.back B.Door.Conn.left B.Door.Conn.written)
        what.now registry.now
        (record { binds = B.binds binder.old; faults = B.faults binder.old; freed = B.freed binder.old })
        (record { binds = B.binds binder.new; faults = B.faults binder.new; freed = B.freed binder.new })
        result }
{
    match binder.bind(alloc, &what.address, what.workers, what.connections) {
        Ok(doors) => serve_doors(rt, alloc, doors, registry, binder),
        Err(why) => Err(bind_fault(why)),
    }
}

// Serves the registry at the doors, and gives them back.
fn serve_doors<R: Threads + Wait + Sync, B: Binder>(
    rt: &R,
    alloc: Global,
    mut doors: Vec<B::Door>,
    registry: &Registry,
    binder: &mut B,
) -> Result<(), HostFault>
where
    B::Door: Send,
    <B::Door as Listener>::Conn: Send,
    requires some { 1 ≤ length doors.items }
    requires few { length doors.items ≤ 64 }
    requires out { All (λ door. IfSome (B.Door.back door) (λ visits. length visits ≤ B.Door.given door)) doors.items }
    ensures serves { BecomesOf
        (kind_of B.Door.stated B.Door.given B.Door.faults B.Door.coming B.Door.back B.Door.Conn.left B.Door.Conn.written)
        registry.now
        (record { binds = B.binds binder.old; faults = B.faults binder.old; freed = B.freed binder.old })
        (record { binds = B.binds binder.new; faults = B.faults binder.new; freed = B.freed binder.new })
        result (Ok doors.items) }
    ensures log { B.binds binder.new ≡ B.binds binder.old }
    ensures faults { B.faults binder.new ≡ B.faults binder.old }
{
    let served = resolve_at(rt, alloc, &mut doors, registry);
    binder.free(doors);
    match served {
        Ok(failed) => outcome_of(failed),
        Err(Memory) => Err(HostFault::Memory),
    }
}

// Serves the registry at the doors, and tells whether one of them failed.
fn resolve_at<R: Threads + Wait + Sync, D: Listener + Send + Drop>(
    rt: &R,
    alloc: Global,
    doors: &mut Vec<D>,
    registry: &Registry,
) -> Result<bool, Memory>
where
    D::Conn: Send,
    requires some { 1 ≤ length doors.old.items }
    requires few { length doors.old.items ≤ 64 }
    requires out { All (λ door. IfSome (D.back door) (λ visits. length visits ≤ D.given door)) doors.old.items }
    ensures memory { OnErr result (doors.new.items ≡ doors.old.items) }
    ensures serves { IfOk result (λ failed. ResolvedAt
        (kind_of D.stated D.given D.faults D.coming D.back D.Conn.left D.Conn.written) registry.now
        doors.old.items doors.new.items failed) }
{
    match serve_registry(rt, alloc, doors, registry) {
        Ok(ends) => {
            let failed = any_failed(ends.as_slice());
            drop(ends);
            Ok(failed)
        }
        Err(memory) => Err(memory),
    }
}

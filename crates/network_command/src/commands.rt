// The top call of the commands that need the network.
ghost use Rattle.std.specs.Prelude.{◌≡◌, true, false, Some, Err};
ghost use Rattle.link_port.specs.Flow.{IsAsBefore};
ghost use Rattle.door_host.specs.Doors.{kind_of};
ghost use Rattle.network_words.specs.Meanings.{network, HasWorkers, IsRunnable};
ghost use Rattle.varlink_command.specs.Ends.{AreOpen, KeepsOthers};
ghost use Rattle.network_command.specs.Ends.{scene};
ghost use Rattle.network_command.specs.Online.{Concludes, RanCommand, RanWords, Runs, is_refused, is_serving};
ghost use Rattle.network_command.specs.Serving.{Serves, ServesRegistry, host_outcome};

use crate::calling::call_by;
use crate::fault_lines::write_network_line;
use crate::faults::NetworkFault;
use crate::resolving::show_address;
use crate::worlds::{Network, NetworkWorld};
use client_ways::Ask;
use door_binder::Binder;
use host_command::{HostFault, serve, serve_resolver};
use link_doors::{Gate, Listener};
use link_port::{Files, Sink, Source, Text};
use link_reach::Reach;
use network_words::{Network as Command, Serving, network_of};
use std::alloc::Global;
use std::sync::Wait;
use std::thread::Threads;
use varlink_command::Status;

/// Runs the command that needs the network and that these words mean, and gives the status to end with.
///
/// `call` makes a call (varlink.org, "Method Call") and prints the payload of each reply in a line: at an address by
/// `--at ADDRESS`, where a resolver says by `--resolver ADDRESS`, or over a bridge that is started by
/// `--resolver ADDRESS --child PROGRAM`. With `--typed` the replies are read before, by the definition that the service
/// gives. `resolve --resolver ADDRESS INTERFACE` prints the address at which the resolver
/// says that the interface is served.
/// `serve ADDRESS PATH` serves the sheet in that file, and `resolver ADDRESS PATH` the registry, at doors of that
/// address: `--workers N` connections beside each other (4 where nothing is said), each worker `--connections N` one
/// after another, or without end. `serve` prints the number of steps at its end; with `--forget` it does not keep them.
/// All other words are bad words, status 1: `bridge` is not run yet.
/// A fault is told by a line in the sink of faults; that the line cannot be written changes nothing.
/// The promise holds if the call returns.
pub fn online<
    T: Threads + Wait + Sync,
    S: Source,
    O: Sink,
    E: Sink,
    F: Files,
    R: Reach,
    B: Binder,
    G: Gate + Sync,
>(rt: &T, alloc: Global, words: &[Text], net: &mut Network<S, O, E, F, R, B, G>) -> Status
where
    B::Door: Send,
    <B::Door as Listener>::Conn: Send,
    requires { AreOpen (⟦<Network<S, O, E, F, R, B, G> as NetworkWorld>⟧.ends net.old).desk }
    // each command, in a line of its own: `RanCommand`
    ensures runs { Runs
        (kind_of B.Door.stated B.Door.given B.Door.faults B.Door.coming B.Door.back B.Door.Conn.left B.Door.Conn.written)
        words.now (⟦<Network<S, O, E, F, R, B, G> as NetworkWorld>⟧.ends net.old) (⟦<Network<S, O, E, F, R, B, G> as NetworkWorld>⟧.ends net.new) result.0 }
    // what files hold, and the sides that no command uses, stay as they were
    ensures kept { KeepsOthers (⟦<Network<S, O, E, F, R, B, G> as NetworkWorld>⟧.ends net.old).desk (⟦<Network<S, O, E, F, R, B, G> as NetworkWorld>⟧.ends net.new).desk }
    ensures open { AreOpen (⟦<Network<S, O, E, F, R, B, G> as NetworkWorld>⟧.ends net.new).desk }
    // what a command does not use is not touched
    ensures input { net.new.desktop.input ≡ net.old.desktop.input }
    ensures freed { R.freed net.new.reach ≡ R.freed net.old.reach }
    ensures gate { net.new.gate ≡ net.old.gate }
    ensures called { is_serving (network words.now) ≡ false
        → (net.new.desktop.files ≡ net.old.desktop.files) × (net.new.binder ≡ net.old.binder) }
    ensures served { is_serving (network words.now) ≡ true → net.new.reach ≡ net.old.reach }
    ensures refused { is_refused (network words.now) ≡ true → net.new ≡ record net.old {
      desktop = record net.old.desktop { faults = net.new.desktop.faults };
    } }
{
    let outcome = run(rt, alloc, words, net);
    conclude(&mut net.desktop.faults, outcome)
}

// Does what the words mean, but for telling a fault.
fn run<
    T: Threads + Wait + Sync,
    S: Source,
    O: Sink,
    E: Sink,
    F: Files,
    R: Reach,
    B: Binder,
    G: Gate + Sync,
>(
    rt: &T,
    alloc: Global,
    words: &[Text],
    net: &mut Network<S, O, E, F, R, B, G>,
) -> Result<(), NetworkFault>
where
    B::Door: Send,
    <B::Door as Listener>::Conn: Send,
    requires { AreOpen (⟦<Network<S, O, E, F, R, B, G> as NetworkWorld>⟧.ends net.old).desk }
    ensures ran { RanWords
        (kind_of B.Door.stated B.Door.given B.Door.faults B.Door.coming B.Door.back B.Door.Conn.left B.Door.Conn.written)
        words.now (scene (⟦<Network<S, O, E, F, R, B, G> as NetworkWorld>⟧.ends net.old))
        (scene (⟦<Network<S, O, E, F, R, B, G> as NetworkWorld>⟧.ends net.new)) result }
    ensures kept { KeepsOthers (⟦<Network<S, O, E, F, R, B, G> as NetworkWorld>⟧.ends net.old).desk (⟦<Network<S, O, E, F, R, B, G> as NetworkWorld>⟧.ends net.new).desk }
    ensures open { AreOpen (⟦<Network<S, O, E, F, R, B, G> as NetworkWorld>⟧.ends net.new).desk }
    ensures faults { net.new.desktop.faults ≡ net.old.desktop.faults }
    ensures input { net.new.desktop.input ≡ net.old.desktop.input }
    ensures freed { R.freed net.new.reach ≡ R.freed net.old.reach }
    ensures gate { net.new.gate ≡ net.old.gate }
    ensures called { is_serving (network words.now) ≡ false
        → (net.new.desktop.files ≡ net.old.desktop.files) × (net.new.binder ≡ net.old.binder) }
    ensures served { is_serving (network words.now) ≡ true → net.new.reach ≡ net.old.reach }
    ensures refused { is_refused (network words.now) ≡ true → net.new ≡ net.old }
{
    match network_of(alloc, words) {
        Ok(Some(command)) => run_command(rt, alloc, command, net),
        Ok(None) => Err(NetworkFault::BadWords),
        Err(_) => Err(NetworkFault::Memory),
    }
}

// Does what a command does. Bridges are not run yet.
fn run_command<
    T: Threads + Wait + Sync,
    S: Source,
    O: Sink,
    E: Sink,
    F: Files,
    R: Reach,
    B: Binder,
    G: Gate + Sync,
>(
    rt: &T,
    alloc: Global,
    command: Command,
    net: &mut Network<S, O, E, F, R, B, G>,
) -> Result<(), NetworkFault>
where
    B::Door: Send,
    <B::Door as Listener>::Conn: Send,
    requires runnable { IsRunnable command }
    requires open { AreOpen (⟦<Network<S, O, E, F, R, B, G> as NetworkWorld>⟧.ends net.old).desk }
    ensures ran { RanCommand
        (kind_of B.Door.stated B.Door.given B.Door.faults B.Door.coming B.Door.back B.Door.Conn.left B.Door.Conn.written)
        command (scene (⟦<Network<S, O, E, F, R, B, G> as NetworkWorld>⟧.ends net.old))
        (scene (⟦<Network<S, O, E, F, R, B, G> as NetworkWorld>⟧.ends net.new)) result }
    ensures kept { KeepsOthers (⟦<Network<S, O, E, F, R, B, G> as NetworkWorld>⟧.ends net.old).desk (⟦<Network<S, O, E, F, R, B, G> as NetworkWorld>⟧.ends net.new).desk }
    ensures open { AreOpen (⟦<Network<S, O, E, F, R, B, G> as NetworkWorld>⟧.ends net.new).desk }
    ensures faults { net.new.desktop.faults ≡ net.old.desktop.faults }
    ensures input { net.new.desktop.input ≡ net.old.desktop.input }
    ensures freed { R.freed net.new.reach ≡ R.freed net.old.reach }
    ensures gate { net.new.gate ≡ net.old.gate }
    ensures called { is_serving (Some command) ≡ false
        → (net.new.desktop.files ≡ net.old.desktop.files) × (net.new.binder ≡ net.old.binder) }
    ensures served { is_serving (Some command) ≡ true → net.new.reach ≡ net.old.reach }
    ensures refused { is_refused (Some command) ≡ true → net.new ≡ net.old }
{
    match command {
        Command::Call { way, call, typed } => {
            let ask = Ask { call: &call, typed };
            let outcome = call_by(alloc, &way, ask, &mut net.desktop.output, &mut net.reach);
            drop((way, call));
            outcome
        }
        Command::Resolve {
            resolver,
            interface,
        } => {
            let output = &mut net.desktop.output;
            let outcome = show_address(alloc, &resolver, interface, output, &mut net.reach);
            drop(resolver);
            outcome
        }
        Command::Serve { serving, forgets } => run_service(rt, alloc, serving, forgets, net),
        Command::Resolver(serving) => run_resolver(rt, alloc, serving, net),
        Command::Bridge(target) => {
            drop(target);
            Err(NetworkFault::BadWords)
        }
    }
}

// Serves the sheet in a file.
fn run_service<
    T: Threads + Wait + Sync,
    S: Source,
    O: Sink,
    E: Sink,
    F: Files,
    R: Reach,
    B: Binder,
    G: Gate + Sync,
>(
    rt: &T,
    alloc: Global,
    what: Serving,
    forgets: bool,
    net: &mut Network<S, O, E, F, R, B, G>,
) -> Result<(), NetworkFault>
where
    B::Door: Send,
    <B::Door as Listener>::Conn: Send,
    requires workers { HasWorkers what }
    requires open { AreOpen (⟦<Network<S, O, E, F, R, B, G> as NetworkWorld>⟧.ends net.old).desk }
    ensures ran { Serves
        (kind_of B.Door.stated B.Door.given B.Door.faults B.Door.coming B.Door.back B.Door.Conn.left B.Door.Conn.written)
        what forgets (scene (⟦<Network<S, O, E, F, R, B, G> as NetworkWorld>⟧.ends net.old))
        (scene (⟦<Network<S, O, E, F, R, B, G> as NetworkWorld>⟧.ends net.new)) result }
    ensures kept { KeepsOthers (⟦<Network<S, O, E, F, R, B, G> as NetworkWorld>⟧.ends net.old).desk (⟦<Network<S, O, E, F, R, B, G> as NetworkWorld>⟧.ends net.new).desk }
    ensures open { AreOpen (⟦<Network<S, O, E, F, R, B, G> as NetworkWorld>⟧.ends net.new).desk }
    ensures rest { net.new ≡ record net.old {
      desktop = record net.old.desktop { output = net.new.desktop.output; files = net.new.desktop.files };
      binder = net.new.binder;
    } }
{
    let Network {
        desktop,
        binder,
        gate,
        ..
    } = net;
    let served = serve(
        rt,
        alloc,
        what,
        forgets,
        &mut desktop.files,
        &mut desktop.output,
        binder,
        gate,
    );
    host_outcome(served)
}

// Serves the registry in a file.
fn run_resolver<
    T: Threads + Wait + Sync,
    S: Source,
    O: Sink,
    E: Sink,
    F: Files,
    R: Reach,
    B: Binder,
    G: Gate + Sync,
>(
    rt: &T,
    alloc: Global,
    what: Serving,
    net: &mut Network<S, O, E, F, R, B, G>,
) -> Result<(), NetworkFault>
where
    B::Door: Send,
    <B::Door as Listener>::Conn: Send,
    requires workers { HasWorkers what }
    requires open { AreOpen (⟦<Network<S, O, E, F, R, B, G> as NetworkWorld>⟧.ends net.old).desk }
    ensures ran { ServesRegistry
        (kind_of B.Door.stated B.Door.given B.Door.faults B.Door.coming B.Door.back B.Door.Conn.left B.Door.Conn.written)
        what (scene (⟦<Network<S, O, E, F, R, B, G> as NetworkWorld>⟧.ends net.old))
        (scene (⟦<Network<S, O, E, F, R, B, G> as NetworkWorld>⟧.ends net.new)) result }
    ensures kept { KeepsOthers (⟦<Network<S, O, E, F, R, B, G> as NetworkWorld>⟧.ends net.old).desk (⟦<Network<S, O, E, F, R, B, G> as NetworkWorld>⟧.ends net.new).desk }
    ensures open { AreOpen (⟦<Network<S, O, E, F, R, B, G> as NetworkWorld>⟧.ends net.new).desk }
    ensures rest { net.new ≡ record net.old {
      desktop = record net.old.desktop { files = net.new.desktop.files };
      binder = net.new.binder;
    } }
{
    let served = serve_resolver(rt, alloc, what, &mut net.desktop.files, &mut net.binder);
    host_outcome(served)
}

// What a command comes to that serves.
fn host_outcome(served: Result<(), HostFault>) -> Result<(), NetworkFault>
    ensures { result ≡ host_outcome served }
{
    match served {
        Ok(()) => Ok(()),
        Err(why) => Err(NetworkFault::Hosting(why)),
    }
}

// Tells the fault that a command came to, if it is one, and gives the status. That the line cannot be
// written changes nothing.
fn conclude<E: Sink>(faults: &mut E, outcome: Result<(), NetworkFault>) -> Status
    requires { E.finished faults.old ≡ false }
    ensures told { Concludes outcome
        (record {
          left = E.left faults.old;
          read_faults = E.read_faults faults.old;
          written = E.written faults.old;
          write_faults = E.write_faults faults.old;
          finished = E.finished faults.old;
        })
        (record {
          left = E.left faults.new;
          read_faults = E.read_faults faults.new;
          written = E.written faults.new;
          write_faults = E.write_faults faults.new;
          finished = E.finished faults.new;
        })
        result.0 }
    ensures other { IsAsBefore (E.left faults.old) (E.left faults.new)
        (E.read_faults faults.old) (E.read_faults faults.new) }
    ensures unfinished { E.finished faults.new ≡ false }
{
    match outcome {
        Ok(()) => Status(0),
        Err(fault) => {
            let _ = write_network_line(faults, &fault);
            let status = fault.status();
            drop(fault);
            status
        }
    }
}

// Sessions, by the service without a sheet and by that of a sheet.
ghost use Rattle.std.specs.Prelude.{◌≡◌};
ghost use Rattle.service_core.specs.Sheets.{bare_sheet};
ghost use Rattle.varlink_command.specs.Ends.{AreOpen, KeepsOthers};
ghost use Rattle.varlink_command.specs.Sessions.{ServesSession, ServesSheet, outcome_of as stop_outcome};

use crate::faults::Fault;
use crate::reading::read_sheet;
use crate::worlds::{Desktop, World};
use link_port::{Files, Sink, Source};
use service_core::{Alone, Service};
use session_core::{Stop, serve_alone};
use std::alloc::Global;

/// Serves the calls that come from the input by the service without a sheet.
pub fn session<S: Source, O: Sink, E: Sink, F: Files>(
    alloc: Global,
    world: &mut Desktop<S, O, E, F>,
) -> Result<(), Fault>
    requires { AreOpen (⟦<Desktop<S, O, E, F> as World>⟧.ends world.old) }
    ensures serves { ServesSession bare_sheet (⟦<Desktop<S, O, E, F> as World>⟧.ends world.old)
        (⟦<Desktop<S, O, E, F> as World>⟧.ends world.new) result }
    ensures kept { KeepsOthers (⟦<Desktop<S, O, E, F> as World>⟧.ends world.old)
        (⟦<Desktop<S, O, E, F> as World>⟧.ends world.new) }
    ensures open { AreOpen (⟦<Desktop<S, O, E, F> as World>⟧.ends world.new) }
    ensures faults { world.new.faults ≡ world.old.faults }
    ensures files { world.new.files ≡ world.old.files }
{
    match Service::bare(alloc) {
        Ok(service) => serve(alloc, service, world),
        Err(_) => outcome_of(Stop::Memory),
    }
}

/// Reads the sheet at this path, and serves the calls that come from the input by its service.
pub fn sheet_session<S: Source, O: Sink, E: Sink, F: Files>(
    alloc: Global,
    path: &str,
    world: &mut Desktop<S, O, E, F>,
) -> Result<(), Fault>
    requires { AreOpen (⟦<Desktop<S, O, E, F> as World>⟧.ends world.old) }
    ensures serves { ServesSheet path.now (⟦<Desktop<S, O, E, F> as World>⟧.ends world.old)
        (⟦<Desktop<S, O, E, F> as World>⟧.ends world.new) result }
    ensures kept { KeepsOthers (⟦<Desktop<S, O, E, F> as World>⟧.ends world.old)
        (⟦<Desktop<S, O, E, F> as World>⟧.ends world.new) }
    ensures open { AreOpen (⟦<Desktop<S, O, E, F> as World>⟧.ends world.new) }
    ensures faults { world.new.faults ≡ world.old.faults }
{
    match read_sheet(alloc, &mut world.files, path) {
        Ok(sheet) => match Service::new(alloc, sheet) {
            Ok(service) => serve(alloc, service, world),
            Err(_) => outcome_of(Stop::Memory),
        },
        Err(fault) => Err(fault),
    }
}

// Serves the calls that come from the input by a service.
fn serve<S: Source, O: Sink, E: Sink, F: Files>(
    alloc: Global,
    service: Service,
    world: &mut Desktop<S, O, E, F>,
) -> Result<(), Fault>
    requires { AreOpen (⟦<Desktop<S, O, E, F> as World>⟧.ends world.old) }
    ensures serves { ServesSession service (⟦<Desktop<S, O, E, F> as World>⟧.ends world.old)
        (⟦<Desktop<S, O, E, F> as World>⟧.ends world.new) result }
    ensures kept { KeepsOthers (⟦<Desktop<S, O, E, F> as World>⟧.ends world.old)
        (⟦<Desktop<S, O, E, F> as World>⟧.ends world.new) }
    ensures open { AreOpen (⟦<Desktop<S, O, E, F> as World>⟧.ends world.new) }
    ensures faults { world.new.faults ≡ world.old.faults }
    ensures files { world.new.files ≡ world.old.files }
{
    let stop = serve_from(alloc, &service, world);
    drop(service);
    outcome_of(stop)
}

// Serves the calls by a service, from the registers that its sheet begins with, and gives the stop.
fn serve_from<S: Source, O: Sink, E: Sink, F: Files>(
    alloc: Global,
    service: &Service,
    world: &mut Desktop<S, O, E, F>,
) -> Stop
    requires { AreOpen (⟦<Desktop<S, O, E, F> as World>⟧.ends world.old) }
    ensures serves { ServesSession service.now (⟦<Desktop<S, O, E, F> as World>⟧.ends world.old)
        (⟦<Desktop<S, O, E, F> as World>⟧.ends world.new) (stop_outcome result) }
    ensures kept { KeepsOthers (⟦<Desktop<S, O, E, F> as World>⟧.ends world.old)
        (⟦<Desktop<S, O, E, F> as World>⟧.ends world.new) }
    ensures open { AreOpen (⟦<Desktop<S, O, E, F> as World>⟧.ends world.new) }
    ensures faults { world.new.faults ≡ world.old.faults }
    ensures files { world.new.files ≡ world.old.files }
{
    match Alone::new(alloc, service) {
        Ok(alone) => {
            let mut alone = alone;
            let stop = serve_alone(alloc, &mut world.input, &mut world.output, &mut alone);
            drop(alone);
            stop
        }
        Err(_) => Stop::Memory,
    }
}

// What a command that serves a session comes to, where the session stopped so.
fn outcome_of(stop: Stop) -> Result<(), Fault>
    ensures { result ≡ stop_outcome stop }
{
    match stop {
        Stop::End | Stop::Upgraded | Stop::Full { .. } | Stop::Worn => Ok(()),
        Stop::Cut { bytes } => Err(Fault::Cut { bytes }),
        Stop::NotCall { index, .. } => Err(Fault::NotCall { index }),
        Stop::TooLong { index } => Err(Fault::TooLong { index }),
        Stop::ReadFault => Err(Fault::ReadFault),
        Stop::WriteFault => Err(Fault::WriteFault),
        Stop::Long => Err(Fault::Long),
        Stop::Memory => Err(Fault::Memory),
    }
}

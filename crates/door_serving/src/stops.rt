// How a session is told to have stopped.
ghost use Rattle.std.specs.Prelude.{◌≡◌};
ghost use Rattle.door_serving.specs.Stops.{stop_of, leave_of};

use link_doors::Leave;
use session_core::Stop;
use turn_desk::AskFault;

/// The stop of a session whose call the desk refused so.
pub(crate) fn stop_after(fault: AskFault) -> Stop
    ensures { result ≡ stop_of fault }
{
    match fault {
        AskFault::Worn => Stop::Worn,
        AskFault::Full { bytes } => Stop::Full { bytes },
        AskFault::Memory => Stop::Memory,
    }
}

/// How a connection leaves whose session stopped so.
pub(crate) fn leave(stop: Stop) -> Leave
    ensures { result ≡ leave_of stop }
{
    match stop {
        Stop::ReadFault => Leave::ReadFault,
        Stop::WriteFault => Leave::WriteFault,
        Stop::Full { bytes } => Leave::Full { bytes },
        Stop::Worn => Leave::Worn,
        Stop::Memory => Leave::Memory,
        _ => Leave::Whole,
    }
}

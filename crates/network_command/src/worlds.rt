// What a program hands to a command that needs the network, and what contracts see of it.
ghost use Rattle.network_command.specs.Ends.{NetworkEnds};

use door_binder::Binder;
use link_doors::Gate;
use link_port::{Files, Sink, Source};
use link_reach::Reach;
use varlink_command::{Desktop, World};

/// What a program hands to a command that needs the network: what it hands to every command, how
/// services are reached, how doors are bound, and what is told of each call that is served.
#[derive(Debug, Drop)]
pub struct Network<S, O, E, F, R, B, G> {
    /// The input, the output, the sink for lines that tell faults, and the files.
    pub desktop: Desktop<S, O, E, F>,
    /// How services are reached.
    pub reach: R,
    /// How doors are bound to addresses.
    pub binder: B,
    /// What is told before and after each call that is served.
    pub gate: G,
}

/// What contracts see of the ends of a program that reaches services and serves.
pub trait NetworkWorld {
    /// A door.
    type Door;

    /// Its ends, its links and its doors.
    ghost ends: { Self → NetworkEnds Self.Door };
}

impl<S: Source, O: Sink, E: Sink, F: Files, R: Reach, B: Binder, G: Gate> NetworkWorld
    for Network<S, O, E, F, R, B, G> {
    type Door = B::Door;

    ghost ends = { λ net. record {
      desk = ⟦<Desktop<S, O, E, F> as World>⟧.ends net.desktop;
      links = record {
        log = R.log net.reach;
        opened = R.opened net.reach;
        state = R.state net.reach;
      };
      link_faults = R.faults net.reach;
      doors = record {
        binds = B.binds net.binder;
        faults = B.faults net.binder;
        freed = B.freed net.binder;
      };
    } };
}

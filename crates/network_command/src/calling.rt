// Calls of a method, by each of the ways.
ghost use Rattle.std.specs.Prelude.{◌≡◌, false};
ghost use Rattle.call_form.specs.CallText.{IsSendable};
ghost use Rattle.link_port.specs.Flow.{IsAsBefore};
ghost use Rattle.network_command.specs.Calling.{Calls};

use crate::ends::client_outcome;
use crate::faults::NetworkFault;
use client_ways::{Ask, call_at, call_by_child, call_resolved};
use link_port::Sink;
use link_reach::Reach;
use network_words::Way;
use std::alloc::Global;

// Makes a call by a way, and passes its replies on as lines.
pub fn call_by<O: Sink, R: Reach>(
    alloc: Global,
    way: &Way,
    ask: Ask<'_>,
    output: &mut O,
    reach: &mut R,
) -> Result<(), NetworkFault>
    requires sendable { IsSendable ask.call.now }
    requires unfinished { O.finished output.old ≡ false }
    ensures calls { Calls way.now ask.entry.call.now ask.entry.typed
        (record {
          links = record { log = R.log reach.old; opened = R.opened reach.old; state = R.state reach.old };
          link_faults = R.faults reach.old;
          written = O.written output.old;
          write_faults = O.write_faults output.old;
        })
        (record {
          links = record { log = R.log reach.new; opened = R.opened reach.new; state = R.state reach.new };
          link_faults = R.faults reach.new;
          written = O.written output.new;
          write_faults = O.write_faults output.new;
        })
        result }
    ensures other { IsAsBefore (O.left output.old) (O.left output.new)
        (O.read_faults output.old) (O.read_faults output.new) }
    ensures unfinished { O.finished output.new ≡ false }
    ensures freed { R.freed reach.new ≡ R.freed reach.old }
{
    client_outcome(match way {
        Way::At(address) => call_at(alloc, reach, address, ask, output),
        Way::Resolver(resolver) => call_resolved(alloc, reach, resolver, ask, output),
        Way::Child { program, resolver } => {
            call_by_child(alloc, reach, program.as_str(), resolver, ask, output)
        }
    })
}

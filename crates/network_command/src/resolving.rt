// The question where an interface is served, and its answer.
ghost use Rattle.std.specs.Prelude.{◌≡◌, false};
ghost use Rattle.link_port.specs.Flow.{IsAsBefore};
ghost use Rattle.network_command.specs.Resolving.{Resolves, ShowsAddress};

use crate::ends::no_address;
use crate::faults::NetworkFault;
use address_finding::resolve;
use link_doors::Address;
use link_port::{Failed, Sink, Text};
use link_reach::Reach;
use std::alloc::Global;
use varlink_command::put_texts;

// Asks the resolver at an address where an interface is served, and shows the address in a line.
pub fn show_address<O: Sink, R: Reach>(
    alloc: Global,
    resolver: &Address,
    interface: Text,
    output: &mut O,
    reach: &mut R,
) -> Result<(), NetworkFault>
    requires { O.finished output.old ≡ false }
    ensures resolves { Resolves resolver.now interface
        (record {
          links = record { log = R.log reach.old; opened = R.opened reach.old; state = R.state reach.old };
          link_faults = R.faults reach.old;
          written = O.written output.old;
          write_faults = O.write_faults output.old;
        })
        (record {
          links = record { log = R.log reach.new; opened = R.opened reach.new; state = R.state reach.new };
          link_faults = R.faults reach.new;
          written = O.written output.new;
          write_faults = O.write_faults output.new;
        })
        result }
    ensures other { IsAsBefore (O.left output.old) (O.left output.new)
        (O.read_faults output.old) (O.read_faults output.new) }
    ensures unfinished { O.finished output.new ≡ false }
    ensures freed { R.freed reach.new ≡ R.freed reach.old }
{
    match resolve(alloc, reach, resolver, interface.as_str()) {
        Ok(address) => {
            drop(interface);
            let shown = put_address(alloc, &address, output);
            drop(address);
            shown
        }
        Err(end) => Err(no_address(interface, end)),
    }
}

// Shows an address in a line.
fn put_address<O: Sink>(
    alloc: Global,
    address: &Address,
    output: &mut O,
) -> Result<(), NetworkFault>
    requires { O.finished output.old ≡ false }
    ensures shows { ShowsAddress address.now (O.written output.old) (O.written output.new)
        (O.write_faults output.old) (O.write_faults output.new) result }
    ensures other { IsAsBefore (O.left output.old) (O.left output.new)
        (O.read_faults output.old) (O.read_faults output.new) }
    ensures unfinished { O.finished output.new ≡ false }
{
    let Ok(text) = address.text(alloc) else {
        return Err(NetworkFault::Memory);
    };
    let put = put_texts(output, &[text.as_str(), "\n"]);
    drop(text);
    match put {
        Ok(()) => Ok(()),
        Err(Failed) => Err(NetworkFault::WriteFault),
    }
}

// What is shown of a definition.
ghost use Rattle.std.specs.Prelude.{◌≡◌, false};
ghost use Rattle.link_port.specs.Flow.{IsAsBefore};
ghost use Rattle.varlink_command.specs.Definitions.{Shows};

use crate::faults::Fault;
use crate::pieces::put_texts;
use idl_print::{PrintFault, write};
use idl_tree::Checked;
use link_port::{Failed, Sink};
use std::alloc::Global;

/// What is shown of a definition that is accepted.
#[derive(Debug, Clone, Copy, PartialEq, Eq)]
pub enum Showing {
    /// `ok` and its name.
    Name,
    /// Its canonical text.
    Text,
}

/// Shows a definition.
pub fn show<O: Sink>(
    alloc: Global,
    showing: Showing,
    tree: &Checked,
    output: &mut O,
) -> Result<(), Fault>
    requires { O.finished output.old ≡ false }
    ensures shows { Shows showing tree.now (O.written output.old) (O.written output.new)
        (O.write_faults output.old) (O.write_faults output.new) result }
    ensures other { IsAsBefore (O.left output.old) (O.left output.new)
        (O.read_faults output.old) (O.read_faults output.new) }
    ensures unfinished { O.finished output.new ≡ false }
{
    match showing {
        Showing::Name => show_name(tree, output),
        Showing::Text => show_text(alloc, tree, output),
    }
}

fn show_name<O: Sink>(tree: &Checked, output: &mut O) -> Result<(), Fault>
    requires { O.finished output.old ≡ false }
    ensures shows { Shows Showing.Name tree.now (O.written output.old) (O.written output.new)
        (O.write_faults output.old) (O.write_faults output.new) result }
    ensures other { IsAsBefore (O.left output.old) (O.left output.new)
        (O.read_faults output.old) (O.read_faults output.new) }
    ensures unfinished { O.finished output.new ≡ false }
{
    match put_texts(output, &["ok ", tree.tree().name.as_str(), "\n"]) {
        Ok(()) => Ok(()),
        Err(Failed) => Err(Fault::WriteFault),
    }
}

fn show_text<O: Sink>(alloc: Global, tree: &Checked, output: &mut O) -> Result<(), Fault>
    requires { O.finished output.old ≡ false }
    ensures shows { Shows Showing.Text tree.now (O.written output.old) (O.written output.new)
        (O.write_faults output.old) (O.write_faults output.new) result }
    ensures other { IsAsBefore (O.left output.old) (O.left output.new)
        (O.read_faults output.old) (O.read_faults output.new) }
    ensures unfinished { O.finished output.new ≡ false }
{
    match write(alloc, tree, output) {
        Ok(()) => Ok(()),
        Err(PrintFault::Short(_)) => Err(Fault::WriteFault),
        Err(PrintFault::Memory) => Err(Fault::Memory),
    }
}

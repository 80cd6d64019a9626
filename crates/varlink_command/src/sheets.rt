// What is shown of a sheet.
ghost use Rattle.std.specs.Prelude.{◌≡◌, false};
ghost use Rattle.link_port.specs.Flow.{IsAsBefore};
ghost use Rattle.varlink_command.specs.Sheets.{ShowsCounts};

use crate::faults::Fault;
use crate::pieces::put_texts;
use itoa::Buffer;
use link_port::{Failed, Sink};
use sheet_form::Sheet;

/// Shows how many interfaces, registers and rules a sheet has, a line each. It takes no memory.
pub fn show_counts<O: Sink>(sheet: &Sheet, output: &mut O) -> Result<(), Fault>
    requires { O.finished output.old ≡ false }
    ensures shows { ShowsCounts sheet.now (O.written output.old) (O.written output.new)
        (O.write_faults output.old) (O.write_faults output.new) result }
    ensures other { IsAsBefore (O.left output.old) (O.left output.new)
        (O.read_faults output.old) (O.read_faults output.new) }
    ensures unfinished { O.finished output.new ≡ false }
{
    let mut interfaces = Buffer::new();
    let mut registers = Buffer::new();
    let mut rules = Buffer::new();
    let interfaces = interfaces.format(sheet.interfaces().len() as u64);
    let registers = registers.format(sheet.registers().len() as u64);
    let rules = rules.format(sheet.rules().len() as u64);
    let put = put_texts(
        output,
        &[
            "interfaces ",
            interfaces,
            "\nregisters ",
            registers,
            "\nrules ",
            rules,
            "\n",
        ],
    );
    match put {
        Ok(()) => Ok(()),
        Err(Failed) => Err(Fault::WriteFault),
    }
}

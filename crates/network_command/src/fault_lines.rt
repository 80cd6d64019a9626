// The lines that tell faults of commands that need the network.
ghost use Rattle.std.specs.Prelude.{◌≡◌, ◌++◌, false, codes, decimal};
ghost use Rattle.link_port.specs.Flow.{IsAsBefore};
ghost use Rattle.varlink_command.specs.Lines.{PutsAll};
ghost use Rattle.network_command.specs.Faults.{IsOwn, fault_line, fault_text, number_of, wording};

use crate::faults::NetworkFault;
use host_command::write_host_line;
use itoa::Buffer;
use link_port::{Failed, Sink, Text};
use varlink_command::put_texts;

// The text of a fault: what stands before its number, that, what stands behind it, and a name.
#[derive(Clone, Copy)]
pub struct Wording<'a> {
    pub before: &'a str,
    pub number: &'a str,
    pub between: &'a str,
    pub name: &'a str,
}

/// Writes the line that tells the fault of a command that needs the network: `varlink: `, the text, and
/// a line feed. It takes no memory.
///
/// Where the sink fails, a front of the line was written.
pub fn write_network_line<E: Sink>(faults: &mut E, fault: &NetworkFault) -> Result<(), Failed>
    requires { E.finished faults.old ≡ false }
    ensures all { PutsAll (E.written faults.old) (E.written faults.new)
        (E.write_faults faults.old) (E.write_faults faults.new) result (fault_line fault.now) }
    ensures other { IsAsBefore (E.left faults.old) (E.left faults.new)
        (E.read_faults faults.old) (E.read_faults faults.new) }
    ensures unfinished { E.finished faults.new ≡ false }
{
    if let NetworkFault::Hosting(why) = fault {
        return write_host_line(faults, why);
    }
    let mut digits = Buffer::new();
    let text = wording_of(fault, digits.format(fault.number()));
    put_texts(
        faults,
        &[
            "varlink: ",
            text.before,
            text.number,
            text.between,
            text.name,
            "\n",
        ],
    )
}

// A text without a number.
fn plain<'a>(text: &'a str, name: &'a str) -> Wording<'a>
    ensures { wording result ≡ text.now ++ name.now }
{
    Wording {
        before: text,
        number: "",
        between: "",
        name,
    }
}

// A text on the reply of the number of these digits.
fn reply<'a>(digits: &'a str, between: &'a str) -> Wording<'a>
    ensures { wording result ≡ codes "reply " ++ digits.now ++ between.now }
{
    Wording {
        before: "reply ",
        number: digits,
        between,
        name: "",
    }
}

// The text on a parameter of the reply of the number of these digits.
fn ill_typed<'a>(digits: &'a str, field: &'a Text) -> Wording<'a>
    ensures { wording result ≡ codes "reply " ++ digits.now ++ codes " is ill typed at " ++ field.now }
{
    Wording {
        before: "reply ",
        number: digits,
        between: " is ill typed at ",
        name: field.as_str(),
    }
}

// The text of a fault, its number in these digits.
fn wording_of<'a>(fault: &'a NetworkFault, digits: &'a str) -> Wording<'a>
    requires digits { digits.now ≡ decimal (number_of fault.now) }
    requires plain { IsOwn fault.now }
    ensures { wording result ≡ fault_text fault.now }
{
    match fault {
        NetworkFault::BadWords => plain("bad words", ""),
        NetworkFault::NotReply { .. } => reply(digits, " is no reply"),
        NetworkFault::Continues { .. } => reply(digits, " continues"),
        NetworkFault::Ended { .. } => Wording {
            before: "ended before reply ",
            number: digits,
            between: "",
            name: "",
        },
        NetworkFault::TooLong { .. } => reply(digits, " is too long"),
        NetworkFault::IllTyped { field, .. } => ill_typed(digits, field),
        NetworkFault::NoDescription => plain("no description", ""),
        NetworkFault::BadResolver => plain("bad resolver", ""),
        NetworkFault::ErrorReply { name } => plain("error ", name.as_str()),
        NetworkFault::NoAddress { interface } => plain("no address of ", interface.as_str()),
        NetworkFault::LinkFault => plain("link fault", ""),
        NetworkFault::WriteFault => plain("write fault", ""),
        NetworkFault::Long => plain("too many bytes", ""),
        NetworkFault::Hosting(_) => unreachable!(),
        NetworkFault::Memory => plain("out of memory", ""),
    }
}

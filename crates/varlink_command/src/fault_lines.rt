// The lines that tell faults.
ghost use Rattle.std.specs.Prelude.{◌≡◌, ◌++◌, false, decimal};
ghost use Rattle.link_port.specs.Flow.{IsAsBefore};
ghost use Rattle.varlink_command.specs.Faults.{number_of, refusal_number};
ghost use Rattle.varlink_command.specs.FaultTexts.{fault_line, fault_text, refusal_text, name_text, wording};
ghost use Rattle.varlink_command.specs.Lines.{PutsAll};
ghost use Rattle.sheet_form.specs.declared.faults.SheetFault.{SheetFault};
ghost use Rattle.varlink_command.specs.declared.faults.Fault.TheVariants.{NoSheet};

use crate::faults::Fault;
use crate::pieces::put_texts;
use crate::sheet_lines::write_sheet_line;
use idl_grammar::IdlFault;
use idl_token::TokenFault;
use idl_tree::NameFault;
use itoa::Buffer;
use link_port::{Failed, Sink};

/// The text for want of memory.
const OUT_OF_MEMORY: &str = "out of memory";

// The text of a fault: what stands before its name or number, that, and what stands behind it.
#[derive(Clone, Copy)]
pub struct Wording<'a> {
    pub before: &'a str,
    pub middle: &'a str,
    pub behind: &'a str,
}

/// Writes the line that tells the fault of a command on this path: `varlink: `, the text, and a line
/// feed. It takes no memory.
///
/// Where the sink fails, a front of the line was written.
pub fn write_fault_line<E: Sink>(faults: &mut E, path: &str, fault: &Fault) -> Result<(), Failed>
    requires { E.finished faults.old ≡ false }
    ensures all { PutsAll (E.written faults.old) (E.written faults.new)
        (E.write_faults faults.old) (E.write_faults faults.new) result
        (fault_line path.now fault.now) }
    ensures other { IsAsBefore (E.left faults.old) (E.left faults.new)
        (E.read_faults faults.old) (E.read_faults faults.new) }
    ensures unfinished { E.finished faults.new ≡ false }
{
    if let Fault::NoSheet(why) = fault {
        return write_sheet_line(faults, why);
    }
    let mut digits = Buffer::new();
    let text = wording_of(fault, path, digits.format(fault.number()));
    put_texts(
        faults,
        &["varlink: ", text.before, text.middle, text.behind, "\n"],
    )
}

// A text without a name or a number.
fn plain(text: &str) -> Wording<'_>
    ensures { wording result ≡ text.now }
{
    Wording {
        before: text,
        middle: "",
        behind: "",
    }
}

// The text of a fault of a command on this path, its number in these digits.
fn wording_of<'a>(fault: &'a Fault, path: &'a str, digits: &'a str) -> Wording<'a>
    requires digits { digits.now ≡ decimal (number_of fault.now) }
    requires other { (why : SheetFault) → fault.now ≡ NoSheet why → ⊥ }
    ensures { wording result ≡ fault_text path.now fault.now }
{
    match fault {
        Fault::BadWords => plain("bad words"),
        Fault::Unreadable(_) => Wording {
            before: "cannot read ",
            middle: path,
            behind: "",
        },
        Fault::PastLimit(_) => Wording {
            before: "",
            middle: path,
            behind: " is too long",
        },
        Fault::NoDefinition(why) => refusal(why, digits),
        Fault::NoSheet(_) => unreachable!(),
        Fault::NoWork => plain("no work"),
        Fault::Incompatible(line) => plain(line.as_str()),
        Fault::Cut { .. } => Wording {
            before: "cut after ",
            middle: digits,
            behind: " bytes",
        },
        Fault::NotCall { .. } => Wording {
            before: "message ",
            middle: digits,
            behind: " is no call",
        },
        Fault::TooLong { .. } => Wording {
            before: "message ",
            middle: digits,
            behind: " is too long",
        },
        Fault::ReadFault => plain("read fault"),
        Fault::WriteFault => plain("write fault"),
        Fault::Long => plain("too many bytes"),
        Fault::Memory => plain(OUT_OF_MEMORY),
    }
}

/// The text of a refused definition, its number in these digits.
pub fn refusal<'a>(why: &'a IdlFault, digits: &'a str) -> Wording<'a>
    requires { digits.now ≡ decimal (refusal_number why.now) }
    ensures { wording result ≡ refusal_text why.now }
{
    match why {
        IdlFault::Token(TokenFault::NotUtf8 { .. }) => at_place("not UTF-8 at ", digits),
        IdlFault::Token(TokenFault::BadByte { .. }) => at_place("bad byte at ", digits),
        IdlFault::Syntax { .. } => at_place("syntax at ", digits),
        IdlFault::TooDeep { .. } => at_place("too deep at ", digits),
        IdlFault::Name(name) => name_wording(name),
        IdlFault::Token(TokenFault::Memory) | IdlFault::Memory => plain(OUT_OF_MEMORY),
    }
}

// A text that ends with a place.
fn at_place<'a>(before: &'a str, digits: &'a str) -> Wording<'a>
    ensures { wording result ≡ before.now ++ digits.now }
{
    Wording {
        before,
        middle: digits,
        behind: "",
    }
}

// The text of a fault of names.
fn name_wording(fault: &NameFault) -> Wording<'_>
    ensures { wording result ≡ name_text fault.now }
{
    let (before, name, behind) = match fault {
        NameFault::TwiceType(name) => ("type ", name, " stands twice"),
        NameFault::TwiceMethod(name) => ("method ", name, " stands twice"),
        NameFault::TwiceError(name) => ("error ", name, " stands twice"),
        NameFault::TwiceField(name) => ("name ", name, " stands twice"),
        NameFault::UnknownType(name) => ("type ", name, " is not defined"),
        NameFault::Memory => return plain(OUT_OF_MEMORY),
    };
    Wording {
        before,
        middle: name.as_str(),
        behind,
    }
}

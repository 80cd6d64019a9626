// Why a command did not do what it was asked for, and the status that tells it.
ghost use Rattle.std.specs.Prelude.{◌≡◌};
ghost use Rattle.varlink_command.specs.Faults.{status_of, number_of, refusal_number};

use crate::worlds::Status;
use idl_grammar::IdlFault;
use idl_token::TokenFault;
use link_port::Text;
use sheet_form::SheetFault;

/// Which of the files that the words name.
#[derive(Debug, Clone, Copy, PartialEq, Eq)]
pub enum Which {
    /// The first one.
    First,
    /// The one behind it.
    Second,
}

/// Why a command did not do what it was asked for.
#[derive(Debug, Drop)]
pub enum Fault {
    /// The words are those of no command.
    BadWords,
    /// A file cannot be read.
    Unreadable(Which),
    /// A file holds more bytes than it may.
    PastLimit(Which),
    /// A file holds no definition. Want of memory is not told by it.
    NoDefinition(IdlFault),
    /// The file at the path holds no sheet. Want of memory is not told by it.
    NoSheet(SheetFault),
    /// A work was not served to a number: its sheet has no such interface, its calls stop before their end, or
    /// its register is no number.
    NoWork,
    /// A definition cannot take the place of another one. The text tells why.
    Incompatible(Text),
    /// The input ended with so many bytes after the last whole message.
    Cut {
        /// The number of bytes.
        bytes: u64,
    },
    /// A message is no call.
    NotCall {
        /// The number of messages before it.
        index: u64,
    },
    /// A message is too long.
    TooLong {
        /// The number of messages before it.
        index: u64,
    },
    /// The input failed.
    ReadFault,
    /// The output failed.
    WriteFault,
    /// The input has more bytes than a session takes.
    Long,
    /// Memory was asked for and not granted.
    Memory,
}

impl Fault {
    /// The status that tells the fault.
    pub fn status(&self) -> Status
        ensures { result.0 ≡ status_of self.now }
    {
        Status(match self {
            Fault::BadWords => 1,
            Fault::PastLimit(_) | Fault::NoDefinition(_) | Fault::NoSheet(_) | Fault::NoWork => 2,
            Fault::Cut { .. } | Fault::NotCall { .. } | Fault::TooLong { .. } => 3,
            Fault::Unreadable(_) | Fault::ReadFault => 5,
            Fault::WriteFault => 6,
            Fault::Memory => 7,
            Fault::Long => 8,
            Fault::Incompatible(_) => 10,
        })
    }

    // The number in the fault's text; 0 where there is none.
    pub fn number(&self) -> u64
        ensures { result ≡ number_of self.now }
    {
        match self {
            Fault::NoDefinition(why) => refusal_number(why),
            Fault::Cut { bytes } => *bytes,
            Fault::NotCall { index } | Fault::TooLong { index } => *index,
            _ => 0,
        }
    }
}

/// The number in the text of a refused definition; 0 where there is none.
pub fn refusal_number(why: &IdlFault) -> u64
    ensures { result ≡ refusal_number why.now }
{
    match why {
        IdlFault::Token(TokenFault::NotUtf8 { at } | TokenFault::BadByte { at })
        | IdlFault::Syntax { at }
        | IdlFault::TooDeep { at } => *at,
        _ => 0,
    }
}

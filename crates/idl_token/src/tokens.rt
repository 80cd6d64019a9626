// Items, and why a text has none.
use link_port::Memory;
use std::error::Error;
use std::fmt;

/// The kinds of items.
#[derive(Debug, Clone, Copy, PartialEq, Eq)]
pub enum ItemKind {
    /// A letter or digit of ASCII, then letters, digits, `_`, `.` and `-`, as long as possible.
    Word,
    /// One of `(` `)` `,` `:` `?` `[` `]` and `->`.
    Mark,
    /// `#` and all that follows up to the next CR, LF or the end of the text.
    Note,
}

/// An item of a text.
#[derive(Debug, Clone, Copy)]
pub struct Item<'a> {
    /// The kind of the item.
    pub kind: ItemKind,
    /// The number of bytes before it.
    pub at: u64,
    /// Its spelling, the slice of the text at that place.
    pub text: &'a [u8],
}

/// Why a text has no list of items.
#[derive(Debug, Clone, Copy, PartialEq, Eq)]
pub enum TokenFault {
    /// The text is not UTF-8; `at` is the length of its longest valid front.
    NotUtf8 { at: u64 },
    /// The byte at `at` is the first that is no blank, is in no item and begins none.
    BadByte { at: u64 },
    /// Memory was not granted.
    Memory,
}

impl From<Memory> for TokenFault {
    ghost use Rattle.std.specs.Prelude.{◌≡◌};
    ghost use Rattle.idl_token.specs.declared.tokens.TokenFault.TheVariants as fault;

    ghost from_gives = { λ _ fault_is. fault_is ≡ fault.Memory };

    fn from(_memory: Memory) -> TokenFault {
        TokenFault::Memory
    }
}

impl fmt::Display for TokenFault {
    ghost use Rattle.std.specs.Prelude.{Some};
    ghost use Rattle.idl_token.specs.Faults.{fault_text};

    ghost output = { λ fault. Some (fault_text fault) };

    fn fmt<W: fmt::Write>(&self, f: &mut fmt::Formatter<W>) -> fmt::Result {
        match self {
            TokenFault::NotUtf8 { at } => write!(f, "not UTF-8 at {at}"),
            TokenFault::BadByte { at } => write!(f, "bad byte at {at}"),
            TokenFault::Memory => f.write_str("out of memory"),
        }
    }
}

impl Error for TokenFault {}

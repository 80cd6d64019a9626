// How the question for an address ends without one.
use caller_form::ReplyFault;
use link_port::{Memory, Text};

/// Why a resolver told no address.
#[derive(Debug, Drop)]
pub enum ResolveEnd {
    /// It has no such interface: the reply is its `InterfaceNotFound`.
    Missing,
    /// What it said is not what a resolver says.
    Bad(ResolveFault),
    /// The reach failed.
    LinkFault,
    /// Memory was asked for and not granted.
    Memory,
}

/// What is wrong with what a resolver said.
#[derive(Debug, Drop)]
pub enum ResolveFault {
    /// It is no reply, for this fault, which is not `Memory`.
    NotReply(ReplyFault),
    /// It says that another reply follows.
    Continues,
    /// The link ended before the reply was whole.
    Ended,
    /// It has more bytes than a reply may have.
    TooLong,
    /// 2^40 bytes were taken from the link.
    Long,
    /// It is an error that is not its `InterfaceNotFound`, of this name.
    OtherError(Text),
    /// Its `address` is absent or no string.
    NoText,
    /// Its `address` is the text of no address.
    BadAddress,
}

impl From<Memory> for ResolveEnd {
    ghost use Rattle.std.specs.Prelude.{◌≡◌};
    ghost use Rattle.address_finding.specs.declared.ends.ResolveEnd.TheVariants as end;

    ghost from_gives = { λ _ made. made ≡ end.Memory };

    fn from(_memory: Memory) -> ResolveEnd {
        ResolveEnd::Memory
    }
}

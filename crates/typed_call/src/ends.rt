// How a call ends whose replies are read by a definition.
use caller_form::ReplyFault;
use link_exchange::AskEnd;
use standard_calls::NoDescription;

/// How a call ends whose replies are read by the service's own definition.
#[derive(Debug, Drop)]
pub enum TypedEnd {
    /// How the call ended; or the reach failed, the link was too long or memory was wanting, before it was sent.
    Asked(AskEnd),
    /// There is no description of the method's replies, so the call was not sent.
    NoDescription(Why),
}

/// Why there is no description of a method's replies.
#[derive(Debug, Drop)]
pub enum Why {
    /// What came in place of the reply to the call for the definition.
    Exchange(ReplyEnd),
    /// What is missing in that reply; or the method's word has no dot, and is `NoMethod`. It is not `Memory`.
    Said(NoDescription),
}

/// What came in place of one reply.
#[derive(Debug, Drop)]
pub enum ReplyEnd {
    /// A message that is no reply, for this fault, which is not `Memory`.
    NotReply(ReplyFault),
    /// A reply that says that another follows.
    Continues,
    /// The end of the link.
    Ended,
    /// A message that has more bytes than a reply may have.
    TooLong,
}

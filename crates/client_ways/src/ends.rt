// What is asked of a client, and how its call ends.
use address_finding::ResolveFault;
use call_form::Call;
use link_exchange::AskEnd;
use link_port::Text;
use typed_call::Why;

/// A call, and whether its replies are read by the definition that the called service gives.
#[derive(Clone, Copy)]
pub struct Ask<'a> {
    /// The call.
    pub call: &'a Call,
    /// Its replies are read before they are passed on.
    pub typed: bool,
}

/// How a call of a client ends.
#[derive(Debug, Drop)]
pub enum ClientEnd {
    /// The call was made and ended so, or the reach or the sink failed or memory was wanting before it.
    Asked(AskEnd),
    /// The replies of a typed call cannot be read, so the call was not sent.
    NoDescription(Why),
    /// Nobody has the interface: the word of the call has no dot, or the resolver does not have it.
    Unresolved {
        /// The word, or the interface.
        interface: Text,
    },
    /// What the resolver said is not what a resolver says.
    Resolver(ResolveFault),
}

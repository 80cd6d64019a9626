// What a session does next.
use crate::stops::Stop;
use call_form::Raw;

/// What a session does next.
#[derive(Debug, Clone, Copy, PartialEq, Eq)]
pub enum Phase {
    /// It reads calls.
    Calls,
    /// The call that it gave last waits for its replies.
    Waiting { oneway: bool },
    /// An upgrade was accepted: the bytes are another protocol's.
    Raw(Raw),
    /// It has stopped.
    Stopped(Stop),
}

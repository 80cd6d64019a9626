// A connection that was given back.
use crate::connections::MemConn;
use crate::listeners::Leave;

/// A connection that was given back.
#[derive(Debug, Drop)]
pub struct Returned {
    /// The connection, with what is left on it and what was written.
    pub conn: MemConn,
    /// How its session stopped.
    pub leave: Leave,
    /// How many entries it made in a history.
    pub entries: u64,
}

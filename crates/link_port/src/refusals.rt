// Want of memory, and failures of the ends of a stream.
use std::alloc::AllocError;

/// Memory was asked for and not granted.
#[derive(Debug, Clone, Copy, PartialEq, Eq)]
pub struct Memory;

/// An end of a stream failed.
#[derive(Debug, Clone, Copy, PartialEq, Eq)]
pub struct Failed;

/// A sink failed after `written` bytes of the piece were appended.
#[derive(Debug, Clone, Copy, PartialEq, Eq)]
pub struct Short {
    /// The number of bytes that were appended.
    pub written: u64,
}

impl From<AllocError> for Memory {
    fn from(_error: AllocError) -> Memory {
        Memory
    }
}

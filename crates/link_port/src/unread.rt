// Bytes in memory that are given out from the front.
ghost use Rattle.std.specs.Prelude.{◌≡◌, ◌≤◌, ◌++◌, length, take, drop};

use crate::lists::List;
use std::marker::Model;

/// Bytes of which a front was given out already. Contracts see what is left.
#[derive(Debug, Drop)]
pub struct UnreadBytes {
    bytes: List<u8>,
    next: usize,
}

impl Model for UnreadBytes {
    ghost use Rattle.std.specs.Prelude.{◌≤◌, List, ℕ, drop, length};

    ghost Value = { List ℕ };

    ghost view = { λ unread. drop unread.next unread.bytes };

    ghost invariant = { λ unread. unread.next ≤ length unread.bytes };
}

impl UnreadBytes {
    /// All of the bytes are left.
    pub fn new(bytes: List<u8>) -> UnreadBytes
        ensures { result ≡ bytes }
    {
        UnreadBytes { bytes, next: 0 }
    }

    /// The number of bytes that are left.
    pub fn len(&self) -> usize
        ensures { result ≡ length self.now }
    {
        self.bytes.as_slice().len() - self.next
    }

    /// Copies the next `count` bytes to the front of `into`, and leaves the rest of it as it was.
    pub fn give(&mut self, count: usize, into: &mut [u8])
        requires left { count ≤ length self.old }
        requires room { count ≤ length into.old }
        ensures rest { self.new ≡ drop count self.old }
        ensures given { into.new ≡ take count self.old ++ drop count into.old }
    {
        let left = &self.bytes.as_slice()[self.next..];
        into[..count].copy_from_slice(&left[..count]);
        self.next += count;
    }
}

// Links in memory, and which calls on them fail.
ghost use Rattle.std.specs.Prelude.{◌≡◌, ◌≤◌, ◌++◌, length, take, drop};
ghost use Rattle.link_port.specs.Planned.{is_failing, after_call};

use link_port::List;
use std::marker::Model;

/// What a peer says, of which a front was taken already. Contracts see what is left.
#[derive(Debug, Drop)]
pub struct Saying {
    bytes: List<u8>,
    next: usize,
}

impl Model for Saying {
    ghost use Rattle.std.specs.Prelude.{◌≤◌, List, ℕ, drop, length};

    ghost Value = { List ℕ };

    ghost view = { λ saying. drop saying.next saying.bytes };

    ghost invariant = { λ saying. saying.next ≤ length saying.bytes };
}

impl Saying {
    /// All of the bytes are left.
    pub fn new(bytes: List<u8>) -> Saying
        ensures { result ≡ bytes }
    {
        Saying { bytes, next: 0 }
    }

    /// Lends what is left.
    pub fn left(&self) -> &[u8]
        ensures { result.now ≡ self.now }
    {
        &self.bytes.as_slice()[self.next..]
    }

    /// Copies the next `count` bytes to the front of `into`, and leaves the rest of it as it was.
    pub fn give(&mut self, count: usize, into: &mut [u8])
        requires left { count ≤ length self.old }
        requires room { count ≤ length into.old }
        ensures rest { self.new ≡ drop count self.old }
        ensures given { into.new ≡ take count self.old ++ drop count into.old }
    {
        let left = &self.bytes.as_slice()[self.next..];
        into[..count].copy_from_slice(&left[..count]);
        self.next += count;
    }
}

/// A link in memory.
#[derive(Debug, Drop)]
pub enum MemLink {
    /// It is open, and its peer says this.
    Open(Saying),
    /// It was closed.
    Closed,
    /// It was taken out as two ends.
    Halved,
}

/// The calls of an object, by their numbers from 0 on, and which of them fail. A number and a count stand
/// still at the greatest 64-bit number.
#[derive(Debug, Drop)]
pub struct CallPlan {
    failing: List<u64>,
    number: u64,
    faults: u64,
}

impl Model for CallPlan {
    ghost use Rattle.link_port.specs.Planned.{Calls};

    ghost Value = { Calls };

    ghost view = { λ plan. record { failing = plan.failing; number = plan.number; faults = plan.faults } };
}

impl CallPlan {
    /// No call was made yet, and those whose numbers are listed are to fail.
    pub fn new(failing: List<u64>) -> CallPlan
        ensures { result ≡ record { failing = failing; number = 0; faults = 0 } }
    {
        CallPlan {
            failing,
            number: 0,
            faults: 0,
        }
    }

    /// Whether the next call is one of those that are to fail.
    pub fn is_failing(&self) -> bool
        ensures { result ≡ is_failing self.now }
    {
        self.failing.as_slice().contains(&self.number)
    }

    /// Counts a call, and its fault if it failed.
    pub fn count(&mut self, failed: bool)
        ensures { self.new ≡ after_call failed self.old }
    {
        self.number = self.number.saturating_add(1);
        if failed {
            self.faults = self.faults.saturating_add(1);
        }
    }
}

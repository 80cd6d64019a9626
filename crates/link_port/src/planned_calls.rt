// Which calls of an object in memory fail, and how much a call may move.
ghost use Rattle.std.specs.Prelude.{◌≡◌, [], drop};
ghost use Rattle.link_port.specs.Planned.{is_failing, after_call, limited};

use crate::lists::List;
use std::marker::Model;

/// The calls of an object in memory, by their numbers from 0 on. A number and a count stand still
/// at the greatest 64-bit number.
#[derive(Debug, Drop)]
pub struct CallPlan {
    failing: List<u64>,
    number: u64,
    faults: u64,
}

impl Model for CallPlan {
    ghost use Rattle.link_port.specs.Planned.{Calls};

    ghost Value = { Calls };

    ghost view = { λ plan. record { failing = plan.failing; number = plan.number; faults = plan.faults } };
}

impl CallPlan {
    /// No call was made yet, and those whose numbers are listed are to fail.
    pub fn new(failing: List<u64>) -> CallPlan
        ensures { result ≡ record { failing = failing; number = 0; faults = 0 } }
    {
        CallPlan {
            failing,
            number: 0,
            faults: 0,
        }
    }

    /// Whether the next call is one of those that are to fail.
    pub fn is_failing(&self) -> bool
        ensures { result ≡ is_failing self.now }
    {
        self.failing.as_slice().contains(&self.number)
    }

    /// Counts a call, and its fault if it failed.
    pub fn count(&mut self, failed: bool)
        ensures { self.new ≡ after_call failed self.old }
    {
        self.number = self.number.saturating_add(1);
        if failed {
            self.faults = self.faults.saturating_add(1);
        }
    }
}

/// The greatest sizes of the successive calls.
#[derive(Debug, Drop)]
pub struct SizePlan {
    sizes: List<u64>,
    next: usize,
}

impl Model for SizePlan {
    ghost use Rattle.std.specs.Prelude.{◌≤◌, List, ℕ, drop, length};

    ghost Value = { List ℕ };

    ghost view = { λ plan. drop plan.next plan.sizes };

    ghost invariant = { λ plan. plan.next ≤ length plan.sizes };
}

impl SizePlan {
    /// The sizes from the first one on.
    pub fn new(sizes: List<u64>) -> SizePlan
        ensures { result ≡ sizes }
    {
        SizePlan { sizes, next: 0 }
    }

    /// Limits a count by the next size, and goes on to the one after it.
    pub fn limit(&mut self, count: usize) -> usize
        ensures limited { result ≡ limited self.old count }
        ensures rest { self.new ≡ drop 1 self.old }
    {
        match self.sizes.as_slice().get(self.next) {
            None => count,
            Some(size) => {
                let most = (*size).max(1) as usize;
                self.next += 1;
                most.min(count)
            }
        }
    }
}

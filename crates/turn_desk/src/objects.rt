//! What stands under a desk, and an entry of its history.
ghost use Rattle.std.specs.Prelude.{◌≡◌, ℕ, ◌↔◌, OnOk, OnErr, IfOk};

use link_port::Memory;
use std::alloc::Global;

/// A value that changes in steps, each of which answers one request.
pub trait Object: Drop {
    /// What is asked.
    type Request: Drop;

    /// What is answered.
    type Reply;

    // Which requests are good for a state.
    ghost good: { Self → Self.Request → Type 0 };

    // The state after a good request.
    ghost after: { Self → Self.Request → Self };

    // The reply to a good request.
    ghost answer: { Self → Self.Request → Self.Reply };

    // What a request weighs.
    ghost weigh: { Self.Request → ℕ };

    /// Answers a good request. After want of memory the state is as before.
    fn step(&mut self, alloc: Global, request: &Self::Request) -> Result<Self::Reply, Memory>
        requires { good self.old request.now }
        ensures reply { IfOk result (λ r. r ≡ answer self.old request.now) }
        ensures state { OnOk result (self.new ≡ after self.old request.now) }
        ensures memory { OnErr result (self.new ≡ self.old) };

    /// What the request weighs in a history.
    fn weight(&self, request: &Self::Request) -> u64
        ensures { result ≡ weigh request.now };

    // No step changes which requests are good.
    ghost lasting: { (s : Self) (q r : Self.Request) → good s q → (good (after s q) r ↔ good s r) };
}

/// One step of a history: the pass that asked, and what it asked. The reply is not stored: it is the
/// one that the object's definition gives at this place.
#[derive(Debug, Drop)]
pub struct Entry<R> {
    /// The number of the pass.
    pub pass: u64,
    /// What was asked.
    pub request: R,
}

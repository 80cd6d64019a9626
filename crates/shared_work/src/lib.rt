//! Work that threads do side by side on one shared value, each with what is its own. Nothing is
//! known here of the value and the workers but what the worker's type says of them, so that they
//! may be large.
#![tactic(auto)]

ghost use Rattle.std.specs.Prelude.{ℕ, ◌<◌, length, slice_index_or, All};

use std::sync::Wait;
use std::thread::{Threads, for_each_mut};

/// What one thread does on a shared value, with what is its own.
pub trait Work<D>: Drop {
    // The worker can begin on this value.
    ghost ready: { Self → D → Type 0 };

    // What the work makes of a worker on this value.
    ghost done: { Self → D → Self → Type 0 };

    /// Does the work.
    fn work<R: Wait>(&mut self, rt: &R, shared: &D)
        requires { ready self.old shared.now }
        ensures { done self.old shared.now self.new };
}

/// Has each worker do its work, in so many threads at most, and waits for all of them.
pub fn each<D: Sync, W: Work<D> + Send, R: Threads + Wait + Sync>(
    rt: &R,
    shared: &D,
    workers: &mut [W],
    threads: usize,
)
    requires threads { 0 < threads }
    requires ready { All (λ w. W.ready w shared.now) workers.old }
    ensures done { (i : ℕ) (w : W) → i < length workers.old
        → W.done (slice_index_or workers.old i w) shared.now (slice_index_or workers.new i w) }
{
    for_each_mut(
        rt,
        workers,
        threads,
        &|_, worker: &mut W|
            requires { W.ready worker.now shared.now }
            ensures { W.done worker.entry.now shared.entry.now worker.exit.now }
        { worker.work(rt, shared) },
    );
}

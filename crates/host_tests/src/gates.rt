// Two workers that work beside each other.
use crate::services::{ADD, Left, Made, ONE, TWICE, TWO, serves};
use link_doors::Gate;
use std::sync::Wait;
use std::sync::atomic::{AtomicU64, Ordering};
use std::thread::yield_now;

/// How often a call looks whether the other one was answered.
const MOST_LOOKS: u64 = 1_000_000;

/// A gate that holds the call of one worker until that of the other one is answered.
#[derive(Drop)]
struct Held {
    /// The worker that is held.
    held: u64,
    answered: AtomicU64,
    waited: AtomicU64,
}

impl Gate for Held {
    fn before<R: Wait>(&self, _rt: &R, worker: u64, _connection: u64, _call: u64) {
        if worker != self.held {
            return;
        }
        for _ in 0..MOST_LOOKS {
            if self.answered.load(Ordering::SeqCst) == 1 {
                self.waited.store(1, Ordering::SeqCst);
                return;
            }
            yield_now();
        }
    }

    fn after<R: Wait>(&self, _rt: &R, worker: u64, _connection: u64, _call: u64) {
        if worker != self.held {
            self.answered.store(1, Ordering::SeqCst);
        }
    }
}

fn gate(held: u64) -> Held {
    Held {
        held,
        answered: AtomicU64::new(0),
        waited: AtomicU64::new(0),
    }
}

/// Waits until a mark is set, and tells whether it was.
fn is_set(mark: &AtomicU64) -> bool {
    for _ in 0..MOST_LOOKS {
        if mark.load(Ordering::SeqCst) == 1 {
            return true;
        }
        yield_now();
    }
    false
}

/// A gate that lets the calls of two connections, of two calls each, be answered one after the other: the first one's
/// first call, both calls of the second one, and the first one's second call.
#[derive(Drop)]
struct InTurn {
    /// The first one's second call was read.
    first: AtomicU64,
    /// The second one's calls were answered.
    second: AtomicU64,
    late: AtomicU64,
}

impl Gate for InTurn {
    fn before<R: Wait>(&self, _rt: &R, worker: u64, _connection: u64, call: u64) {
        let came = match (worker, call) {
            (0, 1) => {
                self.first.store(1, Ordering::SeqCst);
                is_set(&self.second)
            }
            (1, 0) => is_set(&self.first),
            _ => true,
        };
        if !came {
            self.late.store(1, Ordering::SeqCst);
        }
    }

    fn after<R: Wait>(&self, _rt: &R, worker: u64, _connection: u64, call: u64) {
        if worker == 1 && call == 1 {
            self.second.store(1, Ordering::SeqCst);
        }
    }
}

const FIVE_AND_NONE: &str =
    "{\"method\":\"org.example.count.Add\",\"parameters\":{\"amount\":5}}\0{\"method\":\"org.example.count.Add\",\"parameters\":{\"amount\":0}}\0";

const NONE_AND_SEVEN: &str =
    "{\"method\":\"org.example.count.Add\",\"parameters\":{\"amount\":0}}\0{\"method\":\"org.example.count.Add\",\"parameters\":{\"amount\":7}}\0";

const FIVE_AND_TWELVE: &str = "{\"parameters\":{\"total\":5}}\0{\"parameters\":{\"total\":12}}\0";

#[test]
fn calls_of_two_doors_are_answered_in_turn(rt: HostRuntime) {
    let gate = InTurn {
        first: AtomicU64::new(0),
        second: AtomicU64::new(0),
        late: AtomicU64::new(0),
    };
    let made = Made {
        entries: 4,
        total: 12,
    };
    let left: [Left<'_>; 1] = [[(FIVE_AND_TWELVE, 2), (FIVE_AND_TWELVE, 2)]];
    let says = [FIVE_AND_NONE, NONE_AND_SEVEN];
    assert!(rt; serves(&rt, rt.alloc(), &gate, says, made, &left));
    assert!(rt; gate.late.load(Ordering::SeqCst) == 0);
}

#[test]
fn a_call_may_wait_for_that_of_the_other_door(rt: HostRuntime) {
    let first = gate(0);
    let second = gate(1);
    let left: [Left<'_>; 1] = [[(TWO, 1), (ONE, 1)]];
    let turned: [Left<'_>; 1] = [[(ONE, 1), (TWO, 1)]];
    assert!(rt; serves(&rt, rt.alloc(), &first, [ADD, ADD], TWICE, &left));
    assert!(rt; serves(&rt, rt.alloc(), &second, [ADD, ADD], TWICE, &turned));
    assert!(rt; first.waited.load(Ordering::SeqCst) == 1);
    assert!(rt; second.waited.load(Ordering::SeqCst) == 1);
}

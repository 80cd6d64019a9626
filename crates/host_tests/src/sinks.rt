// Two doors, of which one has a connection whose sink waits until the call of the other one was answered.
ghost use Rattle.std.specs.Prelude.{◌≡◌, false};

use crate::services::{ADD, count_service};
use door_host::{HISTORY_LIMIT, Served, serve};
use link_doors::{Gate, Leave, Listener};
use link_port::{Ends, Failed, Memory, Sink, Source};
use service_core::{Request, Service};
use std::alloc::Global;
use std::sync::Wait;
use std::sync::atomic::{AtomicU64, Ordering};
use std::thread::{Threads, yield_now};
use turn_desk::Kept;

/// How often a put looks whether the other one was made.
const MOST_LOOKS: u64 = 1_000_000;

/// What two connections tell each other. A mark is 1 once it is set.
#[derive(Drop)]
struct Puts {
    /// The connection that is held began its put.
    begun: AtomicU64,
    /// The call of the other one was answered.
    answered: AtomicU64,
    /// How many puts of the connection that is held ended behind that.
    held: AtomicU64,
    /// One waited in vain.
    late: AtomicU64,
}

/// Waits until a mark is set, and tells whether it was.
fn is_set(mark: &AtomicU64) -> bool {
    for _ in 0..MOST_LOOKS {
        if mark.load(Ordering::SeqCst) == 1 {
            return true;
        }
        yield_now();
    }
    false
}

/// A gate that lets the call of a worker be answered only once the put of the other one has begun.
#[derive(Drop)]
struct Behind<'a> {
    /// The worker whose put is held.
    held: u64,
    puts: &'a Puts,
}

impl Gate for Behind<'_> {
    fn before<R: Wait>(&self, _rt: &R, worker: u64, _connection: u64, _call: u64) {
        if worker != self.held && !is_set(&self.puts.begun) {
            self.puts.late.store(1, Ordering::SeqCst);
        }
    }

    fn after<R: Wait>(&self, _rt: &R, worker: u64, _connection: u64, _call: u64) {
        if worker != self.held {
            self.puts.answered.store(1, Ordering::SeqCst);
        }
    }
}

/// A connection whose puts may wait for those of another one.
#[derive(Drop)]
struct Slow<'a> {
    calls: &'a [u8],
    is_held: bool,
    puts: &'a Puts,
    finished: bool,
}

impl Ends for Slow<'_> {
    ghost finished = { λ conn. conn.finished };
}

impl Source for Slow<'_> {
    fn take(&mut self, into: &mut [u8]) -> Result<usize, Failed> {
        let count = self.calls.len().min(into.len());
        let (piece, later) = self.calls.split_at(count);
        into[..count].copy_from_slice(piece);
        self.calls = later;
        Ok(count)
    }
}

impl Sink for Slow<'_> {
    fn put(&mut self, piece: &[u8]) -> Result<usize, Failed> {
        if self.is_held {
            self.puts.begun.store(1, Ordering::SeqCst);
            if is_set(&self.puts.answered) {
                self.puts.held.fetch_add(1, Ordering::SeqCst);
            }
        }
        Ok(piece.len())
    }

    fn finish(&mut self) -> Result<(), Failed> {
        self.finished = true;
        Ok(())
    }
}

/// A door for one connection.
#[derive(Drop)]
struct OneDoor<'a> {
    calls: Option<&'a [u8]>,
    is_held: bool,
    puts: &'a Puts,
}

impl<'a> Listener for OneDoor<'a> {
    ghost use Rattle.std.specs.Prelude.{Some};
    ghost use Rattle.host_tests.specs.Doors.{given_of};

    type Conn = Slow<'a>;

    ghost stated = { λ door. Some 1 };

    ghost given = { λ door. given_of door.calls };

    ghost faults = { λ _. 0 };

    fn accept(&mut self) -> Result<Option<Slow<'a>>, Failed> {
        match self.calls.take() {
            Some(calls) => Ok(Some(Slow {
                calls,
                is_held: self.is_held,
                puts: self.puts,
                finished: false,
            })),
            None => Ok(None),
        }
    }

    fn done(&mut self, conn: Slow<'a>, _leave: Leave, _entries: u64) {
        drop(conn);
    }
}

/// A door whose connection adds to the count.
fn door<'a>(puts: &'a Puts, is_held: bool) -> OneDoor<'a> {
    OneDoor {
        calls: Some(ADD.as_bytes()),
        is_held,
        puts,
    }
}

/// Whether both calls are answered where the put of this worker waits for the answer of the other one.
fn goes_on<R: Threads + Wait + Sync>(rt: &R, alloc: Global, service: &Service, held: u64) -> bool {
    let puts = Puts {
        begun: AtomicU64::new(0),
        answered: AtomicU64::new(0),
        held: AtomicU64::new(0),
        late: AtomicU64::new(0),
    };
    let gate = Behind { held, puts: &puts };
    let right = match vec![in alloc; door(&puts, held == 0), door(&puts, held == 1)] {
        Ok(mut doors) => {
            let served: Result<Served<Kept<Request>>, Memory> = serve(
                rt,
                alloc,
                &mut doors,
                service,
                &gate,
                HISTORY_LIMIT,
            );
            let entries = match served {
                Ok(served) => {
                    let entries = served.entries;
                    drop(served);
                    entries
                }
                Err(Memory) => 0,
            };
            drop(doors);
            entries == 2
        }
        Err(failed) => {
            drop(failed);
            false
        }
    };
    right && puts.held.load(Ordering::SeqCst) == 1 && puts.late.load(Ordering::SeqCst) == 0
}

#[test]
fn a_sink_that_waits_delays_no_other_door(rt: HostRuntime) {
    let right = match count_service(rt.alloc()) {
        Ok(service) => {
            let right = goes_on(&rt, rt.alloc(), &service, 0)
                && goes_on(&rt, rt.alloc(), &service, 1);
            drop(service);
            right
        }
        Err(memory) => {
            drop(memory);
            false
        }
    };
    assert!(rt; right);
}

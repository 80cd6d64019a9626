// When the gate is told of a call.
ghost use Rattle.std.specs.Prelude.{◌≡◌, false};

use crate::seats::{Whole, count_service};
use door_serving::serve_connection;
use link_doors::Gate;
use link_port::{Ends, Failed, Sink, Source};
use service_core::Service;
use service_desk::{Board, Seated};
use session_core::Stop;
use std::alloc::Global;
use std::sync::Wait;
use std::sync::atomic::{AtomicU64, Ordering};
use turn_desk::Desk;

const ADD: &[u8] = b"{\"method\":\"org.example.count.Add\",\"parameters\":{\"amount\":1}}\0";

/// A connection that counts its puts.
#[derive(Drop)]
struct Counted<'a> {
    calls: &'a [u8],
    puts: &'a AtomicU64,
    finished: bool,
}

impl Ends for Counted<'_> {
    ghost finished = { λ conn. conn.finished };
}

impl Source for Counted<'_> {
    fn take(&mut self, into: &mut [u8]) -> Result<usize, Failed> {
        let count = self.calls.len().min(into.len());
        let (piece, later) = self.calls.split_at(count);
        into[..count].copy_from_slice(piece);
        self.calls = later;
        Ok(count)
    }
}

impl Sink for Counted<'_> {
    fn put(&mut self, piece: &[u8]) -> Result<usize, Failed> {
        self.puts.fetch_add(1, Ordering::SeqCst);
        Ok(piece.len())
    }

    fn finish(&mut self) -> Result<(), Failed> {
        self.finished = true;
        Ok(())
    }
}

/// A gate that keeps which call it was told of last, and how many puts there had been then.
#[derive(Drop)]
struct Marks<'a> {
    puts: &'a AtomicU64,
    before: AtomicU64,
    after: AtomicU64,
    call: AtomicU64,
}

impl Gate for Marks<'_> {
    fn before<R: Wait>(&self, _rt: &R, worker: u64, connection: u64, call: u64) {
        let told = worker == 3 && connection == 4 && call == 0;
        self.call.store(u64::from(told), Ordering::SeqCst);
        let puts = self.puts.load(Ordering::SeqCst);
        self.before.store(puts, Ordering::SeqCst);
    }

    fn after<R: Wait>(&self, _rt: &R, worker: u64, connection: u64, call: u64) {
        if worker == 3 && connection == 4 && call == 0 {
            let puts = self.puts.load(Ordering::SeqCst);
            self.after.store(puts, Ordering::SeqCst);
        }
    }
}

/// Whether the gate is told before the reply is put, and after it was.
fn is_told_around<R: Wait>(rt: &R, alloc: Global, service: &Service) -> bool {
    let Ok(board) = Board::start(alloc, service) else {
        return false;
    };
    let Ok((desk, pass)) = Desk::<Board, Whole>::start(alloc, board, 1 << 28) else {
        return false;
    };
    let puts = AtomicU64::new(0);
    let mut link = Counted {
        calls: ADD,
        puts: &puts,
        finished: false,
    };
    let gate = Marks {
        puts: &puts,
        before: AtomicU64::new(9),
        after: AtomicU64::new(9),
        call: AtomicU64::new(0),
    };
    let mut seated = Seated::new(service, &desk, pass);
    let stop = serve_connection(rt, alloc, &mut link, &mut seated, &gate, 3, 4);
    drop(seated);
    let right = stop == Stop::End
        && gate.call.load(Ordering::SeqCst) == 1
        && gate.before.load(Ordering::SeqCst) == 0
        && gate.after.load(Ordering::SeqCst) == 1;
    right
}

#[test]
fn a_gate_is_told_before_and_after_the_reply(rt: HostRuntime) {
    let right = match count_service(rt.alloc()) {
        Ok(service) => {
            let right = is_told_around(&rt, rt.alloc(), &service);
            drop(service);
            right
        }
        Err(memory) => {
            drop(memory);
            false
        }
    };
    assert!(rt; right);
}

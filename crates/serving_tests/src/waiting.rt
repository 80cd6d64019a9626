// Replies are on their way before the peer is waited for, and not sooner.
ghost use Rattle.std.specs.Prelude.{◌≡◌, false};

use crate::seats::{Whole, count_service};
use door_serving::serve_connection;
use link_doors::OpenGate;
use link_port::{Ends, Failed, Sink, Source};
use service_core::Service;
use service_desk::{Board, Seated};
use session_core::Stop;
use std::alloc::Global;
use std::sync::Wait;
use turn_desk::Desk;

const TWO_CALLS: &[u8] =
    b"{\"method\":\"org.example.count.Add\",\"parameters\":{\"amount\":1}}\0{\"method\":\"org.example.count.Add\",\"parameters\":{\"amount\":1}}\0";

/// A connection whose peer has this to say.
#[derive(Drop)]
struct Peer<'a> {
    calls: &'a [u8],
    /// It says the next call only once it has the reply to the last one, and else nothing more.
    waits: bool,
    asked: usize,
    puts: usize,
    replies: usize,
    finished: bool,
}

impl Ends for Peer<'_> {
    ghost finished = { λ peer. peer.finished };
}

/// How many messages end in these bytes.
fn ends_in(bytes: &[u8]) -> usize {
    bytes.iter().filter(|byte| **byte == 0).count()
}

/// The length of what a peer says next.
fn next_length(peer: &Peer<'_>) -> usize {
    if !peer.waits {
        return peer.calls.len();
    }
    if peer.replies < peer.asked {
        return 0;
    }
    match peer.calls.iter().position(|byte| *byte == 0) {
        Some(end) => end + 1,
        None => peer.calls.len(),
    }
}

impl Source for Peer<'_> {
    fn take(&mut self, into: &mut [u8]) -> Result<usize, Failed> {
        let count = next_length(self).min(into.len()).min(self.calls.len());
        let (piece, later) = self.calls.split_at(count);
        into[..count].copy_from_slice(piece);
        self.asked = self.asked.saturating_add(ends_in(piece));
        self.calls = later;
        Ok(count)
    }
}

impl Sink for Peer<'_> {
    fn put(&mut self, piece: &[u8]) -> Result<usize, Failed> {
        self.puts = self.puts.saturating_add(1);
        self.replies = self.replies.saturating_add(ends_in(piece));
        Ok(piece.len())
    }

    fn finish(&mut self) -> Result<(), Failed> {
        self.finished = true;
        Ok(())
    }
}

/// Whether two calls have two replies by so many puts.
fn is_answered<R: Wait>(
    rt: &R,
    alloc: Global,
    service: &Service,
    waits: bool,
    puts: usize,
) -> bool {
    let Ok(board) = Board::start(alloc, service) else {
        return false;
    };
    let Ok((desk, pass)) = Desk::<Board, Whole>::start(alloc, board, 1 << 28) else {
        return false;
    };
    let mut peer = Peer {
        calls: TWO_CALLS,
        waits,
        asked: 0,
        puts: 0,
        replies: 0,
        finished: false,
    };
    let gate = OpenGate::new();
    let mut seated = Seated::new(service, &desk, pass);
    let stop = serve_connection(rt, alloc, &mut peer, &mut seated, &gate, 0, 0);
    drop(seated);
    stop == Stop::End && peer.replies == 2 && peer.puts == puts
}

/// Whether the peer gets its replies so.
fn answers<R: Wait>(rt: &R, alloc: Global, waits: bool, puts: usize) -> bool {
    match count_service(alloc) {
        Ok(service) => {
            let right = is_answered(rt, alloc, &service, waits, puts);
            drop(service);
            right
        }
        Err(memory) => {
            drop(memory);
            false
        }
    }
}

#[test]
fn a_peer_that_waits_gets_each_reply(rt: HostRuntime) {
    assert!(rt; answers(&rt, rt.alloc(), true, 2));
}

#[test]
fn replies_to_calls_in_one_piece_are_one_put(rt: HostRuntime) {
    assert!(rt; answers(&rt, rt.alloc(), false, 1));
}

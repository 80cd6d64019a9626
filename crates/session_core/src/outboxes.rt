// Bytes that wait to be put, so that replies which are made one after another are put at once.
ghost use Rattle.std.specs.Prelude.{◌≡◌, ◌+◌, ◌≤◌, true, false, [], ◌++◌, IfOk, OnOk, OnErr, length, drop, vec_len, vec_capacity};
ghost use Rattle.link_port.specs.Faults.{Rises};
ghost use Rattle.link_port.specs.Flow.{IsAsBefore};
ghost use Rattle.session_core.specs.Sent.{sent, Sends, SendsFront};

use link_port::{Failed, Memory, Sink, put_all};
use std::alloc::Global;
use std::marker::Model;

/// The greatest number of bytes that wait.
const MOST_WAITING: usize = 65536;

/// Bytes that wait to be put to a sink.
#[derive(Drop)]
pub struct Outbox {
    waiting: Vec<u8>,
    room: usize,
}

impl Model for Outbox {
    ghost use Rattle.std.specs.Prelude.{◌≤◌, vec_len, vec_capacity};
    ghost use Rattle.session_core.specs.Sent.{Waiting};

    ghost Value = { Waiting };

    ghost view = { λ outbox. record { bytes = outbox.waiting.items; room = outbox.room } };

    ghost invariant = { λ outbox.
        (vec_len outbox.waiting ≤ outbox.room) × (outbox.room ≤ vec_capacity outbox.waiting) };
}

impl Outbox {
    /// An outbox in which bytes wait. It reserves their room.
    pub fn new(alloc: Global) -> Result<Outbox, Memory>
        ensures { IfOk result (λ outbox. outbox ≡ record { bytes = []; room = MOST_WAITING }) }
    {
        Ok(Outbox {
            waiting: Vec::with_capacity(alloc, MOST_WAITING)?,
            room: MOST_WAITING,
        })
    }

    /// An outbox in which nothing waits. It takes no memory.
    pub fn none(alloc: Global) -> Outbox
        ensures { result ≡ record { bytes = []; room = 0 } }
    {
        Outbox {
            waiting: Vec::new(alloc),
            room: 0,
        }
    }

    /// Sends the piece behind what waits. It is put where there is no room for it.
    pub fn send<K: Sink>(&mut self, sink: &mut K, piece: &[u8]) -> Result<(), Failed>
        requires { K.finished sink.old ≡ false }
        ensures sent { OnOk result (Sends (sent (K.written sink.old) self.old)
            (sent (K.written sink.new) self.new) piece.now) }
        ensures part { OnErr result (SendsFront (sent (K.written sink.old) self.old)
            (sent (K.written sink.new) self.new) piece.now) }
        ensures room { self.new.room ≡ self.old.room }
        ensures sound { OnOk result (K.write_faults sink.new ≡ K.write_faults sink.old) }
        ensures fault { OnErr result (Rises (K.write_faults sink.old) (K.write_faults sink.new)) }
        ensures other { IsAsBefore (K.left sink.old) (K.left sink.new)
            (K.read_faults sink.old) (K.read_faults sink.new) }
        ensures unfinished { K.finished sink.new ≡ false }
    {
        if piece.len() <= self.room - self.waiting.len() {
            append(&mut self.waiting, piece);
            return Ok(());
        }
        if let Err(_) = self.flush(sink) {
            return Err(Failed);
        }
        if let Err(_) = put_all(sink, piece) {
            return Err(Failed);
        }
        Ok(())
    }

    /// Puts all that waits. Where that fails, what was not put waits on.
    pub fn flush<K: Sink>(&mut self, sink: &mut K) -> Result<(), Failed>
        requires { K.finished sink.old ≡ false }
        ensures sent { Sends (sent (K.written sink.old) self.old)
            (sent (K.written sink.new) self.new) [] }
        ensures empty { OnOk result (self.new.bytes ≡ []) }
        ensures room { self.new.room ≡ self.old.room }
        ensures sound { OnOk result (K.write_faults sink.new ≡ K.write_faults sink.old) }
        ensures fault { OnErr result (Rises (K.write_faults sink.old) (K.write_faults sink.new)) }
        ensures other { IsAsBefore (K.left sink.old) (K.left sink.new)
            (K.read_faults sink.old) (K.read_faults sink.new) }
        ensures unfinished { K.finished sink.new ≡ false }
    {
        if let Err(short) = put_all(sink, self.waiting.as_slice()) {
            slide(&mut self.waiting, short.written as usize);
            return Err(Failed);
        }
        self.waiting.clear();
        sink.flush()
    }

    /// Sends the piece behind what waits, and puts all at once where that is asked for.
    pub fn deliver<K: Sink>(
        &mut self,
        sink: &mut K,
        piece: &[u8],
        at_once: bool,
    ) -> Result<(), Failed>
        requires { K.finished sink.old ≡ false }
        ensures sent { OnOk result (Sends (sent (K.written sink.old) self.old)
            (sent (K.written sink.new) self.new) piece.now) }
        ensures put { OnOk result (at_once ≡ true → self.new.bytes ≡ []) }
        ensures part { OnErr result (SendsFront (sent (K.written sink.old) self.old)
            (sent (K.written sink.new) self.new) piece.now) }
        ensures room { self.new.room ≡ self.old.room }
        ensures sound { OnOk result (K.write_faults sink.new ≡ K.write_faults sink.old) }
        ensures fault { OnErr result (Rises (K.write_faults sink.old) (K.write_faults sink.new)) }
        ensures other { IsAsBefore (K.left sink.old) (K.left sink.new)
            (K.read_faults sink.old) (K.read_faults sink.new) }
        ensures unfinished { K.finished sink.new ≡ false }
    {
        if let Err(_) = self.send(sink, piece) {
            return Err(Failed);
        }
        if at_once {
            return self.flush(sink);
        }
        Ok(())
    }
}

/// Puts the bytes behind those that wait, for which there is room.
fn append(waiting: &mut Vec<u8>, piece: &[u8])
    requires { vec_len waiting.old + length piece.now ≤ vec_capacity waiting.old }
    ensures items { waiting.new.items ≡ waiting.old.items ++ piece.now }
    ensures room { vec_capacity waiting.old ≤ vec_capacity waiting.new }
{
    if waiting.extend_from_slice(piece).is_err() {
        unreachable!();
    }
}

/// Drops the first `count` bytes, and moves the others to the front.
fn slide(waiting: &mut Vec<u8>, count: usize)
    requires { count ≤ vec_len waiting.old }
    ensures items { waiting.new.items ≡ drop count waiting.old.items }
    ensures room { vec_capacity waiting.new ≡ vec_capacity waiting.old }
{
    let left = waiting.len() - count;
    waiting.copy_within(count.., 0);
    waiting.truncate(left);
}

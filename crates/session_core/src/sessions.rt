// One session: bytes go in, calls come out, and replies go to the sink.
ghost use Rattle.std.specs.Prelude.{◌≡◌, ℕ, false, List, ◌+◌, ◌^◌, ◌<◌, ◌≤◌, [], ◌∷◌, IfOk, IfErr, OnOk, OnErr, length, take, min};
ghost use Rattle.call_form.specs.declared.Outcome.{Outcome};
ghost use Rattle.session_core.specs.Run.{stopped};
ghost use Rattle.session_core.specs.Seen.{Seen, Moves, fresh, run_from};
ghost use Rattle.session_core.specs.Steps.{room_in, holding, IsIdle, IsPaused, Turns, RunsOn, ended_in};
ghost use Rattle.session_core.specs.Steps.{IsWaiting, IsRaw, texts_in, asked_in, left_after, replied_phase, echoed_in};
ghost use Rattle.link_port.specs.Flow.{AppendsFront};
ghost use Rattle.session_core.specs.Outcomes.{HasSoundParameters};
ghost use Rattle.session_core.specs.Sent.{sent, Sends};
ghost use Rattle.session_core.specs.Writes.{BreaksOff};
ghost use Rattle.link_port.specs.Faults.{Rises};
ghost use Rattle.link_port.specs.Flow.{IsAsBefore};
ghost use Rattle.std.specs.Io.KnownBytes.{Appends};
ghost use Rattle.std.specs.List.{AllByRecursion};

use crate::messages::{Message, end_of, read_message, stop_of};
use crate::outboxes::Outbox;
use crate::phases::Phase;
use crate::replies::Replies;
use crate::stops::Stop;
use crate::writing::write_replies;
use call_form::{Call, Raw};
use link_port::{Memory, Sink, put_all};
use message_frame::Frames;
use std::alloc::Global;
use std::marker::Model;

/// The number of bytes that a session takes at most: 2^40.
pub const MOST_BYTES: u64 = 1_099_511_627_776;

/// What `Session::next` gives.
#[derive(Drop)]
pub enum Turn {
    /// The next call. Its replies go to `Session::give`.
    Call(Call),
    /// No whole message is held.
    NeedMore,
    /// An upgrade was accepted: the bytes held go to `Session::pump`.
    Raw(Raw),
    /// The session has stopped.
    Stop(Stop),
}

/// The calls of one connection.
#[derive(Drop)]
pub struct Session {
    frames: Frames,
    phase: Phase,
    /// The index of the next message.
    index: u64,
    /// The number of bytes taken.
    taken: u64,
}

impl Model for Session {
    ghost use Rattle.session_core.specs.Seen.{Seen};
    ghost use Rattle.session_core.specs.Kept.{IsCounted};

    ghost Value = { Seen };

    ghost view = { λ s. record {
      limit = s.frames.limit;
      phase = s.phase;
      index = s.index;
      taken = s.taken;
      held = s.frames.bytes;
    } };

    ghost invariant = { λ s. IsCounted s.index s.taken s.frames };
}

impl Session {
    /// A session for calls of at most `limit` bytes. It reserves the room for one call and its NUL.
    pub fn new(alloc: Global, limit: u64) -> Result<Session, Memory>
        requires least { 1 ≤ limit }
        requires most { limit ≤ 2 ^ 30 }
        ensures { IfOk result (λ session. session ≡ fresh limit) }
    {
        let frames = Frames::new(alloc, limit)?;
        Ok(Session {
            frames,
            phase: Phase::Calls,
            index: 0,
            taken: 0,
        })
    }

    /// Takes as many bytes of the piece as there is room for, and tells how many. It never takes
    /// more than 2^40 bytes in all, and none after a stop.
    pub fn feed(&mut self, piece: &[u8]) -> usize
        ensures took { result ≡ min (length piece.now) (room_in self.old.phase self.old) }
        ensures state { self.new ≡ holding self.old (take result piece.now) }
        ensures run { Moves self.old self.new (take result piece.now) [] [] [] }
    {
        if let Phase::Stopped(_) = self.phase {
            return 0;
        }
        let most = (MOST_BYTES - self.taken).min(piece.len() as u64) as usize;
        let taken = self.frames.feed(&piece[..most]);
        self.taken += taken as u64;
        taken
    }

    /// The number of bytes taken.
    pub fn taken(&self) -> u64
        ensures { result ≡ self.now.taken }
    {
        self.taken
    }

    /// The index of the next message.
    pub fn index(&self) -> u64
        ensures { result ≡ self.now.index }
    {
        self.index
    }

    /// Gives the next call, or tells why there is none.
    pub fn next(&mut self, alloc: Global) -> Turn
        requires { IsIdle self.old.phase }
        ensures turn { Turns self.old result self.new }
        ensures run { RunsOn self.old result self.new }
    {
        match self.phase {
            Phase::Stopped(stop) => Turn::Stop(stop),
            Phase::Raw(raw) => self.next_raw(raw),
            _ => self.next_message(alloc),
        }
    }

    /// Says that the input has ended.
    pub fn end(&mut self) -> Stop
        requires { IsPaused self.old.phase self.old }
        ensures stop { result ≡ ended_in self.old.phase self.old }
        ensures state { self.new ≡ record self.old { phase = Phase.Stopped result } }
        ensures run { (outcomes : List Outcome) → run_from self.old [] outcomes ≡ stopped result }
    {
        let stop = self.ending();
        self.phase = Phase::Stopped(stop);
        stop
    }

    /// Writes the replies of the call that `next` gave last, each before the next one is made. For
    /// a `oneway` call it asks for none and writes nothing.
    ///
    /// It refuses with `WriteFault` and `Memory` alone, and the session has then stopped.
    pub fn give<K: Sink, P: Replies>(
        &mut self,
        alloc: Global,
        replies: &mut P,
        sink: &mut K,
    ) -> Result<(), Stop>
        requires waits { IsWaiting self.old.phase }
        requires writable { AllByRecursion HasSoundParameters (P.left replies.old).replies }
        requires unfinished { K.finished sink.old ≡ false }

        ensures state { OnOk result
            (self.new ≡ record self.old { phase = replied_phase (P.left replies.old).raw }) }
        ensures run { OnOk result (Moves self.old self.new [] (P.left replies.old ∷ []) []
            (texts_in self.old.phase (P.left replies.old))) }
        ensures wrote { OnOk result (Appends (K.written sink.old) (K.written sink.new)
            (texts_in self.old.phase (P.left replies.old))) }
        ensures sound { OnOk result (K.write_faults sink.new ≡ K.write_faults sink.old) }
        ensures left { OnOk result
            (P.left replies.new ≡ left_after self.old.phase (P.left replies.old)) }
        ensures raw { (P.left replies.new).raw ≡ (P.left replies.old).raw }

        ensures asked { OnErr result (self.old.phase ≡ Phase.Waiting false) }
        ensures stopped { IfErr result (λ stop.
            self.new ≡ record self.old { phase = Phase.Stopped stop }) }
        ensures part { IfErr result (λ stop.
            BreaksOff (Appends (K.written sink.old) (K.written sink.new)) stop
            (asked_in self.old.phase (P.left replies.old).replies) (P.left replies.new).replies
            (K.write_faults sink.old) (K.write_faults sink.new)) }
        ensures other { IsAsBefore (K.left sink.old) (K.left sink.new)
            (K.read_faults sink.old) (K.read_faults sink.new) }
        ensures unfinished { K.finished sink.new ≡ false }
    {
        self.give_behind(alloc, replies, &mut Outbox::none(alloc), sink)
    }

    /// Sends the replies of that call behind what waits in the outbox.
    pub(crate) fn give_behind<K: Sink, P: Replies>(
        &mut self,
        alloc: Global,
        replies: &mut P,
        outbox: &mut Outbox,
        sink: &mut K,
    ) -> Result<(), Stop>
        requires waits { IsWaiting self.old.phase }
        requires writable { AllByRecursion HasSoundParameters (P.left replies.old).replies }
        requires unfinished { K.finished sink.old ≡ false }

        ensures state { OnOk result
            (self.new ≡ record self.old { phase = replied_phase (P.left replies.old).raw }) }
        ensures run { OnOk result (Moves self.old self.new [] (P.left replies.old ∷ []) []
            (texts_in self.old.phase (P.left replies.old))) }
        ensures wrote { OnOk result (Sends (sent (K.written sink.old) outbox.old)
            (sent (K.written sink.new) outbox.new)
            (texts_in self.old.phase (P.left replies.old))) }
        ensures sound { OnOk result (K.write_faults sink.new ≡ K.write_faults sink.old) }
        ensures left { OnOk result
            (P.left replies.new ≡ left_after self.old.phase (P.left replies.old)) }
        ensures raw { (P.left replies.new).raw ≡ (P.left replies.old).raw }

        ensures asked { OnErr result (self.old.phase ≡ Phase.Waiting false) }
        ensures stopped { IfErr result (λ stop.
            self.new ≡ record self.old { phase = Phase.Stopped stop }) }
        ensures part { IfErr result (λ stop.
            BreaksOff (Sends (sent (K.written sink.old) outbox.old)
            (sent (K.written sink.new) outbox.new)) stop
            (asked_in self.old.phase (P.left replies.old).replies) (P.left replies.new).replies
            (K.write_faults sink.old) (K.write_faults sink.new)) }
        ensures other { IsAsBefore (K.left sink.old) (K.left sink.new)
            (K.read_faults sink.old) (K.read_faults sink.new) }
        ensures room { outbox.new.room ≡ outbox.old.room }
        ensures unfinished { K.finished sink.new ≡ false }
    {
        if let Phase::Waiting { oneway: false } = self.phase {
            if let Err(stop) = write_replies(alloc, replies, outbox, sink) {
                self.phase = Phase::Stopped(stop);
                return Err(stop);
            }
        }
        self.phase = phase_after(replies.raw());
        Ok(())
    }

    /// After an accepted upgrade, writes back the bytes held, or drops them. It takes no memory.
    ///
    /// It refuses with `WriteFault` alone, and the session has then stopped.
    pub fn pump<K: Sink>(&mut self, sink: &mut K) -> Result<(), Stop>
        requires raw { IsRaw self.old.phase }
        requires unfinished { K.finished sink.old ≡ false }

        ensures state { OnOk result (self.new ≡ record self.old { held = [] }) }
        ensures run { OnOk result
            (Moves self.old self.new [] [] [] (echoed_in self.old.phase self.old.held)) }
        ensures wrote { OnOk result (Appends (K.written sink.old) (K.written sink.new)
            (echoed_in self.old.phase self.old.held)) }
        ensures sound { OnOk result (K.write_faults sink.new ≡ K.write_faults sink.old) }

        ensures stopped { IfErr result (λ stop.
            (stop ≡ Stop.WriteFault)
            × (self.new ≡ record self.old { phase = Phase.Stopped stop })) }
        ensures part { OnErr result (AppendsFront (K.written sink.old) (K.written sink.new)
            (echoed_in self.old.phase self.old.held)) }
        ensures fault { OnErr result (Rises (K.write_faults sink.old) (K.write_faults sink.new)) }
        ensures other { IsAsBefore (K.left sink.old) (K.left sink.new)
            (K.read_faults sink.old) (K.read_faults sink.new) }
        ensures unfinished { K.finished sink.new ≡ false }
    {
        if let Phase::Raw(Raw::Echo) = self.phase {
            if let Err(_) = put_all(sink, self.frames.rest()) {
                self.phase = Phase::Stopped(Stop::WriteFault);
                return Err(Stop::WriteFault);
            }
        }
        self.frames.clear();
        Ok(())
    }

    /// The stop at the end of the input.
    fn ending(&self) -> Stop
        requires { IsPaused self.now.phase self.now }
        ensures { result ≡ ended_in self.now.phase self.now }
    {
        match self.phase {
            Phase::Stopped(stop) => stop,
            Phase::Raw(_) if self.taken == MOST_BYTES => Stop::Long,
            Phase::Raw(_) => Stop::Upgraded,
            _ => end_of(self.frames.rest()),
        }
    }

    /// The turn after an accepted upgrade.
    fn next_raw(&mut self, raw: Raw) -> Turn
        requires { self.old.phase ≡ Phase.Raw raw }
        ensures { Turns self.old result self.new }
    {
        if self.taken == MOST_BYTES && self.frames.rest().is_empty() {
            self.phase = Phase::Stopped(Stop::Long);
            return Turn::Stop(Stop::Long);
        }
        Turn::Raw(raw)
    }

    /// The turn where calls are read.
    fn next_message(&mut self, alloc: Global) -> Turn
        requires { self.old.phase ≡ Phase.Calls }
        ensures { Turns self.old result self.new }
    {
        let stop = match read_message(alloc, &mut self.frames) {
            Message::Call(call) => {
                self.phase = Phase::Waiting {
                    oneway: call.oneway,
                };
                self.index += 1;
                return Turn::Call(call);
            }
            Message::Fault(fault) => stop_of(self.index, fault),
            Message::TooLong => Stop::TooLong { index: self.index },
            Message::NeedMore if self.taken < MOST_BYTES => return Turn::NeedMore,
            Message::NeedMore => Stop::Long,
        };
        self.phase = Phase::Stopped(stop);
        Turn::Stop(stop)
    }
}

/// The phase after the replies to a call.
fn phase_after(raw: Option<Raw>) -> Phase
    ensures { result ≡ replied_phase raw }
{
    match raw {
        None => Phase::Calls,
        Some(raw) => Phase::Raw(raw),
    }
}

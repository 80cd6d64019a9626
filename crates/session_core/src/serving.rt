// What was taken is handled.
ghost use Rattle.std.specs.Prelude.{◌≡◌, ℕ, false, ◌+◌, ◌-◌, ◌<◌, ◌≤◌, ◌⊎◌, [], IfOk, IfNone, IfSome, OnOk, OnErr, MatchOption, length};
ghost use Rattle.link_port.specs.Flow.{IsAsBefore};
ghost use Rattle.call_form.specs.CallOf.{IsObject};
ghost use Rattle.session_core.specs.Heard.{refuses_by};
ghost use Rattle.session_core.specs.Limits.{most_bytes};
ghost use Rattle.session_core.specs.Seen.{Moves};
ghost use Rattle.session_core.specs.Sent.{sent, Sends};
ghost use Rattle.session_core.specs.Served.{WriteFaults};
ghost use Rattle.session_core.specs.Steps.{IsRaw};
ghost use Rattle.session_core.specs.Went.{IsRunning, IsReady, Went, Halts, Passed, PassedUntil, Answered, BrokeOff, Turned, IsHalt, IsBreak, EmptyUnlessFault};

use crate::hearers::Hearer;
use crate::outboxes::Outbox;
use crate::phases::Phase;
use crate::sessions::{Session, Turn};
use crate::stops::Stop;
use call_form::Call;
use link_port::{Failed, Sink};
use std::alloc::Global;

/// Passes on the raw bytes held, and stops where as many were taken as a session takes.
fn pass_raw<K: Sink>(
    alloc: Global,
    session: &mut Session,
    outbox: &mut Outbox,
    sink: &mut K,
) -> Option<Stop>
    requires raw { IsRaw session.old.phase }
    requires unfinished { K.finished sink.old ≡ false }
    ensures passed { IfNone result (Passed session.old session.new
        (sent (K.written sink.old) outbox.old)
        (sent (K.written sink.new) outbox.new)) }
    ensures ready { IfNone result (IsReady session.new) }
    ensures stopped { IfSome result (PassedUntil session.old
        (sent (K.written sink.old) outbox.old)
        (sent (K.written sink.new) outbox.new)) }
    ensures why { IfSome result IsHalt }
    ensures faults { MatchOption result (K.write_faults sink.new ≡ K.write_faults sink.old)
        (λ stop. WriteFaults stop (K.write_faults sink.old) (K.write_faults sink.new)) }
    ensures other { IsAsBefore (K.left sink.old) (K.left sink.new)
        (K.read_faults sink.old) (K.read_faults sink.new) }
    ensures unfinished { K.finished sink.new ≡ false }
{
    if let Err(_) = outbox.flush(sink) {
        return Some(Stop::WriteFault);
    }
    if let Err(stop) = session.pump(sink) {
        return Some(stop);
    }
    if let Turn::Stop(stop) = session.next(alloc) {
        return Some(stop);
    }
    None
}

/// Has the call that waits heard, and sends its replies.
fn answer_one<K: Sink, H: Hearer>(
    alloc: Global,
    session: &mut Session,
    index: u64,
    call: Call,
    outbox: &mut Outbox,
    sink: &mut K,
    hearer: &mut H,
) -> Option<Stop>
    requires waits { session.old.phase ≡ Phase.Waiting call.oneway }
    requires object { IsObject call.parameters }
    requires unfinished { K.finished sink.old ≡ false }
    ensures answered { IfNone result
        (Answered H.tells session.old session.new call hearer.old hearer.new
        (sent (K.written sink.old) outbox.old)
        (sent (K.written sink.new) outbox.new)) }
    ensures broke { IfSome result (λ stop.
        BrokeOff H.tells call hearer.old hearer.new
        (sent (K.written sink.old) outbox.old)
        (sent (K.written sink.new) outbox.new) stop
        ⊎ Turned (refuses_by H.misses H.stop_of) call hearer.old hearer.new
        (sent (K.written sink.old) outbox.old)
        (sent (K.written sink.new) outbox.new) stop) }
    ensures why { IfSome result IsBreak }
    ensures same { H.same hearer.old hearer.new }
    ensures faults { MatchOption result (K.write_faults sink.new ≡ K.write_faults sink.old)
        (λ stop. WriteFaults stop (K.write_faults sink.old) (K.write_faults sink.new)) }
    ensures other { IsAsBefore (K.left sink.old) (K.left sink.new)
        (K.read_faults sink.old) (K.read_faults sink.new) }
    ensures unfinished { K.finished sink.new ≡ false }
{
    let mut replies = match hearer.hear(alloc, index, &call) {
        Ok(replies) => replies,
        Err(refusal) => return Some(H::stop(refusal)),
    };
    if let Err(stop) = session.give_behind(alloc, &mut replies, outbox, sink) {
        return Some(stop);
    }
    None
}

/// Handles all that is held, and tells whether the session stopped.
fn drain<K: Sink, H: Hearer>(
    alloc: Global,
    session: &mut Session,
    outbox: &mut Outbox,
    sink: &mut K,
    hearer: &mut H,
) -> Option<Stop>
    requires running { IsRunning session.old.phase }
    requires unfinished { K.finished sink.old ≡ false }
    ensures went { IfNone result
        (Went H.tells session.old session.new [] hearer.old hearer.new
        (sent (K.written sink.old) outbox.old)
        (sent (K.written sink.new) outbox.new)) }
    ensures ready { IfNone result (IsReady session.new) }
    ensures halts { IfSome result
        (Halts H.tells (refuses_by H.misses H.stop_of) session.old [] hearer.old hearer.new
        (sent (K.written sink.old) outbox.old)
        (sent (K.written sink.new) outbox.new)) }
    ensures why { IfSome result IsHalt }
    ensures same { H.same hearer.old hearer.new }
    ensures faults { MatchOption result (K.write_faults sink.new ≡ K.write_faults sink.old)
        (λ stop. WriteFaults stop (K.write_faults sink.old) (K.write_faults sink.new)) }
    ensures other { IsAsBefore (K.left sink.old) (K.left sink.new)
        (K.read_faults sink.old) (K.read_faults sink.new) }
    ensures unfinished { K.finished sink.new ≡ false }
{
    'calls: loop {
        let index = session.index();
        match session.next(alloc) {
            Turn::NeedMore => return None,
            Turn::Stop(stop) => return Some(stop),
            Turn::Raw(_) => return pass_raw(alloc, session, outbox, sink),
            Turn::Call(call) => {
                if let Some(stop) = answer_one(alloc, session, index, call, outbox, sink, hearer) {
                    return Some(stop);
                }
            }
        }
    }
}

/// Takes a piece in, as there is room, and handles all that it makes whole.
fn serve_piece<K: Sink, H: Hearer>(
    alloc: Global,
    session: &mut Session,
    piece: &[u8],
    outbox: &mut Outbox,
    sink: &mut K,
    hearer: &mut H,
) -> Option<Stop>
    requires ready { IsReady session.old }
    requires room { session.old.taken + length piece.now ≤ most_bytes }
    requires unfinished { K.finished sink.old ≡ false }
    ensures went { IfNone result
        (Went H.tells session.old session.new piece.now hearer.old hearer.new
        (sent (K.written sink.old) outbox.old)
        (sent (K.written sink.new) outbox.new)) }
    ensures ready { IfNone result (IsReady session.new) }
    ensures halts { IfSome result
        (Halts H.tells (refuses_by H.misses H.stop_of) session.old piece.now hearer.old hearer.new
        (sent (K.written sink.old) outbox.old)
        (sent (K.written sink.new) outbox.new)) }
    ensures why { IfSome result IsHalt }
    ensures same { H.same hearer.old hearer.new }
    ensures faults { MatchOption result (K.write_faults sink.new ≡ K.write_faults sink.old)
        (λ stop. WriteFaults stop (K.write_faults sink.old) (K.write_faults sink.new)) }
    ensures other { IsAsBefore (K.left sink.old) (K.left sink.new)
        (K.read_faults sink.old) (K.read_faults sink.new) }
    ensures unfinished { K.finished sink.new ≡ false }
{
    let mut done = 0;
    'parts: while done < piece.len() {
        done += session.feed(&piece[done..]);
        if let Some(stop) = drain(alloc, session, outbox, sink, hearer) {
            return Some(stop);
        }
    }
    None
}

/// Puts all that waits where the session stopped, unless the sink failed before.
fn put_at_stop<K: Sink>(stop: Stop, outbox: &mut Outbox, sink: &mut K) -> Stop
    requires { K.finished sink.old ≡ false }
    ensures sends { Sends (sent (K.written sink.old) outbox.old)
        (sent (K.written sink.new) outbox.new) [] }
    ensures put { EmptyUnlessFault result outbox.new.bytes }
    ensures stop { (result ≡ stop) ⊎ (result ≡ Stop.WriteFault) }
    ensures faults { (before : ℕ) → WriteFaults stop before (K.write_faults sink.old)
        → WriteFaults result before (K.write_faults sink.new) }
    ensures other { IsAsBefore (K.left sink.old) (K.left sink.new)
        (K.read_faults sink.old) (K.read_faults sink.new) }
    ensures unfinished { K.finished sink.new ≡ false }
{
    if let Stop::WriteFault = stop {
        return Stop::WriteFault;
    }
    match outbox.flush(sink) {
        Ok(()) => stop,
        Err(Failed) => Stop::WriteFault,
    }
}

/// Serves a piece, and puts all that waits, unless the sink failed.
pub fn serve_take<K: Sink, H: Hearer>(
    alloc: Global,
    session: &mut Session,
    piece: &[u8],
    outbox: &mut Outbox,
    sink: &mut K,
    hearer: &mut H,
) -> Option<Stop>
    requires ready { IsReady session.old }
    requires room { session.old.taken + length piece.now ≤ most_bytes }
    requires unfinished { K.finished sink.old ≡ false }
    ensures went { IfNone result
        (Went H.tells session.old session.new piece.now hearer.old hearer.new
        (sent (K.written sink.old) outbox.old)
        (sent (K.written sink.new) outbox.new)) }
    ensures ready { IfNone result (IsReady session.new) }
    ensures put { IfNone result (outbox.new.bytes ≡ []) }
    ensures halts { IfSome result
        (Halts H.tells (refuses_by H.misses H.stop_of) session.old piece.now hearer.old hearer.new
        (sent (K.written sink.old) outbox.old)
        (sent (K.written sink.new) outbox.new)) }
    ensures why { IfSome result IsHalt }
    ensures put_stopped { IfSome result (λ stop. EmptyUnlessFault stop outbox.new.bytes) }
    ensures same { H.same hearer.old hearer.new }
    ensures faults { MatchOption result (K.write_faults sink.new ≡ K.write_faults sink.old)
        (λ stop. WriteFaults stop (K.write_faults sink.old) (K.write_faults sink.new)) }
    ensures other { IsAsBefore (K.left sink.old) (K.left sink.new)
        (K.read_faults sink.old) (K.read_faults sink.new) }
    ensures unfinished { K.finished sink.new ≡ false }
{
    match serve_piece(alloc, session, piece, outbox, sink, hearer) {
        Some(stop) => Some(put_at_stop(stop, outbox, sink)),
        None => match outbox.flush(sink) {
            Ok(()) => None,
            Err(Failed) => Some(Stop::WriteFault),
        },
    }
}

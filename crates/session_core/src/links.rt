// One link is served to its stop.
ghost use Rattle.std.specs.Prelude.{◌≡◌, false, ◌<◌, ◌≤◌, [], IfOk, OnOk, OnErr, length, vec_len};
ghost use Rattle.link_port.specs.Faults.{Rises};
ghost use Rattle.link_port.specs.Flow.{IsAsBefore, TakesFront, EndsWhereNothingIsLeft};
ghost use Rattle.session_core.specs.Heard.{Heard, refuses_by};
ghost use Rattle.session_core.specs.Seen.{fresh};
ghost use Rattle.session_core.specs.Served.{Served, ReadFaults, WriteFaults};

use crate::hearers::Hearer;
use crate::outboxes::Outbox;
use crate::replies::Answerer;
use crate::sessions::{MOST_BYTES, Session};
use crate::stops::Stop;
use crate::ways::{Apart, Joined, Way};
use call_form::CALL_LIMIT;
use link_port::{Failed, Memory, Sink, Source};
use std::alloc::Global;

/// The greatest number of bytes that one take asks for.
const PIECE: usize = 65536;

/// What one link is served with: its session, room for what one take gives, and the replies that
/// wait to be put.
#[derive(Drop)]
struct Booth {
    session: Session,
    buffer: Vec<u8>,
    outbox: Outbox,
}

/// What a new link is served with.
fn new_booth(alloc: Global) -> Result<Booth, Memory>
    ensures session { IfOk result (λ booth. booth.session ≡ fresh CALL_LIMIT) }
    ensures room { IfOk result (λ booth. 0 < vec_len booth.buffer) }
    ensures empty { IfOk result (λ booth. booth.outbox.bytes ≡ []) }
{
    Ok(Booth {
        session: Session::new(alloc, CALL_LIMIT)?,
        buffer: vec![in alloc; 0u8; PIECE]?,
        outbox: Outbox::new(alloc)?,
    })
}

/// Takes what comes next, at most `most` bytes.
fn take_some<W: Way>(
    from: &mut W::From,
    to: &mut W::To,
    buffer: &mut [u8],
    most: u64,
) -> Result<usize, Failed>
    requires room { 0 < length buffer.old }
    requires more { 0 < most }
    ensures bound { IfOk result (λ n. (n ≤ length buffer.new) × (n ≤ most)) }
    ensures bytes { TakesFront (W.left from.old to.old) (W.left from.new to.new) result buffer.new }
    ensures end { EndsWhereNothingIsLeft (W.left from.old to.old) result }
    ensures sound { OnOk result (W.read_faults from.new to.new ≡ W.read_faults from.old to.old) }
    ensures fault { OnErr result (Rises (W.read_faults from.old to.old) (W.read_faults from.new to.new)) }
    ensures other { IsAsBefore (W.written from.old to.old) (W.written from.new to.new)
        (W.write_faults from.old to.old) (W.write_faults from.new to.new) }
    ensures still { W.finished from.new to.new ≡ W.finished from.old to.old }
    ensures aside { W.aside from.new to.new ≡ W.aside from.old to.old }
{
    let offered = (buffer.len() as u64).min(most) as usize;
    W::take(from, to, &mut buffer[..offered])
}

/// Serves a new link to its stop, whichever objects it is made of.
fn serve_ends<W: Way, H: Hearer>(
    alloc: Global,
    session: &mut Session,
    buffer: &mut [u8],
    outbox: &mut Outbox,
    from: &mut W::From,
    to: &mut W::To,
    hearer: &mut H,
) -> Stop
    requires new { session.old ≡ fresh CALL_LIMIT }
    requires room { 0 < length buffer.old }
    requires empty { outbox.old.bytes ≡ [] }
    requires unfinished { W.finished from.old to.old ≡ false }
    ensures heard { Heard H.tells (refuses_by H.misses H.stop_of) CALL_LIMIT hearer.old hearer.new
        (W.left from.old to.old) (W.left from.new to.new)
        (W.written from.old to.old) (W.written from.new to.new) result }
    ensures reads { ReadFaults result (W.read_faults from.old to.old) (W.read_faults from.new to.new) }
    ensures writes { WriteFaults result (W.write_faults from.old to.old) (W.write_faults from.new to.new) }
    ensures same { H.same hearer.old hearer.new }
    ensures unfinished { W.finished from.new to.new ≡ false }
    ensures aside { W.aside from.new to.new ≡ W.aside from.old to.old }
{
    'takes: loop {
        match take_some::<W>(from, to, buffer, MOST_BYTES - session.taken()) {
            Err(Failed) => return Stop::ReadFault,
            Ok(0) => return session.end(),
            Ok(count) => {
                if let Some(stop) = W::serve(
                    alloc,
                    session,
                    &buffer[..count],
                    outbox,
                    from,
                    to,
                    hearer,
                ) {
                    return stop;
                }
            }
        }
    }
}

/// Serves one link to its stop: the calls that come from it are heard one after another, and their
/// replies are put to it before more bytes are taken.
pub fn serve_link<C: Source + Sink, H: Hearer>(alloc: Global, link: &mut C, hearer: &mut H) -> Stop
    requires { C.finished link.old ≡ false }
    ensures heard { Heard H.tells (refuses_by H.misses H.stop_of) CALL_LIMIT hearer.old hearer.new
        (C.left link.old) (C.left link.new) (C.written link.old) (C.written link.new) result }
    ensures reads { ReadFaults result (C.read_faults link.old) (C.read_faults link.new) }
    ensures writes { WriteFaults result (C.write_faults link.old) (C.write_faults link.new) }
    ensures same { H.same hearer.old hearer.new }
    ensures unfinished { C.finished link.new ≡ false }
{
    let Ok(mut booth) = new_booth(alloc) else {
        return Stop::Memory;
    };
    serve_ends::<Joined<C>, H>(
        alloc,
        &mut booth.session,
        &mut booth.buffer,
        &mut booth.outbox,
        link,
        &mut (),
        hearer,
    )
}

/// Serves one session to its stop: the calls that come from the source are answered one after
/// another, and their replies go to the sink before more bytes are taken.
///
/// It never gives `Full` or `Worn`.
pub fn serve_alone<S: Source, K: Sink, A: Answerer>(
    alloc: Global,
    source: &mut S,
    sink: &mut K,
    answerer: &mut A,
) -> Stop
    requires { K.finished sink.old ≡ false }
    ensures served { Served A.tells CALL_LIMIT answerer.old answerer.new
        (S.left source.old) (S.left source.new) (K.written sink.old) (K.written sink.new) result }
    ensures reads { ReadFaults result (S.read_faults source.old) (S.read_faults source.new) }
    ensures writes { WriteFaults result (K.write_faults sink.old) (K.write_faults sink.new) }
    ensures source_other { IsAsBefore (S.written source.old) (S.written source.new)
        (S.write_faults source.old) (S.write_faults source.new) }
    ensures sink_other { IsAsBefore (K.left sink.old) (K.left sink.new)
        (K.read_faults sink.old) (K.read_faults sink.new) }
    ensures unfinished { K.finished sink.new ≡ false }
    ensures still { S.finished source.new ≡ S.finished source.old }
{
    let Ok(mut booth) = new_booth(alloc) else {
        return Stop::Memory;
    };
    serve_ends::<Apart<S, K>, A>(
        alloc,
        &mut booth.session,
        &mut booth.buffer,
        &mut booth.outbox,
        source,
        sink,
        answerer,
    )
}

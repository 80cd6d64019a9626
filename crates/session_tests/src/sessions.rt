// Sessions step by step, links served to their stop, and how replies go out.
ghost use Rattle.std.specs.Prelude.{◌≡◌, false, IfOk};
ghost use Rattle.std.specs.List.{AllByRecursion};
ghost use Rattle.call_form.specs.CallOf.{IsObject};
ghost use Rattle.session_core.specs.Outcomes.{HasSoundParameters};
ghost use Rattle.session_core.specs.Steps.{IsIdle};

use call_form::{Call, Outcome, Raw, Reply};
use link_port::{Ends, Failed, List, MemSink, MemSource, Memory, Sink, Source, Value};
use serde_json::json;
use session_core::{Answerer, Given, Hearer, Session, Stop, Turn, serve_alone, serve_link};
use std::alloc::Global;
use std::test::Fail;

/// Accepts each upgrade, and answers every call with an empty reply.
#[derive(Drop)]
struct Upgrading;

impl Answerer for Upgrading {
    type Out = Given;

    ghost tells = { λ _ _ _ _. Unit {0} };

    fn answer(&mut self, alloc: Global, call: &Call) -> Result<Given, Memory> {
        let raw = call.upgrade && !call.oneway && !call.more;
        let mut replies = List::new(alloc);
        replies.push(Reply {
            parameters: Value::of(json!(in alloc; {})?),
            continues: false,
            error: None,
        })?;
        Ok(Given::new(Outcome {
            replies,
            raw: if raw { Some(Raw::Echo) } else { None },
        }))
    }
}

/// Why `Limited` refuses a call.
#[derive(Drop)]
enum Refusal {
    /// The message of this index is one too many.
    Full(u64),
    Memory,
}

/// Answers so many messages, and refuses the next one.
#[derive(Drop)]
struct Limited {
    most: u64,
}

impl Hearer for Limited {
    ghost use Rattle.session_tests.specs.declared.sessions.Refusal.TheVariants.{Full, Memory};
    ghost use Rattle.session_core.specs.declared.stops.Stop.TheVariants as stop;

    type Out = Given;

    type Refusal = Refusal;

    ghost tells = { λ _ _ _ _. Unit {0} };

    ghost misses = { λ _ _ _ _. Unit {0} };

    ghost stop_of = { elim [ Full index ↦ stop.Full index | Memory ↦ stop.Memory ] };

    ghost same = { λ _ _. Unit {0} };

    ghost same_self = { λ _. tt };

    ghost same_on = { λ _ _ _ _ _. tt };

    fn hear(&mut self, alloc: Global, index: u64, call: &Call) -> Result<Given, Refusal> {
        if index >= self.most {
            return Err(Refusal::Full(index));
        }
        match Upgrading.answer(alloc, call) {
            Ok(replies) => Ok(replies),
            Err(_) => Err(Refusal::Memory),
        }
    }

    fn stop(refusal: Refusal) -> Stop {
        match refusal {
            Refusal::Full(index) => Stop::Full { bytes: index },
            Refusal::Memory => Stop::Memory,
        }
    }
}

/// A link whose client sends the next piece only once something was put for each piece before. It
/// counts the pieces and the puts.
#[derive(Drop)]
struct Client<'a> {
    calls: &'a [u8],
    piece: usize,
    pieces: u64,
    puts: u64,
    finished: bool,
}

impl Ends for Client<'_> {
    ghost finished = { λ client. client.finished };
}

impl Source for Client<'_> {
    fn take(&mut self, into: &mut [u8]) -> Result<usize, Failed> {
        if self.puts < self.pieces {
            return Ok(0);
        }
        let count = self.piece.min(self.calls.len()).min(into.len());
        let (piece, later) = self.calls.split_at(count);
        into[..count].copy_from_slice(piece);
        self.calls = later;
        self.pieces = self.pieces.saturating_add(1);
        Ok(count)
    }
}

impl Sink for Client<'_> {
    fn put(&mut self, piece: &[u8]) -> Result<usize, Failed> {
        self.puts = self.puts.saturating_add(1);
        Ok(piece.len())
    }

    fn finish(&mut self) -> Result<(), Failed> {
        self.finished = true;
        Ok(())
    }
}

/// Serves calls, so many bytes a piece, and gives the stop with the numbers of pieces and puts.
fn served(alloc: Global, calls: &[u8], piece: usize, most: u64) -> (Stop, u64, u64) {
    let mut client = Client {
        calls,
        piece,
        pieces: 0,
        puts: 0,
        finished: false,
    };
    let stop = serve_link(alloc, &mut client, &mut Limited { most });
    (stop, client.pieces, client.puts)
}

#[test]
fn replies_are_put_before_the_next_take_and_a_hundred_at_once(rt: HostRuntime) -> Result<(), Fail> {
    let call = "{\"method\":\"a.b.C\"}\0";
    let calls = call.repeat(rt.alloc(), 100)?;
    let rows = [
        (call.len(), 100, Stop::End, 101, 100),
        (calls.len(), 100, Stop::End, 2, 1),
        (call.len(), 2, Stop::Full { bytes: 2 }, 3, 2),
    ];
    for (piece, most, stop, pieces, puts) in rows {
        assert_eq!(rt;
            served(rt.alloc(), calls.as_bytes(), piece, most),
            (stop, pieces, puts)
        );
    }
    Ok(())
}

/// Serves this input in takes and puts of this size, and gives the stop and whether this was
/// written.
fn alone(alloc: Global, input: &str, output: &str, size: u64) -> Result<(Stop, bool), Memory> {
    let bytes = List::from_vec(Vec::from_slice(alloc, input.as_bytes())?);
    let mut source = MemSource::new(alloc, bytes, sizes(alloc, size)?, List::new(alloc))?;
    let mut sink = MemSink::new(alloc, 64, sizes(alloc, size)?, List::new(alloc))?;
    let stop = serve_alone(alloc, &mut source, &mut sink, &mut Upgrading);
    Ok((stop, sink.bytes() == output.as_bytes()))
}

fn sizes(alloc: Global, size: u64) -> Result<List<u64>, Memory> {
    Ok(List::from_vec(vec![in alloc; size; 100]?))
}

#[test]
fn raw_bytes_follow_an_upgrade(rt: HostRuntime) -> Result<(), Fail> {
    let rows = [
        (
            "{\"method\":\"a.b.Echo\",\"upgrade\":true}\0abc",
            "{\"parameters\":{}}\0abc",
            Stop::Upgraded,
        ),
        (
            "{\"method\":\"a.b.Echo\",\"upgrade\":true,\"oneway\":true}\0{\"method\":\"a.b.Add\"}\0",
            "{\"parameters\":{}}\0",
            Stop::End,
        ),
    ];
    for (input, output, stop) in rows {
        for size in [1, 4096] {
            assert_eq!(rt; alone(rt.alloc(), input, output, size)?, (stop, true));
        }
    }
    Ok(())
}

/// The replies to a call.
fn replies_to(alloc: Global, call: Call) -> Result<Given, Memory>
    requires { IsObject call.parameters }
    ensures { IfOk result (λ given. AllByRecursion HasSoundParameters given.replies) }
{
    Upgrading.answer(alloc, &call)
}

/// Answers the call held, and passes the raw bytes on that follow it.
fn stepped(alloc: Global, session: &mut Session, sink: &mut MemSink) -> Option<Stop>
    requires idle { IsIdle session.old.phase }
    requires unfinished { sink.old.finished ≡ false }
{
    let replies = match session.next(alloc) {
        Turn::Call(call) => replies_to(alloc, call),
        turn => {
            drop(turn);
            return None;
        }
    };
    let Ok(mut replies) = replies else {
        return None;
    };
    let given = session.give(alloc, &mut replies, sink);
    drop(replies);
    if given.is_err() {
        return None;
    }
    match session.next(alloc) {
        Turn::Raw(_) => {}
        turn => {
            drop(turn);
            return None;
        }
    }
    if session.pump(sink).is_err() {
        return None;
    }
    Some(session.end())
}

/// Whether one call with an upgrade, and a byte behind it, go through a session step by step.
fn goes_through(alloc: Global, session: &mut Session, sink: &mut MemSink) -> bool
    requires idle { IsIdle session.old.phase }
    requires unfinished { sink.old.finished ≡ false }
{
    let taken = session.feed(b"{\"method\":\"a.b.C\",\"upgrade\":true}\0x");
    let stop = stepped(alloc, session, sink);
    (taken, session.taken(), session.index()) == (35, 35, 1)
        && stop == Some(Stop::Upgraded)
        && sink.bytes() == b"{\"parameters\":{}}\0x".as_slice()
}

#[test]
fn a_session_goes_step_by_step(rt: HostRuntime) -> Result<(), Fail> {
    let alloc = rt.alloc();
    let mut sink = MemSink::new(alloc, 64, List::new(alloc), List::new(alloc))?;
    let gone = match Session::new(alloc, 64) {
        Ok(mut session) => {
            let right = goes_through(alloc, &mut session, &mut sink);
            drop(session);
            right
        }
        Err(Memory) => false,
    };
    assert!(rt; gone);
    Ok(())
}

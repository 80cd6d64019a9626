// What was taken from a link and not yet read as replies.
ghost use Rattle.std.specs.Prelude.{◌≡◌, ◌<◌, ◌≤◌, ◌+◌, [], false, None, IfNone, IfOk, IfSome, MatchOption, length};
ghost use Rattle.link_port.specs.Flow.{IsAsBefore, TakesFront, EndsWhereNothingIsLeft};
ghost use Rattle.link_reach.specs.Deeds.{CountsFault, Gains, done, taken};
ghost use Rattle.link_reach.specs.Links.{AsBefore, OthersAsBefore};
ghost use Rattle.link_reach.specs.Worlds.{left_of};
ghost use Rattle.link_reach.specs.declared.deeds.LinkState.TheVariants.{Open};
ghost use Rattle.link_exchange.specs.Asked.{asked};
ghost use Rattle.link_exchange.specs.Limits.{most_of_reply, most_of_link};
ghost use Rattle.link_exchange.specs.Passing.{PassesOn, PassEnds, PutsLines, TakesMore, TakesNoMore, LinkFaults, WriteFaults, link_end};
ghost use Rattle.link_exchange.specs.Stands.{stand};

use crate::asked::Asking;
use crate::ends::AskEnd;
use crate::gathering::gather;
use crate::screens::Screen;
use caller_form::REPLY_LIMIT;
use json::Scratch;
use link_port::{Memory, Sink, put_all};
use link_reach::{DialFault, LinkNo, Reach};
use message_frame::Frames;
use std::alloc::Global;
use std::marker::Model;

/// The greatest number of bytes that one take asks for.
pub const TAKE: usize = 65536;

/// The greatest number of bytes that are taken from one link: 2^40.
pub const MOST_OF_LINK: u64 = 1_099_511_627_776;

/// What was taken from a link and not yet read as replies, and how many bytes were taken from the
/// link. It has room for one reply and one take more, so that each take finds room.
#[derive(Drop)]
pub struct Inbox {
    frames: Frames,
    buffer: Vec<u8>,
    /// What replies are read with.
    scratch: Scratch,
    /// What is passed on at once.
    lines: Vec<u8>,
    taken: u64,
}

impl Model for Inbox {
    ghost use Rattle.std.specs.Prelude.{vec_len};
    ghost use Rattle.link_exchange.specs.Stands.{Unread};
    ghost use Rattle.link_exchange.specs.Passing.{IsKept};

    ghost Value = { Unread };

    ghost view = { λ inbox. record { held = inbox.frames.bytes; taken = inbox.taken } };

    ghost invariant = { λ inbox. IsKept inbox.frames (vec_len inbox.buffer) inbox.taken };
}

impl Inbox {
    /// The inbox of a link from which nothing was taken yet.
    pub fn new(alloc: Global) -> Result<Inbox, Memory>
        ensures { IfOk result (λ inbox. inbox ≡ record { held = []; taken = 0 }) }
    {
        let frames = Frames::new(alloc, REPLY_LIMIT + TAKE as u64)?;
        Ok(Inbox {
            frames,
            buffer: vec![in alloc; 0u8; TAKE]?,
            scratch: Scratch::new(alloc),
            lines: Vec::new(alloc),
            taken: 0,
        })
    }

    /// Lends what is held.
    pub fn held(&self) -> &[u8]
        ensures { result.now ≡ self.now.held }
    {
        self.frames.rest()
    }

    /// How many bytes were taken from the link.
    pub fn taken(&self) -> u64
        ensures value { result ≡ self.now.taken }
        ensures counted { length self.now.held ≤ result }
        ensures most { result ≤ most_of_link }
    {
        self.taken
    }

    /// Passes on all replies held, in one piece, and tells whether the call ended with them.
    pub(crate) fn pass_on<S: Screen, K: Sink>(
        &mut self,
        alloc: Global,
        asking: Asking,
        screen: &S,
        index: &mut u64,
        sink: &mut K,
    ) -> Option<AskEnd>
        requires unfinished { K.finished sink.old ≡ false }
        requires index { index.old + length self.old.held ≤ most_of_link }
        ensures passed { IfNone result (PassesOn (asked asking (S.unread screen.now)) index.old index.new self.old self.new
            (K.written sink.old) (K.written sink.new)) }
        ensures ended { IfSome result (PassEnds (asked asking (S.unread screen.now)) index.old self.old self.new
            (K.written sink.old) (K.written sink.new)) }
        ensures faults { MatchOption result (K.write_faults sink.new ≡ K.write_faults sink.old)
            (λ end. WriteFaults end (K.write_faults sink.old) (K.write_faults sink.new)) }
        ensures other { IsAsBefore (K.left sink.old) (K.left sink.new)
            (K.read_faults sink.old) (K.read_faults sink.new) }
        ensures unfinished { K.finished sink.new ≡ false }
    {
        self.lines.clear();
        let end = gather(
            alloc,
            asking,
            screen,
            index,
            &mut self.frames,
            &mut self.scratch,
            &mut self.lines,
        );
        put_lines(end, self.lines.as_slice(), sink)
    }

    /// Takes what comes next from the link, and tells why nothing more comes.
    pub(crate) fn take_more<R: Reach>(
        &mut self,
        alloc: Global,
        reach: &mut R,
        link: LinkNo,
        index: u64,
    ) -> Option<AskEnd>
        requires open { R.state reach.old link.0 ≡ Open }
        requires short { length self.old.held ≤ most_of_reply }
        ensures took { IfNone result (TakesMore link.0
            (stand (R.log reach.old) (left_of (R.leads reach.old link.0)) None self.old)
            (stand (R.log reach.new) (left_of (R.leads reach.new link.0)) None self.new)) }
        ensures ended { IfSome result (TakesNoMore link.0 index
            (stand (R.log reach.old) (left_of (R.leads reach.old link.0)) None self.old)
            (stand (R.log reach.new) (left_of (R.leads reach.new link.0)) None self.new)) }
        ensures faults { MatchOption result (R.faults reach.new ≡ R.faults reach.old)
            (λ end. LinkFaults end (R.faults reach.old) (R.faults reach.new)) }
        ensures world { R.world reach.new ≡ R.world reach.old }
        ensures links { OthersAsBefore link.0 (R.leads reach.old) (R.leads reach.new) }
        ensures opened { R.opened reach.new ≡ R.opened reach.old }
        ensures states { AsBefore (R.state reach.old) (R.state reach.new) }
        ensures freed { R.freed reach.new ≡ R.freed reach.old }
    {
        if self.taken == MOST_OF_LINK {
            return Some(AskEnd::Long);
        }
        match take_some(
            alloc,
            reach,
            link,
            &mut self.buffer,
            MOST_OF_LINK - self.taken,
        ) {
            Ok(0) => Some(AskEnd::Ended { index }),
            Ok(count) => {
                let fed = self.frames.feed(&self.buffer[..count]);
                self.taken += fed as u64;
                None
            }
            Err(fault) => Some(end_of_fault(fault)),
        }
    }
}

/// How a call ends where the reach did not do its work.
pub fn end_of_fault(fault: DialFault) -> AskEnd
    ensures { result ≡ link_end fault }
{
    match fault {
        DialFault::Failed => AskEnd::LinkFault,
        DialFault::Memory => AskEnd::Memory,
    }
}

/// Takes what comes next from a link, at most `most` bytes.
fn take_some<R: Reach>(
    alloc: Global,
    reach: &mut R,
    link: LinkNo,
    buffer: &mut [u8],
    most: u64,
) -> Result<usize, DialFault>
    requires open { R.state reach.old link.0 ≡ Open }
    requires room { 0 < length buffer.old }
    requires more { 0 < most }
    ensures bound { IfOk result (λ n. (n ≤ length buffer.new) × (n ≤ most)) }
    ensures length { length buffer.new ≡ length buffer.old }
    ensures log { Gains (R.log reach.old) (R.log reach.new) (done (taken link.0 buffer.new) result) }
    ensures fault { CountsFault (R.faults reach.old) (R.faults reach.new) result }
    ensures bytes { TakesFront (left_of (R.leads reach.old link.0)) (left_of (R.leads reach.new link.0)) result buffer.new }
    ensures end { EndsWhereNothingIsLeft (left_of (R.leads reach.old link.0)) result }
    ensures world { R.world reach.new ≡ R.world reach.old }
    ensures links { OthersAsBefore link.0 (R.leads reach.old) (R.leads reach.new) }
    ensures opened { R.opened reach.new ≡ R.opened reach.old }
    ensures states { AsBefore (R.state reach.old) (R.state reach.new) }
    ensures freed { R.freed reach.new ≡ R.freed reach.old }
{
    let offered = (buffer.len() as u64).min(most) as usize;
    reach.take(alloc, link, &mut buffer[..offered])
}

/// Puts the lines gathered. The call ends as it was found to end, unless the sink fails.
fn put_lines<K: Sink>(end: Option<AskEnd>, lines: &[u8], sink: &mut K) -> Option<AskEnd>
    requires unfinished { K.finished sink.old ≡ false }
    ensures put { PutsLines end lines.now (K.written sink.old) (K.written sink.new)
        (K.write_faults sink.old) (K.write_faults sink.new) result }
    ensures other { IsAsBefore (K.left sink.old) (K.left sink.new)
        (K.read_faults sink.old) (K.read_faults sink.new) }
    ensures unfinished { K.finished sink.new ≡ false }
{
    if lines.is_empty() {
        return end;
    }
    if let Err(_) = put_all(sink, lines) {
        drop(end);
        return Some(AskEnd::WriteFault);
    }
    match sink.flush() {
        Ok(()) => end,
        Err(_) => {
            drop(end);
            Some(AskEnd::WriteFault)
        }
    }
}
